//! What is printed of a file, by what it holds.
ghost use Rattle.std.specs.Prelude.{◌≡◌, ◌++◌, ◌∷◌, [], MatchResult, OnOk, Result, codes};
ghost use Rattle.std.specs.String.{string_bytes};
ghost use Rattle.der_core.specs.FaultTexts.{read_fault_text};
ghost use Rattle.cms_types.specs.SignedDataValue.{SignedDataValue, SignedContent, encoding};
ghost use Rattle.cms_types.specs.CmsFaults.{cms_fault_text};
ghost use Rattle.cms_types.specs.declared.fault.CmsFault.{CmsFault};
ghost use Rattle.check_fit.specs.FileFitting.{IsReading};
ghost use Rattle.real_files.specs.PartLines.{sum_line};
ghost use Rattle.real_files.specs.ReadLines.{read_part};

use crate::fitting::{self, Content};
use crate::lines::push_sum;
use crate::parts::push_parts;
use cms_types::{CmsFault, SignedData};
use der_core::ReadFault;
use devices::FromWrite;
use lines_shown::{show_certificate, show_request, show_response, show_signed, show_tst};
use std::alloc::{AllocError, Global};
use std::rt::Files;
use std::{fs, io};

/// Adds the lines of what is shown, or the line of the fault for which nothing is.
fn push_shown(text: &mut String, shown: Result<String, ReadFault>) -> Result<(), AllocError>
    ensures { OnOk result
        (MatchResult shown (λ lines. string_bytes text.new ≡ string_bytes text.old ++ string_bytes lines)
        (λ fault. string_bytes text.new ≡ string_bytes text.old ++ read_fault_text fault ++ (10 ∷ []))) }
{
    match shown {
        Ok(lines) => text.push_str(lines.as_str()),
        Err(ReadFault::OutOfMemory) => Err(AllocError),
        Err(fault) => write!(text, "{fault}\n"),
    }
}

/// The same of a SignedData.
fn push_shown_signed(text: &mut String, shown: Result<String, CmsFault>) -> Result<(), AllocError>
    ensures { OnOk result
        (MatchResult shown (λ lines. string_bytes text.new ≡ string_bytes text.old ++ string_bytes lines)
        (λ fault. string_bytes text.new ≡ string_bytes text.old ++ cms_fault_text fault ++ (10 ∷ []))) }
{
    match shown {
        Ok(lines) => text.push_str(lines.as_str()),
        Err(CmsFault::OutOfMemory) => Err(AllocError),
        Err(fault) => write!(text, "{fault}\n"),
    }
}

/// Adds the line of the octets that are written of a SignedData.
fn push_written(alloc: Global, text: &mut String, signed: &SignedData) -> Result<(), AllocError>
    ensures { OnOk result (string_bytes text.new ≡ string_bytes text.old ++ sum_line (codes "written")
        (encoding (SignedContent signed.now))) }
{
    let mut out = FromWrite::new(Vec::new(alloc));
    if signed.write(&mut out).is_err() {
        return Err(AllocError);
    }
    push_sum(alloc, text, "written", out.into_inner().as_slice())
}

/// Adds the lines of the parts of a SignedData and of what is written of it, or the line of the fault of octets that
/// are none.
fn push_read(alloc: Global, text: &mut String, octets: &[u8]) -> Result<(), AllocError>
    ensures { (reading : Result SignedDataValue CmsFault) × IsReading octets.now reading
        × OnOk result (string_bytes text.new ≡ string_bytes text.old ++ read_part reading) }
{
    match SignedData::read(octets) {
        Ok(signed) => {
            push_parts(alloc, text, &signed)?;
            push_written(alloc, text, &signed)
        }
        Err(fault) => write!(text, "read {fault}\n"),
    }
}

/// Adds the lines of the TSTInfo that is the content of a token, if it has one.
fn push_stamp(alloc: Global, text: &mut String, octets: &[u8]) -> Result<(), AllocError> {
    let Ok(token) = SignedData::read(octets) else {
        return Ok(());
    };
    match token.content() {
        Some(content) => push_shown(text, show_tst::text_of(alloc, content)),
        None => Ok(()),
    }
}

/// Adds what is printed of octets with a name that ends so.
fn push_told<R: Files + AllocGlobal>(
    rt: &R,
    text: &mut String,
    ending: &str,
    octets: &[u8],
    content: &Content,
) -> io::Result<()> {
    let alloc = rt.alloc();
    match ending {
        "tsq" => Ok(push_shown(text, show_request::text_of(alloc, octets))?),
        "tsr" => Ok(push_shown(text, show_response::text_of(alloc, octets))?),
        "der" => Ok(push_shown(text, show_certificate::text_of(alloc, octets))?),
        _ => {
            push_shown_signed(text, show_signed::text_of(alloc, octets))?;
            push_read(alloc, text, octets)?;
            if ending == "tok" {
                push_stamp(alloc, text, octets)?;
            }
            fitting::push_answers(rt, text, octets, content)
        }
    }
}

/// What is printed of the file of this name, and an empty line. By the ending of its name it holds a request (`tsq`), a
/// response (`tsr`), a certificate (`der`), or a SignedData, which is a token (`tok`) or is not.
///
/// Errors: it or the content's file cannot be read, or memory was refused.
pub fn text_of<R: Files + AllocGlobal>(
    rt: &R,
    name: &str,
    content: &Content,
) -> io::Result<String> {
    let octets = fs::read(rt, name)?;
    let mut text = format!(in rt.alloc(); "file {name}\n")?;
    push_sum(rt.alloc(), &mut text, "octets", octets.as_slice())?;
    let ending = match name.rsplit_once('.') {
        Some((_, ending)) => ending,
        None => "",
    };
    push_told(rt, &mut text, ending, octets.as_slice(), content)?;
    text.push_str("\n")?;
    Ok(text)
}
