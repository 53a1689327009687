//! Whether a file and a content belong together, the content being handed in in each way that there is.
ghost use Rattle.std.specs.Prelude.{◌≡◌, ◌++◌, false, Result, IfOk, OnOk, ℕ, length, bit_xor, slice_set};
ghost use Rattle.std.specs.Prelude.{slice_index, ◌<◌};
ghost use Rattle.std.specs.String.{string_bytes};
ghost use Rattle.cms_types.specs.SignedDataValue.{SignedDataValue};
ghost use Rattle.cms_types.specs.declared.fault.CmsFault.{CmsFault};
ghost use Rattle.check_fit.specs.declared.rules.Refused.{Refused};
ghost use Rattle.check_fit.specs.FileFitting.{facts_of, IsReading, FitsFile};
ghost use Rattle.check_fit.specs.Fitting.{with_sha1};
ghost use Rattle.real_files.specs.AnswerLines.{answer_line};

use check_fit::{Policy, fits};
use devices::{FromRead, Pieces, Slice, Source};
use std::alloc::{AllocError, Global};
use std::rt::Files;
use std::{fs, io};

/// The content of files that were signed without it.
#[derive(Drop)]
pub struct Content<'a> {
    path: &'a str,
    octets: &'a [u8],
}

impl<'a> Content<'a> {
    /// The content in the file of this path, which has these octets.
    pub fn new(path: &'a str, octets: &'a [u8]) -> Content<'a> {
        Content { path, octets }
    }
}

/// Adds the line of this name that says whether the file and the content fit.
///
/// Errors: `AllocError` if memory is refused; the contents of the text are then unspecified.
fn push_answer<S: Source>(
    text: &mut String,
    name: &str,
    file: &[u8],
    content: &mut Option<S>,
) -> Result<(), AllocError>
    ensures { (answer : Result ℕ Refused) × (reading : Result SignedDataValue CmsFault) × IsReading file.now reading
        × FitsFile (facts_of S.tells S.rest S.failures) (with_sha1 false) reading content.old content.new answer
        × OnOk result (string_bytes text.new ≡ string_bytes text.old ++ answer_line name.now answer) }
{
    // SHA-1 is refused.
    match fits(file, content, &Policy::with_sha1(false)) {
        Ok(count) => write!(text, "{name} fits {count}\n"),
        Err(refused) => write!(text, "{name} {refused}\n"),
    }
}

/// The same with octets as the content.
fn push_answer_beside(
    text: &mut String,
    name: &str,
    file: &[u8],
    content: &[u8],
) -> Result<(), AllocError> {
    push_answer(text, name, file, &mut Some(Slice::new(content)))
}

/// The octets, with the lowest bit of the one at this place changed.
fn changed_at(alloc: Global, octets: &[u8], place: usize) -> Result<Vec<u8>, AllocError>
    requires { place < length octets.now }
    ensures { IfOk result (λ changed. changed.items ≡ slice_set octets.now place
        (bit_xor (slice_index octets.now place) 1)) }
{
    let mut changed = Vec::from_slice(alloc, octets)?;
    changed[place] = octets[place] ^ 1;
    Ok(changed)
}

/// Adds the line of the content with another octet at this place.
fn push_changed(
    alloc: Global,
    text: &mut String,
    file: &[u8],
    content: &[u8],
    place: usize,
) -> Result<(), AllocError>
    requires { place < length content.now }
{
    let changed = changed_at(alloc, content, place)?;
    let name = format!(in alloc; "changed {place}")?;
    push_answer_beside(text, name.as_str(), file, changed.as_slice())
}

/// Adds the lines of contents that are not the one that was signed: without the last octet, and with another first one,
/// middle one and last one.
fn push_others(
    alloc: Global,
    text: &mut String,
    file: &[u8],
    content: &[u8],
) -> Result<(), AllocError> {
    let Some((_, cut)) = content.split_last() else {
        return Ok(());
    };
    push_answer_beside(text, "cut", file, cut)?;
    push_changed(alloc, text, file, content, 0)?;
    push_changed(alloc, text, file, content, content.len() / 2)?;
    push_changed(alloc, text, file, content, cut.len())
}

/// Adds the lines of whether the file fits: alone; with the content as a slice, in pieces of seven octets, and from its
/// file; and with other contents.
///
/// Errors: the content's file cannot be opened, or memory was refused; what the text then holds is not said.
pub fn push_answers<R: Files + AllocGlobal>(
    rt: &R,
    text: &mut String,
    file: &[u8],
    content: &Content,
) -> io::Result<()> {
    let mut nothing: Option<Slice> = None;
    push_answer(text, "alone", file, &mut nothing)?;
    push_answer_beside(text, "beside", file, content.octets)?;
    push_answer(
        text,
        "pieces",
        file,
        &mut Some(Pieces::new(content.octets, 7)),
    )?;
    let opened = fs::open(rt, content.path)?;
    push_answer(text, "opened", file, &mut Some(FromRead::new(opened)))?;
    push_others(rt.alloc(), text, file, content.octets)?;
    Ok(())
}
