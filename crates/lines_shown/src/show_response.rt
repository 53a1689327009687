ghost use Rattle.std.specs.Prelude.{◌≡◌, ◌++◌, ◌*◌, Err, IfErr, IfOk, IfSome, OnOk, codes, length};
ghost use Rattle.std.specs.Option.{option_copied};
ghost use Rattle.std.specs.String.{string_bytes};
ghost use Rattle.der_core.specs.Grammar.{file};
ghost use Rattle.der_grammar.specs.Table.{response};
ghost use Rattle.der_core.specs.ReadFaults.{IsReadFault};
ghost use Rattle.der_core.specs.Values.{HasLength};
ghost use Rattle.lines_shown.specs.Lines.{line};
ghost use Rattle.tsp_types.specs.ResponseValue.{ResponseValue, EncodesResponse};
ghost use Rattle.lines_shown.specs.ResponseLines.{status_name, status_text, is_printable, shown_octet, shown_text};
ghost use Rattle.lines_shown.specs.ResponseLines.{text_lines, optional_texts_lines, fail_name, fail_line, set_line};
ghost use Rattle.lines_shown.specs.ResponseLines.{fail_lines, optional_fail_lines, token_text, response_lines};
ghost use Rattle.lines_shown.specs.ResponseLines.{ShowsResponse};

use crate::lines::{push_line, push_octets};
use der_core::{Bits, ReadFault};
use std::alloc::{AllocError, Global};
use tsp_types::{Response, Texts};

/// The name of the status with these octets (RFC 3161 2.4.2), if it has one.
fn status_name(number: &[u8]) -> Option<&'static str>
    ensures { option_copied result ≡ status_name number.now }
{
    match number {
        [0] => Some("granted"),
        [1] => Some("grantedWithMods"),
        [2] => Some("rejection"),
        [3] => Some("waiting"),
        [4] => Some("revocationWarning"),
        [5] => Some("revocationNotification"),
        _ => None,
    }
}

/// Adds the line of the status: its name, or its octets in hexadecimal if it has none.
fn push_status(alloc: Global, text: &mut String, number: &[u8]) -> Result<(), AllocError>
    ensures { OnOk result (string_bytes text.new ≡ string_bytes text.old ++ line (codes "status")
        (status_text number.now)) }
{
    match status_name(number) {
        Some(name) => push_line(text, "status", name),
        None => push_octets(alloc, text, "status", number),
    }
}

/// Whether an octet is shown as it is: a character of ASCII from the space to the tilde, except the backslash.
fn is_printable(octet: u8) -> bool
    ensures { result ≡ is_printable octet }
{
    0x20 <= octet && octet <= 0x7e && octet != 0x5c
}

/// Adds an octet of a text: as it is, or as a backslash, an x and two hexadecimal digits.
fn push_octet(alloc: Global, text: &mut String, octet: u8) -> Result<(), AllocError>
    ensures { OnOk result (string_bytes text.new ≡ string_bytes text.old ++ shown_octet octet) }
{
    if is_printable(octet) {
        text.push(octet as char)
    } else {
        let digits = hex::encode(alloc, &[octet])?;
        write!(text, "\\x{digits}")
    }
}

/// What is shown of a text with these octets: a dash if there are none; each as it is, if it is a character of ASCII
/// from the space to the tilde, except the backslash, or as a backslash, an x and two hexadecimal digits.
///
/// Errors: memory is refused.
#[tactic(auto, using(crate::proofs::Bits::text_of_octets))]
pub fn shown_text(alloc: Global, octets: &[u8]) -> Result<String, AllocError>
    ensures { IfOk result (λ text. string_bytes text ≡ shown_text octets.now) }
{
    if octets.is_empty() {
        return String::from_str(alloc, "-");
    }
    let mut text = String::new(alloc);
    for octet in octets {
        push_octet(alloc, &mut text, *octet)?;
    }
    Ok(text)
}

/// Adds a line for each text.
fn push_texts(alloc: Global, text: &mut String, texts: &Texts) -> Result<(), AllocError>
    ensures { OnOk result (string_bytes text.new ≡ string_bytes text.old ++ text_lines texts.now) }
{
    let mut left = texts.again();
    while let Some((first, others)) = left.next() {
        let value = shown_text(alloc, first.bytes())?;
        push_line(text, "text", value.as_str())?;
        left = others;
    }
    Ok(())
}

/// The name of a bit that says why a request was refused (RFC 3161 2.4.2), if it has one.
fn fail_name(bit: usize) -> Option<&'static str>
    ensures { option_copied result ≡ fail_name bit }
{
    match bit {
        0 => Some("badAlg"),
        2 => Some("badRequest"),
        5 => Some("badDataFormat"),
        14 => Some("timeNotAvailable"),
        15 => Some("unacceptedPolicy"),
        16 => Some("unacceptedExtension"),
        17 => Some("addInfoNotAvailable"),
        25 => Some("systemFailure"),
        _ => None,
    }
}

/// Adds the line of a bit.
fn push_fail(text: &mut String, bit: usize) -> Result<(), AllocError>
    ensures { OnOk result (string_bytes text.new ≡ string_bytes text.old ++ fail_line bit) }
{
    match fail_name(bit) {
        Some(name) => push_line(text, "fail", name),
        None => write!(text, "fail bit {bit}\n"),
    }
}

/// Adds the line of a bit, if it is set.
fn push_set(text: &mut String, bits: &Bits, bit: usize) -> Result<(), AllocError>
    ensures { OnOk result (string_bytes text.new ≡ string_bytes text.old ++ set_line bits.now bit) }
{
    if bits.has(bit) {
        push_fail(text, bit)
    } else {
        Ok(())
    }
}

/// Adds the lines of the bits that are set, in ascending order.
fn push_fails(text: &mut String, bits: &Bits) -> Result<(), AllocError>
    requires { HasLength bits.now }
    ensures { OnOk result (string_bytes text.new ≡ string_bytes text.old
        ++ fail_lines bits.now 0 (8 * length bits.now)) }
{
    let total = 8 * bits.bytes().len();
    let mut bit = 0;
    while bit < total {
        push_set(text, bits, bit)?;
        bit += 1;
    }
    Ok(())
}

/// Adds the lines of the texts and of the bits that are set, if there are any.
fn push_reasons(alloc: Global, text: &mut String, response: &Response) -> Result<(), AllocError>
    requires { IfSome response.now.status.fail HasLength }
    ensures { OnOk result (string_bytes text.new ≡ string_bytes text.old
        ++ optional_texts_lines response.now.status.texts
        ++ optional_fail_lines response.now.status.fail) }
{
    if let Some(texts) = response.texts() {
        push_texts(alloc, text, texts)?;
    }
    if let Some(bits) = response.fail() {
        push_fails(text, bits)?;
    }
    Ok(())
}

/// Whether there is a token: `present` or `absent`.
fn token_text(token: Option<&[u8]>) -> &'static str
    ensures { result.now ≡ token_text (option_copied token.entry) }
{
    match token {
        Some(_) => "present",
        None => "absent",
    }
}

/// The lines that show a response, each ended by LF.
fn lines(alloc: Global, response: &Response) -> Result<String, AllocError>
    requires { IfSome response.now.status.fail HasLength }
    ensures { IfOk result (λ text. string_bytes text ≡ response_lines response.now) }
{
    let mut text = String::from_str(alloc, "response\n")?;
    push_status(alloc, &mut text, response.status().bytes())?;
    push_reasons(alloc, &mut text, response)?;
    push_line(&mut text, "token", token_text(response.token()))?;
    Ok(text)
}

/// The lines that show the response that all of these octets encode. The contents of the token are not read.
///
/// Errors: `Malformed`, with a fault that the octets have, if they don't encode one; `OutOfMemory` if memory is
/// refused.
pub fn text_of(alloc: Global, octets: &[u8]) -> Result<String, ReadFault>
    // Returns the lines of the response that the octets encode.
    ensures shown { IfOk result (λ text. ShowsResponse octets.now (string_bytes text)) }
    // A fault that is named is one that the octets have.
    ensures refused { IfErr result (IsReadFault (file response) octets.now) }
    // `OutOfMemory` is returned only if the octets encode a response.
    ensures memory { result ≡ Err ReadFault.OutOfMemory → (v : ResponseValue) × EncodesResponse octets.now v }
{
    let response = Response::read(octets)?;
    match lines(alloc, &response) {
        Ok(text) => Ok(text),
        Err(_) => Err(ReadFault::OutOfMemory),
    }
}
