//! How the name of a file is shown in a line.
ghost use Rattle.std.specs.Prelude.{◌≡◌, ◌++◌, IfOk, OnOk};
ghost use Rattle.cli_files.specs.Names.{heading_of, is_plain, line_of, shown, shown_octet};

use std::alloc::{AllocError, Global};

/// Whether an octet is shown as it is.
fn is_plain(colon: bool, octet: u8) -> bool
    ensures { result ≡ is_plain colon octet }
{
    0x20 <= octet && octet <= 0x7e && octet != 0x5c && !(colon && octet == 0x20)
}

/// Adds what is shown of an octet, behind a colon or behind another one.
fn push_octet(alloc: Global, line: &mut Vec<u8>, colon: bool, octet: u8) -> Result<(), AllocError>
    ensures { OnOk result (line.new.items ≡ line.old.items ++ shown_octet colon octet) }
{
    if is_plain(colon, octet) {
        line.push(octet)?;
        Ok(())
    } else {
        let digits = hex::encode(alloc, &[octet])?;
        line.extend_from_slice(b"\\x")?;
        line.extend_from_slice(digits.as_bytes())
    }
}

/// Adds what is shown of octets.
fn push_shown(alloc: Global, line: &mut Vec<u8>, octets: &[u8]) -> Result<(), AllocError>
    ensures { OnOk result (line.new.items ≡ line.old.items ++ shown octets.now) }
{
    let mut colon = false;
    let mut left = octets;
    while let Some((first, others)) = left.split_first() {
        push_octet(alloc, line, colon, *first)?;
        colon = *first == 0x3a;
        left = others;
    }
    Ok(())
}

/// This front, and how the name of a file is shown.
fn named(alloc: Global, front: &[u8], name: &str) -> Result<Vec<u8>, AllocError>
    ensures { IfOk result (λ line. line.items ≡ front.now ++ shown name.now) }
{
    let mut line = Vec::new(alloc);
    line.extend_from_slice(front)?;
    push_shown(alloc, &mut line, name.as_bytes())?;
    Ok(line)
}

/// This front, and the line of a file: its name, and what a command says of it, a text that ends in LF.
pub fn line_of(alloc: Global, front: &[u8], name: &str, text: &[u8]) -> Result<Vec<u8>, AllocError>
    ensures { IfOk result (λ line. line.items ≡ front.now ++ line_of name.now text.now) }
{
    let mut line = named(alloc, front, name)?;
    line.extend_from_slice(b": ")?;
    push_shown(alloc, &mut line, &text[..text.len().saturating_sub(1)])?;
    line.push(0x0a)?;
    Ok(line)
}

/// The comment before the questions of a file: its name.
pub fn heading_of(alloc: Global, name: &str) -> Result<Vec<u8>, AllocError>
    ensures { IfOk result (λ line. line.items ≡ heading_of name.now) }
{
    let mut line = named(alloc, b"# ", name)?;
    line.extend_from_slice(b"\n")?;
    Ok(line)
}
