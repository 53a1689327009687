//! Names as they stand in lines of sums, and which of them name a file below a folder.
ghost use Rattle.std.specs.Prelude.{◌≡◌, ◌++◌, not, IfOk, OnOk};
ghost use Rattle.std.specs.List.{list_all, list_any};
ghost use Rattle.list_answers.specs.Texts.{parts};
ghost use Rattle.evidence_sums.specs.Names.{is_backslash, meant_by, is_letter, begins_pair, octets_meant, unescaped};
ghost use Rattle.evidence_sums.specs.Names.{may_stand, is_escaped, is_part, is_no_null, is_name};
ghost use Rattle.evidence_sums.specs.SumLines.{has_pair};

use crate::lines::cut;
use der_core::octets::is_same;
use std::alloc::{AllocError, Global};

/// What a backslash is.
fn is_backslash(octet: u8) -> bool
    ensures { result ≡ is_backslash octet }
{
    octet == b'\\'
}

// Whether a letter must follow this octet.
fn begins_pair(behind: bool, octet: u8) -> bool
    ensures { result ≡ begins_pair behind octet }
{
    !behind && is_backslash(octet)
}

fn is_letter(octet: u8) -> bool
    ensures { result ≡ is_letter octet }
{
    octet == b'\\' || octet == b'n' || octet == b'r'
}

fn may_stand(behind: bool, octet: u8) -> bool
    ensures { result ≡ may_stand behind octet }
{
    if behind {
        is_letter(octet)
    } else {
        !(octet == b'\n' || octet == b'\r')
    }
}

fn meant_by(letter: u8) -> u8
    ensures { result ≡ meant_by letter }
{
    match letter {
        b'n' => b'\n',
        b'r' => b'\r',
        _ => letter,
    }
}

/// Whether there is a backslash.
pub(crate) fn has_pair(octets: &[u8]) -> bool
    ensures { result ≡ has_pair octets.now }
{
    octets.iter().any(|octet| is_backslash(*octet))
}

/// Whether the octets are a name as it stands in a line.
pub(crate) fn is_escaped(octets: &[u8]) -> bool
    ensures { result ≡ is_escaped octets.now }
{
    let mut behind = false;
    let mut left = octets;
    while let Some((first, others)) = left.split_first() {
        if !may_stand(behind, *first) {
            return false;
        }
        behind = begins_pair(behind, *first);
        left = others;
    }
    !behind
}

// Adds what an octet adds to a name.
fn push_meant(name: &mut Vec<u8>, behind: bool, octet: u8) -> Result<(), AllocError>
    ensures { OnOk result (name.new.items ≡ name.old.items ++ octets_meant behind octet) }
{
    if behind {
        name.push(meant_by(octet))?;
    } else if !is_backslash(octet) {
        name.push(octet)?;
    }
    Ok(())
}

/// The name that stands so in a line.
///
/// Errors: memory is refused.
pub(crate) fn unescaped(alloc: Global, octets: &[u8]) -> Result<Vec<u8>, AllocError>
    ensures { IfOk result (λ name. name.items ≡ unescaped octets.now) }
{
    let mut name = Vec::with_capacity(alloc, octets.len())?;
    let mut behind = false;
    let mut left = octets;
    while let Some((first, others)) = left.split_first() {
        push_meant(&mut name, behind, *first)?;
        behind = begins_pair(behind, *first);
        left = others;
    }
    Ok(name)
}

fn is_part(part: &[u8]) -> bool
    ensures { result ≡ is_part part.now }
{
    !(is_same(part, b"") || is_same(part, b".") || is_same(part, b".."))
}

// Whether each part between slashes names something in a folder.
fn are_parts(name: &[u8]) -> bool
    ensures { result ≡ list_all is_part (parts 47 name.now) }
{
    let mut rest = Some(name);
    while let Some(octets) = rest {
        let (part, others) = cut(octets, b'/');
        if !is_part(part) {
            return false;
        }
        rest = others;
    }
    true
}

// Whether no octet is 0.
fn has_no_null(name: &[u8]) -> bool
    ensures { result ≡ list_all is_no_null name.now }
{
    name.iter().all(|octet| *octet != 0)
}

/// Whether this is a name of a file below a folder.
pub(crate) fn is_name(name: &[u8]) -> bool
    ensures { result ≡ is_name name.now }
{
    are_parts(name) && has_no_null(name)
}
