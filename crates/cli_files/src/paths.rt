//! The paths in a list of files.
ghost use Rattle.std.specs.Prelude.{◌≡◌, ◌∷◌, ◌<◌, IfOk, MatchOption, length, map};
ghost use Rattle.cli_files.specs.Paths.{AreUtf8, names_of, path_of_name};

use std::alloc::{AllocError, Global};
use std::str;

/// The octets before the first octet of this value, and those behind it.
#[tactic(auto, using(crate::proofs::Cuts::last_cut, crate::proofs::Cuts::cut_before))]
fn cut(text: &[u8], end: u8) -> (&[u8], &[u8])
    requires { 0 < length text.now }
    ensures cut { names_of end text.now ≡ result.0.now ∷ names_of end result.1.now }
    ensures less { length result.1.now < length text.now }
{
    match memchr::memchr(end, text) {
        None => (text, &text[text.len()..]),
        Some(at) => (&text[..at], &text[at + 1..]),
    }
}

/// The path of a name in a list: `-` is a file of that name there, and not the standard input.
fn path_of(name: &str) -> &str
    ensures { result.now ≡ path_of_name name.now }
{
    if name == "-" { "./-" } else { name }
}

/// The paths of a text in which each name ends in this octet, if they are UTF-8; the last may be without it.
pub fn paths_in(alloc: Global, text: &[u8], end: u8) -> Result<Option<Vec<&str>>, AllocError>
    // They are there exactly if each name is UTF-8.
    ensures { IfOk result (λ paths. MatchOption paths (¬ (AreUtf8 (names_of end text.now)))
        (λ ps. AreUtf8 (names_of end text.now)
        × (map (λ p. p.now) ps.items ≡ map path_of_name (names_of end text.now)))) }
{
    let mut paths = Vec::new(alloc);
    let mut left = text;
    while !left.is_empty() {
        let (name, others) = cut(left, end);
        let Ok(name) = str::from_utf8(name) else {
            return Ok(None);
        };
        paths.push(path_of(name))?;
        left = others;
    }
    Ok(Some(paths))
}
