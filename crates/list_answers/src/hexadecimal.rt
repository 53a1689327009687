ghost use Rattle.std.specs.Prelude.{◌≡◌, ◌+◌, ◌≤◌, ◌++◌, [], Ok, IfOk, IsErr, MatchOption, is_ok, unwrap_or};
ghost use Rattle.std.specs.Prelude.{vec_len, vec_capacity};
ghost use Rattle.std.specs.Char.{is_ascii_hexdigit};
ghost use Rattle.std.specs.List.{list_all};
ghost use Rattle.hex.specs.Hex.{decode_of, hex_digit_value};

use crate::digit_lanes::sixteen;
use std::alloc::{AllocError, Global};
use std::marker::Model;

/// The value of each octet as a hexadecimal digit, in either case, or 256 if it isn't one.
const VALUES: [u16; 256] = [
    256, 256, 256, 256, 256, 256, 256, 256, 256, 256, 256, 256, 256, 256, 256, 256, 256, 256, 256,
    256, 256, 256, 256, 256, 256, 256, 256, 256, 256, 256, 256, 256, 256, 256, 256, 256, 256, 256,
    256, 256, 256, 256, 256, 256, 256, 256, 256, 256, 0, 1, 2, 3, 4, 5, 6, 7, 8, 9, 256, 256, 256,
    256, 256, 256, 256, 10, 11, 12, 13, 14, 15, 256, 256, 256, 256, 256, 256, 256, 256, 256, 256,
    256, 256, 256, 256, 256, 256, 256, 256, 256, 256, 256, 256, 256, 256, 256, 256, 10, 11, 12, 13,
    14, 15, 256, 256, 256, 256, 256, 256, 256, 256, 256, 256, 256, 256, 256, 256, 256, 256, 256,
    256, 256, 256, 256, 256, 256, 256, 256, 256, 256, 256, 256, 256, 256, 256, 256, 256, 256, 256,
    256, 256, 256, 256, 256, 256, 256, 256, 256, 256, 256, 256, 256, 256, 256, 256, 256, 256, 256,
    256, 256, 256, 256, 256, 256, 256, 256, 256, 256, 256, 256, 256, 256, 256, 256, 256, 256, 256,
    256, 256, 256, 256, 256, 256, 256, 256, 256, 256, 256, 256, 256, 256, 256, 256, 256, 256, 256,
    256, 256, 256, 256, 256, 256, 256, 256, 256, 256, 256, 256, 256, 256, 256, 256, 256, 256, 256,
    256, 256, 256, 256, 256, 256, 256, 256, 256, 256, 256, 256, 256, 256, 256, 256, 256, 256, 256,
    256, 256, 256, 256, 256, 256, 256, 256, 256, 256, 256, 256, 256, 256, 256, 256, 256, 256, 256,
    256, 256, 256,
];

/// Pairs of hexadecimal digits, in either case.
///
/// Contracts see the octets that they state.
#[derive(Debug, Drop)]
pub struct Digits<'a> {
    text: &'a [u8],
}

impl<'a> Model for Digits<'a> {
    ghost use Rattle.std.specs.Prelude.{ℕ, List, [], IsOk};
    ghost use Rattle.std.specs.Result.{result_unwrap_or};
    ghost use Rattle.hex.specs.Hex.{decode_of};

    ghost Value = { List ℕ };

    ghost view = { λ d. result_unwrap_or (decode_of d.text.now) [] };

    ghost invariant = { λ d. IsOk (decode_of d.text.now) };
}

// Whether each octet of a text is a digit.
fn are_digits(text: &[u8]) -> bool
    ensures { result ≡ list_all is_ascii_hexdigit text.now }
{
    text.iter().all(|octet| octet.is_ascii_hexdigit())
}

/// Whether a text is pairs of digits. It takes no memory.
#[tactic(auto, using(crate::proofs::Pairs::pairs_decode))]
pub fn are_pairs(text: &[u8]) -> bool
    ensures { result ≡ is_ok (decode_of text.now) }
{
    text.len() % 2 == 0 && are_digits(text)
}

// The value of a digit, or 256 if it isn't one.
#[tactic(auto, using(crate::proofs::Decoding::value_there))]
fn value_of(digit: u8) -> u32
    ensures { result ≡ unwrap_or (hex_digit_value digit) 256 }
{
    u32::from(VALUES[usize::from(digit)])
}

// Appends sixteen octets, for which there is room, so that nothing in the loop of `decode` asks for memory.
#[inline(always)]
fn push_sixteen(octets: &mut Vec<u8>, more: [u8; 16])
    requires { vec_len octets.old + 16 ≤ vec_capacity octets.old }
    ensures items { octets.new.items ≡ octets.old.items ++ more }
    ensures len { vec_len octets.new ≡ vec_len octets.old + 16 }
    ensures capacity { vec_capacity octets.new ≡ vec_capacity octets.old }
{
    for octet in more {
        octets.push_reserved(octet);
    }
}

/// The octets that pairs of digits state, or `None` if a text isn't pairs of digits. Each digit is tested as it is
/// read: thirty-two at once, and those behind the last thirty-two, or from some that aren't digits on, two at once.
///
/// Errors: memory is refused.
#[tactic(auto, using(crate::proofs::Decoding::nothing_yet, crate::proofs::Decoding::odd))]
pub fn decode(alloc: Global, text: &[u8]) -> Result<Option<Vec<u8>>, AllocError>
    ensures { IfOk result (λ o. MatchOption o (IsErr (decode_of text.now)) (λ v. decode_of text.now ≡ Ok v.items)) }
{
    if text.len() % 2 != 0 {
        return Ok(None);
    }
    let count = text.len() / 2;
    let mut octets = Vec::with_capacity(alloc, count)?;
    let mut done = 0;
    while 16 <= count - done {
        let Some(more) = sixteen(text, 2 * done) else {
            break;
        };
        push_sixteen(&mut octets, more);
        done += 16;
    }
    for i in done..count {
        let octet = value_of(text[2 * i]) * 16 + value_of(text[2 * i + 1]);
        if 255 < octet {
            return Ok(None);
        }
        octets.push_reserved(octet as u8);
    }
    Ok(Some(octets))
}

impl<'a> Digits<'a> {
    /// No digits.
    #[tactic(auto, using(crate::proofs::Pairs::none_decode))]
    pub fn none() -> Digits<'static>
        ensures { result ≡ [] }
    {
        Digits { text: b"" }
    }

    /// The digits that a text has, or `None` if it isn't pairs of digits. It takes no memory.
    pub fn read(text: &'a [u8]) -> Option<Digits<'a>>
        ensures { MatchOption result (IsErr (decode_of text.now)) (λ d. decode_of text.now ≡ Ok d) }
    {
        if are_pairs(text) {
            Some(Digits { text })
        } else {
            None
        }
    }

    /// The octets that the digits state.
    ///
    /// Errors: memory is refused.
    pub fn octets(&self, alloc: Global) -> Result<Vec<u8>, AllocError>
        ensures { IfOk result (λ octets. octets.items ≡ self.now) }
    {
        hex::decode(alloc, self.text).map_err(|_| AllocError)
    }
}
