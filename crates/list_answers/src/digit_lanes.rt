//! Thirty-two hexadecimal digits at once, in lanes of vectors.
ghost use Rattle.std.specs.Prelude.{◌≡◌, ℕ, ◌+◌, ◌*◌, ◌<◌, ◌≤◌, ◌++◌, length, slice_index, IfSome, IsTrue};
ghost use Rattle.list_answers.specs.DigitLanes.{AreValues, AreBelow16, octets_of, ArePairs};

use std::simd::prelude::*;

// The value of each octet as a digit, in either case, and 16 or more in place of one that isn't a digit.
#[inline(always)]
fn values_of(octets: u8x16) -> u8x16
    ensures values { AreValues octets result }
    ensures all { length result ≡ 16 }
{
    // Lanes wrap round at 256: '0' to '9' come to 246 to 255 and then to 0 to 9. All else comes to less than 246, so to
    // less than 240, and then to 16 or more.
    let to_nine = octets + u8x16::splat(198);
    let number = to_nine.saturating_sub(u8x16::splat(6)) + u8x16::splat(16);
    // 'a' to 'f' in either case come to 0 to 5 and then to 10 to 15, and all else, which comes to more, to 16 to 255.
    let from_a = (octets | u8x16::splat(0x20)) + u8x16::splat(159);
    let letter = from_a.simd_min(u8x16::splat(245)) + u8x16::splat(10);
    number.simd_min(letter)
}

// Whether all are values of digits: none of either vector is 16 or more.
#[inline(always)]
fn are_all(first: u8x16, second: u8x16) -> bool
    ensures { IsTrue result → AreBelow16 first × AreBelow16 second }
{
    let highest = first.simd_max(second);
    highest.simd_gt(u8x16::splat(15)).to_bitmask() == 0
}

// Each second octet is that of a pair of values.
#[inline(always)]
fn joined(values: u8x16) -> u8x16
    requires { AreBelow16 values }
    ensures pairs { (j : ℕ) → j < 8
        → slice_index result (2 * j + 1) ≡ slice_index values (2 * j) * 16 + slice_index values (2 * j + 1) }
    ensures all { length result ≡ 16 }
{
    // A lane is the first value of a pair and 256 times the second. 4,096 times the first is added.
    (u16x8::from_le_bytes(values) * u16x8::splat(4097)).to_le_bytes()
}

// The octets of sixteen pairs of values.
#[inline(always)]
fn octets_of(first: u8x16, second: u8x16) -> [u8; 16]
    requires { AreBelow16 first × AreBelow16 second }
    ensures { result ≡ octets_of (first ++ second) }
{
    let octets: u8x16 = joined(first).shuffle(
        joined(second),
        [1, 3, 5, 7, 9, 11, 13, 15, 17, 19, 21, 23, 25, 27, 29, 31],
    );
    octets.to_array()
}

/// The octets of the sixteen pairs of digits from a place on, or `None` if one of them isn't a digit.
#[inline(always)]
pub(crate) fn sixteen(text: &[u8], at: usize) -> Option<[u8; 16]>
    requires { at + 32 ≤ length text.now }
    ensures { IfSome result (ArePairs text.now at) }
{
    let first = values_of(u8x16::from_slice(&text[at..]));
    let second = values_of(u8x16::from_slice(&text[at + 16..]));
    if are_all(first, second) {
        Some(octets_of(first, second))
    } else {
        None
    }
}
