ghost use Rattle.std.specs.Prelude.{◌≡◌, ◌+◌, ◌^◌, ◌<◌, ◌≤◌, length, Ok, IfOk, IfSome, IsErr, MatchOption};
ghost use Rattle.der_core.specs.Reading.{Gives, number_from, begins_short, further_at, length_at};

use crate::fault::{Fault, Kind};

// The number that these octets encode, the most significant first.
fn number(octets: &[u8]) -> u64
    requires { length octets.now ≤ 4 }
    ensures value { result ≡ number_from 0 octets.now }
{
    match octets {
        [a, b, c, d] => {
            let high = 256 * u64::from(*a) + u64::from(*b);
            256 * (256 * high + u64::from(*c)) + u64::from(*d)
        }
        [a, b, c] => 256 * (256 * u64::from(*a) + u64::from(*b)) + u64::from(*c),
        [a, b] => 256 * u64::from(*a) + u64::from(*b),
        [a] => u64::from(*a),
        _ => 0,
    }
}

// Whether the first of `count` further length octets shows that a shorter form would do.
fn begins_short(count: usize, octets: &[u8]) -> bool
    ensures { result ≡ begins_short count octets.now }
{
    match octets {
        [] => false,
        [first, ..] => {
            if count == 1 {
                *first < 128
            } else {
                *first == 0
            }
        }
    }
}

// The length in `count` further octets, and the octets after them; `at` is the position of the first length octet.
#[tactic(auto, unfolding(crate::specs::Reading::further_at))]
fn further_octets(count: usize, at: u64, octets: &[u8]) -> Result<(u64, &[u8]), Fault>
    requires count { count ≤ 4 }
    requires room { at + length octets.now + 1 < 2 ^ 64 }
    ensures gives { Gives (λ x. (x.0, x.1.now)) result (further_at count at octets.now) }
    ensures shorter { IfOk result (λ x. length x.1.now ≤ length octets.now) }
{
    if begins_short(count, octets) {
        return Err(Fault::new(Kind::LengthForm, at));
    }
    if octets.len() < count {
        return Err(Fault::new(Kind::End, at + 1 + octets.len() as u64));
    }
    let (front, rest) = octets.split_at(count);
    Ok((number(front), rest))
}

/// The length that the length octets at the front state, in octets of contents, and what follows them (X.690 8.1.3,
/// 10.1). `octets` begin after an identifier octet, and `at` is the position of the first of them. The contents need
/// not be there: a reader of a stream learns from this how many are to come.
///
/// Faults: `End` if `octets` end within the length; `Indefinite` and `LengthForm` at `at` if it is 80 (hexadecimal),
/// has more than four further octets, or if a shorter form would do.
#[tactic(auto, unfolding(crate::specs::Reading::length_at))]
pub fn length_of(at: u64, octets: &[u8]) -> Result<(u64, &[u8]), Fault>
    requires { at + length octets.now < 2 ^ 64 }
    // Returns the length and the octets after it, or the fault, that the reading of a length gives.
    ensures gives { Gives (λ x. (x.0, x.1.now)) result (length_at at octets.now) }
    // No more octets are left than there were.
    ensures shorter { IfOk result (λ x. length x.1.now ≤ length octets.now) }
{
    match octets {
        [] => Err(Fault::new(Kind::End, at)),
        [first, rest @ ..] => {
            if *first < 128 {
                Ok((u64::from(*first), rest))
            } else if *first == 128 {
                Err(Fault::new(Kind::Indefinite, at))
            } else if *first > 132 {
                Err(Fault::new(Kind::LengthForm, at))
            } else {
                further_octets(usize::from(*first - 128), at, rest)
            }
        }
    }
}

// The length that these octets state in any form, and what follows it, unless they have a fault. Nearly all have one or
// two further octets.
#[inline(never)]
#[tactic(auto, unfolding(crate::specs::Reading::length_at, crate::specs::Reading::further_at))]
fn any_length(at: u64, octets: &[u8]) -> Option<(usize, &[u8])>
    requires { at + length octets.now < 2 ^ 64 }
    ensures gives { MatchOption result (IsErr (length_at at octets.now))
        (λ x. length_at at octets.now ≡ Ok (x.0, x.1.now)) }
    ensures shorter { IfSome result (λ x. length x.1.now ≤ length octets.now) }
{
    match octets {
        [0x82, high, low, rest @ ..] if *high != 0 => {
            Some((256 * usize::from(*high) + usize::from(*low), rest))
        }
        [0x81, len, rest @ ..] if *len >= 128 => Some((usize::from(*len), rest)),
        _ => match length_of(at, octets) {
            Ok((len, rest)) => Some((len as usize, rest)),
            Err(_) => None,
        },
    }
}

// As `any_length`. Most lengths are one octet, and are read where this is called.
#[inline]
#[tactic(auto, unfolding(crate::specs::Reading::length_at))]
pub(crate) fn stated_length(at: u64, octets: &[u8]) -> Option<(usize, &[u8])>
    requires { at + length octets.now < 2 ^ 64 }
    ensures gives { MatchOption result (IsErr (length_at at octets.now))
        (λ x. length_at at octets.now ≡ Ok (x.0, x.1.now)) }
    ensures shorter { IfSome result (λ x. length x.1.now ≤ length octets.now) }
{
    match octets {
        [first, rest @ ..] if *first < 128 => Some((usize::from(*first), rest)),
        _ => any_length(at, octets),
    }
}
