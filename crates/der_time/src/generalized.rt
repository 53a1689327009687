ghost use Rattle.std.specs.Prelude.{◌≡◌, ◌∷◌, [], ◌+◌, ◌-◌, ◌<◌, ◌≤◌, ◌||◌, slice_index_or, true, false, IfOk, IfErr};
ghost use Rattle.der_core.specs.Lists.{is_same};
ghost use Rattle.der_core.specs.Reading.{Gives, fault, spot};
ghost use Rattle.der_core.specs.Times.{is_fraction, is_generalized};
ghost use Rattle.der_time.specs.Moments.{in_places, fraction_digits, generalized_moment, generalized_in};

use crate::calendar::{day_number, is_clock, is_day};
use crate::moment::Moment;
use crate::octets::{are_digits, pair};
use der_core::{Fault, Kind};

fn is_end(octets: &[u8]) -> bool
    ensures { result ≡ is_same octets.now (90 ∷ []) }
{
    if octets.len() != 1 {
        return false;
    }
    octets[0] == b'Z'
}

fn is_fraction(octets: &[u8]) -> bool
    ensures { result ≡ is_fraction octets.now }
{
    let len = octets.len();
    if len < 3 || len > 11 {
        return false;
    }
    octets[0] == b'.'
        && are_digits(&octets[1..len - 1])
        && octets[len - 2] != b'0'
        && octets[len - 1] == b'Z'
}

fn is_tail(octets: &[u8]) -> bool
    ensures { result ≡ (is_same octets.now (90 ∷ []) || is_fraction octets.now) }
{
    is_end(octets) || is_fraction(octets)
}

fn is_generalized(body: &[u8]) -> bool
    ensures { result ≡ is_generalized body.now }
{
    if body.len() < 15 || !are_digits(&body[..14]) {
        return false;
    }
    if !is_day(
        100 * pair(body, 0) + pair(body, 2),
        pair(body, 4),
        pair(body, 6),
    ) {
        return false;
    }
    is_clock(pair(body, 8), pair(body, 10), pair(body, 12)) && is_tail(&body[14..])
}

/// The digits between the point and `Z`.
fn fraction_digits(body: &[u8]) -> &[u8]
    ensures { result.now ≡ fraction_digits body.now }
{
    if body.len() < 16 {
        &body[..0]
    } else {
        &body[15..body.len() - 1]
    }
}

/// The digit at a place, which is 0 after the last.
fn digit_at(digits: &[u8], place: usize) -> u8
    ensures digit { result ≡ slice_index_or digits.now place 48 - 48 }
    ensures low { result ≤ 207 }
{
    if place < digits.len() {
        digits[place].saturating_sub(b'0')
    } else {
        0
    }
}

/// The nanoseconds that the digits of a fraction denote, of which the first nine count.
fn nanos_of_digits(digits: &[u8]) -> u64
    ensures { result ≡ in_places 9 digits.now }
{
    let mut nanos = 0;
    for place in 0..9 {
        nanos = 10 * nanos + digit_at(digits, place) as u64;
    }
    nanos
}

/// The moment that the contents `body` of a GeneralizedTime denote, octets that start at position `at` of the input:
/// `YYYYMMDDHHMMSSZ`, or `YYYYMMDDHHMMSS.fZ` where f has one to nine digits of which the last isn't 0 (X.690 11.7; RFC
/// 3161 2.4.2).
///
/// Faults: `Time` at `at`, exactly when they are not the contents of a GeneralizedTime.
pub fn read_generalized(body: &[u8], at: u64) -> Result<Moment, Fault>
    // Returns the moment that the octets denote, which are the contents of a GeneralizedTime.
    ensures found { IfOk result (λ m. (is_generalized body.now ≡ true) × (m ≡ generalized_moment body.now)) }
    // The fault is `Time` at `at`, and the octets are no contents of a GeneralizedTime.
    ensures fault { IfErr result (λ f. (f ≡ fault Kind.Time at) × (is_generalized body.now ≡ false)) }
    // Returns the moment or the fault that the reading of a GeneralizedTime gives.
    ensures exact { Gives (λ m. m) result (generalized_in (spot at body.now)) }
{
    if !is_generalized(body) {
        return Err(Fault::new(Kind::Time, at));
    }
    let year = 100 * pair(body, 0) + pair(body, 2);
    let days = day_number(year, pair(body, 4), pair(body, 6));
    let nanos = nanos_of_digits(fraction_digits(body));
    Ok(Moment::at(days, pair(body, 8), pair(body, 10), pair(body, 12), nanos))
}
