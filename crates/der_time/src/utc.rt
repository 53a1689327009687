ghost use Rattle.std.specs.Prelude.{◌≡◌, ◌<◌, true, false, IfOk, IfErr};
ghost use Rattle.der_core.specs.Reading.{Gives, fault, spot};
ghost use Rattle.der_core.specs.Times.{is_utc, full_year};
ghost use Rattle.der_time.specs.Moments.{utc_moment, utc_in};

use crate::calendar::{day_number, is_clock, is_day};
use crate::moment::Moment;
use crate::octets::{are_digits, pair};
use der_core::{Fault, Kind};

fn full_year(year: u32) -> u32
    requires { year < 2278 }
    ensures { result ≡ full_year year }
{
    if 50 <= year { 1900 + year } else { 2000 + year }
}

fn is_utc(body: &[u8]) -> bool
    ensures { result ≡ is_utc body.now }
{
    if body.len() != 13 {
        return false;
    }
    are_digits(&body[..12])
        && body[12] == b'Z'
        && is_day(full_year(pair(body, 0)), pair(body, 2), pair(body, 4))
        && is_clock(pair(body, 6), pair(body, 8), pair(body, 10))
}

/// The moment that the contents `body` of a UTCTime denote, octets that start at position `at` of the input:
/// `YYMMDDHHMMSSZ` (X.690 11.8), where the years 50 to 99 are 1950 to 1999 and 00 to 49 are 2000 to 2049 (RFC 5280
/// 4.1.2.5.1).
///
/// Faults: `Time` at `at`, exactly when they are not the contents of a UTCTime.
pub fn read_utc(body: &[u8], at: u64) -> Result<Moment, Fault>
    // Returns the moment that the octets denote, which are the contents of a UTCTime.
    ensures found { IfOk result (λ m. (is_utc body.now ≡ true) × (m ≡ utc_moment body.now)) }
    // The fault is `Time` at `at`, and the octets are no contents of a UTCTime.
    ensures fault { IfErr result (λ f. (f ≡ fault Kind.Time at) × (is_utc body.now ≡ false)) }
    // Returns the moment or the fault that the reading of a UTCTime gives.
    ensures exact { Gives (λ m. m) result (utc_in (spot at body.now)) }
{
    if !is_utc(body) {
        return Err(Fault::new(Kind::Time, at));
    }
    let days = day_number(full_year(pair(body, 0)), pair(body, 2), pair(body, 4));
    Ok(Moment::at(days, pair(body, 6), pair(body, 8), pair(body, 10), 0))
}
