ghost use Rattle.std.specs.Prelude.{◌≡◌, ℕ, ◌+◌, ◌-◌, ◌/◌, ◌%◌, ◌^◌, ◌<◌, ◌≤◌, ◌≢◌, ◌==◌, true, drop, length};
ghost use Rattle.std.specs.Prelude.{slice_index};
ghost use Rattle.der_core.specs.Lists.{every};
ghost use Rattle.der_core.specs.Times.{is_generalized};
ghost use Rattle.der_time.specs.Moments.{generalized_moment};
ghost use Rattle.der_time.specs.Spelling.{stamp, places};

use crate::date::{Date, date_of};
use crate::moment::Moment;
use std::marker::Model;
use std::str;

/// The text of a moment as a GeneralizedTime (X.690 11.7): at most 25 octets. Contracts see the list of these octets.
#[derive(Debug, Drop)]
pub struct TimeText {
    octets: [u8; 25],
    len: usize,
}

impl Model for TimeText {
    ghost use Rattle.std.specs.Prelude.{◌≡◌, ℕ, ◌≤◌, List, true, take};
    ghost use Rattle.der_core.specs.Times.{is_generalized};

    ghost Value = { List ℕ };

    ghost view = { λ t. take t.len t.octets };

    ghost invariant = { λ t. (t.len ≤ 25) × (is_generalized (take t.len t.octets) ≡ true) };
}

impl TimeText {
    /// The octets of the text.
    pub fn bytes(&self) -> &[u8]
        // Returns the octets of the text.
        ensures octets { result.now ≡ self.now }
        // They are the contents of a GeneralizedTime.
        ensures formed { is_generalized self.now ≡ true }
        // They are at most 25.
        ensures short { length self.now ≤ 25 }
    {
        &self.octets[..self.len]
    }

    /// The text.
    pub fn as_str(&self) -> &str
        // Returns the octets of the text.
        ensures octets { result.now ≡ self.now }
        // They are the contents of a GeneralizedTime.
        ensures formed { is_generalized self.now ≡ true }
        // They are at most 25.
        ensures short { length self.now ≤ 25 }
    {
        let Ok(text) = str::from_utf8(self.bytes()) else {
            unreachable!();
        };
        text
    }
}

/// The first of two digits.
fn tens(number: u32) -> u8
    requires { number < 100 }
    ensures { result ≡ 48 + number / 10 }
{
    b'0' + (number / 10) as u8
}

/// The last digit of a number.
fn ones(number: u32) -> u8
    ensures { result ≡ 48 + number % 10 }
{
    b'0' + (number % 10) as u8
}

/// The digit of a number below ten.
fn digit(number: u32) -> u8
    requires { number < 10 }
    ensures { result ≡ 48 + number }
{
    b'0' + number as u8
}

/// `YYYYMMDDHHMMSS` of a date, `clock` seconds after the start of the day.
fn stamp_of(date: Date, clock: u32) -> [u8; 14]
    requires year { date.year < 10000 }
    requires month { date.month < 100 }
    requires day { date.day < 100 }
    requires clock { clock < 86400 }
    ensures { result ≡ stamp date.year date.month date.day (clock / 3600) (clock / 60 % 60) (clock % 60) }
{
    let (hour, minute, second) = (clock / 3600, clock / 60 % 60, clock % 60);
    [
        tens(date.year / 100),
        ones(date.year / 100),
        tens(date.year % 100),
        ones(date.year % 100),
        tens(date.month),
        ones(date.month),
        tens(date.day),
        ones(date.day),
        tens(hour),
        ones(hour),
        tens(minute),
        ones(minute),
        tens(second),
        ones(second),
    ]
}

/// The nine decimal places of `nanos` nanoseconds.
fn places_of(nanos: u32) -> [u8; 9]
    requires { nanos < 10 ^ 9 }
    ensures { result ≡ places 9 nanos }
{
    let second = nanos % 100_000_000;
    let third = second % 10_000_000;
    let fourth = third % 1_000_000;
    let fifth = fourth % 100_000;
    let sixth = fifth % 10_000;
    let seventh = sixth % 1000;
    let eighth = seventh % 100;
    [
        digit(nanos / 100_000_000),
        digit(second / 10_000_000),
        digit(third / 1_000_000),
        digit(fourth / 100_000),
        digit(fifth / 10_000),
        digit(sixth / 1000),
        digit(seventh / 100),
        digit(eighth / 10),
        digit(eighth % 10),
    ]
}

/// How many of the digits are before the zeros at their end.
fn kept_places(digits: &[u8]) -> usize
    ensures within { result ≤ length digits.now }
    ensures zeros { every (λ d. d == 48) (drop result digits.now) ≡ true }
    ensures last { 0 < result → slice_index digits.now (result - 1) ≢ 48 }
{
    let mut kept = digits.len();
    while kept > 0 && digits[kept - 1] == b'0' {
        kept -= 1;
    }
    kept
}

/// The GeneralizedTime of a moment (X.690 11.7; RFC 3161 2.4.2): `YYYYMMDDHHMMSSZ` if it is a whole number of seconds,
/// else `YYYYMMDDHHMMSS.fZ` with a fraction of at most nine digits that doesn't end in 0. No other text denotes the
/// moment.
pub fn generalized_text(moment: Moment) -> TimeText
    // Returns the contents of a GeneralizedTime.
    ensures text { is_generalized result ≡ true }
    // They denote this moment.
    ensures back { generalized_moment result ≡ moment }
    // They are at most 25 octets.
    ensures short { length result ≤ 25 }
{
    let date = date_of(moment.days());
    let places = places_of(moment.subsecond());
    let kept = kept_places(&places);
    let end = if kept == 0 { 14 } else { 15 + kept };
    let mut octets = [b'.'; 25];
    octets[..14].copy_from_slice(&stamp_of(date, moment.clock()));
    octets[15..24].copy_from_slice(&places);
    octets[end] = b'Z';
    TimeText {
        octets,
        len: end + 1,
    }
}
