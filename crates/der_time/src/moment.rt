ghost use Rattle.std.specs.Prelude.{◌≡◌, ℕ, pos, ◌+◌, ◌/◌, ◌%◌, ◌-ℤ◌, ◌^◌, ◌<◌, true};
ghost use Rattle.der_core.specs.Times.{is_clock};
ghost use Rattle.der_time.specs.Moments.{nanos_of, unix_epoch, end_of_years};

use std::marker::Model;

/// 1970-01-01 00:00:00 in nanoseconds after 0000-01-01 00:00:00.
const UNIX_EPOCH: i128 = 62_167_219_200_000_000_000;

/// A moment of the years 0000 to 9999 in UTC, to the nanosecond, in the Gregorian calendar, which is used also for the
/// years before its introduction. Contracts see how many nanoseconds it is after 0000-01-01 00:00:00; each day has
/// 86400 seconds.
#[derive(Clone, Copy, Debug, PartialEq, Eq, PartialOrd, Ord)]
pub struct Moment {
    elapsed: u128,
}

impl Model for Moment {
    ghost use Rattle.std.specs.Prelude.{ℕ, ◌<◌};
    ghost use Rattle.der_time.specs.Moments.{end_of_years};

    ghost Value = { ℕ };

    ghost view = { λ m. m.elapsed };

    ghost invariant = { λ m. m.elapsed < end_of_years };

    ghost inverse = { λ n. record { elapsed = n } };
}

/// The seconds of a day.
const SECONDS: u64 = 86_400;

/// The nanoseconds of a second.
const NANOS: u128 = 1_000_000_000;

impl Moment {
    /// The moment on the day that is `days` days after 0000-01-01, at this hour, minute and second, and `nanos`
    /// nanoseconds later.
    pub(crate) fn at(days: u32, hour: u32, minute: u32, second: u32, nanos: u64) -> Moment
        requires days { days < 3652425 }
        requires clock { is_clock hour minute second ≡ true }
        requires nanos { nanos < 10 ^ 9 }
        ensures { result ≡ nanos_of days hour minute second + nanos }
    {
        let clock = 3600 * hour + 60 * minute + second;
        let seconds = SECONDS * days as u64 + clock as u64;
        Moment {
            elapsed: NANOS * seconds as u128 + nanos as u128,
        }
    }

    /// How many nanoseconds it is after 1970-01-01 00:00:00; negative if it is earlier.
    pub fn nanos(self) -> i128
        // Returns the nanoseconds from 1970-01-01 00:00:00 to the moment.
        ensures value { result ≡ pos self -ℤ pos unix_epoch }
        // The moment is before the year 10000.
        ensures within { self < end_of_years }
    {
        self.elapsed as i128 - UNIX_EPOCH
    }

    /// How many days its day is after 0000-01-01.
    pub(crate) fn days(self) -> u32
        ensures days { result ≡ self / 10 ^ 9 / 86400 }
        ensures few { result < 3652425 }
    {
        (self.elapsed / NANOS / SECONDS as u128) as u32
    }

    /// How many whole seconds of its day are before it.
    pub(crate) fn clock(self) -> u32
        ensures { result ≡ self / 10 ^ 9 % 86400 }
    {
        (self.elapsed / NANOS % SECONDS as u128) as u32
    }

    /// How many nanoseconds it is after the start of its second.
    pub(crate) fn subsecond(self) -> u32
        ensures { result ≡ self % 10 ^ 9 }
    {
        (self.elapsed % NANOS) as u32
    }
}
