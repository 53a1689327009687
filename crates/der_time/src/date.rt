ghost use Rattle.std.specs.Prelude.{◌≡◌, ◌<◌, true};
ghost use Rattle.der_core.specs.Times.{is_day};
ghost use Rattle.der_time.specs.Calendar.{day_number};

use jiff::{ToSpan, civil};

/// A day of the calendar.
#[derive(Clone, Copy)]
pub(crate) struct Date {
    pub year: u32,
    pub month: u32,
    pub day: u32,
}

/// The date that is `days` days after 0000-01-01.
pub(crate) fn date_of(days: u32) -> Date
    requires { days < 3652425 }
    ensures year { result.year < 10000 }
    ensures day { is_day result.year result.month result.day ≡ true }
    ensures number { day_number result.year result.month result.day ≡ days }
{
    let first = civil::date(0, 1, 1);
    let Ok(date) = first.checked_add((days as i64).days()) else {
        unreachable!();
    };
    Date {
        year: date.year() as u32,
        month: date.month() as u32,
        day: date.day() as u32,
    }
}
