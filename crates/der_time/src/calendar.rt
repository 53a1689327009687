ghost use Rattle.std.specs.Prelude.{◌≡◌, ◌+◌, ◌<◌, true};
ghost use Rattle.der_core.specs.Times.{is_day, is_clock};
ghost use Rattle.der_time.specs.Calendar.{day_number};

use jiff::civil::{self, Date};

/// 1970-01-01 in days after 0000-01-01.
const EPOCH: i32 = 719_528;

/// Whether the calendar has this day.
pub(crate) fn is_day(year: u32, month: u32, day: u32) -> bool
    requires { year < 10000 }
    ensures { result ≡ is_day year month day }
{
    let (Ok(month), Ok(day)) = (i8::try_from(month), i8::try_from(day)) else {
        return false;
    };
    Date::new(year as i16, month, day).is_ok()
}

/// Whether these are an hour, a minute and a second of a day.
pub(crate) fn is_clock(hour: u32, minute: u32, second: u32) -> bool
    ensures { result ≡ is_clock hour minute second }
{
    hour <= 23 && minute <= 59 && second <= 59
}

/// The number of this day: how many days it is after 0000-01-01.
pub(crate) fn day_number(year: u32, month: u32, day: u32) -> u32
    requires year { year < 10000 }
    requires day { is_day year month day ≡ true }
    ensures { result ≡ day_number year month day }
{
    let date = civil::date(year as i16, month as i8, day as i8);
    (date.to_plain().to_unix_epoch_day() + EPOCH) as u32
}
