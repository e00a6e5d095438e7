//! The time of a window as one number.
ghost use Rattle.std.specs.Prelude.{◌≡◌, IfSome};
ghost use Rattle.day_clock.specs.Times.{IsCivilTime};
ghost use Rattle.logged_calls.specs.Times.{is_civil, number_time, time_number};

use day_clock::When;

/// The time as a number whose digits are those of year, month, day, hour, minute and second, each
/// but the year with two.
pub(crate) fn time_number(at: When) -> u64
    ensures { result ≡ time_number at }
{
    let day = u64::from(at.year) * 10_000 + u64::from(at.month) * 100 + u64::from(at.day);
    let of_day = u64::from(at.hour) * 10_000 + u64::from(at.minute) * 100 + u64::from(at.second);
    day * 1_000_000 + of_day
}

/// The time with these digits, `None` where it is none.
pub(crate) fn number_time(number: u64) -> Option<When>
    ensures { result ≡ number_time number }
{
    if number >= 100_000_000_000_000 {
        return None;
    }
    let time = When {
        year: (number / 10_000_000_000) as u16,
        month: (number / 100_000_000 % 100) as u8,
        day: (number / 1_000_000 % 100) as u8,
        hour: (number / 10_000 % 100) as u8,
        minute: (number / 100 % 100) as u8,
        second: (number % 100) as u8,
    };
    if is_civil(time) { Some(time) } else { None }
}

// Whether each field is in its range.
fn is_civil(time: When) -> bool
    ensures { result ≡ is_civil time }
{
    time.year <= 9999
        && (1..=12).contains(&time.month)
        && (1..=31).contains(&time.day)
        && time.hour <= 23
        && time.minute <= 59
        && time.second <= 59
}
