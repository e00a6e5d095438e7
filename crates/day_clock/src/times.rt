//! A time of day, read as `jiff` reads one.
ghost use Rattle.std.specs.Prelude.{◌≡◌, IfOk};
ghost use Rattle.day_clock.specs.Times.{IsCivilTime, read_as_option, time_of};

use jiff::civil::DateTime;

/// The time of a window, to the second, ordered by its fields from the year on.
#[derive(Clone, Copy, Debug, PartialEq, Eq, PartialOrd, Ord)]
pub struct When {
    /// From 0 to 9999.
    pub year: u16,
    pub month: u8,
    pub day: u8,
    pub hour: u8,
    pub minute: u8,
    pub second: u8,
}

impl When {
    ghost use Rattle.day_clock.specs.Times.{is_before};

    /// Whether this time comes before the other: by the first field in which they differ, from the
    /// year on.
    pub fn is_before(self, other: When) -> bool
        ensures { result ≡ is_before self other }
    {
        self < other
    }
}

/// A text is no time of a window.
#[derive(Clone, Copy, Debug, PartialEq, Eq)]
pub struct Unread;

/// Reads what `jiff` reads as a civil date and time of the years 0 to 9999. Parts of a second are
/// dropped.
///
/// `Unread` is all else. It takes no memory.
pub fn read_time(text: &str) -> Result<When, Unread>
    ensures read { read_as_option result ≡ time_of text.now }
    ensures in_range { IfOk result IsCivilTime }
{
    let parsed: Result<DateTime, jiff::Error> = text.parse();
    let Ok(moment) = parsed else {
        return Err(Unread);
    };
    let plain = moment.to_plain();
    if plain.date.year < 0 {
        return Err(Unread);
    }
    Ok(When {
        year: plain.date.year as u16,
        month: plain.date.month,
        day: plain.date.day,
        hour: plain.time.hour,
        minute: plain.time.minute,
        second: plain.time.second,
    })
}
