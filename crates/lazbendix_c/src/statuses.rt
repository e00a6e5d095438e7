//! What a call answers.
ghost use Rattle.std.specs.Prelude.{◌≡◌, ◌≢◌, pos};
ghost use Rattle.lazbendix_c.specs.Refusals.{answer_status, closing_status, draft_status, entry_status, final_status, lent_status, losing_status, opening_status, record_status, restanding_status, standing_status};

use home_states::{
    NotAnswered, NotBegun, NotClosed, NotFinal, NotLent, NotLost, NotOpened, NotRestood,
    NotStanding, NotTold,
};
use hub_table::NotTaken;

/// The call did what it says.
pub(crate) const DONE: i32 = 0;
/// The handle is closed.
pub(crate) const CLOSED: i32 = 1;
/// The handle is open.
pub(crate) const OPEN: i32 = 2;
/// The script is refused: the fault tells why.
pub(crate) const REFUSED: i32 = 3;
/// There is no such model or scheduler, or they do not go together.
pub(crate) const MODE: i32 = 4;
/// There is no memory.
pub(crate) const NO_MEMORY: i32 = 5;
/// A window is open.
pub(crate) const IN_WINDOW: i32 = 6;
/// No window is open, or none was begun.
pub(crate) const NO_WINDOW: i32 = 7;
/// There is no such window, routine, device, entry or final item.
pub(crate) const ABSENT: i32 = 8;
/// More than there may be.
pub(crate) const TOO_MANY: i32 = 9;
/// The device is not out, or is out with another ticket.
pub(crate) const NOT_OUT: i32 = 10;
/// It is no answer to the task.
pub(crate) const WRONG: i32 = 11;
/// The value found is another than that at which the device stood.
pub(crate) const DIFFERS: i32 = 12;
/// No probe of the device may go out.
pub(crate) const NO_PROBE: i32 = 13;
/// Something is left to do in the window.
pub(crate) const NOT_QUIET: i32 = 14;
/// No window was closed whose record could be made.
pub(crate) const NO_RECORD: i32 = 15;
/// The text is no time, or one that is not later than that of the window before.
pub(crate) const BAD_TIME: i32 = 16;
/// The run that is to be followed is none of those before.
pub(crate) const BAD_FOLLOW: i32 = 17;
/// The device has no such value.
pub(crate) const NO_VALUE: i32 = 18;
/// A call of the log is refused.
pub(crate) const NO_CALL: i32 = 19;

/// Why a window is not opened.
pub(crate) fn opening_status(why: NotOpened) -> i32
    ensures status { result ≡ opening_status why }
    ensures refused { (result ≢ pos 0) × (result ≢ pos 1) }
{
    match why {
        NotOpened::InWindow => IN_WINDOW,
        NotOpened::Absent => ABSENT,
        NotOpened::TooMany => TOO_MANY,
        NotOpened::NoMemory => NO_MEMORY,
    }
}

/// Why a window is not closed.
pub(crate) fn closing_status(why: NotClosed) -> i32
    ensures status { result ≡ closing_status why }
    ensures refused { (result ≢ pos 0) × (result ≢ pos 1) }
{
    match why {
        NotClosed::NoWindow => NO_WINDOW,
        NotClosed::NotQuiet(_) => NOT_QUIET,
    }
}

/// Why an answer is not taken.
pub(crate) fn answer_status(why: NotAnswered) -> i32
    ensures status { result ≡ answer_status why }
    ensures refused { (result ≢ pos 0) × (result ≢ pos 1) }
{
    match why {
        NotAnswered::NoWindow => NO_WINDOW,
        NotAnswered::NotTaken(NotTaken::NotOut) => NOT_OUT,
        NotAnswered::NotTaken(NotTaken::OtherKind) => WRONG,
        NotAnswered::NotTaken(NotTaken::Differs) => DIFFERS,
    }
}

/// Why a window is not begun, or a run is not added.
pub(crate) fn draft_status(why: NotBegun) -> i32
    ensures status { result ≡ draft_status why }
    ensures refused { (result ≢ pos 0) × (result ≢ pos 1) }
{
    match why {
        NotBegun::InWindow => IN_WINDOW,
        NotBegun::NoDraft => NO_WINDOW,
        NotBegun::BadTime => BAD_TIME,
        NotBegun::Absent => ABSENT,
        NotBegun::BadFollow => BAD_FOLLOW,
        NotBegun::TooMany => TOO_MANY,
        NotBegun::NoMemory => NO_MEMORY,
    }
}

/// Why the home is not told where a device was found.
pub(crate) fn restanding_status(why: NotRestood) -> i32
    ensures status { result ≡ restanding_status why }
    ensures refused { (result ≢ pos 0) × (result ≢ pos 1) }
{
    match why {
        NotRestood::InWindow => IN_WINDOW,
        NotRestood::Absent => ABSENT,
        NotRestood::NoValue => NO_VALUE,
    }
}

/// Why the home is not told that a device is lost.
pub(crate) fn losing_status(why: NotLost) -> i32
    ensures status { result ≡ losing_status why }
    ensures refused { (result ≢ pos 0) × (result ≢ pos 1) }
{
    match why {
        NotLost::InWindow => IN_WINDOW,
        NotLost::Absent => ABSENT,
    }
}

/// Why it is not told with what a device is out.
pub(crate) fn lent_status(why: NotLent) -> i32
    ensures status { result ≡ lent_status why }
    ensures refused { (result ≢ pos 0) × (result ≢ pos 1) }
{
    match why {
        NotLent::NoWindow => NO_WINDOW,
        NotLent::Absent => ABSENT,
        NotLent::IsHome => NOT_OUT,
    }
}

/// Why no final item is told.
pub(crate) fn final_status(why: NotFinal) -> i32
    ensures status { result ≡ final_status why }
    ensures refused { (result ≢ pos 0) × (result ≢ pos 1) }
{
    match why {
        NotFinal::NoWindow => NO_WINDOW,
        NotFinal::Absent => ABSENT,
    }
}

/// Why no text of a window is made.
pub(crate) fn record_status(why: NotTold) -> i32
    ensures status { result ≡ record_status why }
    ensures refused { (result ≢ pos 0) × (result ≢ pos 1) }
{
    match why {
        NotTold::Absent => NO_RECORD,
        NotTold::NoMemory => NO_MEMORY,
    }
}

/// Why no text of an entry is made.
pub(crate) fn entry_status(why: NotTold) -> i32
    ensures status { result ≡ entry_status why }
    ensures refused { (result ≢ pos 0) × (result ≢ pos 1) }
{
    match why {
        NotTold::Absent => ABSENT,
        NotTold::NoMemory => NO_MEMORY,
    }
}

/// Why it is not told how a device stands.
pub(crate) fn standing_status(why: NotStanding) -> i32
    ensures status { result ≡ standing_status why }
    ensures refused { (result ≢ pos 0) × (result ≢ pos 1) }
{
    match why {
        NotStanding::InWindow => IN_WINDOW,
        NotStanding::Absent => ABSENT,
    }
}
