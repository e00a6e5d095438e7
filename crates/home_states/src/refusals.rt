//! Why a call does nothing.
use hub_core::NotQuiet;
use hub_table::NotTaken;
use routine_reader::ReadFault;

/// Why no window is opened. The home is as it was.
#[derive(Clone, Copy, Debug, PartialEq, Eq)]
pub enum NotOpened {
    /// A window is open.
    InWindow,
    /// The script has no such window.
    Absent,
    /// As many windows were opened on the home as ever may be.
    TooMany,
    /// There is no memory.
    NoMemory,
}

/// Why an answer is not taken. Nothing has changed.
#[derive(Clone, Copy, Debug, PartialEq, Eq)]
pub enum NotAnswered {
    /// No window is open.
    NoWindow,
    /// It is not one to a call that is out.
    NotTaken(NotTaken),
}

/// Why the window is not closed. Nothing has changed.
#[derive(Clone, Copy, Debug, PartialEq, Eq)]
pub enum NotClosed {
    /// No window is open.
    NoWindow,
    /// Something is left to do.
    NotQuiet(NotQuiet),
}

/// Why no text is made. The text made before is still there.
#[derive(Clone, Copy, Debug, PartialEq, Eq)]
pub enum NotTold {
    /// There is nothing of which the text would tell.
    Absent,
    /// There is no memory.
    NoMemory,
}

/// Why it is not told how a device stands.
#[derive(Clone, Copy, Debug, PartialEq, Eq)]
pub enum NotStanding {
    /// A window is open.
    InWindow,
    /// The home has no such device.
    Absent,
}

/// Why the home is not told where a device was found. It is as it was.
#[derive(Clone, Copy, Debug, PartialEq, Eq)]
pub enum NotRestood {
    /// A window is open.
    InWindow,
    /// The home has no such device.
    Absent,
    /// The device has no such value.
    NoValue,
}

/// Why the home is not told that a device is lost. It is as it was.
#[derive(Clone, Copy, Debug, PartialEq, Eq)]
pub enum NotLost {
    /// A window is open.
    InWindow,
    /// The home has no such device.
    Absent,
}

/// Why it is not told with what a device is out.
#[derive(Clone, Copy, Debug, PartialEq, Eq)]
pub enum NotLent {
    /// No window is open.
    NoWindow,
    /// The home has no such device.
    Absent,
    /// The device is home.
    IsHome,
}

/// Why it is not told which item of the order is final at a place.
#[derive(Clone, Copy, Debug, PartialEq, Eq)]
pub enum NotFinal {
    /// No window is open.
    NoWindow,
    /// So many items are not final.
    Absent,
}

/// Why no window is begun, or no run added to it. The script is as it was.
#[derive(Clone, Copy, Debug, PartialEq, Eq)]
pub enum NotBegun {
    /// A window is open.
    InWindow,
    /// No window was begun that is still to be opened.
    NoDraft,
    /// The text is no time, or one that is not later than that of the window before.
    BadTime,
    /// The script has no such routine.
    Absent,
    /// The run that is to be followed is none of those before.
    BadFollow,
    /// More runs or rounds of probes than a window may have.
    TooMany,
    /// There is no memory.
    NoMemory,
}

/// Why a call that was logged is not made again.
#[derive(Clone, Copy, Debug, PartialEq, Eq)]
pub enum NotMade {
    /// The home refuses it.
    Refused,
    /// There is no memory.
    NoMemory,
}

/// Why no home is made again of a script and calls.
#[derive(Clone, Copy, Debug, PartialEq, Eq)]
pub enum NotRebuilt {
    /// The script is refused, for this, or there is no memory to read it.
    Unread(ReadFault),
    /// The call at this place, counted from 0, is refused.
    Refused(u64),
    /// There is no memory.
    NoMemory,
}
