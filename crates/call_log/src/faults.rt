//! Why a log is refused.

/// Why a log was not opened.
#[derive(Clone, Copy, Debug, PartialEq, Eq)]
pub enum LogFault {
    /// There was no memory.
    NoMemory,
    /// A call of the disk failed.
    Failed,
    /// The first slot is open and has no head, or a damaged one.
    NotALog,
    /// The log is that of another version of the program.
    OtherVersion,
    /// The log is that of another mode.
    OtherMode,
    /// The log is that of another script.
    OtherScript,
    /// The call at this place, counted from 0, was synced, and its bytes are those of no call now.
    Damaged(u32),
}
