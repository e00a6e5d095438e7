//! Why a window or a run is not appended.

/// Why no window is begun. The script is as it was.
#[derive(Clone, Copy, Debug, PartialEq, Eq)]
pub enum NotBegun {
    /// Its time is not later than that of the window before.
    NotLater,
    /// It would have more rounds of probes than a window may have.
    TooManyProbes,
    /// There is no memory.
    NoMemory,
}

/// Why no run is added. The script is as it was.
#[derive(Clone, Copy, Debug, PartialEq, Eq)]
pub enum NotAdded {
    /// The script has no window.
    NoWindow,
    /// The script has no such routine.
    NoRoutine,
    /// The run that it is to follow is none of those before it.
    NotBefore,
    /// The window has as many runs as a window may have.
    TooManyRuns,
    /// There is no memory.
    NoMemory,
}
