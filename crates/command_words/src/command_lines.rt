//! What a command line asks for, and why one is refused.
use home_types::Mode;

/// What the words of a command line ask for.
#[derive(Clone, Copy, Debug, PartialEq, Eq)]
pub enum CommandLine {
    /// Runs the day of a script with threads.
    Run(Options),
    /// Replays the day of a script step by step.
    Replay(Options),
    /// Runs the day of a script with threads, and tells how far it is while it runs.
    Watch(Options),
    /// Replays the day of a script step by step, and keeps the state after each window in a
    /// journal.
    Keep(Options),
    /// Checks a record against its script.
    Check,
    /// Replays and checks a day of this many windows, from 1 to `limits::WINDOWS`, that a generator
    /// makes.
    Trial(u32),
}

/// How a day is run, and how much of it is printed.
#[derive(Clone, Copy, Debug, PartialEq, Eq)]
pub struct Options {
    pub mode: Mode,
    /// Whether the history of each window is printed too.
    pub trace: bool,
}

/// Why words are no command line.
#[derive(Clone, Copy, Debug, PartialEq, Eq)]
pub enum WordFault {
    /// The words are not of the format.
    Words,
    /// Want of memory. It comes with `run`, `replay`, `watch` and `keep` alone.
    NoMemory,
}
