//! The entries of a history, with the causes and ends that they tell, and those of one step.
ghost use Rattle.std.specs.Prelude.{[], ◌∷◌, ◌≡◌};
ghost use Rattle.history_book.specs.Progress.{run_in};

use home_types::{Answer, DeviceNo, RunNo, Value};
use std::marker::Model;

/// Why a run is aborted. Commands count from 0.
#[derive(Clone, Copy, Debug, PartialEq, Eq)]
pub enum Cause {
    /// This must command was answered `Down`.
    MustDown(u32),
    /// This must check found another value, the one beside it.
    Refuted(u32, Value),
    /// The device failed between the run's first and last command on it.
    Lost(DeviceNo),
    /// The run kept the device past the deadline of its lease, when `lender` asked for it. Both
    /// times are in ms.
    Revoked {
        lender: RunNo,
        device: DeviceNo,
        deadline: u64,
        moment: u64,
    },
    /// Under a strict model: the device, which the run has touched, was down when the run came to
    /// its end.
    DownAtEnd(DeviceNo),
}

/// How a run ends.
#[derive(Clone, Copy, Debug, PartialEq, Eq)]
pub enum End {
    Committed,
    Aborted(Cause),
}

/// What happened in a step of a window.
#[derive(Clone, Copy, Debug, PartialEq, Eq)]
pub enum Entry {
    /// The run arrived at this moment, in ms.
    Arrived(RunNo, u64),
    /// The run was placed: its place in the line, counted from 0, and the moment in ms.
    Placed(RunNo, u32, u64),
    /// The run's command of this number, counted from 0, was answered.
    Did(RunNo, u32, Answer),
    /// The run's write on the device was undone: by a drive, or dropped because the device is down.
    Undid(RunNo, DeviceNo, bool),
    /// The device failed.
    Fell(DeviceNo),
    /// The device came back.
    Rose(DeviceNo),
    /// The run will be aborted.
    Doomed(RunNo, Cause),
    /// The run ended.
    Ended(RunNo, End),
}

impl Entry {
    /// The run of which the entry tells.
    #[inline(always)]
    pub fn run(self) -> Option<RunNo>
        ensures { result ≡ run_in self }
    {
        match self {
            Entry::Arrived(r, _) => Some(r),
            Entry::Placed(r, _, _) => Some(r),
            Entry::Did(r, _, _) => Some(r),
            Entry::Undid(r, _, _) => Some(r),
            Entry::Doomed(r, _) => Some(r),
            Entry::Ended(r, _) => Some(r),
            Entry::Fell(_) | Entry::Rose(_) => None,
        }
    }
}

/// An entry of a history with its maker: the run that made the step, or 0 for the detector.
#[derive(Clone, Copy, Debug, PartialEq, Eq)]
pub struct Kept {
    pub maker: u32,
    pub entry: Entry,
}

/// The entries of one step, in this order: three at most, in the first of three places, so that a
/// step takes no memory. A contract sees them as a list.
#[derive(Clone, Copy, Debug, PartialEq, Eq)]
pub struct Made {
    pub a: Option<Entry>,
    pub b: Option<Entry>,
    pub c: Option<Entry>,
}

impl Model for Made {
    ghost use Rattle.std.specs.Prelude.{List};
    ghost use Rattle.history_book.specs.Packed.{IsPacked, entries_made, first_three, three_again};
    ghost use Rattle.history_book.specs.declared.entries.Entry.{Entry};

    ghost Value = { List Entry };

    ghost view = { entries_made };

    ghost invariant = { IsPacked };

    ghost inverse = { first_three };

    ghost inverse_ok = { three_again };
}

/// No entries.
pub const NONE_MADE: Made = Made {
    a: None,
    b: None,
    c: None,
};

/// One entry.
pub fn one_made(entry: Entry) -> Made
    ensures { result ≡ entry ∷ [] }
{
    Made {
        a: Some(entry),
        b: None,
        c: None,
    }
}
