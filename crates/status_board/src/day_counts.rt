//! The counts of a day.
ghost use Rattle.std.specs.Prelude.{◌≡◌};
ghost use Rattle.status_board.specs.Publishings.{nothing};

use crossbeam_utils::atomic::Words;

/// What a day has come to so far.
#[derive(Clone, Copy, Debug, PartialEq, Eq)]
pub struct Counts {
    /// Windows that were closed.
    pub windows: u64,
    /// Runs of these windows that have ended.
    pub runs: u64,
    /// Runs of them that have committed.
    pub committed: u64,
    /// Runs of them that were aborted.
    pub aborted: u64,
    /// Whether nothing comes any more.
    pub over: bool,
}

impl Counts {
    /// The counts of a day of which no window was closed yet.
    pub fn none() -> Counts
        ensures { result ≡ nothing }
    {
        Counts {
            windows: 0,
            runs: 0,
            committed: 0,
            aborted: 0,
            over: false,
        }
    }
}

impl Words<5> for Counts {
    ghost use Rattle.std.specs.Prelude.{[], if◌then◌else◌, ◌∷◌};

    ghost words = { λ c. c.windows ∷ c.runs ∷ c.committed ∷ c.aborted
        ∷ (if c.over then 1 else 0) ∷ [] };

    fn to_words(self) -> [u64; 5] {
        [
            self.windows,
            self.runs,
            self.committed,
            self.aborted,
            if self.over { 1 } else { 0 },
        ]
    }

    fn from_words(bits: &[u64; 5]) -> Counts {
        Counts {
            windows: bits[0],
            runs: bits[1],
            committed: bits[2],
            aborted: bits[3],
            over: bits[4] == 1,
        }
    }
}
