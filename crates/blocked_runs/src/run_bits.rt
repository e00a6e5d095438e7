//! Runs as the bits of a word: the run r as the bit r - 1.
ghost use Rattle.std.specs.Prelude.{◌≡◌, ◌&&◌, ◌<◌, ◌==◌, true, ℕ};
ghost use Rattle.blocked_runs.specs.RunBits.{has_run};

use home_types::RunNo;

/// Whether the word has the bit of the run.
pub fn has_bit(word: u64, r: RunNo) -> bool
    ensures { result ≡ has_run word r.0 }
{
    1 <= r.0 && r.0 <= 64 && (word >> (r.0 - 1)) & 1 == 1
}

/// The word with the bit of the run alone, with none for a run that is not one of the first 64.
pub fn bit_of(r: RunNo) -> u64
    ensures only { (q : ℕ) → has_run result q ≡ (has_run result r.0 && (q == r.0)) }
    ensures own { 0 < r.0 → r.0 < 65 → has_run result r.0 ≡ true }
{
    if 1 <= r.0 && r.0 <= 64 {
        1 << (r.0 - 1)
    } else {
        0
    }
}
