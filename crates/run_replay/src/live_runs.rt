//! The runs of a window as the bits of a word: the run r as the bit r - 1.
ghost use Rattle.std.specs.Prelude.{false, not, true, ℕ, ◌&&◌, ◌<◌, ◌==◌, ◌≡◌, ◌≢◌, ◌≤◌};
ghost use Rattle.blocked_runs.specs.RunBits.{has_run};

use blocked_runs::bit_of;
use home_types::RunNo;

/// One more than the greatest number of a run.
pub(crate) const END: u32 = 65;

/// These runs, and this one.
pub(crate) fn with_run(word: u64, r: u32) -> u64
    ensures others { (q : ℕ) → q ≢ r → has_run result q ≡ has_run word q }
    ensures own { 0 < r → r < 65 → has_run result r ≡ true }
{
    word | bit_of(RunNo(r))
}

/// These runs but for this one.
pub(crate) fn without_run(word: u64, r: u32) -> u64
    ensures { (q : ℕ) → has_run result q ≡ (has_run word q && not (q == r)) }
{
    word & !bit_of(RunNo(r))
}

/// The first of these runs from this one on; 65 where there is none.
fn first_from(word: u64, from: u32) -> u32
    requires run { 0 < from }
    requires low { from ≤ 65 }
    ensures ahead { from ≤ result }
    ensures none { (q : ℕ) → from ≤ q → q < result → has_run word q ≡ false }
    ensures found { result < 65 → has_run word result ≡ true }
{
    if from == END {
        return END;
    }
    let rest = word >> (from - 1);
    if rest == 0 {
        return END;
    }
    from + rest.trailing_zeros()
}

/// The first run from this one on that is one of the first word and none of the second; 65 where
/// there is none.
pub(crate) fn next_run(live: u64, blocked: u64, from: u32) -> u32
    requires run { 0 < from }
    requires low { from ≤ 65 }
    ensures ahead { from ≤ result }
    ensures passed { (q : ℕ) → from ≤ q → q < result → has_run live q ≡ true
        → has_run blocked q ≡ true }
    ensures live { result < 65 → has_run live result ≡ true }
{
    first_from(live & !blocked, from)
}
