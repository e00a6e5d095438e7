//! The runs that sleep, and those that are to be called.
ghost use Rattle.std.specs.Prelude.{if◌then◌else◌, not, true, ℕ, ◌&&◌, ◌==◌, ◌||◌, ◌≡◌, false, option_map, unwrap_or};
ghost use Rattle.blocked_runs.specs.RunBits.{has_run};
ghost use Rattle.hub_core.specs.OpenHubs.{configuration_of};
ghost use Rattle.hub_threads.specs.Sleepers.{NoneSleep, SleepersAreBlocked, frees_place, frees_places, has_run_bit, is_unplaced};

use device_states::Device;
use history_book::{Entry, Made};
use home_types::RunNo;
use hub_core::{Hub, Why};
use std::marker::Model;

/// How many runs have a bit.
const MOST: u32 = 64;

/// The runs of a window that sleep, a bit for each run: the run r has the bit r - 1.
#[derive(Drop)]
pub(crate) struct Sleepers {
    /// Nothing but the step of another actor can end their wait.
    blocked: u64,
    /// Anybody's step may end it, and so may time.
    restless: u64,
    /// They wait for their place, which the end, a doom or an undo of another run may give them, or
    /// time. What else may do so is left to time: the answer to another run's last command on a
    /// device or one that covers its write, and an undo that goes out.
    unplaced: u64,
    /// They sleep no more, and are still to be woken.
    called: u64,
}

impl Model for Sleepers {
    ghost use Rattle.hub_threads.specs.Sleepers.{SleepersState};

    ghost Value = { SleepersState };

    ghost view = { λ s. record {
      blocked = s.blocked;
      restless = s.restless;
      unplaced = s.unplaced;
      called = s.called;
    } };
}

impl Sleepers {
    pub(crate) fn new() -> Sleepers
        ensures { NoneSleep result }
    {
        Sleepers {
            blocked: 0,
            restless: 0,
            unplaced: 0,
            called: 0,
        }
    }

    /// The run sleeps, and is blocked. A run with no bit is not noted.
    pub(crate) fn note_blocked(&mut self, r: RunNo)
        ensures blocked { (q : ℕ) → has_run self.new.blocked q
            ≡ (has_run self.old.blocked q || (has_run_bit r.0 && (q == r.0))) }
        ensures restless { self.new.restless ≡ self.old.restless }
        ensures unplaced { self.new.unplaced ≡ self.old.unplaced }
        ensures called { self.new.called ≡ self.old.called }
    {
        self.blocked |= bit_of(r);
    }

    /// The run sleeps, and is not known to be blocked. A run with no bit is not noted.
    pub(crate) fn note_restless(&mut self, r: RunNo)
        ensures restless { (q : ℕ) → has_run self.new.restless q
            ≡ (has_run self.old.restless q || (has_run_bit r.0 && (q == r.0))) }
        ensures blocked { self.new.blocked ≡ self.old.blocked }
        ensures unplaced { self.new.unplaced ≡ self.old.unplaced }
        ensures called { self.new.called ≡ self.old.called }
    {
        self.restless |= bit_of(r);
    }

    /// The run sleeps, and waits for its place. A run with no bit is not noted.
    pub(crate) fn note_unplaced(&mut self, r: RunNo)
        ensures unplaced { (q : ℕ) → has_run self.new.unplaced q
            ≡ (has_run self.old.unplaced q || (has_run_bit r.0 && (q == r.0))) }
        ensures blocked { self.new.blocked ≡ self.old.blocked }
        ensures restless { self.new.restless ≡ self.old.restless }
        ensures called { self.new.called ≡ self.old.called }
    {
        self.unplaced |= bit_of(r);
    }

    /// Calls those that the last step may have freed, which made these entries and after which this
    /// is the hub: the restless ones, those that wait for their place where an entry may give it,
    /// and the blocked ones that are known to be blocked no more.
    pub(crate) fn call<D: Device>(&mut self, hub: &Hub<D>, made: &Made)
        ensures blocked { SleepersAreBlocked (configuration_of hub.now) self.new.blocked }
        ensures restless { self.new.restless ≡ 0 }
        ensures unplaced { (r : ℕ) → has_run self.new.unplaced r
            ≡ (not (frees_places made.now) && has_run self.old.unplaced r) }
        ensures called { (r : ℕ) → has_run self.new.called r ≡ (has_run self.old.called r
            || ((has_run self.old.restless r || (frees_places made.now && has_run self.old.unplaced
            r)) || (has_run self.old.blocked r && not (has_run self.new.blocked r)))) }
        ensures fewer { (r : ℕ) → has_run self.new.blocked r ≡ true
            → has_run self.old.blocked r ≡ true }
    {
        let freed = self.unplaced_after(made);
        let left = still_blocked(self.blocked, hub);
        self.called |= self.restless | freed | (self.blocked & !left);
        self.restless = 0;
        self.unplaced &= !freed;
        self.blocked = left;
    }

    /// Those that wait for their place, where one of these entries may give it.
    fn unplaced_after(&self, made: &Made) -> u64
        ensures { result ≡ (if frees_places made.now then self.now.unplaced else 0) }
    {
        if frees_places(made) { self.unplaced } else { 0 }
    }

    /// The runs that were called since the last call.
    pub(crate) fn take_called(&mut self) -> u64
        ensures answer { result ≡ self.old.called }
        ensures blocked { self.new.blocked ≡ self.old.blocked }
        ensures restless { self.new.restless ≡ self.old.restless }
        ensures unplaced { self.new.unplaced ≡ self.old.unplaced }
        ensures called { self.new.called ≡ 0 }
    {
        let called = self.called;
        self.called = 0;
        called
    }
}

/// Whether a run that waits so waits for its place.
pub(crate) fn is_unplaced(why: Why) -> bool
    ensures { result ≡ is_unplaced why }
{
    matches!(why, Why::Follow(_) | Why::Denied(_, _))
}

/// Whether one of these entries may give a run its place that waits for it.
fn frees_places(made: &Made) -> bool
    ensures { result ≡ frees_places made.now }
{
    frees_place(made.a) || frees_place(made.b) || frees_place(made.c)
}

/// Whether the entry, where there is one, may give a run its place that waits for it.
fn frees_place(entry: Option<Entry>) -> bool
    ensures { result ≡ unwrap_or (option_map frees_place entry) false }
{
    matches!(
        entry,
        Some(Entry::Undid(_, _, _) | Entry::Doomed(_, _) | Entry::Ended(_, _))
    )
}

/// The runs of the word that the hub knows to be blocked.
fn still_blocked<D: Device>(word: u64, hub: &Hub<D>) -> u64
    ensures blocked { SleepersAreBlocked (configuration_of hub.now) result }
    ensures fewer { (r : ℕ) → has_run result r ≡ true → has_run word r ≡ true }
{
    let mut left = 0;
    let mut rest = word;
    'runs: for _ in 0..word.count_ones() {
        let r = lowest(rest);
        rest &= rest.wrapping_sub(1);
        if has(word, r) && hub.is_blocked(r) {
            left |= bit_of(r);
        }
    }
    left
}

/// The run of the word's lowest bit.
fn lowest(word: u64) -> RunNo {
    RunNo(word.trailing_zeros() + 1)
}

/// Whether the word has the run's bit.
fn has(word: u64, r: RunNo) -> bool
    ensures { result ≡ has_run word r.0 }
{
    1 <= r.0 && r.0 <= MOST && (word >> (r.0 - 1)) & 1 == 1
}

/// The word with the bit of the run alone, with none for a run that has no bit.
pub(crate) fn bit_of(r: RunNo) -> u64
    ensures { (q : ℕ) → has_run result q ≡ (has_run_bit r.0 && (q == r.0)) }
{
    if 1 <= r.0 && r.0 <= MOST {
        1 << (r.0 - 1)
    } else {
        0
    }
}
