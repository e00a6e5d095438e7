//! A play goes on to its end: which actor is tried next.
ghost use Rattle.std.specs.Prelude.{◌≡◌, ◌<◌, ◌≤◌, ◌⊎◌, Some, false, length, slice_get, true, ℕ};
ghost use Rattle.hub_core.specs.BlockedRuns.{IsBlocked};
ghost use Rattle.hub_core.specs.OpenHubs.{configuration_of};
ghost use Rattle.run_replay.specs.PlayerSteps.{PlayerStays};
ghost use Rattle.run_replay.specs.Players.{are_live, is_ended, play_of, steps_left};
ghost use Rattle.run_replay.specs.Playing.{GoesOn, IsFinished};
ghost use Rattle.run_replay.specs.Replays.{from_place, pick_first};

use crate::live_runs::{END, next_run};
use crate::players::Player;
use device_states::Device;
use seeded_draws::Draws;

impl<D: Device> Player<D> {
    /// Picks actors until every one has ended: each time a place in the list of those that have not
    /// is drawn by the generator with this seed, and from there on they are picked in cyclic order
    /// until one does not wait.
    pub fn finish(&mut self, seed: u64)
        ensures finished { (acts : ℕ) → (later : ℕ)
            × IsFinished self.old.rounds seed (play_of self.old acts) (play_of self.new later) }
        ensures stays { PlayerStays D.shows self.old self.new }
    {
        let mut draws = Draws::new(seed);
        let mut live = self.live_count();
        self.kept_invariant();
        'draws: while live != 0 {
            let place = draws.below(live);
            self.pick_from(place, live);
            live = self.live_count();
            self.kept_invariant();
        }
    }

    /// How many actors have not ended.
    fn live_count(&self) -> u64
        ensures { result ≡ length (are_live self.now) }
    {
        self.actors.len() as u64
    }

    /// The actor at this place of the ascending list of those that have not ended.
    fn live_at(&self, place: u64) -> u32
        requires { place < length (are_live self.now) }
        ensures { slice_get (are_live self.now) place ≡ Some result }
    {
        self.actors[place as usize]
    }

    /// The first actor from this number on that has not ended and is not known to wait; 65 where
    /// there is none.
    fn next_free(&self, from: u32) -> u32
        requires low { from ≤ 65 }
        ensures ahead { from ≤ result }
        ensures passed { (a : ℕ) → from ≤ a → a < result
            → (is_ended self.now a ≡ true) ⊎ IsBlocked (configuration_of self.now.hub) a }
        ensures live { result < 65 → is_ended self.now result ≡ false }
    {
        let blocked = self.hands.blocked_runs();
        if from != 0 {
            return next_run(self.runs, blocked, from);
        }
        if self.hands.has_ended(0) {
            next_run(self.runs, blocked, 1)
        } else {
            0
        }
    }

    /// Picks the actors that have not ended, from this place of their list on and in cyclic order,
    /// until one does not wait: there is always one. A run that is known to wait is passed over.
    fn pick_from(&mut self, place: u64, live: u64)
        requires live { live ≡ length (are_live self.old) }
        requires place { place < live }
        ensures picked { (acts : ℕ) → (later : ℕ) × GoesOn self.old.rounds
            (λ course p. pick_first course p (from_place place (are_live self.old)))
            (play_of self.old acts) (play_of self.new later) }
        ensures stays { PlayerStays D.shows self.old self.new }
        ensures fewer { steps_left self.new < steps_left self.old }
    {
        self.kept_invariant();
        let first = self.live_at(place);
        let mut at = self.next_free(first);
        'ahead: while at < END {
            if !self.waits_at(at) {
                return;
            }
            self.kept_invariant();
            at = self.next_free(at + 1);
        }
        at = self.next_free(0);
        'behind: while at < first {
            if !self.waits_at(at) {
                return;
            }
            self.kept_invariant();
            at = self.next_free(at + 1);
        }
        unreachable!()
    }
}
