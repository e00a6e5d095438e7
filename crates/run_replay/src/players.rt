//! A player: it makes the picks that it is told, one after another.
ghost use Rattle.std.specs.Prelude.{◌≡◌, ◌<◌, ◌≤◌, ◌==◌, false, filter, length, not, ℕ};
ghost use Rattle.hub_core.specs.HubCalls.{HubStands};
ghost use Rattle.run_replay.specs.PlayerSteps.{PlayerPicks, PlayerStays};
ghost use Rattle.run_replay.specs.Players.{PlayerStands, is_ended, most_moves, play_of, steps_left};
ghost use Rattle.run_replay.specs.Playing.{ArePicked, HasPicked};

use crate::hands::Hands;
use crate::live_runs::without_run;
use crate::picked::{Picked, has_waited};
use device_states::Device;
use std::marker::Model;

/// A hub with the grips that its actors hold, and the actors that have not ended.
pub struct Player<D: Device> {
    pub(crate) hands: Hands<D>,
    /// The actors that have not ended, ascending.
    pub(crate) actors: Vec<u32>,
    /// The runs among them, the run r as the bit r - 1.
    pub(crate) runs: u64,
}

impl<D: Device> Model for Player<D> {
    ghost use Rattle.std.specs.Prelude.{◌≡◌};
    ghost use Rattle.run_replay.specs.Players.{AreLiveRuns, MovesAreFew, PlayerState, are_live};

    ghost Value = { PlayerState D };

    ghost view = { λ p. p.hands };

    ghost invariant = { λ p. (p.actors.items ≡ are_live p.hands) × MovesAreFew p.hands
        × AreLiveRuns p.runs p.hands };
}

/// Takes an actor out of a list, where it stands there.
fn take_out(actors: &mut Vec<u32>, actor: u32)
    ensures { actors.new.items ≡ filter (λ a. not (a == actor)) actors.old.items }
{
    actors.retain(|a| *a != actor);
}

impl<D: Device> Player<D> {
    /// Steps the actor, a run or 0 for the detector.
    #[inline(always)]
    pub fn pick(&mut self, actor: u32) -> Picked
        ensures { PlayerPicks D.shows self.old actor result self.new }
    {
        let picked = self.hands.pick(actor);
        if has_waited(&picked) {
            return picked;
        }
        if !self.hands.has_ended(actor) {
            return picked;
        }
        take_out(&mut self.actors, actor);
        self.runs = without_run(self.runs, actor);
        picked
    }

    /// Steps the actor as `pick` does, and tells whether it waits.
    pub(crate) fn waits_at(&mut self, actor: u32) -> bool
        ensures picked { HasPicked self.old.rounds actor (play_of self.old) result
            (play_of self.new) }
        ensures stays { PlayerStays D.shows self.old self.new }
        ensures fewer { result ≡ false → is_ended self.old actor ≡ false
            → steps_left self.new < steps_left self.old }
    {
        let picked = self.pick(actor);
        has_waited(&picked)
    }

    /// Steps each of these actors, one after another. A run that is known to wait is passed over:
    /// its step would change nothing.
    pub fn play(&mut self, picks: &[u32])
        ensures played { (acts : ℕ) → (later : ℕ)
            × ArePicked self.old.rounds picks.now (play_of self.old acts) (play_of self.new later) }
        ensures stays { PlayerStays D.shows self.old self.new }
    {
        'picks: for actor in picks {
            if self.hands.is_blocked(*actor) {
                continue;
            }
            self.waits_at(*actor);
        }
    }

    /// How many picks so far took a device, gave one back or made entries. It takes no memory.
    pub fn moves(&self) -> u64
        ensures count { result ≡ self.now.moves }
        ensures bounded { result ≤ most_moves (length self.now.hub.setting.runs)
            (length self.now.hub.setting.first) self.now.hub.rounds self.now.rounds }
    {
        self.hands.moves()
    }

    /// Does nothing. Its contract is what is kept of every player and of its hub, and that its
    /// window is never stuck.
    pub(crate) fn kept_invariant(&self)
        ensures player { PlayerStands self.now }
        ensures hub { HubStands D.shows self.now.hub }
    {
        self.hands.kept_invariant();
    }
}
