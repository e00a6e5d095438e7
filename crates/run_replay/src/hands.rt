//! A hub with the grips that its actors hold, and how one actor is stepped.
ghost use Rattle.std.specs.Prelude.{IfErr, IfOk, IsTrue, None, Some, false, length, true, vec_capacity, ℕ, ◌<◌, ◌^◌, ◌≡◌, ◌≤◌};
ghost use Rattle.hub_core.specs.BlockedRuns.{IsBlocked};
ghost use Rattle.hub_core.specs.HubCalls.{HubStands, WindowIsClosed};
ghost use Rattle.hub_core.specs.OpenHubs.{configuration_of};
ghost use Rattle.hub_core.specs.Steps.{not_quiet, opened};
ghost use Rattle.run_replay.specs.PlayerSteps.{PlayerPicks, PlayerSteps};
ghost use Rattle.run_replay.specs.Players.{HoldNothing, MovesAreFew, PlayerIsOpened, PlayerStands, is_ended, is_full, with_moves};
ghost use Rattle.run_replay.specs.Replays.{moves_after};
ghost use Rattle.blocked_runs.specs.RunBits.{has_run};

use crate::picked::{Picked, has_moved};
use device_states::Device;
use history_book::{Made, WindowRecord};
use home_types::{DeviceNo, NoMemory, RunNo};
use hub_core::{Grip, Home, Hub, NotQuiet, Ready, Turn};
use std::alloc::Global;
use std::marker::Model;
use std::mem;

/// A hub with the grips that its actors hold: its runs, and the detector, which is the actor 0.
///
/// An actor is stepped where it is picked: one that holds a grip acts and gives it back, any other
/// one takes.
pub(crate) struct Hands<D: Device> {
    hub: Hub<D>,
    /// The grip of each actor that holds one.
    grips: Vec<Option<Grip<D, Ready>>>,
    /// How often the detector comes to each device.
    rounds: u32,
    /// How many devices the detector has come to.
    place: u64,
    /// How many picks took a device, gave one back or made entries.
    moves: u64,
}

impl<D: Device> Model for Hands<D> {
    ghost use Rattle.run_replay.specs.Players.{PlayerIsKept, PlayerState};

    ghost Value = { PlayerState D };

    ghost view = { λ p. record {
      hub = p.hub;
      grips = p.grips.items;
      rounds = p.rounds;
      place = p.place;
      moves = p.moves;
    } };

    ghost invariant = { λ p. PlayerIsKept (record {
      hub = p.hub;
      grips = p.grips.items;
      rounds = p.rounds;
      place = p.place;
      moves = p.moves;
    }) };
}

impl<D: Device> Hands<D> {
    /// The hands of a hub in which nothing was done yet, whose detector comes so often to each
    /// device: all are empty.
    ///
    /// Answers `NoMemory` where there is none to be had, and gives the hub back.
    pub(crate) fn open(
        alloc: Global,
        hub: Hub<D>,
        rounds: u32,
    ) -> Result<Hands<D>, (Hub<D>, NoMemory)>
        requires fresh { configuration_of hub ≡ opened hub.setting hub.rounds }
        requires rounds { (d : ℕ) → d < length hub.setting.first
            → rounds ≤ (configuration_of hub).probes d }
        ensures opened { IfOk result (λ player. PlayerIsOpened hub rounds player) }
        ensures refused { IfErr result (λ refused. refused.0 ≡ hub) }
    {
        hub.kept_invariant();
        let Ok(grips) = empty_hands(alloc, hub.run_count() as usize + 1) else {
            return Err((hub, NoMemory));
        };
        Ok(Hands {
            hub,
            grips,
            rounds,
            place: 0,
            moves: 0,
        })
    }

    /// Steps the actor, a run or 0 for the detector, and counts its pick where it moved.
    #[inline(always)]
    pub(crate) fn pick(&mut self, actor: u32) -> Picked
        requires few { MovesAreFew self.old }
        ensures picked { PlayerPicks D.shows self.old actor result self.new }
        ensures few { MovesAreFew self.new }
    {
        self.kept_invariant();
        if self.has_ended(actor) {
            return Picked::Passed;
        }
        let picked = self.step(actor);
        self.count(&picked);
        picked
    }

    /// Counts a pick where it moved.
    #[inline(always)]
    fn count(&mut self, picked: &Picked)
        requires low { self.old.moves < 2 ^ 63 }
        ensures { self.new ≡ with_moves (moves_after picked.now self.old.moves) self.old }
    {
        if has_moved(picked) {
            self.moves += 1;
        }
    }

    /// Steps the actor, which has not ended.
    #[inline(always)]
    fn step(&mut self, actor: u32) -> Picked
        requires going { is_ended self.old actor ≡ false }
        ensures { PlayerSteps D.shows self.old actor result self.new }
    {
        if actor == 0 {
            return self.probe();
        }
        if self.holds(actor) {
            Picked::Made(self.act(actor))
        } else {
            self.run_takes(RunNo(actor))
        }
    }

    /// How many picks took a device, gave one back or made entries.
    pub(crate) fn moves(&self) -> u64
        ensures { result ≡ self.now.moves }
    {
        self.moves
    }

    /// Whether the actor holds a grip.
    fn holds(&self, actor: u32) -> bool
        ensures { result ≡ is_full self.now actor }
    {
        matches!(self.grips.get(actor as usize), Some(Some(_)))
    }

    /// Whether the actor has ended: the detector when its rounds are over and it holds no grip, a
    /// run when it has its end, and where it is none of the window.
    #[inline(always)]
    pub(crate) fn has_ended(&self, actor: u32) -> bool
        ensures { result ≡ is_ended self.now actor }
    {
        if actor == 0 {
            self.hub.kept_invariant();
            let all = u64::from(self.rounds) * self.hub.device_count();
            return !self.holds(0) && all <= self.place;
        }
        self.hub.is_over(RunNo(actor))
    }

    /// Whether the actor is a run that is known to wait, so that it need not be picked. The
    /// detector never is.
    pub(crate) fn is_blocked(&self, actor: u32) -> bool
        ensures { IsTrue result → IsBlocked (configuration_of self.now.hub) actor }
    {
        self.hub.is_blocked(RunNo(actor))
    }

    /// The runs that are known to wait, the run r as the bit r - 1.
    pub(crate) fn blocked_runs(&self) -> u64
        ensures { (r : ℕ) → has_run result r ≡ true → IsBlocked (configuration_of self.now.hub) r }
    {
        self.hub.blocked_runs()
    }

    /// Makes the call of the grip that the run holds, and gives the grip back. The hub's moment
    /// rises by the time that a command takes.
    #[inline(always)]
    fn act(&mut self, actor: u32) -> Made
        requires run { 0 < actor }
        requires going { is_ended self.old actor ≡ false }
        requires holds { is_full self.old actor ≡ true }
        ensures { PlayerSteps D.shows self.old actor (Picked.Made result) self.new }
    {
        self.hub.kept_invariant();
        self.hub.bounded();
        match mem::replace(&mut self.grips[actor as usize], None) {
            Some(grip) => {
                let now = self.hub.moment();
                let then = now + u64::from(self.hub.takes(grip.slip().device));
                let given = self.hub.give(grip.act(), then);
                self.hub.bounded();
                match given {
                    Ok(made) => made,
                    Err((_back, _stranger)) => unreachable!(),
                }
            }
            None => unreachable!(),
        }
    }

    /// Takes the step of the run, which holds no grip.
    #[inline(always)]
    fn run_takes(&mut self, r: RunNo) -> Picked
        requires run { 0 < r.0 }
        requires going { is_ended self.old r.0 ≡ false }
        requires empty { is_full self.old r.0 ≡ false }
        ensures { PlayerSteps D.shows self.old r.0 result self.new }
    {
        let now = self.hub.moment();
        let turn = self.hub.take(r, now);
        self.hub.bounded();
        match turn {
            Turn::Go(grip) => {
                let d = grip.slip().device;
                match mem::replace(&mut self.grips[r.0 as usize], Some(grip)) {
                    None => Picked::Took(d),
                    Some(_held) => unreachable!(),
                }
            }
            Turn::Moved(made) => Picked::Made(made),
            Turn::Over(_, made) => Picked::Made(made),
            Turn::Wait(why) => Picked::Waits(why),
            Turn::Absent => Picked::Passed,
        }
    }

    /// Steps the detector: where it holds a grip it gives it back, and else it comes to its next
    /// device.
    #[inline(always)]
    fn probe(&mut self) -> Picked
        requires going { is_ended self.old 0 ≡ false }
        ensures { PlayerSteps D.shows self.old 0 result self.new }
    {
        if self.holds(0) {
            Picked::Made(self.detector_acts())
        } else {
            self.detector_takes()
        }
    }

    /// Makes the call of the grip that the detector holds, and gives the grip back. A probe takes
    /// no time.
    fn detector_acts(&mut self) -> Made
        requires going { is_ended self.old 0 ≡ false }
        requires holds { is_full self.old 0 ≡ true }
        ensures { PlayerSteps D.shows self.old 0 (Picked.Made result) self.new }
    {
        self.hub.kept_invariant();
        match mem::replace(&mut self.grips[0], None) {
            Some(grip) => {
                let given = self.hub.give_probe(grip.act());
                match given {
                    Ok(made) => made,
                    Err((_back, _stranger)) => unreachable!(),
                }
            }
            None => unreachable!(),
        }
    }

    /// Comes to the next device of the detector's round: takes a probe of it, or passes it over
    /// where none may be taken.
    fn detector_takes(&mut self) -> Picked
        requires going { is_ended self.old 0 ≡ false }
        requires empty { is_full self.old 0 ≡ false }
        ensures { PlayerSteps D.shows self.old 0 result self.new }
    {
        self.hub.kept_invariant();
        let d = DeviceNo((self.place % self.hub.device_count()) as u16);
        let probed = self.hub.take_probe(d);
        self.place += 1;
        match probed {
            Some(grip) => match mem::replace(&mut self.grips[0], Some(grip)) {
                None => Picked::Took(d),
                Some(_held) => unreachable!(),
            },
            None => Picked::Passed,
        }
    }

    /// Does nothing. Its contract is what is kept of every player and of its hub, and that its
    /// window is never stuck.
    pub(crate) fn kept_invariant(&self)
        ensures player { PlayerStands self.now }
        ensures hub { HubStands D.shows self.now.hub }
    {
        self.hub.kept_invariant();
        self.hub.progress();
        self.hub.bounded();
    }

    /// Closes the window.
    ///
    /// Refused, and the hands are given back, where a run has not ended or a device is out.
    pub(crate) fn close(self) -> Result<(Home<D>, WindowRecord), (Hands<D>, NotQuiet)>
        ensures closed { IfOk result (λ closed. WindowIsClosed D.shows self.hub closed.0 closed.1) }
        ensures quiet { IfOk result (λ closed. not_quiet (configuration_of self.hub) ≡ None) }
        ensures same { IfErr result (λ refused. refused.0 ≡ self) }
        ensures refused { IfErr result
            (λ refused. not_quiet (configuration_of self.hub) ≡ Some refused.1) }
    {
        let Hands {
            hub,
            mut grips,
            rounds,
            place,
            moves,
        } = self;
        hub.kept_invariant();
        match hub.close_window() {
            Ok(closed) => {
                'hands: while let Some(hand) = grips.pop() {
                    match hand {
                        None => {}
                        Some(_held) => unreachable!(),
                    }
                }
                grips.destroy_empty();
                Ok(closed)
            }
            Err((hub, why)) => Err((
                Hands {
                    hub,
                    grips,
                    rounds,
                    place,
                    moves,
                },
                why,
            )),
        }
    }
}

/// An empty hand for each of so many actors, and room for no more.
fn empty_hands<D: Device>(
    alloc: Global,
    actors: usize,
) -> Result<Vec<Option<Grip<D, Ready>>>, NoMemory>
    ensures empty { IfOk result (λ hands. HoldNothing hands.items) }
    ensures count { IfOk result (λ hands. length hands.items ≡ actors) }
    ensures room { IfOk result (λ hands. vec_capacity hands ≡ actors) }
{
    let Ok(mut hands) = Vec::with_capacity(alloc, actors) else {
        return Err(NoMemory);
    };
    'actors: while hands.len() < actors {
        hands.push_reserved(None);
    }
    Ok(hands)
}
