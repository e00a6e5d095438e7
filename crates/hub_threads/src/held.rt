//! What lies under the lock.
ghost use Rattle.std.specs.Prelude.{◌≡◌, ◌+◌, ◌<◌, ◌≤◌, ◌++◌, IfSome, IsTrue, None, Ok, Some, length, option_map, slice_get, slice_set, ℕ};
ghost use Rattle.grip_seats.specs.Desks.{PassState};
ghost use Rattle.history_book.specs.Histories.{kept_by};
ghost use Rattle.hub_core.specs.BlockedRuns.{IsBlocked};
ghost use Rattle.hub_core.specs.HubCalls.{IsGiven, IsProbeGiven, IsProbed, IsTurn, SameWindow, carried_by};
ghost use Rattle.hub_core.specs.HubSteps.{Carried};
ghost use Rattle.hub_core.specs.OpenHubs.{configuration_of};
ghost use Rattle.hub_core.specs.Steps.{not_quiet};
ghost use Rattle.hub_threads.specs.Names.{IsWithin};
ghost use Rattle.hub_threads.specs.Named.{HasPlan, IsNamed, TurnHasPlan, entries_told, is_idle, turn_entries};
ghost use Rattle.hub_threads.specs.Passes.{CanGoOut, GoesWith, IsDetectorsPass, IsPassOf, IsRunsPass, out_after, what_is_out};

use crate::names::Name;
use crate::sleepers::{Sleepers, is_unplaced};
use device_states::Device;
use grip_seats::{Desk, Pass};
use history_book::Made;
use home_types::{DeviceNo, RunNo};
use hub_core::{Done, Grip, Hub, NotQuiet, Ready, Slip, Task, Turn, Why};
use std::marker::Model;
use std::sync::ledger::{Book, Share};

/// What is out of a place of the desk: the slip of a grip, and its task.
pub type Lent = (Slip, Task);

/// A grip that is done, seen as its device and what it carries.
pub trait DoneGrip<D: Device> {
    ghost use Rattle.hub_core.specs.HubSteps.{Carried};

    ghost device: { Self → D };

    ghost carried: { Self → Carried };
}

impl<D: Device> DoneGrip<D> for Grip<D, Done> {
    ghost use Rattle.hub_core.specs.HubCalls.{carried_by};

    ghost device = { λ g. g.device };

    ghost carried = { λ g. carried_by g };
}

/// A step that has made no entry.
const NOTHING: Made = Made {
    a: None,
    b: None,
    c: None,
};

/// How workers step what lies under the lock.
///
/// Each of the first four calls raises the share by the number of entries in its answer. What goes
/// out goes with a pass, and with its pass alone does it come back, so that it is taken in. The
/// done grip is a parameter, since no proof is made of an impl whose method takes a `Grip<D, Done>`
/// by value.
pub trait Steps<D: Device, N: Name, G: DoneGrip<D>>: Drop {
    /// The step of a run, and the pass of the device that it hands out, where it does.
    fn take(&mut self, share: &mut Share<N>, r: RunNo, moment: u64) -> (Turn<D>, Option<Pass<Lent>>)
        requires share { 0 < share.old.parts }
        requires moment { IsWithin N.window moment }
        ensures told { share.new.amount ≡ share.old.amount + turn_entries result.0 }
        ensures parts { share.new.parts ≡ share.old.parts }
        ensures plan { TurnHasPlan D.shows N.window.plans result.0 }
        ensures pass { GoesWith (IsRunsPass N.desk) result.0 result.1 };

    /// The step back of a run's grip.
    fn give(&mut self, share: &mut Share<N>, grip: G, pass: Pass<Lent>, moment: u64) -> Made
        requires share { 0 < share.old.parts }
        requires moment { IsWithin N.window moment }
        requires plan { (D.shows (G.device grip)).plan
            ≡ N.window.plans (G.carried grip).slip.device.0 }
        requires pass { IsRunsPass N.desk (G.carried grip) pass }
        ensures told { share.new.amount ≡ share.old.amount + length result }
        ensures parts { share.new.parts ≡ share.old.parts };

    /// Hands out a probe of the device, with its pass, where it may.
    fn take_probe(
        &mut self,
        share: &mut Share<N>,
        d: DeviceNo,
    ) -> Option<(Grip<D, Ready>, Pass<Lent>)>
        requires share { 0 < share.old.parts }
        ensures told { share.new.amount ≡ share.old.amount }
        ensures parts { share.new.parts ≡ share.old.parts }
        ensures plan { IfSome result (λ probe. HasPlan D.shows N.window.plans probe.0) }
        ensures pass { IfSome result (λ probe.
            IsDetectorsPass N.desk (carried_by probe.0) probe.1) };

    /// The step back of the detector's grip.
    fn give_probe(&mut self, share: &mut Share<N>, grip: G, pass: Pass<Lent>) -> Made
        requires share { 0 < share.old.parts }
        requires plan { (D.shows (G.device grip)).plan
            ≡ N.window.plans (G.carried grip).slip.device.0 }
        requires pass { IsDetectorsPass N.desk (G.carried grip) pass }
        ensures told { share.new.amount ≡ share.old.amount + length result }
        ensures parts { share.new.parts ≡ share.old.parts };

    /// Why the window cannot be closed.
    fn quiet(&self) -> Option<NotQuiet>;

    /// The run, which was told to wait, falls asleep. Answers whether it is known that only a step
    /// of another actor can end its wait. No promise rests on it.
    fn sleep(&mut self, r: RunNo, why: Why) -> bool;

    /// The sleepers that the steps since the last call may have freed, the run r as the bit r - 1;
    /// they sleep no more.
    fn wake(&mut self) -> u64;
}

/// What lies under the lock: the hub, how many entries were told in all, who sleeps, and the desk
/// from which grips go out.
///
/// Contracts see the hub. The type keeps that it is of the window of the name, that its history has
/// as many entries as were told, that each run that sleeps as a blocked one is blocked, and that
/// the desk knows what is out of each place of the hub.
#[derive(Drop)]
pub struct Held<D: Device, N: Name> {
    hub: Hub<D>,
    book: Book<N>,
    sleepers: Sleepers,
    desk: Desk<Lent>,
}

impl<D: Device, N: Name> Model for Held<D, N> {
    ghost use Rattle.hub_core.specs.OpenHubs.{OpenHub};
    ghost use Rattle.hub_threads.specs.Holding.{IsHeld};

    ghost Value = { OpenHub D };

    ghost view = { λ h. h.hub };

    ghost invariant = { λ h. IsHeld D.shows N.window N.desk h.hub h.book.total
        h.sleepers.blocked h.desk };
}

impl<D: Device, N: Name> Steps<D, N, Grip<D, Done>> for Held<D, N> {
    fn take(&mut self, share: &mut Share<N>, r: RunNo, moment: u64) -> (Turn<D>, Option<Pass<Lent>>)
        requires share { 0 < share.old.parts }
        requires moment { IsWithin N.window moment }
        ensures turn { IsTurn self.old r.0 moment result.0 self.new }
        ensures window { SameWindow self.old self.new }
        ensures appended { self.new.history
            ≡ self.old.history ++ kept_by r.0 (entries_told result.0) }
        ensures told { share.new.amount ≡ share.old.amount + turn_entries result.0 }
        ensures parts { share.new.parts ≡ share.old.parts }
        ensures plan { TurnHasPlan D.shows N.window.plans result.0 }
        ensures pass { GoesWith (IsRunsPass N.desk) result.0 result.1 }
    {
        let Held {
            hub,
            book,
            sleepers,
            desk,
        } = self;
        let turn = hub.take(r, moment);
        let pass = pass_for(desk, &turn);
        let told = made_by(&turn);
        book.add(share, count(&told));
        if !is_idle(&turn) {
            sleepers.call(hub, &told);
        }
        (turn, pass)
    }

    fn give(
        &mut self,
        share: &mut Share<N>,
        grip: Grip<D, Done>,
        pass: Pass<Lent>,
        moment: u64,
    ) -> Made
        requires share { 0 < share.old.parts }
        requires moment { IsWithin N.window moment }
        requires plan { HasPlan D.shows N.window.plans grip }
        requires pass { IsRunsPass N.desk (carried_by grip) pass }
        ensures given { IsGiven self.old grip moment (Ok result) self.new }
        ensures window { SameWindow self.old self.new }
        ensures appended { self.new.history
            ≡ self.old.history ++ kept_by grip.slip.maker result }
        ensures told { share.new.amount ≡ share.old.amount + length result }
        ensures parts { share.new.parts ≡ share.old.parts }
    {
        let Held {
            hub,
            book,
            sleepers,
            desk,
        } = self;
        desk.come_home(pass);
        let made = match hub.give(grip, moment) {
            Ok(made) => made,
            Err(_) => unreachable!(),
        };
        book.add(share, count(&made));
        sleepers.call(hub, &made);
        made
    }

    fn take_probe(
        &mut self,
        share: &mut Share<N>,
        d: DeviceNo,
    ) -> Option<(Grip<D, Ready>, Pass<Lent>)>
        requires share { 0 < share.old.parts }
        ensures probed { IsProbed self.old d.0 (option_map (λ probe. probe.0) result) self.new }
        ensures window { SameWindow self.old self.new }
        ensures appended { self.new.history ≡ self.old.history }
        ensures told { share.new.amount ≡ share.old.amount }
        ensures parts { share.new.parts ≡ share.old.parts }
        ensures plan { IfSome result (λ probe. HasPlan D.shows N.window.plans probe.0) }
        ensures pass { IfSome result (λ probe.
            IsDetectorsPass N.desk (carried_by probe.0) probe.1) }
    {
        let Held {
            hub,
            book: _,
            sleepers,
            desk,
        } = self;
        let _ = &share;
        let grip = hub.take_probe(d)?;
        let pass = lend(desk, &grip);
        sleepers.call(hub, &NOTHING);
        Some((grip, pass))
    }

    fn give_probe(&mut self, share: &mut Share<N>, grip: Grip<D, Done>, pass: Pass<Lent>) -> Made
        requires share { 0 < share.old.parts }
        requires plan { HasPlan D.shows N.window.plans grip }
        requires pass { IsDetectorsPass N.desk (carried_by grip) pass }
        ensures given { IsProbeGiven self.old grip (Ok result) self.new }
        ensures window { SameWindow self.old self.new }
        ensures appended { self.new.history
            ≡ self.old.history ++ kept_by 0 result }
        ensures told { share.new.amount ≡ share.old.amount + length result }
        ensures parts { share.new.parts ≡ share.old.parts }
    {
        let Held {
            hub,
            book,
            sleepers,
            desk,
        } = self;
        desk.come_home(pass);
        let found = match hub.give_probe(grip) {
            Ok(found) => found,
            Err(_) => unreachable!(),
        };
        book.add(share, count(&found));
        sleepers.call(hub, &found);
        found
    }

    fn quiet(&self) -> Option<NotQuiet>
        ensures { result ≡ not_quiet (configuration_of self.now) }
    {
        self.hub.quiet()
    }

    fn sleep(&mut self, r: RunNo, why: Why) -> bool
        ensures blocked { IsTrue result → IsBlocked (configuration_of self.new) r.0 }
        ensures same { self.new ≡ self.old }
    {
        let Held {
            hub,
            book: _,
            sleepers,
            desk: _,
        } = self;
        let blocked = hub.is_blocked(r);
        if blocked {
            sleepers.note_blocked(r);
        } else if is_unplaced(why) {
            sleepers.note_unplaced(r);
        } else {
            sleepers.note_restless(r);
        }
        blocked
    }

    fn wake(&mut self) -> u64
        ensures { self.new ≡ self.old }
    {
        self.sleepers.take_called()
    }
}

impl<D: Device, N: Name> Held<D, N> {
    /// Nobody sleeps yet.
    pub fn new(hub: Hub<D>, book: Book<N>, desk: Desk<Lent>) -> Held<D, N>
        requires named { IsNamed D.shows N.window hub }
        requires counted { book.total ≡ length hub.history }
        requires desk { desk.name ≡ N.desk }
        requires out { desk.out ≡ what_is_out hub.places }
        ensures { result ≡ hub }
    {
        Held {
            hub,
            book,
            sleepers: Sleepers::new(),
            desk,
        }
    }

    /// The hub, whose history has as many entries as the whole share counts.
    pub fn ended(self, all: &mut Share<N>) -> Hub<D>
        requires { all.old.parts ≡ N.parts }
        ensures hub { result ≡ self }
        ensures named { IsNamed D.shows N.window result }
        ensures counted { length result.history ≡ all.new.amount }
    {
        let Held {
            hub,
            mut book,
            sleepers: _,
            desk: _,
        } = self;
        book.audit(all);
        hub
    }
}

/// The pass of the device that a step hands out, where it does.
fn pass_for<D: Device>(desk: &mut Desk<Lent>, turn: &Turn<D>) -> Option<Pass<Lent>>
    requires home { CanGoOut desk.old.out turn.now }
    ensures out { desk.new.out ≡ out_after desk.old.out turn.now }
    ensures name { desk.new.name ≡ desk.old.name }
    ensures pass { GoesWith (IsPassOf desk.old.name) turn.now result }
{
    match turn {
        Turn::Go(grip) => Some(lend(desk, grip)),
        Turn::Moved(_) | Turn::Over(_, _) | Turn::Wait(_) | Turn::Absent => None,
    }
}

/// The device of the grip goes out, with this pass.
fn lend<D: Device>(desk: &mut Desk<Lent>, grip: &Grip<D, Ready>) -> Pass<Lent>
    requires home { slice_get desk.old.out grip.now.slip.device.0 ≡ Some None }
    ensures out { desk.new.out
        ≡ slice_set desk.old.out grip.now.slip.device.0 (Some (grip.now.slip, grip.now.task)) }
    ensures name { desk.new.name ≡ desk.old.name }
    ensures pass { IsPassOf desk.old.name (carried_by grip.now) result }
{
    let slip = grip.slip();
    desk.go_out(u64::from(slip.device.0), (slip, grip.task()))
}

/// Whether a step has done nothing: the run waits, or there is none.
fn is_idle<D: Device>(turn: &Turn<D>) -> bool
    ensures { result ≡ is_idle turn.now }
{
    matches!(turn, Turn::Wait(_) | Turn::Absent)
}

/// The entries that a step has made.
fn made_by<D: Device>(turn: &Turn<D>) -> Made
    ensures { result ≡ entries_told turn.now }
{
    match turn {
        Turn::Moved(made) => *made,
        Turn::Over(_, made) => *made,
        Turn::Go(_) | Turn::Wait(_) | Turn::Absent => NOTHING,
    }
}

/// How many entries these are.
fn count(made: &Made) -> u64
    ensures { result ≡ length made.now }
{
    u64::from(made.a.is_some()) + u64::from(made.b.is_some()) + u64::from(made.c.is_some())
}
