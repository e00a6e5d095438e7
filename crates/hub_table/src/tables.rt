//! An open window with the grips that are out.
ghost use Rattle.std.specs.Prelude.{◌≡◌, IfErr, IfNone, IfOk, IfSome, None, Option, Some, false, length, slice_get};
ghost use Rattle.command_rules.specs.Rosters.{plain_run};
ghost use Rattle.device_gate.specs.Grips.{Gripped};
ghost use Rattle.device_gate.specs.Places.{kept_of};
ghost use Rattle.device_gate.specs.declared.grips.Done.{Done};
ghost use Rattle.device_gate.specs.declared.grips.Ready.{Ready};
ghost use Rattle.history_book.specs.Sealed.{BeginsWithSealed, StaysSealed};
ghost use Rattle.history_book.specs.Settings.{is_weak};
ghost use Rattle.hub_core.specs.Homes.{setting_for};
ghost use Rattle.hub_core.specs.HubCalls.{IsOpened, IsProbed, IsTurn, PlansEarliest, SameWindow, WindowIsClosed};
ghost use Rattle.legal_days.specs.LegalWindows.{history_of};
ghost use Rattle.hub_core.specs.Joins.{MayJoin, joined};
ghost use Rattle.hub_core.specs.OpenHubs.{configuration_of};
ghost use Rattle.hub_core.specs.Openings.{MayOpen};
ghost use Rattle.hub_core.specs.Steps.{not_quiet};
ghost use Rattle.hub_core.specs.declared.turns.Turn.{Turn};
ghost use Rattle.hub_table.specs.Tables.{IsBack, StoodInOrder, TookInOrder, lent_by, taken_of};
ghost use Rattle.lock_leasing.specs.Configurations.{read_of};

use crate::hands::{drop_empty, empty_hands, lift, look, put};
use crate::homecomings::bring_home;
use crate::told::Taken;
use command_rules::{Roster, RosterRun};
use device_gate::{Grip, Ready, Slip, Task};
use device_states::Device;
use history_book::{Made, WindowRecord};
use home_types::{DeviceNo, Mode, NoMemory, RunNo};
use hub_core::{Home, Hub, NotQuiet, Turn};
use std::alloc::Global;
use std::marker::Model;

/// An open window with the grips that are out of it.
///
/// Contracts see what the hub shows. The type keeps that a grip lies in the place of each device
/// that is out, the one with which it is out, and in no other place. Only `open` and `add_run` take
/// memory. One that is dropped makes the call of each grip and gives it back before the hub goes.
pub struct Table<D: Device> {
    pub(crate) hub: Hub<D>,
    /// The grip of each device that is out.
    pub(crate) grips: Vec<Option<Grip<D, Ready>>>,
}

impl<D: Device> Model for Table<D> {
    ghost use Rattle.hub_core.specs.OpenHubs.{OpenHub};
    ghost use Rattle.hub_table.specs.Tables.{GripsAreHeld};

    ghost Value = { OpenHub D };

    ghost view = { λ t. t.hub };

    ghost invariant = { λ t. GripsAreHeld t.hub.places t.grips.items };
}

impl<D: Device> Drop for Table<D> {
    fn drop(self) {
        let Table { mut hub, mut grips } = self;
        let moment = hub.moment();
        'hands: while let Some(hand) = grips.pop() {
            match hand {
                None => {}
                Some(grip) => {
                    let _made = bring_home(&mut hub, grip, moment);
                }
            }
        }
        grips.destroy_empty();
        drop(hub);
    }
}

impl<D: Device> Table<D> {
    /// Opens a window on the home, for the runs of the roster and so many rounds of probes.
    ///
    /// Takes all memory of the window. Answers `NoMemory` where there is none to be had, and gives
    /// the home back.
    pub fn open(
        alloc: Global,
        home: Home<D>,
        roster: Roster,
        mode: Mode,
        rounds: u32,
    ) -> Result<Table<D>, (Home<D>, NoMemory)>
        requires may { MayOpen (setting_for home roster mode) rounds home.opened }
        ensures opened { IfOk result
            (λ table. IsOpened D.shows (setting_for home roster mode) rounds home table) }
        ensures refused { IfErr result (λ refused. refused.0 ≡ home) }
    {
        home.kept_invariant();
        let count = home.world().devices.len() as usize;
        let Ok(hands) = Vec::with_capacity(alloc, count) else {
            drop(roster);
            return Err((home, NoMemory));
        };
        match home.open_window(alloc, roster, mode, rounds) {
            Ok(hub) => {
                let grips = empty_hands(hands, count);
                Ok(Table { hub, grips })
            }
            Err(refused) => {
                hands.destroy_empty();
                Err(refused)
            }
        }
    }

    /// Closes the window, and gives the home and the window's record.
    ///
    /// Refused where something is left to do: the table comes back as it is. Takes no memory.
    pub fn close(self) -> Result<(Home<D>, WindowRecord), (Table<D>, NotQuiet)>
        ensures closed { IfOk result (λ closed. WindowIsClosed D.shows self closed.0 closed.1) }
        ensures sealed { IfOk result (λ closed. is_weak self.setting.mode ≡ false
            → BeginsWithSealed self.setting (history_of closed.1) closed.1.order.items) }
        ensures quiet { IfOk result (λ closed. not_quiet (configuration_of self) ≡ None) }
        ensures same { IfErr result (λ refused. refused.0 ≡ self) }
        ensures refused { IfErr result
            (λ refused. not_quiet (configuration_of self) ≡ Some refused.1) }
    {
        let Table { hub, grips } = self;
        match hub.close_window() {
            Ok(closed) => {
                drop_empty(grips);
                Ok(closed)
            }
            Err((hub, why)) => Err((Table { hub, grips }, why)),
        }
    }

    /// The run joins the window as its last one, and its number is answered. It has not arrived.
    /// The grips that are out stay here.
    ///
    /// Takes the memory that the window would have taken at its opening for one run more. Answers
    /// `NoMemory` where there is none to be had: nothing has changed, and the run is dropped.
    pub fn add_run(&mut self, run: RosterRun) -> Result<RunNo, NoMemory>
        requires may { MayJoin self.old.setting (plain_run run) }
        ensures joined { IfOk result (λ _. self.new ≡ joined self.old (plain_run run)) }
        ensures number { IfOk result (λ r. r.0 ≡ length self.new.setting.runs) }
        ensures refused { IfErr result (λ _. self.new ≡ self.old) }
    {
        self.hub.add_run(run)
    }

    /// The hub, for what it is asked without a step.
    pub fn hub(&self) -> &Hub<D>
        ensures { result.now ≡ self.now }
    {
        &self.hub
    }

    /// With what the device is out, `None` where it is home or none of the home.
    pub fn lent(&self, d: DeviceNo) -> Option<(Slip, Task)>
        ensures { result ≡ kept_of (slice_get self.now.places d.0) }
    {
        look(&self.grips, d)
    }

    /// Makes the step of the run `r` at this moment, in ms, or at the last one where that is later.
    /// The grip of a device that goes out stays here.
    pub fn take(&mut self, r: RunNo, moment: u64) -> Taken
        ensures turn { (turn : Turn D) × IsTurn self.old r.0 moment turn self.new
            × PlansEarliest (configuration_of self.old) r.0 turn × (result ≡ taken_of turn) }
        ensures stood { TookInOrder self.old result }
        ensures sealed { StaysSealed (read_of (configuration_of self.old))
            (read_of (configuration_of self.new)) }
        ensures window { SameWindow self.old self.new }
    {
        // its contract says where its devices stand
        self.hub.kept_invariant();
        match self.hub.take(r, moment) {
            Turn::Go(grip) => {
                grip.kept_invariant();
                let (slip, task) = (grip.slip(), grip.task());
                put(&mut self.grips, slip.device, grip);
                Taken::Out(slip, task)
            }
            Turn::Moved(made) => Taken::Moved(made),
            Turn::Wait(why) => Taken::Waits(why),
            Turn::Over(end, made) => Taken::Over(end, made),
            Turn::Absent => Taken::Absent,
        }
    }

    /// Sends a probe to the device, where one may be sent. Its grip stays here.
    pub fn probe(&mut self, d: DeviceNo) -> Option<(Slip, Task)>
        ensures probed { (probe : Option (Gripped D Ready)) × IsProbed self.old d.0 probe self.new
            × (result ≡ lent_by probe) }
        ensures stood { IfSome result (λ out. StoodInOrder self.old out.0 out.1) }
        ensures sealed { StaysSealed (read_of (configuration_of self.old))
            (read_of (configuration_of self.new)) }
        ensures window { SameWindow self.old self.new }
    {
        // its contract says where its devices stand
        self.hub.kept_invariant();
        match self.hub.take_probe(d) {
            Some(grip) => {
                grip.kept_invariant();
                let (slip, task) = (grip.slip(), grip.task());
                put(&mut self.grips, d, grip);
                Some((slip, task))
            }
            None => None,
        }
    }

    /// Makes the call of the device, which is out, and gives it back. `None` where it is home or
    /// none of the home, and nothing changes.
    pub fn give(&mut self, d: DeviceNo, moment: u64) -> Option<Made>
        ensures back { IfSome result (λ made. (done : Gripped D Done) × (done.slip.device.0 ≡ d.0)
            × IsBack self.old done moment made self.new) }
        ensures none { IfNone result (kept_of (slice_get self.old.places d.0) ≡ None) }
        ensures same { IfNone result (self.new ≡ self.old) }
        ensures sealed { IfSome result (λ _. StaysSealed (read_of (configuration_of self.old))
            (read_of (configuration_of self.new))) }
        ensures window { IfSome result (λ _. SameWindow self.old self.new) }
    {
        match lift(&mut self.grips, d) {
            Some(grip) => Some(bring_home(&mut self.hub, grip, moment)),
            None => None,
        }
    }
}
