//! What a step of a run did, what is left to do, how a device stands, and an item of an order, as C
//! sees it.
ghost use Rattle.std.specs.Prelude.{◌≡◌, ◌≤◌};
ghost use Rattle.lazbendix_c.specs.Told.{item_of, left_of, of_kind, out_turn, stand_of, turn_of, waiting_turn};

use crate::told_entries::{NO_ENTRY, NOTHING_MADE, ToldEntry, ToldMade, tell_end, tell_made};
use device_gate::{Slip, Task};
use home_types::{Item, Stand};
use hub_core::{NotQuiet, Why};
use hub_table::Taken;

/// What the step of a run did. A number that its kind does not speak of is 0.
#[repr(C)]
#[derive(Clone, Copy, Debug, PartialEq, Eq)]
pub struct ToldTurn {
    /// With which the answer has to come, where a device is out.
    pub ticket: u64,
    /// The entries of the step.
    pub made: ToldMade,
    /// How the run ended, where it has.
    pub end: ToldEntry,
    pub kind: u32,
    /// For what the run waits.
    pub why: u32,
    /// The device that is out, or for which the run waits.
    pub device: u32,
    /// The run for which it waits; of a device that is out the run for which it is out, 0 for a
    /// probe.
    pub run: u32,
    /// What the device is to do.
    pub task: u32,
    /// The value to which it is to be driven.
    pub value: u32,
    /// The value at which the device that is out stands for the hub.
    pub stood: u32,
    /// Always 0.
    pub zero: u32,
}

/// What is left to do in a window: nothing, or a run or a device of this number.
#[repr(C)]
#[derive(Clone, Copy, Debug, PartialEq, Eq)]
pub struct ToldLeft {
    pub kind: u32,
    pub number: u32,
}

/// Where a device stands between two windows, and whether it is up, 1 or 0.
#[repr(C)]
#[derive(Clone, Copy, Debug, PartialEq, Eq)]
pub struct ToldStand {
    pub value: u32,
    pub up: u32,
}

/// An item of an order. A number that its kind does not speak of is 0.
#[repr(C)]
#[derive(Clone, Copy, Debug, PartialEq, Eq)]
pub struct ToldItem {
    pub kind: u32,
    pub run: u32,
    pub device: u32,
    /// Of the failures, or of the restarts, of the device in the window, from 1.
    pub number: u32,
}

/// How many devices, routines and windows a script has.
#[repr(C)]
#[derive(Clone, Copy, Debug, PartialEq, Eq)]
pub struct ToldCounts {
    pub devices: u64,
    pub routines: u64,
    pub windows: u64,
}

const MOVED: u32 = 1;

const WAITS: u32 = 2;

const GO: u32 = 3;

const OVER: u32 = 4;

const ABSENT: u32 = 5;

const DRIVE: u32 = 1;

const SENSE: u32 = 2;

const PROBE: u32 = 3;

const RESTORE: u32 = 4;

/// Tells what a step of this run did.
pub(crate) fn tell_turn(run: u32, taken: &Taken, turn: &mut ToldTurn)
    ensures told { turn.new ≡ turn_of run taken.now }
    ensures few { turn.new.made.count ≤ 3 }
{
    match taken {
        Taken::Out(slip, task) => tell_out(*slip, *task, turn),
        Taken::Moved(made) => {
            tell_kind(MOVED, turn);
            tell_made(made, &mut turn.made);
        }
        Taken::Waits(why) => tell_wait(*why, turn),
        Taken::Over(end, made) => {
            tell_kind(OVER, turn);
            tell_made(made, &mut turn.made);
            tell_end(run, end, &mut turn.end);
        }
        Taken::Absent => tell_kind(ABSENT, turn),
    }
}

/// Tells that the turn is of this kind, and nothing else of it.
fn tell_kind(kind: u32, turn: &mut ToldTurn)
    ensures { turn.new ≡ of_kind kind }
{
    *turn = ToldTurn {
        ticket: 0,
        made: NOTHING_MADE,
        end: NO_ENTRY,
        kind,
        why: 0,
        device: 0,
        run: 0,
        task: 0,
        value: 0,
        stood: 0,
        zero: 0,
    };
}

/// Tells that a device is out.
pub(crate) fn tell_out(slip: Slip, task: Task, turn: &mut ToldTurn)
    ensures { turn.new ≡ out_turn slip task }
{
    tell_kind(GO, turn);
    turn.ticket = slip.ticket;
    turn.device = u32::from(slip.device.0);
    turn.run = slip.maker;
    turn.stood = slip.stood;
    match task {
        Task::Drive(value) => {
            turn.task = DRIVE;
            turn.value = value;
        }
        Task::Sense => turn.task = SENSE,
        Task::Probe(None) => turn.task = PROBE,
        Task::Probe(Some(value)) => {
            turn.task = RESTORE;
            turn.value = value;
        }
    }
}

/// Tells that a run waits.
fn tell_wait(why: Why, turn: &mut ToldTurn)
    ensures { turn.new ≡ waiting_turn why }
{
    let (why, device, run) = match why {
        Why::Follow(run) => (1, 0, run.0),
        Why::Denied(device, run) => (2, u32::from(device.0), run.0),
        Why::Behind(device, run) => (3, u32::from(device.0), run.0),
        Why::Dirty(device, run) => (4, u32::from(device.0), run.0),
        Why::Strict(run) => (5, 0, run.0),
        Why::Busy(device) => (6, u32::from(device.0), 0),
    };
    tell_kind(WAITS, turn);
    turn.why = why;
    turn.device = device;
    turn.run = run;
}

/// What is left to do, as C sees it: 0 nothing, 1 a run that has not ended, 2 a device that is out.
pub(crate) fn left_of(why: Option<NotQuiet>) -> ToldLeft
    ensures { result ≡ left_of why }
{
    match why {
        None => ToldLeft { kind: 0, number: 0 },
        Some(NotQuiet::StillLive(run)) => ToldLeft {
            kind: 1,
            number: run.0,
        },
        Some(NotQuiet::StillOut(device)) => ToldLeft {
            kind: 2,
            number: u32::from(device.0),
        },
    }
}

/// How a device stands, as C sees it.
pub(crate) fn stand_of(stand: Stand) -> ToldStand
    ensures { result ≡ stand_of stand }
{
    ToldStand {
        value: stand.value,
        up: if stand.up { 1 } else { 0 },
    }
}

/// An item of an order, as C sees it: 1 a run, 2 a failure of a device, 3 a restart.
pub(crate) fn item_of(item: Item) -> ToldItem
    ensures { result ≡ item_of item }
{
    match item {
        Item::Ran(run) => ToldItem {
            kind: 1,
            run: run.0,
            device: 0,
            number: 0,
        },
        Item::Failed(device, number) => ToldItem {
            kind: 2,
            run: 0,
            device: u32::from(device.0),
            number,
        },
        Item::Back(device, number) => ToldItem {
            kind: 3,
            run: 0,
            device: u32::from(device.0),
            number,
        },
    }
}
