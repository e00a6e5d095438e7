//! A window that is stepped by hand.
ghost use Rattle.std.specs.Prelude.{◌≡◌, ◌<◌, IfSome};
ghost use Rattle.routine_reader.specs.Rosters.{kinds_of};
ghost use Rattle.routine_reader.specs.Scripts.{plain_script};
ghost use Rattle.routine_reader.specs.Sound.{IsSound};

use crate::radio_devices::RadioDevice;
use device_states::Device;
use home_types::{DeviceNo, Mode, RunNo, Scheduler, Visibility};
use hub_core::{Home, Hub, Turn};
use routine_reader::{Script, roster};
use std::alloc::Global;

/// How the window is opened.
pub const WINDOW_MODE: Mode = Mode {
    model: Visibility::Eventual,
    scheduler: Scheduler::Fcfs,
};

/// In so many turns the example's runs have ended.
pub const MOST_TURNS: u64 = 64;

/// The turn, from 0, in which every device is probed.
const PROBING_TURN: u64 = 5;

/// Opens the script's window of this number, from 0, on a home that has opened none. None where
/// there is no such window or no memory.
pub fn open_window(
    alloc: Global,
    script: &Script,
    number: u32,
    home: Home<RadioDevice>,
) -> Option<Hub<RadioDevice>>
    requires sound { IsSound (plain_script script.now) }
    requires kinds { home.kinds ≡ kinds_of script.now }
    requires new { home.opened ≡ 0 }
    ensures kinds { IfSome result (λ hub. hub.setting.kinds ≡ kinds_of script.now) }
{
    let Some(window) = script.windows.get(u64::from(number)) else {
        drop(home);
        return None;
    };
    let Ok(roster) = roster(alloc, script, number) else {
        drop(home);
        return None;
    };
    home.kept_invariant();
    match home.open_window(alloc, roster, WINDOW_MODE, window.probes) {
        Ok(hub) => Some(hub),
        Err((home, _)) => {
            drop(home);
            None
        }
    }
}

/// Steps each run, turn after turn, 1 ms each, from this turn until that one, or until nothing is
/// left to do. In one turn every device is probed.
pub fn work<D: Device>(hub: &mut Hub<D>, from: u64, until: u64)
    ensures { hub.new.setting ≡ hub.old.setting }
{
    'turns: for turn in from..until {
        if hub.quiet().is_none() {
            return;
        }
        'runs: for run in 0..hub.run_count() {
            step(hub, RunNo(run + 1), turn);
        }
        hub.kept_invariant();
        'devices: for d in 0..hub.device_count() {
            if turn == PROBING_TURN {
                probe(hub, DeviceNo(d as u16));
            }
        }
    }
}

/// Makes the step of the run, at this moment in ms. A device that goes out makes its call and comes
/// home at once.
fn step<D: Device>(hub: &mut Hub<D>, r: RunNo, moment: u64)
    requires { 0 < r.0 }
    ensures { hub.new.setting ≡ hub.old.setting }
{
    match hub.take(r, moment) {
        // A hub takes back the grip that it handed out.
        Turn::Go(grip) => match hub.give(grip.act(), moment) {
            Ok(_made) => {}
            Err((_back, _stranger)) => unreachable!(),
        },
        Turn::Moved(_made) => {}
        Turn::Wait(_why) => {}
        Turn::Over(_end, _made) => {}
        Turn::Absent => {}
    }
}

/// Probes the device, where it is home and a probe of it is left.
fn probe<D: Device>(hub: &mut Hub<D>, d: DeviceNo)
    ensures { hub.new.setting ≡ hub.old.setting }
{
    match hub.take_probe(d) {
        Some(grip) => match hub.give_probe(grip.act()) {
            Ok(_made) => {}
            Err((_back, _stranger)) => unreachable!(),
        },
        None => {}
    }
}
