// A home of devices of one's own: opens a window on them, steps its hub by hand, and prints what
// came of it. Then a hub that is killed in the middle of a window, and one that goes on.
#![tactic(auto)]

mod kills;
mod radio_devices;
mod windows;

ghost use Rattle.routine_reader.specs.Scripts.{plain_script};
ghost use Rattle.routine_reader.specs.Sound.{IsSound};

use day_report::window_text;
use device_states::Device;
use history_book::WindowRecord;
use home_types::{Item, List};
use hub_core::{Home, Hub};
use kills::print_killed_day;
use radio_devices::{RadioBench, RadioDevice};
use routine_reader::{Script, read_script};
use std::io::Write;
use std::process::ExitCode;
use windows::{MOST_TURNS, WINDOW_MODE, open_window, work};

/// After so many turns the order is printed as far as it is final.
const FIRST_TURNS: u64 = 7;

/// A lamp, a heating and a fan, and one window with three runs and one round of probes.
const SCRIPT: &str = r#"{"safehome": 1, "devices": [
  {"name": "lamp", "states": ["off", "on"], "start": "off"},
  {"name": "heat", "low": 10, "high": 30, "start": 18},
  {"name": "fan", "states": ["off", "on"], "start": "off"}],
 "routines": [
  {"name": "warm",
    "commands": [{"on": "heat", "do": "set", "to": 20}, {"on": "heat", "do": "set", "to": 22},
    {"on": "heat", "do": "set", "to": 24}]},
  {"name": "cook",
    "commands": [{"on": "lamp", "do": "set", "to": "on"}, {"on": "fan", "do": "set", "to": "on"},
    {"on": "lamp", "do": "set", "to": "off"}, {"on": "fan", "do": "set", "to": "off"}]},
  {"name": "read", "commands": [{"on": "lamp", "do": "set", "to": "on", "must": false},
    {"on": "heat", "do": "load", "must": false},
    {"on": "lamp", "do": "set", "to": "off", "must": false}]}],
 "windows": [{"at": "2021-04-26T18:30", "probes": 1,
    "runs": [{"routine": "warm"}, {"routine": "cook"}, {"routine": "read"}]}]}"#;

fn main(rt: HostRuntime) -> ExitCode {
    match run(&rt).and(print_killed_day(&rt)) {
        Some(()) => ExitCode::SUCCESS,
        None => ExitCode::FAILURE,
    }
}

/// Works the script's window, and prints its order as far as it is final after some turns, then the
/// window with its history, and the counts of each device. None where that fails.
fn run(rt: &HostRuntime) -> Option<()> {
    match read_script(rt.alloc(), SCRIPT.as_bytes()) {
        Ok(script) => {
            let told = play(rt, &script);
            drop(script);
            told
        }
        Err(_) => None,
    }
}

fn play(rt: &HostRuntime, script: &Script) -> Option<()>
    requires sound { IsSound (plain_script script.now) }
{
    let mut bench = RadioBench::new(rt.alloc());
    let home = Home::build(rt.alloc(), &mut bench, script).ok()?;
    let mut hub = open_window(rt.alloc(), script, 0, home)?;
    work(&mut hub, 0, FIRST_TURNS);
    let shown = print_final(rt, script, &hub);
    work(&mut hub, FIRST_TURNS, MOST_TURNS);
    match hub.close_window() {
        Ok((home, closed)) => {
            let told = shown.and(print_window(rt, script, &closed));
            drop(closed);
            let devices = home.into_devices();
            let counted = print_counts(rt, script, &devices);
            drop(devices);
            told.and(counted)
        }
        Err((hub, _)) => {
            drop(hub);
            None
        }
    }
}

/// The items that are final stay first in the line, in this order, whatever comes; so the record's
/// order begins with them.
fn print_final(rt: &HostRuntime, script: &Script, hub: &Hub<RadioDevice>) -> Option<()> {
    print!(rt; "final after {FIRST_TURNS} turns:").ok()?;
    for at in 0..hub.sealed() {
        print_item(rt, script, hub.final_item(at)?)?;
    }
    println!(rt; "").ok()
}

fn print_item(rt: &HostRuntime, script: &Script, item: Item) -> Option<()> {
    match item {
        Item::Ran(run) => print!(rt; " {}", run.0).ok(),
        Item::Failed(device, _) => {
            let name = script.devices.get(device.0 as u64)?.name.as_str();
            print!(rt; " fail({name})").ok()
        }
        Item::Back(device, _) => {
            let name = script.devices.get(device.0 as u64)?.name.as_str();
            print!(rt; " back({name})").ok()
        }
    }
}

fn print_window(rt: &HostRuntime, script: &Script, closed: &WindowRecord) -> Option<()>
    requires sound { IsSound (plain_script script.now) }
{
    let text = window_text(rt.alloc(), script, 0, closed, WINDOW_MODE, true).ok()?;
    rt.stdout().write_all(text.as_slice()).ok()
}

fn print_counts(rt: &HostRuntime, script: &Script, devices: &List<RadioDevice>) -> Option<()> {
    for (text, device) in script.devices.as_slice().iter().zip(devices.as_slice()) {
        let name = text.name.as_str();
        let (turns, probes, faults) = (device.turns(), device.probes(), device.faults());
        println!(rt; "{name}: turns {turns} probes {probes} faults {faults}").ok()?;
    }
    Some(())
}
