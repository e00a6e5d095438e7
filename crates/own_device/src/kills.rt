//! A day over a journal: a hub is killed in the middle of a window, and one begins again behind the
//! windows that are kept.
ghost use Rattle.std.specs.Prelude.{◌≡◌, ◌<◌, IfOk, IfSome};
ghost use Rattle.routine_reader.specs.Rosters.{kinds_of};
ghost use Rattle.routine_reader.specs.Scripts.{plain_script};
ghost use Rattle.routine_reader.specs.Sound.{IsSound};

use crate::radio_devices::{RadioBench, RadioDevice, Thing};
use crate::windows::{MOST_TURNS, open_window, work};
use home_journal::Journal;
use home_types::{Bytes, NoMemory};
use hub_core::{Home, Hub, script_kinds};
use routine_reader::{Script, read_script};
use slot_disks::MemoryDisk;
use std::alloc::Global;
use std::io::Write;

/// A lamp and a heating: somebody comes home, and leaves again.
const SCRIPT: &str = r#"{"safehome": 1, "devices": [
  {"name": "lamp", "states": ["off", "on"], "start": "off"},
  {"name": "heat", "low": 10, "high": 30, "start": 18}],
 "routines": [
  {"name": "come",
    "commands": [{"on": "lamp", "do": "set", "to": "on"}, {"on": "heat", "do": "set", "to": 21}]},
  {"name": "leave",
    "commands": [{"on": "lamp", "do": "set", "to": "off"}, {"on": "heat", "do": "set", "to": 15}]}],
 "windows": [
  {"at": "2021-04-26T18:30", "runs": [{"routine": "come"}]},
  {"at": "2021-04-27T07:00", "runs": [{"routine": "leave"}]}]}"#;

/// As many bytes as the disk has room for.
const ROOM: u64 = 100;

/// How many turns of a window each hub works before it is killed: the first one closes its window,
/// the second has driven both devices when its run has not ended, the third is killed at once, the
/// last one closes the window.
const TURNS: [u64; 4] = [MOST_TURNS, 4, 0, MOST_TURNS];

/// Prints, behind each of four hubs on the same things, how many windows are kept, and where the
/// things stand. None where that fails.
pub fn print_killed_day(rt: &HostRuntime) -> Option<()> {
    match read_script(rt.alloc(), SCRIPT.as_bytes()) {
        Ok(script) => {
            let told = play(rt, &script);
            drop(script);
            told
        }
        Err(_) => None,
    }
}

fn play(rt: &HostRuntime, script: &Script) -> Option<()>
    requires sound { IsSound (plain_script script.now) }
{
    let mut bench = RadioBench::new(rt.alloc());
    let empty = Bytes::of(rt.alloc(), &[]).ok()?;
    let mut disk = MemoryDisk::new(rt.alloc(), empty, ROOM, None).ok()?;
    'hubs: for turns in TURNS {
        let (left, kept) = live(rt.alloc(), script, &mut bench, disk, turns);
        disk = left.crashed(false);
        print_things(rt, script, kept, bench.things())?;
    }
    Some(())
}

/// A hub begins behind what the disk keeps, works the next window for so many turns, and keeps its
/// state if it closes. Answers the disk, and how many windows are kept.
fn live(
    alloc: Global,
    script: &Script,
    bench: &mut RadioBench,
    disk: MemoryDisk,
    turns: u64,
) -> (MemoryDisk, u32)
    requires sound { IsSound (plain_script script.now) }
{
    let Ok(kinds) = script_kinds(alloc, script) else {
        return (disk, 0);
    };
    let most = script.windows.len() as u32;
    match Journal::open(alloc, disk, &kinds, most) {
        Ok(journal) => {
            let kept = journal.kept();
            if kept == most {
                return (journal.into_disk(), kept);
            }
            match begin(alloc, script, bench, &journal) {
                Some(hub) => end(journal, hub, turns),
                None => (journal.into_disk(), kept),
            }
        }
        Err((disk, _fault)) => (disk, 0),
    }
}

/// Opens the window behind those that are kept. None where there is no memory.
fn begin(
    alloc: Global,
    script: &Script,
    bench: &mut RadioBench,
    journal: &Journal<MemoryDisk>,
) -> Option<Hub<RadioDevice>>
    requires sound { IsSound (plain_script script.now) }
    requires kinds { journal.now.kinds ≡ kinds_of script.now }
    ensures kinds { IfSome result (λ hub. hub.setting.kinds ≡ kinds_of script.now) }
{
    let home = home_of(alloc, script, bench, journal).ok()?;
    open_window(alloc, script, journal.kept(), home)
}

/// The home of the script: as the last state that is kept has it, or new where none is.
fn home_of(
    alloc: Global,
    script: &Script,
    bench: &mut RadioBench,
    journal: &Journal<MemoryDisk>,
) -> Result<Home<RadioDevice>, NoMemory>
    requires sound { IsSound (plain_script script.now) }
    requires kinds { journal.now.kinds ≡ kinds_of script.now }
    ensures kinds { IfOk result (λ home. home.kinds ≡ kinds_of script.now) }
    ensures new { IfOk result (λ home. home.opened ≡ 0) }
{
    match journal.last() {
        Some(world) => Home::resume(alloc, bench, script, world),
        None => Home::build(alloc, bench, script),
    }
}

/// Works the window for so many turns, and keeps its state if it closes. Else the hub is killed in
/// the middle of it.
fn end(journal: Journal<MemoryDisk>, hub: Hub<RadioDevice>, turns: u64) -> (MemoryDisk, u32)
    requires kinds { journal.kinds ≡ hub.setting.kinds }
    requires next { journal.kept < journal.most }
{
    let kept = journal.kept();
    let mut hub = hub;
    work(&mut hub, 0, turns);
    match hub.close_window() {
        Ok((home, closed)) => {
            drop(closed);
            let next = journal.keep(home.world());
            drop(home);
            match next {
                Ok(journal) => (journal.into_disk(), kept + 1),
                Err((disk, _)) => (disk, kept),
            }
        }
        Err((hub, _)) => {
            drop(hub);
            (journal.into_disk(), kept)
        }
    }
}

fn print_things(rt: &HostRuntime, script: &Script, kept: u32, things: &[Thing]) -> Option<()> {
    print!(rt; "kept {kept}:").ok()?;
    for (text, thing) in script.devices.as_slice().iter().zip(things) {
        let name = text.name.as_str();
        let value = thing.get();
        print!(rt; " {name} {value}").ok()?;
    }
    println!(rt; "").ok()
}
