//! A record against a script.
ghost use Rattle.std.specs.Prelude.{◌≡◌, ◌≤◌, IfOk, length, map};
ghost use Rattle.home_types.specs.Limits.{most_windows};
ghost use Rattle.order_checker.specs.Readers.{AreWindowsTold, progress_told};
ghost use Rattle.order_checker.specs.Steps.{walk};
ghost use Rattle.order_checker.specs.Records.{next_window_told, verdict_of};
ghost use Rattle.routine_reader.specs.Rosters.{start_stand};
ghost use Rattle.routine_reader.specs.Scripts.{plain_script};
ghost use Rattle.routine_reader.specs.Sound.{IsSound};

use crate::heads::after_head;
use crate::totals::{Totals, is_total};
use crate::verdicts::{Halt, Place, Verdict};
use crate::windows::{Progress, read_window};
use home_types::{List, NoMemory, Stand};
use routine_reader::{DeviceText, Script, WindowText};
use std::alloc::Global;

/// Every device up at its start.
fn start_home(alloc: Global, devices: &[DeviceText]) -> Result<List<Stand>, NoMemory>
    ensures { IfOk result (λ home. home.items ≡ map start_stand devices.now) }
{
    let mut home = List::new(alloc);
    home.reserve(devices.len() as u64)?;
    'devices: for device in devices {
        home.push(Stand {
            value: device.start,
            up: true,
        })?;
    }
    Ok(home)
}

/// Reads the windows one after another. The error has the number of the window, from 1.
fn read_windows<'a>(
    alloc: Global,
    script: &Script,
    windows: &[WindowText],
    first: Progress<'a>,
) -> Result<Progress<'a>, (u32, Halt)>
    requires sound { IsSound (plain_script script.now) }
    requires windows { windows.now ≡ script.now.windows.items }
    requires none { first.windows ≡ 0 }
    requires home { length first.home.items ≡ length script.now.devices.items }
    requires runs { first.runs ≡ 0 }
    requires committed { first.committed ≡ 0 }
    ensures told { AreWindowsTold result
        (walk (next_window_told script.now) (progress_told first.entry) windows.now) }
    ensures counts { IfOk result
        (λ last. (last.windows ≤ most_windows) × (last.committed ≤ last.runs)) }
{
    let mut so_far = first;
    'windows: for window in windows {
        let number = so_far.windows + 1;
        match read_window(alloc, script, so_far, window) {
            Ok(next) => so_far = next,
            Err(halt) => return Err((number, halt)),
        }
    }
    Ok(so_far)
}

/// Whether the record is the serial execution of the order that it prints, judged by the script
/// alone.
///
/// The record is read once, from front to end, and the first thing that is not as it should be is
/// the place. Memory is taken for what one window says.
///
/// Asks for a script that the format allows, as `read_script` gives it.
#[tactic(auto, unfolding(crate::specs::Records::verdict_of, crate::specs::Records::record_told))]
pub fn check_record(alloc: Global, script: &Script, text: &[u8]) -> Result<Verdict, NoMemory>
    requires { IsSound (plain_script script.now) }
    ensures { IfOk result (λ verdict. verdict ≡ verdict_of script.now text.now) }
{
    let Some(rest) = after_head(text) else {
        return Ok(Verdict::Differs {
            window: 0,
            place: Place::Head,
        });
    };
    let first = Progress {
        windows: 0,
        home: start_home(alloc, script.devices.as_slice())?,
        rest,
        runs: 0,
        committed: 0,
    };
    let last = match read_windows(alloc, script, script.windows.as_slice(), first) {
        Ok(last) => last,
        Err((_, Halt::Memory)) => return Err(NoMemory),
        Err((window, Halt::At(place))) => return Ok(Verdict::Differs { window, place }),
    };
    let totals = Totals {
        windows: last.windows as u64,
        runs: last.runs,
        committed: last.committed,
    };
    if is_total(alloc, totals, last.rest)? {
        Ok(Verdict::Agrees)
    } else {
        Ok(Verdict::Differs {
            window: last.windows,
            place: Place::Total,
        })
    }
}
