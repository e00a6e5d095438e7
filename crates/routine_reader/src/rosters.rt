//! The roster of a window of a script.
ghost use Rattle.command_rules.specs.Rosters.{plain_run, runs_of};
ghost use Rattle.home_types.specs.Listed.{Listed};
ghost use Rattle.routine_reader.specs.Rosters.{run_of_text, script_runs};
ghost use Rattle.routine_reader.specs.Scripts.{plain_script};
ghost use Rattle.routine_reader.specs.Sound.{IsSound};
ghost use Rattle.std.specs.Prelude.{◌≡◌, ◌<◌, All, IfOk, length, map};

use crate::scripts::{RunText, Script};
use command_rules::{Roster, RosterRun};
use home_types::{List, NoMemory};
use std::alloc::Global;

/// The run with the commands of its routine.
fn roster_run(script: &Script, run: &RunText) -> Result<RosterRun, NoMemory>
    requires { run.now.routine < length script.now.routines.items }
    ensures { IfOk result (λ made. plain_run made ≡ run_of_text script.now run.now) }
{
    let text = &script.routines.as_slice()[run.routine as usize];
    Ok(RosterRun {
        routine: text.routine.share()?,
        follows: run.follows,
    })
}

fn roster_of(alloc: Global, script: &Script, texts: &[RunText]) -> Result<Roster, NoMemory>
    requires { All (λ run. run.routine < length script.now.routines.items) texts.now }
    ensures { IfOk result (λ roster. runs_of roster ≡ map (run_of_text script.now) texts.now) }
{
    let mut runs = List::new(alloc);
    runs.reserve(texts.len() as u64)?;
    'texts: for text in texts {
        runs.push(roster_run(script, text)?)?;
    }
    Ok(Roster { runs })
}

/// The runs of a window, counted from 0, with the commands of their routines, or `NoMemory`.
pub fn roster(alloc: Global, script: &Script, window: u32) -> Result<Roster, NoMemory>
    requires window { window < length script.now.windows.items }
    requires sound { IsSound (plain_script script.now) }
    ensures { IfOk result (λ roster. runs_of roster ≡ script_runs script.now window) }
{
    let text = &script.windows.as_slice()[window as usize];
    roster_of(alloc, script, text.runs.as_slice())
}
