//! The windows of a trial's script, drawn.
ghost use Rattle.home_types.specs.Limits.{most_windows};
ghost use Rattle.home_types.specs.Listed.{Listed};
ghost use Rattle.routine_reader.specs.Scripts.{plain_window};
ghost use Rattle.std.specs.Prelude.{◌≡◌, ◌<◌, ◌≤◌, IfOk, map};
ghost use Rattle.trial_scripts.specs.Drawings.{draw_each};
ghost use Rattle.trial_scripts.specs.TrialWindows.{draw_run, draw_window, draw_windows, trial_time};

use crate::routines::HOME_ROUTINES;
use day_clock::When;
use home_types::{List, NoMemory};
use routine_reader::{RunText, WindowText};
use seeded_draws::Draws;
use std::alloc::Global;

/// How many runs a window has.
const RUNS: u32 = 64;

/// A window is so many minutes later than the one before.
const MINUTES: u32 = 5;

const MINUTES_OF_AN_HOUR: u32 = 60;

/// The time of the window with this number, from 0. The first one is at midnight.
fn window_time(number: u32) -> When
    requires { number < most_windows }
    ensures { result ≡ trial_time number }
{
    let minute = MINUTES * number;
    When {
        year: 2021,
        month: 4,
        day: 26,
        hour: (minute / MINUTES_OF_AN_HOUR) as u8,
        minute: (minute % MINUTES_OF_AN_HOUR) as u8,
        second: 0,
    }
}

/// Draws a run, which follows none.
#[tactic(auto, unfolding(crate::specs::TrialWindows::draw_run))]
fn draw_run(draws: &mut Draws) -> RunText
    ensures { record { made = result; state = draws.new } ≡ draw_run draws.old }
{
    RunText {
        routine: draws.below(u64::from(HOME_ROUTINES)) as u32,
        follows: None,
    }
}

fn draw_runs(alloc: Global, draws: &mut Draws) -> Result<List<RunText>, NoMemory>
    ensures { IfOk result (λ runs. record {
      made = runs.items;
      state = draws.new;
    } ≡ draw_each (λ _. draw_run) 64 draws.old) }
{
    let mut runs = List::new(alloc);
    'runs: for _ in 0..RUNS {
        runs.push(draw_run(draws))?;
    }
    Ok(runs)
}

/// Draws the window with this number, from 0. Its seed counts windows from 1.
#[tactic(auto, unfolding(crate::specs::TrialWindows::draw_window))]
fn draw_window(alloc: Global, draws: &mut Draws, number: u32) -> Result<WindowText, NoMemory>
    requires { number < most_windows }
    ensures { IfOk result (λ window. record {
      made = plain_window window;
      state = draws.new;
    } ≡ draw_window number draws.old) }
{
    Ok(WindowText {
        at: window_time(number),
        seed: u64::from(number) + 1,
        probes: 0,
        turns: List::new(alloc),
        runs: draw_runs(alloc, draws)?,
    })
}

/// Draws so many windows, one after the other, or answers `NoMemory`.
#[tactic(auto, unfolding(crate::specs::TrialWindows::draw_windows))]
pub fn draw_windows(alloc: Global, draws: &mut Draws, n: u32) -> Result<List<WindowText>, NoMemory>
    requires { n ≤ most_windows }
    ensures { IfOk result (λ windows. record {
      made = map plain_window windows.items;
      state = draws.new;
    } ≡ draw_windows n draws.old) }
{
    let mut windows = List::new(alloc);
    'windows: for number in 0..n {
        windows.push(draw_window(alloc, draws, number)?)?;
    }
    Ok(windows)
}
