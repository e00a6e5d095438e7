//! The script of a trial, made of its number.
ghost use Rattle.home_types.specs.Limits.{most_windows};
ghost use Rattle.routine_reader.specs.Scripts.{plain_script};
ghost use Rattle.routine_reader.specs.Sound.{IsSound};
ghost use Rattle.std.specs.Prelude.{◌≡◌, ◌≤◌, IfOk};
ghost use Rattle.trial_scripts.specs.TrialScripts.{trial_script};

use crate::devices::make_devices;
use crate::routines::draw_routines;
use crate::windows::draw_windows;
use home_types::NoMemory;
use routine_reader::Script;
use seeded_draws::Draws;
use std::alloc::Global;

/// Makes the script of the trial of `n` windows, 1 to `limits::WINDOWS`, or answers `NoMemory`.
///
/// All that is drawn is drawn by one generator that starts with the state `n`, first the routines
/// and then the windows, so a number makes the same script on every machine.
#[tactic(auto, unfolding(crate::specs::TrialScripts::trial_script))]
pub fn trial_script(alloc: Global, n: u32) -> Result<Script, NoMemory>
    requires least { 1 ≤ n }
    requires most { n ≤ most_windows }
    ensures exact { IfOk result (λ script. plain_script script ≡ trial_script n) }
    ensures sound { IfOk result (λ script. IsSound (plain_script script)) }
{
    let mut draws = Draws::new(u64::from(n));
    let devices = make_devices(alloc)?;
    let routines = draw_routines(alloc, &mut draws)?;
    let windows = draw_windows(alloc, &mut draws, n)?;
    Ok(Script {
        devices,
        routines,
        windows,
    })
}
