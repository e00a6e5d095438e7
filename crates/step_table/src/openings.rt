//! The first home of a row, and its window.
ghost use Rattle.std.specs.Prelude.{◌≡◌, ◌<◌, IfOk, IfSome, IsTrue, length};
ghost use Rattle.hub_core.specs.OpenHubs.{configuration_of};
ghost use Rattle.hub_core.specs.Openings.{is_mode};
ghost use Rattle.hub_core.specs.Steps.{opened};
ghost use Rattle.routine_reader.specs.Scripts.{plain_script};
ghost use Rattle.routine_reader.specs.Sound.{IsSound};

use device_states::{SimBench, SimDevice};
use home_types::{Mode, NoMemory, Scheduler, Visibility};
use hub_core::{Home, Hub};
use routine_reader::{Script, roster};
use std::alloc::{AllocError, Global};

/// The devices of the homes.
pub type Dev = SimDevice;

/// A window that was opened, and how often the detector comes to each device in it.
#[derive(Drop)]
pub struct Opened {
    pub hub: Hub<Dev>,
    pub rounds: u32,
}

/// Opens the first window of the script on a new home. None where there is no window, and where the
/// model does not go with the scheduler.
pub fn open_first(alloc: Global, script: &Script, mode: Mode) -> Result<Option<Opened>, AllocError>
    requires sound { IsSound (plain_script script.now) }
    ensures fresh { IfOk result (λ there. IfSome there
        (λ first. configuration_of first.hub ≡ opened first.hub.setting first.hub.rounds)) }
    ensures rounds { IfOk result
        (λ there. IfSome there (λ first. first.hub.rounds ≡ first.rounds)) }
{
    if script.windows.len() == 0 || !is_mode(mode) {
        return Ok(None);
    }
    Ok(Some(open_window(alloc, script, mode)?))
}

/// Whether the model goes with the scheduler.
fn is_mode(mode: Mode) -> bool
    ensures { result ≡ is_mode mode }
{
    matches!(
        (mode.model, mode.scheduler),
        (Visibility::Eventual, _) | (_, Scheduler::Fcfs)
    )
}

/// Opens the first window of the script on a new home.
fn open_window(alloc: Global, script: &Script, mode: Mode) -> Result<Opened, AllocError>
    requires sound { IsSound (plain_script script.now) }
    requires goes { IsTrue (is_mode mode) }
    requires there { 0 < length script.now.windows.items }
    ensures fresh { IfOk result
        (λ first. configuration_of first.hub ≡ opened first.hub.setting first.hub.rounds) }
    ensures rounds { IfOk result (λ first. first.hub.rounds ≡ first.rounds) }
{
    let window = &script.windows.as_slice()[0];
    let Ok(roster) = roster(alloc, script, 0) else {
        return Err(AllocError);
    };
    let Ok(home) = Home::build(alloc, &mut SimBench, script) else {
        return Err(AllocError);
    };
    home.kept_invariant();
    match home.open_window(alloc, roster, mode, window.probes) {
        Ok(hub) => Ok(Opened {
            hub,
            rounds: window.probes,
        }),
        Err((_, NoMemory)) => Err(AllocError),
    }
}
