//! The hub of a script's first window, in which nothing was done yet.
ghost use Rattle.std.specs.Prelude.{◌≡◌, IfSome};
ghost use Rattle.hub_core.specs.OpenHubs.{configuration_of};
ghost use Rattle.hub_core.specs.Steps.{opened};
ghost use Rattle.routine_reader.specs.Scripts.{plain_script};
ghost use Rattle.routine_reader.specs.Sound.{IsSound};

use device_states::Bench;
use home_types::{Mode, Scheduler, Visibility};
use hub_core::{Home, Hub};
use routine_reader::{Script, read_script, roster};
use std::alloc::Global;

/// Reads a script and opens its first window on a new home, under this scheduler.
pub fn fresh_hub<B: Bench>(
    alloc: Global,
    text: &str,
    bench: &mut B,
    scheduler: Scheduler,
) -> Option<Hub<B::Dev>>
    ensures { IfSome result (λ hub. configuration_of hub ≡ opened hub.setting hub.rounds) }
{
    let script = read_script(alloc, text.as_bytes()).ok()?;
    let opened = open_first(alloc, &script, bench, scheduler);
    drop(script);
    let hub = opened?;
    if hub.fresh() {
        Some(hub)
    } else {
        drop(hub);
        None
    }
}

/// Opens the script's first window on a new home, under this scheduler.
pub fn open_first<B: Bench>(
    alloc: Global,
    script: &Script,
    bench: &mut B,
    scheduler: Scheduler,
) -> Option<Hub<B::Dev>>
    requires sound { IsSound (plain_script script.now) }
{
    let window = script.windows.get(0)?;
    let roster = roster(alloc, script, 0).ok()?;
    let home = Home::build(alloc, bench, script).ok()?;
    home.kept_invariant();
    let mode = Mode {
        model: Visibility::Eventual,
        scheduler,
    };
    home.open_window(alloc, roster, mode, window.probes).ok()
}
