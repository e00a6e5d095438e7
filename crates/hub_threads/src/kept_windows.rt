//! A window worked with threads, whose last state is on the disk before its record is handed out.
ghost use Rattle.std.specs.Prelude.{◌≡◌, ◌<◌, [], ◌∷◌, IfErr, IfOk, length, true, ℕ};
ghost use Rattle.home_journal.specs.Journals.{AddsStates, LeavesFirst, states_kept};
ghost use Rattle.hub_core.specs.OpenHubs.{configuration_of};
ghost use Rattle.hub_core.specs.Steps.{opened};
ghost use Rattle.hub_threads.specs.KeptWindows.{KeepsOneMore, KeepFails};
ghost use Rattle.hub_threads.specs.WorkedWindows.{IsWorked};

use crate::windows::run_window;
use day_clock::{Clock, Failed};
use device_states::Device;
use history_book::WindowRecord;
use home_journal::Journal;
use home_types::NoMemory;
use hub_core::{Home, Hub};
use slot_disks::Disk;
use std::alloc::Global;
use std::sync::Wait;
use std::thread::Threads;

/// Why a window was not kept, with what is left.
#[derive(Drop)]
pub enum KeepFault<D: Device, Q: Disk> {
    /// There was no memory for the window: the hub and the journal are as they were.
    NoMemory(Hub<D>, Journal<Q>),
    /// The window was worked, and a call of the disk failed: opened again, the journal tells
    /// whether it is kept.
    Failed(Home<D>, WindowRecord, Q),
}

/// Works a window as `run_window` does, and keeps the state in which it left the home, before its
/// record is handed out.
///
/// From `Ok` on every crash leaves the state kept. A crash at any moment of the call leaves what
/// was kept, with the new state or without.
pub fn run_kept_window<R: Threads + Wait + Sync, D: Device + Send, C: Clock + Sync, Q: Disk>(
    rt: &R,
    alloc: Global,
    hub: Hub<D>,
    rounds: u32,
    clock: &C,
    journal: Journal<Q>,
) -> Result<(Home<D>, WindowRecord, Journal<Q>), KeepFault<D, Q>>
    requires fresh { configuration_of hub ≡ opened hub.setting hub.rounds }
    requires rounds { (d : ℕ) → d < length hub.setting.first
        → (configuration_of hub).probes d ≡ rounds }
    requires kinds { journal.kinds ≡ hub.setting.kinds }
    requires next { journal.kept < journal.most }
    ensures worked { IfOk result
        (λ done. IsWorked D.shows (C.earliest clock.now) (C.latest clock.now) hub done.0 done.1) }
    ensures last { IfOk result (λ done. KeepsOneMore journal done.2 done.1.last.devices.items) }
    ensures kept { Q.told ≡ true → IfOk result (λ done. AddsStates (states_kept Q.seen journal)
        (states_kept Q.seen done.2) (done.1.last.devices.items ∷ [])) }
    // A crash at any moment of the call leaves what was kept, with the new state or without.
    ensures any_moment { Q.told ≡ true → IfOk result (λ done. LeavesFirst Q.seen Q.moment
        Q.images_since journal done.2.disk (done.1.last.devices.items ∷ [])) }
    ensures fails { IfErr result (λ fault. KeepFails D.shows (C.earliest clock.now)
        (C.latest clock.now) Q.told Q.seen Q.moment Q.images_since Q.faults hub journal fault) }
{
    match run_window(rt, alloc, hub, rounds, clock) {
        Ok((home, closed)) => {
            match journal.keep(home.world()) {
                Ok(journal) => Ok((home, closed, journal)),
                Err((disk, Failed)) => Err(KeepFault::Failed(home, closed, disk)),
            }
        }
        Err((hub, NoMemory)) => Err(KeepFault::NoMemory(hub, journal)),
    }
}
