//! The windows of all rooms of a home, at once.
ghost use Rattle.hub_threads.specs.WorkedRooms.{AreRoomsWorked, IsReady, IsRoomWorked};
ghost use Rattle.std.specs.Prelude.{◌≡◌, ◌<◌, ℕ, All, IfOk, Ok, length, map, slice_index_or};

use crate::windows::run_window;
use day_clock::Clock;
use device_states::Device;
use home_types::{List, NoMemory};
use hub_core::{Home, Hub};
use room_hubs::{RoomRoster, RoomWindow};
use std::alloc::{AllocError, Global};
use std::sync::Wait;
use std::thread;
use std::thread::Threads;

/// A room with its hub, whose window was opened with the room's roster.
#[derive(Drop)]
pub struct RoomHub<D: Device> {
    pub roster: RoomRoster,
    pub hub: Hub<D>,
}

/// A room whose window was worked.
#[derive(Drop)]
pub struct RoomDone<D: Device> {
    pub window: RoomWindow,
    /// The home of the room's devices.
    pub home: Home<D>,
}

/// The items in order, in a vector, or `NoMemory`.
fn into_vec<T: Drop>(alloc: Global, mut list: List<T>) -> Result<Vec<T>, NoMemory>
    ensures { IfOk result (λ items. items.items ≡ list.items) }
{
    let mut items = Vec::new(alloc);
    if items.reserve_exact(list.len() as usize).is_err() {
        return Err(NoMemory);
    }
    'items: while let Some(item) = list.pop() {
        items.push_reserved(item);
    }
    items.reverse();
    Ok(items)
}

/// What all answered, where none wanted memory.
fn gather<T: Drop>(alloc: Global, answers: Vec<Result<T, NoMemory>>) -> Result<List<T>, NoMemory>
    ensures { IfOk result (λ all. map Ok all.items ≡ answers.items) }
{
    let mut all = List::new(alloc);
    for answer in answers {
        match answer {
            Ok(done) => all.push(done)?,
            Err(NoMemory) => return Err(NoMemory),
        }
    }
    Ok(all)
}

fn run_room<R: Threads + Wait + Sync, D: Device + Send, C: Clock + Sync>(
    rt: &R,
    alloc: Global,
    job: RoomHub<D>,
    rounds: u32,
    clock: &C,
) -> Result<RoomDone<D>, NoMemory>
    requires { IsReady rounds job }
    ensures { IfOk result
        (λ done. IsRoomWorked D.shows (C.earliest clock.now) (C.latest clock.now) job done) }
{
    let RoomHub { roster, hub } = job;
    match run_window(rt, alloc, hub, rounds, clock) {
        Ok((home, closed)) => Ok(RoomDone {
            window: RoomWindow { roster, closed },
            home,
        }),
        Err((hub, NoMemory)) => {
            drop(hub);
            drop(roster);
            Err(NoMemory)
        }
    }
}

/// The answer of each room.
fn run_all<R: Threads + Wait + Sync, D: Device + Send, C: Clock + Sync>(
    rt: &R,
    alloc: Global,
    jobs: Vec<RoomHub<D>>,
    rounds: u32,
    clock: &C,
) -> Result<Vec<Result<RoomDone<D>, NoMemory>>, AllocError>
    requires { All (IsReady rounds) jobs.items }
    ensures len { IfOk result (λ answers. length answers.items ≡ length jobs.items) }
    ensures each { IfOk result (λ answers. (i : ℕ) (d : _) (e : _) → i < length jobs.items
        → IfOk (slice_index_or answers.items i d) (λ done. IsRoomWorked D.shows
        (C.earliest clock.now) (C.latest clock.now) (slice_index_or jobs.items i e) done)) }
{
    thread::map_vec(
        rt,
        jobs,
        &|job: RoomHub<D>| -> Result<RoomDone<D>, NoMemory>
            requires { IsReady rounds job }
            ensures { IfOk result (λ done. IsRoomWorked D.shows (C.earliest clock.entry.now)
                (C.latest clock.entry.now) job done) }
        { run_room(rt, alloc, job, rounds, clock) },
    )
}

/// Works the windows of all rooms at once, each as `run_window` does, with so many rounds of
/// probes. A hub has been opened with the roster of its room, and nothing was done in it yet.
///
/// Answers `NoMemory` where one of them does, and the hubs and homes of all are dropped then. It
/// may wait: what is said of its answer holds if it returns. Nothing says that two rooms overlap in
/// time.
pub fn run_rooms<R: Threads + Wait + Sync, D: Device + Send, C: Clock + Sync>(
    rt: &R,
    alloc: Global,
    hubs: List<RoomHub<D>>,
    rounds: u32,
    clock: &C,
) -> Result<List<RoomDone<D>>, NoMemory>
    requires { All (IsReady rounds) hubs.items }
    ensures { IfOk result (λ done. AreRoomsWorked D.shows (C.earliest clock.now)
        (C.latest clock.now) hubs.items done.items) }
{
    match into_vec(alloc, hubs) {
        Ok(jobs) => match run_all(rt, alloc, jobs, rounds, clock) {
            Ok(answers) => gather(alloc, answers),
            Err(_) => Err(NoMemory),
        },
        Err(NoMemory) => Err(NoMemory),
    }
}
