//! Opening a window, which takes all of its memory.
ghost use Rattle.std.specs.Prelude.{IfErr, IfOk, None, [], length, replicate, ◌<◌, ◌^◌, ◌≡◌, ◌≤◌};
ghost use Rattle.command_rules.specs.Footprints.{FitsIndex};
ghost use Rattle.command_rules.specs.Rosters.{runs_of};
ghost use Rattle.device_gate.specs.Places.{all_home};
ghost use Rattle.home_types.specs.Limits.{most_devices, most_probes, most_runs};
ghost use Rattle.blocked_runs.specs.Marks.{NoneMarked};
ghost use Rattle.hub_core.specs.Bounds.{most_entries, most_items};
ghost use Rattle.hub_core.specs.HubCalls.{IsOpened};
ghost use Rattle.hub_core.specs.Homes.{HomeIsKept, setting_for};
ghost use Rattle.hub_core.specs.OpeningRooms.{IsClosingRoom, IsOrderRoom, IsScratchFor};
ghost use Rattle.hub_core.specs.Openings.{MayOpen};
ghost use Rattle.window_devices.specs.KnownDevices.{AreKnown, IsRoomFor};

use crate::homes::Home;
use crate::hubs::Hub;
use crate::open_windows::{ClosingLists, OpenWindow};
use blocked_runs::BlockedRuns;
use command_rules::{IndexedRoster, Roster};
use device_states::Device;
use history_book::{Book, ReadHistory};
use home_types::{Kind, List, Mode, NoMemory, World};
use std::alloc::Global;
use timeline_scheduler::Scratch;
use window_devices::{Checkouts, roomy_list};
use window_order::OrderState;

/// The memory of what a window keeps of its runs.
#[derive(Drop)]
struct StateRoom {
    book: Book,
    order: OrderState,
}

/// The memory of a window, all but that of its devices.
#[derive(Drop)]
struct Room {
    state: StateRoom,
    closing: ClosingLists,
    blocked: BlockedRuns,
    scratch: Scratch,
}

/// A home whose devices stand behind a gate.
#[derive(Drop)]
struct GatedHome<D: Device> {
    kinds: List<Kind>,
    world: World,
    checkouts: Checkouts<D>,
    opened: u32,
}

/// How many entries a history of one run has at most.
pub(crate) const ENTRIES_OF_A_RUN: u64 = 132;

/// How many entries a window may have, and how many items its line.
#[derive(Clone, Copy, Debug, PartialEq, Eq)]
pub(crate) struct Bounds {
    pub(crate) entries: u64,
    pub(crate) items: u64,
}

impl<D: Device> Home<D> {
    /// Opens a window of these runs on the home: its history is empty, and the home's state is its
    /// first one.
    ///
    /// Takes all memory of the window. Answers `NoMemory` where there is none to be had: the home
    /// comes back as it is, and the roster is dropped.
    pub fn open_window(
        self,
        alloc: Global,
        roster: Roster,
        mode: Mode,
        rounds: u32,
    ) -> Result<Hub<D>, (Home<D>, NoMemory)>
        requires may { MayOpen (setting_for self roster mode) rounds self.opened }
        ensures opened { IfOk result
            (λ hub. IsOpened D.shows (setting_for self roster mode) rounds self hub) }
        ensures refused { IfErr result (λ refused. refused.0 ≡ self) }
    {
        let runs = roster.runs.len();
        let Ok(room) = self.room(alloc, &roster, rounds) else {
            return Err((self, NoMemory));
        };
        let Ok(indexed) = IndexedRoster::open(alloc, roster) else {
            drop(room);
            return Err((self, NoMemory));
        };
        match self.behind_gate(alloc, runs, rounds) {
            Ok(home) => Ok(Hub {
                blocked: room.blocked,
                scratch: room.scratch,
                window: OpenWindow {
                    history: ReadHistory::empty(
                        indexed,
                        mode,
                        home.kinds,
                        home.world,
                        room.state.book,
                    ),
                    order: room.state.order,
                    rounds,
                    opened: home.opened,
                    moment: 0,
                    checkouts: home.checkouts,
                    closing: room.closing,
                },
            }),
            Err(home) => {
                drop(room);
                drop(indexed);
                Err((home, NoMemory))
            }
        }
    }

    /// Puts the devices behind a gate, each with so many rounds of probes; none of so many runs
    /// holds one. Where there is no memory for it the home comes back as it is.
    fn behind_gate(self, alloc: Global, runs: u64, rounds: u32) -> Result<GatedHome<D>, Home<D>>
        ensures kinds { IfOk result (λ home. home.kinds.items ≡ self.kinds) }
        ensures world { IfOk result (λ home. home.world.devices.items ≡ self.world) }
        ensures opened { IfOk result (λ home. home.opened ≡ self.opened) }
        ensures places { IfOk result (λ home. home.checkouts.gate.places ≡ all_home self.devices) }
        ensures tickets { IfOk result (λ home. home.checkouts.gate.tickets ≡ 0) }
        ensures known { IfOk result (λ home. AreKnown D.shows self.devices self.world rounds
            (length self.devices) home.checkouts.known.items) }
        ensures held_tokens { IfOk result
            (λ home. home.checkouts.held_tokens.items ≡ replicate runs None) }
        ensures kept { HomeIsKept D.shows self }
        ensures refused { IfErr result (λ home. home ≡ self) }
    {
        let Home {
            kinds,
            world,
            devices,
            opened,
        } = self;
        match Checkouts::open(alloc, devices, &world, runs, rounds) {
            Ok(checkouts) => Ok(GatedHome {
                kinds,
                world,
                checkouts,
                opened,
            }),
            Err((devices, NoMemory)) => Err(Home {
                kinds,
                world,
                devices,
                opened,
            }),
        }
    }

    /// Takes the memory of a window of these runs.
    fn room(&self, alloc: Global, roster: &Roster, rounds: u32) -> Result<Room, NoMemory>
        requires few { length roster.now.runs.items ≤ most_runs }
        requires runs { FitsIndex (runs_of roster.now) }
        requires devices { length self.now.world ≤ most_devices }
        requires rounds { rounds ≤ most_probes }
        ensures book { IfOk result (λ room. IsRoomFor room.state.book
            (most_entries (length roster.now.runs.items) (length self.now.world) rounds)) }
        ensures order { IfOk result (λ room.
            IsOrderRoom (most_items (length roster.now.runs.items) (length self.now.world) rounds)
            (runs_of roster.now) self.now.world room.state.order.line room.state.order.table) }
        ensures closing { IfOk result (λ room.
            IsClosingRoom (most_items (length roster.now.runs.items) (length self.now.world) rounds)
            (length self.now.devices) room.closing) }
        ensures blocked { IfOk result (λ room. NoneMarked room.blocked) }
        ensures scratch { IfOk result (λ room. IsScratchFor (length self.now.world)
            (most_items (length roster.now.runs.items) (length self.now.world) rounds)
            room.scratch) }
    {
        let bounds = bounds_of(roster.runs.len(), self.world.devices.len(), rounds);
        let state = self.state_room(alloc, roster, bounds)?;
        let closing = match closing_lists(alloc, bounds.items, self.devices.len()) {
            Ok(closing) => closing,
            Err(NoMemory) => {
                drop(state);
                return Err(NoMemory);
            }
        };
        let blocked = match BlockedRuns::open(alloc, self.devices.len()) {
            Ok(blocked) => blocked,
            Err(NoMemory) => {
                drop(state);
                drop(closing);
                return Err(NoMemory);
            }
        };
        let count = self.world.devices.len() as u32;
        let scratch = match Scratch::open(alloc, count, bounds.items as u32) {
            Ok(scratch) => scratch,
            Err(NoMemory) => {
                drop(state);
                drop(closing);
                drop(blocked);
                return Err(NoMemory);
            }
        };
        Ok(Room {
            state,
            closing,
            blocked,
            scratch,
        })
    }

    /// Takes the memory of what a window of these runs keeps of them, within these bounds.
    fn state_room(
        &self,
        alloc: Global,
        roster: &Roster,
        bounds: Bounds,
    ) -> Result<StateRoom, NoMemory>
        requires few { length roster.now.runs.items ≤ most_runs }
        requires runs { FitsIndex (runs_of roster.now) }
        requires devices { length self.now.world ≤ most_devices }
        requires items { bounds.items < 2 ^ 32 }
        ensures book { IfOk result (λ state. IsRoomFor state.book bounds.entries) }
        ensures order { IfOk result (λ state. IsOrderRoom bounds.items
            (runs_of roster.now) self.now.world state.order.line state.order.table) }
    {
        let book = Book::with_room(alloc, bounds.entries)?;
        let order = match OrderState::open(alloc, &self.world, roster, bounds.items) {
            Ok(order) => order,
            Err(NoMemory) => {
                drop(book);
                return Err(NoMemory);
            }
        };
        Ok(StateRoom { book, order })
    }
}

/// The bounds of a window of so many runs, on a home of so many devices, with so many rounds of
/// probes.
pub(crate) fn bounds_of(runs: u64, devices: u64, rounds: u32) -> Bounds
    requires runs { runs ≤ most_runs }
    requires devices { devices ≤ most_devices }
    requires rounds { rounds ≤ most_probes }
    ensures entries { result.entries ≡ most_entries runs devices rounds }
    ensures items { result.items ≡ most_items runs devices rounds }
    ensures few { result.items < 2 ^ 32 }
{
    let events = 2 * (rounds as u64 * devices) + devices;
    Bounds {
        entries: ENTRIES_OF_A_RUN * runs + events,
        items: runs + events,
    }
}

/// The lists that closing fills, with room for so many items of the order and for so many devices.
fn closing_lists(alloc: Global, items: u64, devices: u64) -> Result<ClosingLists, NoMemory>
    ensures { IfOk result (λ closing. IsClosingRoom items devices closing) }
{
    Ok(ClosingLists {
        order: roomy_list(alloc, items)?,
        last: roomy_list(alloc, devices)?,
        world: roomy_list(alloc, devices)?,
        turns: roomy_list(alloc, devices)?,
        faults: roomy_list(alloc, devices)?,
    })
}
