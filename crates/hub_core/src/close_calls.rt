//! Closing a window that is quiet: the home, and the window's record.
ghost use Rattle.std.specs.Prelude.{None, [], false, length, map, true, ◌≡◌};
ghost use Rattle.window_order.specs.Leavings.{IsEmptyFor, stand_left};
ghost use Rattle.hub_core.specs.HubCalls.{WindowIsClosed};
ghost use Rattle.hub_core.specs.OpenHubs.{configuration_of};
ghost use Rattle.hub_core.specs.Steps.{not_quiet};
ghost use Rattle.serial_line.specs.Marks.{items_of};
ghost use Rattle.window_devices.specs.LeftDevices.{all_known_left};

use crate::homes::Home;
use crate::open_windows::OpenWindow;
use device_states::Device;
use history_book::WindowRecord;
use home_types::{Item, List, Stand, World};
use lineage_table::Table;
use serial_line::Line;
use window_devices::{Checkouts, DeviceProgress, Risen, rises_in, stands_known};
use window_order::{line_items, stands_in};

impl<D: Device> OpenWindow<D> {
    /// The home and the record of a window in which nothing is left to do. Takes no memory.
    pub(crate) fn closed(self) -> (Home<D>, WindowRecord)
        requires quiet { not_quiet (configuration_of self) ≡ None }
        ensures { WindowIsClosed D.shows self result.0 result.1 }
    {
        let OpenWindow {
            history,
            order,
            opened,
            checkouts,
            closing,
            ..
        } = self;
        let Checkouts {
            gate,
            known,
            held_tokens: _,
        } = checkouts;
        let weak = history.is_weak();
        let (mode, kinds, first, entries) = history.into_parts();
        let devices = gate.close();
        let last = stands_left(weak, closing.last, &order.table, &known);
        let world = copied(closing.world, &last);
        let Risen { turns, faults } = rises_in(closing.turns, closing.faults, &known, &devices);
        let record = WindowRecord {
            mode,
            first,
            history: entries,
            order: order_of(weak, closing.order, &order.line),
            last: World { devices: last },
            turns,
            faults,
        };
        let home = Home {
            kinds,
            world: World { devices: world },
            devices,
            opened: opened + 1,
        };
        (home, record)
    }
}

/// The order that a record claims: the line, under the weak model none; in a list that has room for
/// it.
fn order_of(weak: bool, empty: List<Item>, line: &Line) -> List<Item>
    requires room { IsEmptyFor empty (length line.now.marks) }
    ensures ordered { weak ≡ false → result.items ≡ items_of line.now.marks }
    ensures weakly { weak ≡ true → result.items ≡ [] }
{
    if weak { empty } else { line_items(empty, line) }
}

/// How the devices are left, in a list that has room for them.
fn stands_left(
    weak: bool,
    empty: List<Stand>,
    table: &Table,
    known: &List<DeviceProgress>,
) -> List<Stand>
    requires room { IsEmptyFor empty (length table.now) }
    requires size { length known.now.items ≡ length table.now }
    ensures ordered { weak ≡ false → result.items ≡ map stand_left table.now }
    ensures weakly { weak ≡ true
        → result.items ≡ all_known_left known.now.items table.now (length table.now) }
{
    if weak {
        stands_known(empty, table, known)
    } else {
        stands_in(empty, table)
    }
}

/// The same stands, in a list that has room for them.
fn copied(empty: List<Stand>, stands: &List<Stand>) -> List<Stand>
    requires room { IsEmptyFor empty (length stands.now.items) }
    ensures { result.items ≡ stands.now.items }
{
    let mut copy = empty;
    let extended = copy.extend_from_slice(stands.as_slice());
    extended.unwrap();
    copy
}
