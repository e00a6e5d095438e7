//! What a window that closes leaves of its line and its lineage table, in lists that were taken as
//! it opened.
ghost use Rattle.std.specs.Prelude.{◌≡◌, ◌≤◌, length, map};
ghost use Rattle.serial_line.specs.Marks.{items_of};
ghost use Rattle.window_order.specs.Leavings.{IsEmptyFor, stand_left};

use home_types::{DeviceNo, Item, List, Stand};
use lineage_table::Table;
use serial_line::Line;

/// The items of the line, in a list that has room for them.
pub fn line_items(empty: List<Item>, line: &Line) -> List<Item>
    requires room { IsEmptyFor empty (length line.now.marks) }
    ensures { result.items ≡ items_of line.now.marks }
{
    let mut items = empty;
    'items: for at in 0..line.len() {
        let pushed = items.push(line.get(at).unwrap());
        pushed.unwrap();
    }
    items
}

/// How the lineages leave their devices, in a list that has room for them.
pub fn stands_in(empty: List<Stand>, table: &Table) -> List<Stand>
    requires room { IsEmptyFor empty (length table.now) }
    ensures { result.items ≡ map stand_left table.now }
{
    let mut stands = empty;
    'devices: for at in 0..table.devices() {
        let device = DeviceNo(at as u16);
        let pushed = stands.push(Stand {
            value: table.stand(device),
            up: table.is_up(device),
        });
        pushed.unwrap();
    }
    stands
}
