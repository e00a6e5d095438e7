//! The order of a window whose rooms went each by its own hub.
ghost use Rattle.room_hubs.specs.Merges.{HasOwnOrder, joined_order, room_order};
ghost use Rattle.room_hubs.specs.Numbers.{IsOwnItem, home_item, plain_room};
ghost use Rattle.std.specs.Prelude.{◌≡◌, ◌++◌, All, IfOk, OnOk, map};

use crate::rosters::{RoomRoster, RoomWindow};
use home_types::{Item, List, NoMemory};
use std::alloc::Global;

/// Puts the items of a room at the end, in the home's numbers.
fn push_items(order: &mut List<Item>, roster: &RoomRoster, items: &[Item]) -> Result<(), NoMemory>
    requires { All (IsOwnItem (plain_room roster.now)) items.now }
    ensures { OnOk result
        (order.new.items ≡ order.old.items ++ map (home_item (plain_room roster.now)) items.now) }
{
    'items: for item in items {
        order.push(roster.home_item(*item))?;
    }
    Ok(())
}

/// Puts the orders of rooms at the end, room after room.
fn join_windows(order: &mut List<Item>, windows: &[RoomWindow]) -> Result<(), NoMemory>
    requires { All (λ window. HasOwnOrder (room_order window)) windows.now }
    ensures { OnOk result
        (order.new.items ≡ order.old.items ++ joined_order (map room_order windows.now)) }
{
    'windows: for window in windows {
        push_items(order, &window.roster, window.closed.order.as_slice())?;
    }
    Ok(())
}

/// The orders of the rooms of one window, room after room, each item in the home's numbers, or
/// `NoMemory`.
pub fn joined(alloc: Global, windows: &List<RoomWindow>) -> Result<List<Item>, NoMemory>
    requires { All (λ window. HasOwnOrder (room_order window)) windows.now.items }
    ensures { IfOk result (λ order. order.items ≡ joined_order (map room_order windows.now.items)) }
{
    let mut order = List::new(alloc);
    join_windows(&mut order, windows.as_slice())?;
    Ok(order)
}
