//! Lists that are turned round.
ghost use Rattle.std.specs.Prelude.{◌≡◌, ◌≤◌, [], IfOk, length, reverse};

use home_types::{List, NoMemory};
use std::alloc::Global;

/// An empty list with room for so many items, or `NoMemory`.
pub fn room_for<T: Drop>(alloc: Global, items: u64) -> Result<List<T>, NoMemory>
    ensures empty { IfOk result (λ room. room.items ≡ []) }
    ensures room { IfOk result (λ room. items ≤ room.spare) }
{
    let mut room = List::new(alloc);
    match room.reserve(items) {
        Ok(()) => Ok(room),
        Err(NoMemory) => Err(NoMemory),
    }
}

/// The items in the opposite order. They go into the empty list, which has room for them.
pub fn turned<T: Drop>(mut list: List<T>, mut room: List<T>) -> List<T>
    requires empty { room.items ≡ [] }
    requires room { length list.items ≤ room.spare }
    ensures { result.items ≡ reverse list.items }
{
    'items: while let Some(item) = list.pop() {
        room.push(item).unwrap();
    }
    room
}

/// The items in the opposite order, or `NoMemory`; they are dropped then.
pub fn reversed<T: Drop>(alloc: Global, list: List<T>) -> Result<List<T>, NoMemory>
    ensures { IfOk result (λ back. back.items ≡ reverse list.items) }
{
    match room_for(alloc, list.len()) {
        Ok(room) => Ok(turned(list, room)),
        Err(NoMemory) => {
            drop(list);
            Err(NoMemory)
        }
    }
}
