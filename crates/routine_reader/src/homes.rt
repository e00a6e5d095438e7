//! What a script says of its home: the kinds of its devices, and the state before the first window.
ghost use Rattle.std.specs.Prelude.{◌≡◌, ◌≤◌, IfOk, length};
ghost use Rattle.home_types.specs.Limits.{most_devices};
ghost use Rattle.routine_reader.specs.Rosters.{kinds_of, start_home};
ghost use Rattle.routine_reader.specs.Scripts.{plain_script};
ghost use Rattle.routine_reader.specs.Sound.{IsSound};

use crate::scripts::Script;
use home_types::{Kind, List, NoMemory, Stand, World};
use std::alloc::Global;

/// The state of the home before the first window: every device up at its start.
///
/// Answers `NoMemory` where there is none to be had.
pub fn start_world(alloc: Global, script: &Script) -> Result<World, NoMemory>
    ensures { IfOk result (λ world. world.devices.items ≡ start_home script.now) }
{
    let mut devices = List::new(alloc);
    'texts: for text in script.devices.as_slice() {
        devices.push(Stand {
            value: text.start,
            up: true,
        })?;
    }
    Ok(World { devices })
}

/// The kinds of the script's devices, by their numbers.
///
/// Answers `NoMemory` where there is none to be had.
pub fn script_kinds(alloc: Global, script: &Script) -> Result<List<Kind>, NoMemory>
    requires sound { IsSound (plain_script script.now) }
    ensures kinds { IfOk result (λ kinds. kinds.items ≡ kinds_of script.now) }
    ensures few { IfOk result (λ kinds. length kinds.items ≤ most_devices) }
{
    let mut kinds = List::new(alloc);
    'texts: for text in script.devices.as_slice() {
        kinds.push(text.kind)?;
    }
    Ok(kinds)
}
