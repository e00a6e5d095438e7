//! The words of `rooms`, which has the options of `run` but for two: no trace, and not the weak
//! model.
ghost use Rattle.command_words.specs.RoomWords.{mode_for_rooms, room_mode_of};
ghost use Rattle.std.specs.Prelude.{◌≡◌, Err, IfOk, None, Some, map, string_bytes};

use crate::command_lines::{Options, WordFault};
use crate::option_words::read_options;
use home_types::{Mode, Visibility};
use std::alloc::Global;

/// The mode of these options, where rooms may be run with them.
fn mode_for_rooms(options: Options) -> Option<Mode>
    ensures { result ≡ mode_for_rooms options }
{
    if options.trace {
        return None;
    }
    match options.mode.model {
        Visibility::Weak => None,
        Visibility::Global | Visibility::Partitioned | Visibility::Eventual => Some(options.mode),
    }
}

/// Reads the words of `rooms`, which come without the program's name: the mode that they ask for.
///
/// Answers `Words` where they are not of the format, and `NoMemory` where memory is wanted.
pub fn read_room_words(alloc: Global, words: &[String]) -> Result<Mode, WordFault>
    ensures meaning { IfOk result (λ mode. room_mode_of (map string_bytes words.now) ≡ Some mode) }
    ensures refused { result ≡ Err WordFault.Words
        → room_mode_of (map string_bytes words.now) ≡ None }
{
    let [command, rest @ ..] = words else {
        return Err(WordFault::Words);
    };
    match command.as_str() {
        "rooms" => mode_for_rooms(read_options(alloc, rest)?).ok_or(WordFault::Words),
        _ => Err(WordFault::Words),
    }
}
