//! The words of a day that is run, watched or kept.
ghost use Rattle.std.specs.Prelude.{◌≡◌, Err, IfOk, IsTrue, map, string_bytes};
ghost use Rattle.hub_commands.specs.CommandsTaken.{IsOfNoDay, IsOfDay};
ghost use Rattle.hub_core.specs.Openings.{is_mode};

use command_words::{CommandLine, Options, WordFault, read_words};
use std::alloc::Global;

/// The calls that take one command, with its options.
#[derive(Clone, Copy)]
pub enum DayCall {
    /// `run` alone.
    Runs,
    /// `watch` alone.
    Watches,
    /// `keep` alone.
    Keeps,
}

/// Reads the words of this call.
pub fn read_day_words(alloc: Global, call: DayCall, words: &[String]) -> Result<Options, WordFault>
    ensures meaning { IfOk result (λ options. IsOfDay call (map string_bytes words.now) options) }
    ensures goes { IfOk result (λ options. IsTrue (is_mode options.mode)) }
    ensures refused { result ≡ Err WordFault.Words → IsOfNoDay call (map string_bytes words.now) }
{
    match (call, read_words(alloc, words)?) {
        (DayCall::Runs, CommandLine::Run(options)) => Ok(options),
        (DayCall::Watches, CommandLine::Watch(options)) => Ok(options),
        (DayCall::Keeps, CommandLine::Keep(options)) => Ok(options),
        _ => Err(WordFault::Words),
    }
}
