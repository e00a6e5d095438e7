//! The words of a command line, read whole.
ghost use Rattle.command_words.specs.CommandLines.{check_of, command_line_of, has_options, trial_of};
ghost use Rattle.std.specs.Prelude.{◌≡◌, Err, IfOk, None, Some, map, string_bytes, true};

use crate::command_lines::{CommandLine, WordFault};
use crate::option_words::read_options;
use crate::trial_numbers::read_number;
use std::alloc::Global;

/// Reads the words of a command line, which come without the program's name.
///
/// Answers `Words` where they are not of the format. `NoMemory` comes with `run`, `replay`, `watch`
/// and `keep` alone, whose options take memory.
pub fn read_words(alloc: Global, words: &[String]) -> Result<CommandLine, WordFault>
    ensures meaning { IfOk result
        (λ line. command_line_of (map string_bytes words.now) ≡ Some line) }
    ensures memory { result ≡ Err WordFault.NoMemory
        → has_options (map string_bytes words.now) ≡ true }
    ensures refused { result ≡ Err WordFault.Words
        → command_line_of (map string_bytes words.now) ≡ None }
{
    let [command, rest @ ..] = words else {
        return Err(WordFault::Words);
    };
    match command.as_str() {
        "run" => Ok(CommandLine::Run(read_options(alloc, rest)?)),
        "replay" => Ok(CommandLine::Replay(read_options(alloc, rest)?)),
        "watch" => Ok(CommandLine::Watch(read_options(alloc, rest)?)),
        "keep" => Ok(CommandLine::Keep(read_options(alloc, rest)?)),
        "check" => read_check(rest).ok_or(WordFault::Words),
        "trial" => read_trial(rest).ok_or(WordFault::Words),
        _ => Err(WordFault::Words),
    }
}

fn read_check(rest: &[String]) -> Option<CommandLine>
    ensures { result ≡ check_of (map string_bytes rest.now) }
{
    match rest {
        [] => Some(CommandLine::Check),
        _ => None,
    }
}

fn read_trial(rest: &[String]) -> Option<CommandLine>
    ensures { result ≡ trial_of (map string_bytes rest.now) }
{
    match rest {
        [number] => read_number(number.as_str()).map(CommandLine::Trial),
        _ => None,
    }
}
