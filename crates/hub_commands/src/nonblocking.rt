//! The call for the commands that wait for nobody.
ghost use Rattle.std.specs.Prelude.{◌≡◌, IsTrue, None, map, string_bytes};
ghost use Rattle.hub_commands.specs.Calls.{CallEnds, DayCallEnds};
ghost use Rattle.hub_commands.specs.CommandsTaken.{still_line_of};
ghost use Rattle.hub_commands.specs.Days.{plain};
ghost use Rattle.hub_commands.specs.Finishes.{read_off, written};
ghost use Rattle.hub_commands.specs.Statuses.{status_for_fault};
ghost use Rattle.hub_commands.specs.Ways.{IsReplayOf};
ghost use Rattle.hub_core.specs.Openings.{is_mode};

use crate::checks::check_input;
use crate::days::refuse;
use crate::faults::Fault;
use crate::finishes::Finish;
use crate::inputs::read_input;
use crate::replays::replay_day;
use crate::trials::play_trial;
use command_words::{CommandLine, Options, WordFault, read_words};
use day_clock::{Sink, Source};
use device_states::Bench;
use std::alloc::Global;

/// Reads a day's script from the source, and replays it.
fn replay_input<S: Source, K: Sink, B: Bench>(
    alloc: Global,
    options: Options,
    source: &mut S,
    sink: &mut K,
    bench: &mut B,
) -> Finish<B::Dev>
    requires goes { IsTrue (is_mode options.mode) }
    ensures status { result.status ≡ status_for_fault result.fault }
    ensures ends { DayCallEnds IsReplayOf B.Dev.shows plain options (read_off (S.left source.old)
        (S.left source.new) (S.faults source.old) (S.faults source.new))
        (written (K.holds sink.old) (K.holds sink.new) (K.faults sink.old) (K.faults sink.new))
        result.day result.fault }
    ensures unasked { result.day ≡ None → bench.new ≡ bench.old }
{
    match read_input(alloc, source) {
        Ok(script) => replay_day(alloc, &script, options, sink, bench),
        Err(fault) => refuse(fault),
    }
}

/// Runs a command that waits for nobody.
///
/// `replay` reads a day's script from the source, plays its windows on devices of the bench by
/// their turns and their seeds, and writes the record to the sink. `check` reads a script and a
/// record, which a line `%%` divides, and writes `agrees` where the record is the serial execution
/// of its orders. `trial` makes a script of its number, plays its day, checks the record and writes
/// one line; it reads nothing. The words are those on the command line, without the program's name;
/// `run`, `watch` and `keep` are refused as words.
///
/// The status tells how the call ended: 0, all is written; 1, the script is refused; 2, the words
/// are of no command that this call takes; 3, the source failed; 4, the sink failed, and holds a
/// first part of what was due; 5, want of memory, and the sink holds a first part of what was due;
/// 7, the record does not agree. At 1, 2, 3 and 7 nothing is written. docs/FORMATS.md has the
/// words, the script and the record.
pub fn still_command<S: Source, K: Sink, B: Bench>(
    alloc: Global,
    words: &[String],
    source: &mut S,
    sink: &mut K,
    bench: &mut B,
) -> Finish<B::Dev>
    ensures status { result.status ≡ status_for_fault result.fault }
    ensures ends { CallEnds IsReplayOf B.Dev.shows (still_line_of (map string_bytes words.now))
        (read_off (S.left source.old) (S.left source.new) (S.faults source.old)
        (S.faults source.new))
        (written (K.holds sink.old) (K.holds sink.new) (K.faults sink.old) (K.faults sink.new))
        result.day result.fault }
    // No device is built, so none is called, where there is no day.
    ensures unasked { result.day ≡ None → bench.new ≡ bench.old }
{
    match read_words(alloc, words) {
        Ok(CommandLine::Replay(options)) => replay_input(alloc, options, source, sink, bench),
        Ok(CommandLine::Check) => check_input(alloc, source, sink),
        Ok(CommandLine::Trial(number)) => play_trial(alloc, number, sink, bench),
        Ok(CommandLine::Watch(_)) => refuse(Fault::Words),
        Ok(CommandLine::Keep(_)) => refuse(Fault::Words),
        Ok(CommandLine::Run(_)) | Err(WordFault::Words) => refuse(Fault::Words),
        Err(WordFault::NoMemory) => refuse(Fault::Memory),
    }
}
