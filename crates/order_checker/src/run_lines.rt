//! The line of a run.
ghost use Rattle.std.specs.Prelude.{◌≡◌, ◌<◌, ◌≤◌, IfOk, IfSome, [], codes, ◌&&◌, length, map, option_map};
ghost use Rattle.std.specs.Option.{option_copied};
ghost use Rattle.home_types.specs.declared.commands.Command.{Command};
ghost use Rattle.order_checker.specs.RunLines.{answers_told, are_device_words, are_lender_words, are_must_words, are_number_words, are_refuted_words, are_revoked_words, command_named, end_told, is_cause, is_run_among, is_value_of, next_answer, run_words_told};
ghost use Rattle.order_checker.specs.Ends.{plain_end};
ghost use Rattle.order_checker.specs.Steps.{IsTold, walk};
ghost use Rattle.order_checker.specs.Words.{texts, words_of};

use crate::values::{answer_of, is_device, value_at};
use crate::verdicts::{Halt, Place};
use crate::words::{is_number, number_of, reads, words_of};
use home_types::{Answer, Command, List, RunNo};
use routine_reader::DeviceText;
use std::alloc::Global;

/// How a run ended, by its line.
#[derive(Drop)]
pub enum RunEnd {
    /// With these answers.
    Committed(List<Answer>),
    /// With a cause.
    Aborted,
}

/// What the line of a run is judged by.
#[derive(Clone, Copy)]
pub struct RunReader<'a> {
    pub devices: &'a [DeviceText],
    /// How many runs the window has.
    pub runs: usize,
    pub run: RunNo,
    /// The name of its routine.
    pub name: &'a str,
    pub commands: &'a [Command],
}

/// The command whose number the word is, from 1.
fn command_named(commands: &[Command], word: &[u8]) -> Option<Command>
    ensures { result ≡ command_named commands.now word.now }
{
    match number_of(word)? {
        0 => None,
        number => commands.get((number - 1) as usize).copied(),
    }
}

/// Whether the word is a value of the device of the command, if there is a command.
fn is_value_of(devices: &[DeviceText], command: Option<Command>, word: &[u8]) -> bool
    ensures { result ≡ is_value_of devices.now command word.now }
{
    match command {
        Some(command) => value_at(devices, command.device, word).is_some(),
        None => false,
    }
}

/// Whether the word is the number of one of so many runs.
fn is_run_among(runs: usize, word: &[u8]) -> bool
    ensures { result ≡ is_run_among runs word.now }
{
    match number_of(word) {
        Some(run) => 1 <= run && run <= runs as u64,
        None => false,
    }
}

/// Whether the two words are this one and a number.
fn are_number_words(text: &str, word: &[u8], number: &[u8]) -> bool
    ensures { result ≡ are_number_words text.now word.now number.now }
{
    reads(word, text) && number_of(number).is_some()
}

/// Whether the two words are `by` and one of so many runs.
fn are_lender_words(runs: usize, by: &[u8], lender: &[u8]) -> bool
    ensures { result ≡ are_lender_words runs by.now lender.now }
{
    reads(by, "by") && is_run_among(runs, lender)
}

/// Whether the words are a deadline and a moment.
fn are_times(deadline: &[u8], end: &[u8], at: &[u8], moment: &[u8]) -> bool
    ensures { result ≡ are_number_words (codes "deadline") deadline.now end.now
        && are_number_words (codes "at") at.now moment.now }
{
    are_number_words("deadline", deadline, end) && are_number_words("at", at, moment)
}

/// Behind `must`: a command.
fn are_must_words(commands: &[Command], words: &[&[u8]]) -> bool
    ensures { result ≡ are_must_words commands.now (texts words.now) }
{
    match words {
        [number] => command_named(commands, number).is_some(),
        _ => false,
    }
}

/// Behind `refuted`: a command, and the value that it found.
fn are_refuted_words(devices: &[DeviceText], commands: &[Command], words: &[&[u8]]) -> bool
    ensures { result ≡ are_refuted_words devices.now commands.now (texts words.now) }
{
    match words {
        [number, found, value] => {
            reads(found, "found") && is_value_of(devices, command_named(commands, number), value)
        }
        _ => false,
    }
}

/// Behind `revoked`: the device, the run that lent it, the deadline, and the moment.
fn are_revoked_words(devices: &[DeviceText], runs: usize, words: &[&[u8]]) -> bool
    ensures { result ≡ are_revoked_words devices.now runs (texts words.now) }
{
    match words {
        [device, by, lender, deadline, end, at, moment] => {
            is_device(devices, device)
                && are_lender_words(runs, by, lender)
                && are_times(deadline, end, at, moment)
        }
        _ => false,
    }
}

/// Behind `lost` and `downatend`: a device.
fn are_device_words(devices: &[DeviceText], words: &[&[u8]]) -> bool
    ensures { result ≡ are_device_words devices.now (texts words.now) }
{
    match words {
        [device] => is_device(devices, device),
        _ => false,
    }
}

/// Whether the words have the form of a cause.
fn is_cause(devices: &[DeviceText], runs: usize, commands: &[Command], words: &[&[u8]]) -> bool
    ensures { result ≡ is_cause devices.now runs commands.now (texts words.now) }
{
    let [kind, words @ ..] = words else {
        return false;
    };
    if reads(kind, "must") {
        return are_must_words(commands, words);
    }
    if reads(kind, "refuted") {
        return are_refuted_words(devices, commands, words);
    }
    if reads(kind, "revoked") {
        return are_revoked_words(devices, runs, words);
    }
    (reads(kind, "lost") || reads(kind, "downatend")) && are_device_words(devices, words)
}

/// Reads an answer to each command, by as many words.
fn read_each_answer(
    alloc: Global,
    devices: &[DeviceText],
    commands: &[Command],
    words: &[&[u8]],
    place: Place,
) -> Result<List<Answer>, Halt>
    requires { length words.now ≡ length commands.now }
    ensures { IsTold (λ answers. answers.items) result
        (walk (next_answer devices.now (texts words.now) place) [] commands.now) }
{
    let mut answers = List::new(alloc);
    answers.reserve(commands.len() as u64)?;
    'commands: for (i, command) in commands.iter().enumerate() {
        let Some(answer) = answer_of(devices, *command, words[i]) else {
            return Err(Halt::At(place));
        };
        answers.push(answer)?;
    }
    Ok(answers)
}

/// Reads an answer to each command.
#[tactic(auto, unfolding(crate::specs::RunLines::answers_told))]
fn read_answers(
    alloc: Global,
    devices: &[DeviceText],
    commands: &[Command],
    words: &[&[u8]],
    place: Place,
) -> Result<List<Answer>, Halt>
    ensures { IsTold (λ answers. answers.items) result
        (answers_told devices.now commands.now (texts words.now) place) }
{
    if words.len() != commands.len() {
        return Err(Halt::At(place));
    }
    read_each_answer(alloc, devices, commands, words, place)
}

/// Reads how the run ended, by the words behind its name.
#[tactic(auto, unfolding(crate::specs::RunLines::end_told))]
fn read_end(
    alloc: Global,
    reader: &RunReader<'_>,
    how: &[u8],
    words: &[&[u8]],
) -> Result<RunEnd, Halt>
    ensures { IsTold plain_end result (end_told reader.now.devices.now reader.now.runs
        reader.now.commands.now how.now (texts words.now) (Place.Run reader.now.run)) }
{
    let place = Place::Run(reader.run);
    if reads(how, "committed") {
        let answers = read_answers(alloc, reader.devices, reader.commands, words, place)?;
        return Ok(RunEnd::Committed(answers));
    }
    if reads(how, "aborted") && is_cause(reader.devices, reader.runs, reader.commands, words) {
        Ok(RunEnd::Aborted)
    } else {
        Err(Halt::At(place))
    }
}

/// Reads the line of a run: its number, the name of its routine, and how it ended.
#[tactic(auto, unfolding(crate::specs::RunLines::run_words_told))]
pub fn read_run_line(alloc: Global, reader: &RunReader<'_>, line: &[u8]) -> Result<RunEnd, Halt>
    ensures { IsTold plain_end result (run_words_told reader.now.devices.now reader.now.runs
        reader.now.run.0 reader.now.name.now reader.now.commands.now (words_of line.now)) }
{
    let words = words_of(alloc, line)?;
    match words.as_slice() {
        [word, number, routine, how, words @ ..]
            if reads(word, "run")
                && is_number(number, reader.run.0 as u64)
                && reads(routine, reader.name) => { read_end(alloc, reader, how, words) }
        _ => Err(Halt::At(Place::Run(reader.run))),
    }
}
