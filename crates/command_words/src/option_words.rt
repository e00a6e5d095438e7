//! The options of a day, read by `clap`: the model, the scheduler and the trace.
ghost use Rattle.clap.specs.Words.{app_of, found_of};
ghost use Rattle.command_words.specs.OptionGrammar.{options_by_words};
ghost use Rattle.command_words.specs.OptionWords.{goes_with, mode_asked_for, model_asked_for, options_app, options_found, options_read, options_with, scheduler_asked_for, trace_of};
ghost use Rattle.std.specs.List.{list_any};
ghost use Rattle.std.specs.Str.{bytes_eq};
ghost use Rattle.std.specs.Prelude.{◌≡◌, codes, Err, IfOk, None, Some, map, option_map, string_bytes};

use crate::command_lines::{Options, WordFault};
use clap::error::ErrorKind;
use clap::{Arg, ArgAction, ArgMatches, Command};
use home_types::{Mode, Scheduler, Visibility};
use std::alloc::Global;

/// Reads the options of `run`, `replay`, `watch` and `keep`: the words after the command.
///
/// Answers `Words` where they are not of the format, and `NoMemory` where memory is wanted.
pub fn read_options(alloc: Global, words: &[String]) -> Result<Options, WordFault>
    ensures meaning { IfOk result
        (λ options. options_by_words (map string_bytes words.now) ≡ Some options) }
    ensures refused { result ≡ Err WordFault.Words
        → options_by_words (map string_bytes words.now) ≡ None }
{
    if has_end_mark(words) {
        return Err(WordFault::Words);
    }
    read_with_clap(alloc, words)
}

/// Whether a word is `--`, which `clap` would take for the end of the options.
fn has_end_mark(words: &[String]) -> bool
    ensures { result ≡ list_any (λ word. bytes_eq (string_bytes word) (codes "--")) words.now }
{
    words.iter().any(|word| word.as_str() == "--")
}

fn read_with_clap(alloc: Global, words: &[String]) -> Result<Options, WordFault>
    ensures meaning { IfOk result
        (λ options. options_read (map string_bytes words.now) ≡ Some options) }
    ensures refused { result ≡ Err WordFault.Words
        → options_read (map string_bytes words.now) ≡ None }
{
    let Ok(command) = options_command(alloc) else {
        return Err(WordFault::NoMemory);
    };
    let matches = match command.try_get_matches_from(words) {
        Ok(matches) => matches,
        Err(error) => {
            if error.kind() == ErrorKind::OutOfMemory {
                return Err(WordFault::NoMemory);
            }
            return Err(WordFault::Words);
        }
    };
    match options_in(&matches) {
        Some(options) => Ok(options),
        None => Err(WordFault::Words),
    }
}

/// The three options, as one simple command without help and version.
fn options_command<'a>(alloc: Global) -> Result<Command<'a>, clap::Error>
    ensures { IfOk result (λ command. app_of command ≡ options_app) }
{
    let model = Arg::new(alloc, "model").long("model");
    let scheduler = Arg::new(alloc, "scheduler").long("scheduler");
    let trace = Arg::new(alloc, "trace")
        .long("trace")
        .action(ArgAction::SetTrue);
    let command = Command::new(alloc, "options")
        .no_binary_name(true)
        .disable_help_flag(true)
        .disable_version_flag(true)
        .arg(model)?
        .arg(scheduler)?
        .arg(trace)?;
    Ok(command)
}

/// The options that `clap` found.
fn options_in(matches: &ArgMatches<'_>) -> Option<Options>
    ensures { result ≡ options_found (found_of matches.now) }
{
    choose(
        matches.get_str("model"),
        matches.get_str("scheduler"),
        matches.get_str("trace"),
    )
}

/// The options with these values, where each is one of its words and the model has the scheduler.
fn choose(model: Option<&str>, scheduler: Option<&str>, trace: Option<&str>) -> Option<Options>
    ensures { result ≡ options_with (option_map (λ w. w.now) model.entry)
        (option_map (λ w. w.now) scheduler.entry) (option_map (λ w. w.now) trace.entry) }
{
    let mode = read_mode(model, scheduler)?;
    Some(Options {
        mode,
        trace: read_trace(trace),
    })
}

fn read_mode(model: Option<&str>, scheduler: Option<&str>) -> Option<Mode>
    ensures { result ≡ mode_asked_for (option_map (λ w. w.now) model.entry)
        (option_map (λ w. w.now) scheduler.entry) }
{
    let model = read_model(model)?;
    let scheduler = read_scheduler(scheduler)?;
    if !goes_with(scheduler, model) {
        return None;
    }
    Some(Mode { model, scheduler })
}

/// Whether the model has the scheduler: every model has first come, first served, and the eventual
/// one has all.
fn goes_with(scheduler: Scheduler, model: Visibility) -> bool
    ensures { result ≡ goes_with scheduler model }
{
    matches!(
        (scheduler, model),
        (Scheduler::Fcfs, _) | (_, Visibility::Eventual)
    )
}

fn read_model(word: Option<&str>) -> Option<Visibility>
    ensures { result ≡ model_asked_for (option_map (λ w. w.now) word.entry) }
{
    match word {
        None => Some(Visibility::Eventual),
        Some("wv") => Some(Visibility::Weak),
        Some("gsv") => Some(Visibility::Global),
        Some("psv") => Some(Visibility::Partitioned),
        Some("ev") => Some(Visibility::Eventual),
        Some(_) => None,
    }
}

fn read_scheduler(word: Option<&str>) -> Option<Scheduler>
    ensures { result ≡ scheduler_asked_for (option_map (λ w. w.now) word.entry) }
{
    match word {
        None => Some(Scheduler::Fcfs),
        Some("fcfs") => Some(Scheduler::Fcfs),
        Some("jit") => Some(Scheduler::JustInTime),
        Some("timeline") => Some(Scheduler::Timeline),
        Some(_) => None,
    }
}

/// Whether the flag was given: `clap` gives a flag the value `true` then, and `false` else.
fn read_trace(word: Option<&str>) -> bool
    ensures { result ≡ trace_of (option_map (λ w. w.now) word.entry) }
{
    match word {
        None => false,
        Some(word) => word == "true",
    }
}
