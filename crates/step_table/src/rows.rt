//! A row of the table: what it asks for, and its answer.
use crate::desks::push_steps;
use crate::plays::{push_play, push_replay};
use crate::runs::push_run;
use day_clock::Clock;
use home_types::{Mode, Scheduler, Visibility};
use routine_reader::read_script;
use run_replay::Draws;
use std::alloc::{AllocError, Global};
use std::fmt::Write;
use std::str;
use std::sync::Wait;
use std::thread::Threads;

/// A line of the table: its name, and what is to be done.
#[derive(Clone, Copy)]
struct Row<'a> {
    name: &'a str,
    task: Task<'a>,
}

#[derive(Clone, Copy)]
enum Task<'a> {
    /// The generator draws from the state, below each of the bounds.
    Draws {
        state: u64,
        bounds: &'a str,
    },
    /// `play`, `replay`, `run`, or steps with commas between them, in the first window of the
    /// script.
    Window {
        mode: Mode,
        calls: &'a str,
        script: &'a str,
    },
}

/// Does what the line says, and appends its name and the answers.
pub fn push_row<R: Threads + Wait + Sync, C: Clock + Sync>(
    rt: &R,
    alloc: Global,
    clock: &C,
    text: &mut String,
    line: &[u8],
) -> Result<(), AllocError> {
    match str::from_utf8(line) {
        Ok(line) => match read_row(line) {
            Some(row) => {
                writeln!(text, "{}", row.name)?;
                push_answers(rt, alloc, clock, text, row.task)
            }
            None => text.push_str("no row\n"),
        },
        Err(_) => text.push_str("no text\n"),
    }
}

/// Reads `NAME | draws STATE | BOUNDS` or `NAME | MODEL SCHEDULER | CALLS | SCRIPT`.
fn read_row(line: &str) -> Option<Row<'_>> {
    let (name, rest) = line.split_once(" | ")?;
    let (head, rest) = rest.split_once(" | ")?;
    let (first, second) = head.split_once(" ")?;
    let task = if first == "draws" {
        Task::Draws {
            state: second.parse::<u64>().ok()?,
            bounds: rest,
        }
    } else {
        let (calls, script) = rest.split_once(" | ")?;
        Task::Window {
            mode: Mode {
                model: read_model(first)?,
                scheduler: read_scheduler(second)?,
            },
            calls,
            script,
        }
    };
    Some(Row { name, task })
}

fn read_model(word: &str) -> Option<Visibility> {
    match word {
        "wv" => Some(Visibility::Weak),
        "gsv" => Some(Visibility::Global),
        "psv" => Some(Visibility::Partitioned),
        "ev" => Some(Visibility::Eventual),
        _ => None,
    }
}

fn read_scheduler(word: &str) -> Option<Scheduler> {
    match word {
        "fcfs" => Some(Scheduler::Fcfs),
        "jit" => Some(Scheduler::JustInTime),
        "timeline" => Some(Scheduler::Timeline),
        _ => None,
    }
}

fn push_answers<R: Threads + Wait + Sync, C: Clock + Sync>(
    rt: &R,
    alloc: Global,
    clock: &C,
    text: &mut String,
    task: Task<'_>,
) -> Result<(), AllocError> {
    match task {
        Task::Draws { state, bounds } => push_draws(text, state, bounds),
        Task::Window {
            mode,
            calls,
            script,
        } => match read_script(alloc, script.as_bytes()) {
            Ok(script) => match calls {
                "play" => push_play(rt, alloc, text, &script, mode),
                "replay" => push_replay(alloc, text, &script, mode),
                "run" => push_run(rt, alloc, clock, text, &script, mode),
                steps => push_steps(rt, alloc, text, &script, mode, steps),
            },
            Err(fault) => writeln!(text, "{fault}"),
        },
    }
}

fn push_draws(text: &mut String, state: u64, bounds: &str) -> Result<(), AllocError> {
    let mut draws = Draws::new(state);
    for word in bounds.split_whitespace() {
        match word.parse::<u64>() {
            Ok(bound) if bound > 0 => writeln!(text, "below {bound}: {}", draws.below(bound))?,
            Ok(_) | Err(_) => text.push_str("no bound\n")?,
        }
    }
    Ok(())
}
