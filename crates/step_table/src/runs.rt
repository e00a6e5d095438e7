//! A row that is run with threads.
ghost use Rattle.routine_reader.specs.Scripts.{plain_script};
ghost use Rattle.routine_reader.specs.Sound.{IsSound};

use crate::answers::push_judgement;
use crate::openings::{Opened, open_first};
use day_clock::Clock;
use history_book::{Entry, WindowRecord};
use home_types::Mode;
use hub_threads::run_window;
use routine_reader::Script;
use std::alloc::{AllocError, Global};
use std::fmt::Write;
use std::sync::Wait;
use std::thread::Threads;

/// Works the window with threads. Which of them steps first is free, so of the record only this is
/// told: how many runs it says have ended, and the judgement.
pub fn push_run<R: Threads + Wait + Sync, C: Clock + Sync>(
    rt: &R,
    alloc: Global,
    clock: &C,
    text: &mut String,
    script: &Script,
    mode: Mode,
) -> Result<(), AllocError>
    requires sound { IsSound (plain_script script.now) }
{
    let Some(Opened { hub, rounds }) = open_first(alloc, script, mode)? else {
        return text.push_str("not opened\n");
    };
    match run_window(rt, alloc, hub, rounds, clock) {
        Ok((home, closed)) => {
            drop(home);
            let told = push_ended(alloc, text, script, mode, &closed);
            drop(closed);
            told
        }
        Err((hub, _)) => {
            drop(hub);
            Err(AllocError)
        }
    }
}

fn push_ended(
    alloc: Global,
    text: &mut String,
    script: &Script,
    mode: Mode,
    closed: &WindowRecord,
) -> Result<(), AllocError>
    requires sound { IsSound (plain_script script.now) }
{
    writeln!(text, "run {} runs", ended_runs(closed))?;
    push_judgement(alloc, text, script, mode, closed)
}

fn ended_runs(closed: &WindowRecord) -> usize {
    let history = closed.history.as_slice();
    history
        .iter()
        .filter(|kept| matches!(kept.entry, Entry::Ended(_, _)))
        .count()
}
