//! The replays and plays of a row.
ghost use Rattle.routine_reader.specs.Scripts.{plain_script};
ghost use Rattle.routine_reader.specs.Sound.{IsSound};

use crate::answers::{push_closed, push_made};
use crate::openings::{Dev, Opened, open_first};
use history_book::WindowRecord;
use home_types::Mode;
use hub_core::{Home, NotQuiet};
use routine_reader::Script;
use run_replay::{Picked, Player, replay_window};
use std::alloc::{AllocError, Global};
use std::fmt::Write;
use std::sync::Wait;

/// Replays the window by its turns and its seed.
pub fn push_replay(
    alloc: Global,
    text: &mut String,
    script: &Script,
    mode: Mode,
) -> Result<(), AllocError>
    requires sound { IsSound (plain_script script.now) }
{
    let Some(window) = script.windows.get(0) else {
        return text.push_str("no window\n");
    };
    let Some(Opened { hub, rounds }) = open_first(alloc, script, mode)? else {
        return text.push_str("not opened\n");
    };
    match replay_window(alloc, hub, window.turns.as_slice(), window.seed, rounds) {
        Ok((home, closed)) => {
            let told = push_closed(alloc, text, script, mode, &home, &closed);
            drop(home);
            drop(closed);
            told
        }
        Err((hub, _)) => {
            drop(hub);
            Err(AllocError)
        }
    }
}

/// Picks the turns of the window and tells what each did; then finishes it by its seed where it
/// does not close.
pub fn push_play<R: Wait>(
    rt: &R,
    alloc: Global,
    text: &mut String,
    script: &Script,
    mode: Mode,
) -> Result<(), AllocError>
    requires sound { IsSound (plain_script script.now) }
{
    let Some(window) = script.windows.get(0) else {
        return text.push_str("no window\n");
    };
    let Some(Opened { hub, rounds }) = open_first(alloc, script, mode)? else {
        return text.push_str("not opened\n");
    };
    match Player::open(alloc, hub, rounds) {
        Ok(player) => {
            let (told, Closed { why, home, record }) = play_all(
                rt,
                text,
                player,
                window.turns.as_slice(),
                window.seed,
            );
            let ended = push_closed_late(alloc, text, script, mode, why, &home, &record);
            drop(home);
            drop(record);
            told.and(ended)
        }
        Err((hub, _)) => {
            drop(hub);
            Err(AllocError)
        }
    }
}

fn play_all<R: Wait>(
    rt: &R,
    text: &mut String,
    player: Player<Dev>,
    turns: &[u32],
    seed: u64,
) -> (Result<(), AllocError>, Closed) {
    let mut player = player;
    let told = push_picks(text, &mut player, turns);
    (told, close_at_last(rt, player, seed))
}

fn push_closed_late(
    alloc: Global,
    text: &mut String,
    script: &Script,
    mode: Mode,
    why: Option<NotQuiet>,
    home: &Home<Dev>,
    record: &WindowRecord,
) -> Result<(), AllocError>
    requires sound { IsSound (plain_script script.now) }
{
    if let Some(why) = why {
        writeln!(text, "not closed: {why:?}")?;
    }
    push_closed(alloc, text, script, mode, home, record)
}

fn push_picks(
    text: &mut String,
    player: &mut Player<Dev>,
    turns: &[u32],
) -> Result<(), AllocError> {
    for (at, actor) in turns.iter().enumerate() {
        let picked = player.pick(*actor);
        write!(text, "pick {} of {actor}", at as u64 + 1)?;
        match picked {
            Picked::Passed => text.push_str(" passed\n")?,
            Picked::Made(made) => push_made(text, made)?,
            Picked::Took(device) => writeln!(text, " took {device:?}")?,
            Picked::Waits(why) => writeln!(text, " waits {why:?}")?,
        }
    }
    Ok(())
}

/// A window that was closed, and why it could not be at first.
struct Closed {
    why: Option<NotQuiet>,
    home: Home<Dev>,
    record: WindowRecord,
}

/// Closes the window, finished by the seed where it does not close at once.
fn close_at_last<R: Wait>(rt: &R, player: Player<Dev>, seed: u64) -> Closed {
    let mut player = player;
    let mut first = None;
    for _ in rt.forever() {
        match player.close() {
            Ok((home, record)) => {
                return Closed {
                    why: first,
                    home,
                    record,
                };
            }
            Err((back, why)) => {
                first = first.or(Some(why));
                player = back;
                player.finish(seed);
            }
        }
    }
    unreachable!()
}
