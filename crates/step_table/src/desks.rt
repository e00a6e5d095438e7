//! A desk: the hub of a row, with the grips that are out, worked step by step.
ghost use Rattle.std.specs.Prelude.{◌≡◌, vec_len};
ghost use Rattle.routine_reader.specs.Scripts.{plain_script};
ghost use Rattle.routine_reader.specs.Sound.{IsSound};

use crate::answers::{push_closed, push_made};
use crate::openings::{Dev, Opened, open_first};
use crate::steps::{Side, Step, read_step};
use history_book::WindowRecord;
use home_types::{Mode, RunNo};
use hub_core::{Done, Grip, Home, Hub, Turn};
use routine_reader::Script;
use std::alloc::{AllocError, Global};
use std::fmt::Write;
use std::sync::Wait;

/// Two hubs of the same window, and the grips that are out of them, with their calls made.
struct Desk {
    a: Hub<Dev>,
    b: Hub<Dev>,
    grips: Vec<Grip<Dev, Done>>,
}

/// Makes the steps in two hubs of the window, gives back each grip that is left, and closes both.
pub fn push_steps<R: Wait>(
    rt: &R,
    alloc: Global,
    text: &mut String,
    script: &Script,
    mode: Mode,
    steps: &str,
) -> Result<(), AllocError>
    requires sound { IsSound (plain_script script.now) }
{
    match open_desk(alloc, script, mode)? {
        Some(desk) => {
            let (told, a, b) = worked(rt, text, desk, steps);
            let told_a = push_end(alloc, text, script, mode, Side::A, a);
            let told_b = push_end(alloc, text, script, mode, Side::B, b);
            told.and(told_a).and(told_b)
        }
        None => text.push_str("not opened\n"),
    }
}

fn open_desk(alloc: Global, script: &Script, mode: Mode) -> Result<Option<Desk>, AllocError>
    requires sound { IsSound (plain_script script.now) }
{
    match open_first(alloc, script, mode) {
        Ok(Some(Opened { hub, .. })) => open_second(alloc, script, mode, hub),
        Ok(None) => Ok(None),
        Err(fault) => Err(fault),
    }
}

/// Opens the window once more. Where that fails, the first hub is dropped.
fn open_second(
    alloc: Global,
    script: &Script,
    mode: Mode,
    a: Hub<Dev>,
) -> Result<Option<Desk>, AllocError>
    requires sound { IsSound (plain_script script.now) }
{
    match open_first(alloc, script, mode) {
        Ok(Some(Opened { hub, .. })) => Ok(Some(Desk {
            a,
            b: hub,
            grips: Vec::new(alloc),
        })),
        Ok(None) => {
            drop(a);
            Ok(None)
        }
        Err(fault) => {
            drop(a);
            Err(fault)
        }
    }
}

/// The hubs after the steps, with every grip given back.
fn worked<R: Wait>(
    rt: &R,
    text: &mut String,
    desk: Desk,
    steps: &str,
) -> (Result<(), AllocError>, Hub<Dev>, Hub<Dev>) {
    let mut desk = desk;
    let told = desk.push_all(rt, text, steps);
    desk.clear(rt);
    let Desk { a, b, grips } = desk;
    grips.destroy_empty();
    (told, a, b)
}

/// Closes the hub; where it cannot be closed, tells why and whether nothing was done in it.
fn push_end(
    alloc: Global,
    text: &mut String,
    script: &Script,
    mode: Mode,
    side: Side,
    hub: Hub<Dev>,
) -> Result<(), AllocError>
    requires sound { IsSound (plain_script script.now) }
{
    match hub.close_window() {
        Ok((home, closed)) => {
            let told = push_side_closed(alloc, text, script, mode, side, &home, &closed);
            drop(home);
            drop(closed);
            told
        }
        Err((hub, why)) => {
            let fresh = hub.fresh();
            drop(hub);
            writeln!(text, "{side:?} {why:?}, fresh {fresh}")
        }
    }
}

fn push_side_closed(
    alloc: Global,
    text: &mut String,
    script: &Script,
    mode: Mode,
    side: Side,
    home: &Home<Dev>,
    closed: &WindowRecord,
) -> Result<(), AllocError>
    requires sound { IsSound (plain_script script.now) }
{
    writeln!(text, "{side:?} closed")?;
    push_closed(alloc, text, script, mode, home, closed)
}

impl Desk {
    fn push_all<R: Wait>(
        &mut self,
        rt: &R,
        text: &mut String,
        steps: &str,
    ) -> Result<(), AllocError> {
        for step in steps.split(",") {
            write!(text, "{}:", step.trim_ascii())?;
            match read_step(step) {
                Some(Step::Take(side, r, moment)) => self.push_take(rt, text, side, r, moment)?,
                Some(Step::Give(side, r, moment)) => self.push_give(rt, text, side, r, moment)?,
                None => text.push_str(" no step\n")?,
            }
        }
        Ok(())
    }

    /// The run takes its step, and a grip that goes out makes its call.
    fn push_take<R: Wait>(
        &mut self,
        rt: &R,
        text: &mut String,
        side: Side,
        r: RunNo,
        moment: u64,
    ) -> Result<(), AllocError> {
        let turn = match side {
            Side::A => self.a.take(r, moment),
            Side::B => self.b.take(r, moment),
        };
        match turn {
            Turn::Go(grip) => {
                let slip = grip.slip();
                let task = grip.task();
                self.keep(rt, grip.act());
                writeln!(text, " go {slip:?} {task:?}")
            }
            Turn::Moved(made) => {
                text.push_str(" moved")?;
                push_made(text, made)
            }
            Turn::Wait(why) => writeln!(text, " wait {why:?}"),
            Turn::Over(end, made) => {
                write!(text, " over {end:?}")?;
                push_made(text, made)
            }
            Turn::Absent => text.push_str(" absent\n"),
        }
    }

    /// The run's grip comes back.
    fn push_give<R: Wait>(
        &mut self,
        rt: &R,
        text: &mut String,
        side: Side,
        r: RunNo,
        moment: u64,
    ) -> Result<(), AllocError> {
        let Some(at) = self.grips.iter().position(|grip| grip.slip().maker == r.0) else {
            return text.push_str(" no grip\n");
        };
        let grip = self.grips.swap_remove(at);
        let given = match side {
            Side::A => self.a.give(grip, moment),
            Side::B => self.b.give(grip, moment),
        };
        match given {
            Ok(made) => {
                text.push_str(" made")?;
                push_made(text, made)
            }
            Err((grip, stranger)) => {
                self.keep(rt, grip);
                writeln!(
                    text,
                    " stranger kept {:?} told {:?}",
                    stranger.kept, stranger.told
                )
            }
        }
    }

    /// Keeps the grip; where there is no memory for it, it is given back.
    fn keep<R: Wait>(&mut self, rt: &R, grip: Grip<Dev, Done>) {
        if let Err(failed) = self.grips.push(grip) {
            give_back(rt, &mut self.a, &mut self.b, failed.value);
        }
    }

    /// Gives every grip back.
    fn clear<R: Wait>(&mut self, rt: &R)
        ensures { vec_len self.new.grips ≡ 0 }
    {
        for _ in rt.forever() {
            match self.grips.pop() {
                Some(grip) => give_back(rt, &mut self.a, &mut self.b, grip),
                None => return,
            }
        }
        unreachable!()
    }
}

/// Gives the grip to the hub that takes it.
fn give_back<R: Wait>(rt: &R, a: &mut Hub<Dev>, b: &mut Hub<Dev>, grip: Grip<Dev, Done>) {
    let mut grip = grip;
    for _ in rt.forever() {
        let refused = match a.give(grip, 0) {
            Ok(_) => return,
            Err((refused, _)) => refused,
        };
        match b.give(refused, 0) {
            Ok(_) => return,
            Err((refused, _)) => grip = refused,
        }
    }
    unreachable!()
}
