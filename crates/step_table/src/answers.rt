//! What a step made and how a window closed, as text.
ghost use Rattle.routine_reader.specs.Scripts.{plain_script};
ghost use Rattle.routine_reader.specs.Sound.{IsSound};

use crate::openings::Dev;
use crate::serial_orders::is_serial;
use day_report::window_text;
use history_book::{Made, WindowRecord};
use home_types::{Mode, NoMemory, Visibility};
use hub_core::Home;
use routine_reader::Script;
use std::alloc::{AllocError, Global};
use std::fmt::Write;
use std::str;

/// Appends the entries, and ends the line.
pub fn push_made(text: &mut String, made: Made) -> Result<(), AllocError> {
    for entry in [made.a, made.b, made.c] {
        if let Some(entry) = entry {
            write!(text, " {entry:?}")?;
        }
    }
    text.push_str("\n")
}

/// Appends the text of a closed window with its trace, the turns and faults of its devices, how
/// many windows were opened on the home, and the judgement.
pub fn push_closed(
    alloc: Global,
    text: &mut String,
    script: &Script,
    mode: Mode,
    home: &Home<Dev>,
    closed: &WindowRecord,
) -> Result<(), AllocError>
    requires sound { IsSound (plain_script script.now) }
{
    match window_text(alloc, script, 0, closed, mode, true) {
        Ok(bytes) => {
            if let Ok(shown) = str::from_utf8(bytes.as_slice()) {
                text.push_str(shown)?;
            }
        }
        Err(NoMemory) => return Err(AllocError),
    }
    let turns = closed.turns.as_slice();
    let faults = closed.faults.as_slice();
    let opened = home.opened();
    writeln!(text, "turns {turns:?} faults {faults:?} opened {opened}")?;
    push_judgement(alloc, text, script, mode, closed)
}

/// Appends whether the order, done from the first state, agrees with the record. The weak model
/// claims no order.
pub fn push_judgement(
    alloc: Global,
    text: &mut String,
    script: &Script,
    mode: Mode,
    closed: &WindowRecord,
) -> Result<(), AllocError>
    requires sound { IsSound (plain_script script.now) }
{
    if mode.model == Visibility::Weak {
        return text.push_str("no order claimed\n");
    }
    match is_serial(alloc, script, closed) {
        Ok(true) => text.push_str("serial agrees\n"),
        Ok(false) => text.push_str("serial differs\n"),
        Err(NoMemory) => Err(AllocError),
    }
}
