//! The text of one entry.
ghost use Rattle.std.specs.Prelude.{◌≡◌, IfOk};
ghost use Rattle.day_report.specs.Lines as said;

use crate::lines::push_trace_line;
use history_book::Kept;
use home_types::{Bytes, NoMemory};
use routine_reader::{Script, WindowText};
use std::alloc::Global;

/// Writes the line of an entry of the window, as a trace has it.
///
/// Nothing is asked of the entry: what is not in the script has an empty name.
pub fn entry_text(
    alloc: Global,
    script: &Script,
    window: &WindowText,
    kept: Kept,
) -> Result<Bytes, NoMemory>
    ensures { IfOk result (λ b. b ≡ said.trace_line script.now window.now kept) }
{
    let mut text = String::new(alloc);
    match push_trace_line(&mut text, script, window, kept) {
        Ok(()) => Ok(Bytes::from_text(text)),
        Err(_) => Err(NoMemory),
    }
}
