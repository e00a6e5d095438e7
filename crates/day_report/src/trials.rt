//! The line of a trial.
ghost use Rattle.std.specs.Prelude.{◌≡◌, ◌<◌, ◌+◌, ◌^◌, ◌++◌, IfOk, OnOk, string_bytes};
ghost use Rattle.day_report.specs.Trials as said;

use crate::days::Ends;
use home_types::{Bytes, NoMemory};
use std::alloc::{AllocError, Global};
use std::fmt::Write;

/// Writes the line of the trial with this number: how many windows its day has, how many runs,
/// committed and aborted, and how many of its windows agree with their serial execution.
pub fn trial_text(
    alloc: Global,
    number: u32,
    windows: u64,
    ends: Ends,
    agree: u64,
) -> Result<Bytes, NoMemory>
    requires { ends.committed + ends.aborted < 2 ^ 128 }
    ensures { IfOk result
        (λ b. b ≡ said.trial_line number windows ends.committed ends.aborted agree) }
{
    let mut text = String::new(alloc);
    match push_trial(&mut text, number, windows, ends, agree) {
        Ok(()) => Ok(Bytes::from_text(text)),
        Err(_) => Err(NoMemory),
    }
}

#[tactic(auto, unfolding(crate::specs::Trials::trial_line))]
fn push_trial(
    text: &mut String,
    number: u32,
    windows: u64,
    ends: Ends,
    agree: u64,
) -> Result<(), AllocError>
    requires { ends.committed + ends.aborted < 2 ^ 128 }
    ensures { OnOk result (string_bytes text.new ≡ string_bytes text.old
        ++ said.trial_line number windows ends.committed ends.aborted agree) }
{
    write!(text, "trial {number} ")?;
    push_counts(text, windows, ends)?;
    writeln!(text, " agree {agree}")
}

#[tactic(auto, unfolding(crate::specs::Trials::counts_words))]
fn push_counts(text: &mut String, windows: u64, ends: Ends) -> Result<(), AllocError>
    requires { ends.committed + ends.aborted < 2 ^ 128 }
    ensures { OnOk result (string_bytes text.new
        ≡ string_bytes text.old ++ said.counts_words windows ends.committed ends.aborted) }
{
    let Ends { committed, aborted } = ends;
    let runs = committed + aborted;
    write!(
        text,
        "windows {windows} runs {runs} committed {committed} aborted {aborted}"
    )
}
