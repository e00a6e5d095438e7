//! What the lines of a window say of values, answers and causes.
ghost use Rattle.std.specs.Prelude.{◌≡◌, ◌+◌, ◌++◌, ◌<◌, ◌∷◌, [], OnOk, string_bytes};
ghost use Rattle.day_report.specs.Words.{value_text, answer_text, cause_text};
ghost use Rattle.std.specs.Fmt.{decimal};

use crate::lookups::{device_name, states_of};
use history_book::Cause;
use home_types::{Answer, Text, Value};
use routine_reader::{Script, WindowText};
use std::alloc::AllocError;
use std::fmt::Write;

/// Appends a value of a device with these states: the name of the state, else the number.
#[tactic(auto, unfolding(crate::specs::Words::value_text))]
pub fn push_value(text: &mut String, states: &[Text], value: Value) -> Result<(), AllocError>
    ensures { OnOk result
        (string_bytes text.new ≡ string_bytes text.old ++ value_text states.now value) }
{
    match states.get(value as usize) {
        Some(name) => text.push_str(name.as_str()),
        None => push_number(text, value),
    }
}

/// Appends a number in decimal.
#[tactic(auto, using(crate::proofs::Numbers::one_digit, crate::proofs::Numbers::one_digit_more))]
fn push_number(text: &mut String, number: u32) -> Result<(), AllocError>
    ensures { OnOk result (string_bytes text.new ≡ string_bytes text.old ++ decimal number) }
{
    if number < 10 {
        push_digit(text, number)?;
        return Ok(());
    }
    push_number(text, number / 10)?;
    push_digit(text, number % 10)?;
    Ok(())
}

/// Appends a digit.
fn push_digit(text: &mut String, digit: u32) -> Result<(), AllocError>
    requires { digit < 10 }
    ensures { OnOk result (string_bytes text.new ≡ string_bytes text.old ++ (48 + digit) ∷ []) }
{
    text.push((b'0' + digit as u8) as char)
}

/// Appends what a command was told, where its device has these states.
#[tactic(auto, unfolding(crate::specs::Words::answer_text))]
#[inline(always)]
pub fn push_answer(text: &mut String, states: &[Text], answer: Answer) -> Result<(), AllocError>
    ensures { OnOk result
        (string_bytes text.new ≡ string_bytes text.old ++ answer_text states.now answer) }
{
    match answer {
        Answer::Fine => text.push_str("."),
        Answer::Found(value) => push_value(text, states, value),
        Answer::Down => text.push_str("-"),
        Answer::Skipped => text.push_str("/"),
    }
}

/// Appends why the run was aborted. Commands count from 1 in print.
#[tactic(auto, unfolding(crate::specs::Words::cause_text))]
pub fn push_cause(
    text: &mut String,
    script: &Script,
    window: &WindowText,
    run: u64,
    cause: Cause,
) -> Result<(), AllocError>
    ensures { OnOk result (string_bytes text.new
        ≡ string_bytes text.old ++ cause_text script.now window.now run cause) }
{
    match cause {
        Cause::MustDown(command) => write!(text, "must {}", command as u64 + 1),
        Cause::Refuted(command, found) => {
            write!(text, "refuted {} found ", command as u64 + 1)?;
            push_value(text, states_of(script, window, run, command), found)
        }
        Cause::Lost(device) => write!(text, "lost {}", device_name(script, device)),
        Cause::Revoked {
            lender,
            device,
            deadline,
            moment,
        } => {
            let name = device_name(script, device);
            let lender = lender.0;
            write!(
                text,
                "revoked {name} by {lender} deadline {deadline} at {moment}"
            )
        }
        Cause::DownAtEnd(device) => write!(text, "downatend {}", device_name(script, device)),
    }
}
