//! Numbers and times in a fixed number of digits.
ghost use Rattle.std.specs.Prelude.{◌≡◌, ◌++◌, OnOk, string_bytes};
ghost use Rattle.day_report.specs.Lines.{zero_below, two_digits, four_digits, time_text};

use day_clock::When;
use std::alloc::AllocError;
use std::fmt::Write;

/// Appends a zero where the number is below this power of ten.
fn push_zero_below(text: &mut String, power: u16, number: u16) -> Result<(), AllocError>
    ensures { OnOk result
        (string_bytes text.new ≡ string_bytes text.old ++ zero_below power number) }
{
    if number < power {
        text.push_str("0")?;
    }
    Ok(())
}

#[tactic(auto, unfolding(crate::specs::Lines::two_digits))]
fn push_two_digits(text: &mut String, number: u16) -> Result<(), AllocError>
    ensures { OnOk result (string_bytes text.new ≡ string_bytes text.old ++ two_digits number) }
{
    push_zero_below(text, 10, number)?;
    write!(text, "{number}")
}

#[tactic(auto, unfolding(crate::specs::Lines::four_digits))]
fn push_four_digits(text: &mut String, number: u16) -> Result<(), AllocError>
    ensures { OnOk result (string_bytes text.new ≡ string_bytes text.old ++ four_digits number) }
{
    push_zero_below(text, 1000, number)?;
    push_zero_below(text, 100, number)?;
    push_two_digits(text, number)
}

/// Appends a time as `YYYY-MM-DDThh:mm:ss`.
#[tactic(auto, unfolding(crate::specs::Lines::time_text))]
pub fn push_time(text: &mut String, at: &When) -> Result<(), AllocError>
    ensures { OnOk result (string_bytes text.new ≡ string_bytes text.old ++ time_text at.now) }
{
    push_four_digits(text, at.year)?;
    text.push_str("-")?;
    push_two_digits(text, at.month as u16)?;
    text.push_str("-")?;
    push_two_digits(text, at.day as u16)?;
    text.push_str("T")?;
    push_two_digits(text, at.hour as u16)?;
    text.push_str(":")?;
    push_two_digits(text, at.minute as u16)?;
    text.push_str(":")?;
    push_two_digits(text, at.second as u16)
}
