//! The names of a trial's script, by their numbers.
ghost use Rattle.std.specs.Prelude.{◌≡◌, ◌<◌, ◌∷◌, IfOk, string_bytes};
ghost use Rattle.trial_scripts.specs.Drawings.{two_digit_text};

use home_types::{NoMemory, Text};
use std::alloc::{AllocError, Global};

/// The letter and the number in two digits, as a text that may grow.
fn write_name(alloc: Global, letter: char, number: u32) -> Result<String, AllocError>
    requires letter { letter < 128 }
    requires number { number < 100 }
    ensures { IfOk result (λ name. string_bytes name ≡ letter ∷ two_digit_text number) }
{
    let mut name = String::new(alloc);
    name.push(letter)?;
    name.push((b'0' + (number / 10) as u8) as char)?;
    name.push((b'0' + (number % 10) as u8) as char)?;
    Ok(name)
}

/// The name that is the letter and the number in two digits, or `NoMemory`.
pub fn numbered_name(alloc: Global, letter: char, number: u32) -> Result<Text, NoMemory>
    requires letter { letter < 128 }
    requires number { number < 100 }
    ensures { IfOk result (λ name. name ≡ letter ∷ two_digit_text number) }
{
    match write_name(alloc, letter, number) {
        Ok(name) => Text::of(alloc, name.as_str()),
        Err(_) => Err(NoMemory),
    }
}
