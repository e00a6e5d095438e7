//! The number of a trial, read from its word.
ghost use Rattle.command_words.specs.TrialNumbers.{is_decimal_digit, is_short_numeral, trial_number};
ghost use Rattle.std.specs.List.{list_all};
ghost use Rattle.std.specs.Prelude.{◌≡◌};

use home_types::limits;

/// How many digits the number of a trial has at most.
pub const DIGITS: usize = 3;

fn has_digits(bytes: &[u8]) -> bool
    ensures { result ≡ list_all is_decimal_digit bytes.now }
{
    bytes.iter().all(|byte| byte.is_ascii_digit())
}

/// Whether the bytes are 1 to 3 decimal digits without a leading zero.
fn is_numeral(bytes: &[u8]) -> bool
    ensures { result ≡ is_short_numeral bytes.now }
{
    match bytes.first() {
        Some(first) => *first != b'0' && bytes.len() <= DIGITS && has_digits(bytes),
        None => false,
    }
}

/// Reads the number of a trial: 1 to 3 decimal digits without a leading zero, from 1 to
/// `limits::WINDOWS`.
pub fn read_number(word: &str) -> Option<u32>
    ensures { result ≡ trial_number word.now }
{
    if !is_numeral(word.as_bytes()) {
        return None;
    }
    match word.parse::<u32>() {
        Ok(number) if number <= limits::WINDOWS => Some(number),
        _ => None,
    }
}
