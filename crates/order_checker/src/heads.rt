//! The lines that the script fixes: the two above the windows, and the first one of each window.
ghost use Rattle.std.specs.Prelude.{◌≡◌, ◌<◌, IfSome, IfNone, IfOk, drop, false, true};
ghost use Rattle.std.specs.List.{list_any};
ghost use Rattle.std.specs.Str.{bytes_eq};
ghost use Rattle.order_checker.specs.Heads.{are_window_words, digit, is_head, mode_lines, written_time};
ghost use Rattle.order_checker.specs.Lines.{line_at, lines_of};
ghost use Rattle.order_checker.specs.Words.{words_of};

use crate::lines::next_line;
use crate::words::{is_number, reads, words_of};
use day_clock::When;
use home_types::NoMemory;
use std::alloc::Global;

/// Whether the line has a mode of which a record may be.
fn is_mode_line(line: &[u8]) -> bool
    ensures { result ≡ list_any (bytes_eq line.now) mode_lines }
{
    reads(line, "model gsv fcfs")
        || reads(line, "model psv fcfs")
        || reads(line, "model ev fcfs")
        || reads(line, "model ev jit")
        || reads(line, "model ev timeline")
}

/// What stands behind the two lines above the windows. `None` where they are not as they should be.
pub fn after_head(text: &[u8]) -> Option<&[u8]>
    ensures head { IfSome result
        (λ rest. is_head (line_at (lines_of text.now) 0) (line_at (lines_of text.now) 1) ≡ true) }
    ensures rest { IfSome result (λ rest. lines_of rest.now ≡ drop 2 (lines_of text.now)) }
    ensures none { IfNone result
        (is_head (line_at (lines_of text.now) 0) (line_at (lines_of text.now) 1) ≡ false) }
{
    let (first, rest) = next_line(text)?;
    let (second, rest) = next_line(rest)?;
    if reads(first, "safehome day") && is_mode_line(second) {
        Some(rest)
    } else {
        None
    }
}

fn digit(n: u16) -> u8
    requires { n < 100 }
    ensures { result ≡ digit n }
{
    b'0' + n as u8
}

/// Whether the word is this time, as `YYYY-MM-DDThh:mm:ss`.
fn is_time(word: &[u8], at: When) -> bool
    ensures { result ≡ bytes_eq word.now (written_time at) }
{
    let (century, year) = (at.year / 100, at.year % 100);
    let (month, day) = (at.month as u16, at.day as u16);
    let (hour, minute, second) = (at.hour as u16, at.minute as u16, at.second as u16);
    let text = [
        digit(century / 10),
        digit(century % 10),
        digit(year / 10),
        digit(year % 10),
        b'-',
        digit(month / 10),
        digit(month % 10),
        b'-',
        digit(day / 10),
        digit(day % 10),
        b'T',
        digit(hour / 10),
        digit(hour % 10),
        b':',
        digit(minute / 10),
        digit(minute % 10),
        b':',
        digit(second / 10),
        digit(second % 10),
    ];
    word == text.as_slice()
}

/// Whether the line is the first one of the window with this number, from 1, at this time.
pub fn is_window_line(alloc: Global, number: u32, at: When, line: &[u8]) -> Result<bool, NoMemory>
    ensures { IfOk result (λ is_it. is_it ≡ are_window_words number at (words_of line.now)) }
{
    let words = words_of(alloc, line)?;
    Ok(match words.as_slice() {
        [word, k, time] => {
            reads(word, "window") && is_number(k, number as u64) && is_time(time, at)
        }
        _ => false,
    })
}
