//! The last line of a record.
ghost use Rattle.std.specs.Prelude.{◌≡◌, ◌≤◌, IfOk};
ghost use Rattle.order_checker.specs.Lines.{lines_of};
ghost use Rattle.order_checker.specs.Totals.{are_count_words, are_end_words, are_run_words, are_total_words, is_total};
ghost use Rattle.order_checker.specs.Words.{texts};

use crate::lines::{has_ended, next_line};
use crate::words::{is_number, reads, words_of};
use home_types::NoMemory;
use std::alloc::Global;

/// How many windows a record has, and how many runs, and committed ones.
#[derive(Clone, Copy)]
pub struct Totals {
    pub windows: u64,
    pub runs: u64,
    pub committed: u64,
}

/// Whether the two words are this one and this number.
fn are_count_words(text: &str, n: u64, word: &[u8], number: &[u8]) -> bool
    ensures { result ≡ are_count_words text.now n word.now number.now }
{
    reads(word, text) && is_number(number, n)
}

/// Whether the words say how many runs are committed, and how many were aborted.
fn are_end_words(totals: Totals, committed: &[u8], c: &[u8], aborted: &[u8], a: &[u8]) -> bool
    requires { totals.committed ≤ totals.runs }
    ensures { result ≡ are_end_words
        (record { windows = totals.windows; runs = totals.runs; committed = totals.committed })
        committed.now c.now aborted.now a.now }
{
    are_count_words("committed", totals.committed, committed, c)
        && are_count_words("aborted", totals.runs - totals.committed, aborted, a)
}

/// Whether these are the words behind the number of windows.
fn are_run_words(totals: Totals, words: &[&[u8]]) -> bool
    requires { totals.committed ≤ totals.runs }
    ensures { result ≡ are_run_words
        (record { windows = totals.windows; runs = totals.runs; committed = totals.committed })
        (texts words.now) }
{
    match words {
        [runs, r, committed, c, aborted, a] => {
            are_count_words("runs", totals.runs, runs, r)
                && are_end_words(totals, committed, c, aborted, a)
        }
        _ => false,
    }
}

/// Whether these are the words of the total line.
fn are_total_words(totals: Totals, words: &[&[u8]]) -> bool
    requires { totals.committed ≤ totals.runs }
    ensures { result ≡ are_total_words
        (record { windows = totals.windows; runs = totals.runs; committed = totals.committed })
        (texts words.now) }
{
    match words {
        [total, windows, w, words @ ..] => {
            reads(total, "total")
                && are_count_words("windows", totals.windows, windows, w)
                && are_run_words(totals, words)
        }
        _ => false,
    }
}

/// Whether what is left is the total line, and nothing after it.
pub fn is_total(alloc: Global, totals: Totals, text: &[u8]) -> Result<bool, NoMemory>
    requires { totals.committed ≤ totals.runs }
    ensures { IfOk result (λ is_it. is_it ≡ is_total (record {
      windows = totals.windows;
      runs = totals.runs;
      committed = totals.committed;
    }) (lines_of text.now)) }
{
    let Some((line, behind)) = next_line(text) else {
        return Ok(false);
    };
    let words = words_of(alloc, line)?;
    Ok(has_ended(behind) && are_total_words(totals, words.as_slice()))
}
