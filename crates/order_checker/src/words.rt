//! The words of a line, and numbers among them.
ghost use Rattle.std.specs.Prelude.{◌≡◌, ◌==◌, ◌<◌, IfNone, IfOk, IfSome, None, Some, length};
ghost use Rattle.std.specs.Char.{is_ascii_digit};
ghost use Rattle.std.specs.List.{list_all, position};
ghost use Rattle.std.specs.Str.{bytes_eq};
ghost use Rattle.order_checker.specs.Words.{cut_at, is_none_word, is_number, is_numeral, number_of, texts, words_of};

use home_types::NoMemory;
use std::alloc::{AllocError, Global};
use std::str::from_utf8;

/// The words of a line. Room is taken at first for as many as it has where each is of one byte, and
/// more as it is needed.
fn split_words<'a>(alloc: Global, line: &'a [u8]) -> Result<Vec<&'a [u8]>, AllocError>
    ensures { IfOk result (λ words. texts words.items ≡ words_of line.now) }
{
    let mut words = Vec::with_capacity(alloc, line.len() / 2 + 1)?;
    let mut rest = line;
    'words: while let Some(end) = place_of(rest, b' ') {
        words.push(&rest[..end])?;
        rest = &rest[end + 1..];
    }
    words.push(rest)?;
    Ok(words)
}

/// The words of a line, in order: what stands between its spaces, be it empty.
pub fn words_of<'a>(alloc: Global, line: &'a [u8]) -> Result<Vec<&'a [u8]>, NoMemory>
    ensures { IfOk result (λ words. texts words.items ≡ words_of line.now) }
{
    match split_words(alloc, line) {
        Ok(words) => Ok(words),
        Err(_) => Err(NoMemory),
    }
}

/// Whether the word is this text.
pub fn reads(word: &[u8], text: &str) -> bool
    ensures { result ≡ bytes_eq word.now text.now }
{
    word == text.as_bytes()
}

/// Whether the words are the one word for nothing.
pub fn is_none_word(words: &[&[u8]]) -> bool
    ensures { result ≡ is_none_word (texts words.now) }
{
    match words {
        [word] => reads(word, "none"),
        _ => false,
    }
}

/// The place of the first such byte, from 0.
fn place_of(text: &[u8], byte: u8) -> Option<usize>
    ensures place { result ≡ position (λ b. b == byte) text.now }
    ensures within { IfSome result (λ i. i < length text.now) }
{
    text.iter().position(|b| *b == byte)
}

/// What stands before the first such byte, and behind it. `None` where there is no such byte.
pub fn cut_at(text: &[u8], byte: u8) -> Option<(&[u8], &[u8])>
    ensures parts { IfSome result
        (λ p. cut_at byte text.now ≡ Some (record { front = p.0.now; back = p.1.now })) }
    ensures shorter { IfSome result (λ p. length p.1.now < length text.now) }
    ensures none { IfNone result (cut_at byte text.now ≡ None) }
{
    match place_of(text, byte) {
        Some(end) => Some((&text[..end], &text[end + 1..])),
        None => None,
    }
}

fn has_digits_alone(word: &[u8]) -> bool
    ensures { result ≡ list_all is_ascii_digit word.now }
{
    word.iter().all(|byte| byte.is_ascii_digit())
}

/// Whether the word is made of decimal digits, none of which could be left out in front.
fn is_numeral(word: &[u8]) -> bool
    ensures { result ≡ is_numeral word.now }
{
    has_digits_alone(word) && !word.is_empty() && (word.len() == 1 || word[0] != b'0')
}

/// The number that the word writes. `None` where it writes none, or one above 2^64 - 1.
#[tactic(auto, unfolding(crate::specs::Words::number_of))]
pub fn number_of(word: &[u8]) -> Option<u64>
    ensures { result ≡ number_of word.now }
{
    if !is_numeral(word) {
        return None;
    }
    match from_utf8(word) {
        Ok(text) => match text.parse() {
            Ok(number) => Some(number),
            Err(_) => None,
        },
        Err(_) => None,
    }
}

/// Whether the word writes this number.
pub fn is_number(word: &[u8], number: u64) -> bool
    ensures { result ≡ is_number number word.now }
{
    match number_of(word) {
        Some(written) => written == number,
        None => false,
    }
}
