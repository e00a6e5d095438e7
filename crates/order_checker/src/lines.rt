//! The lines of a record, without the notes of a trace.
ghost use Rattle.std.specs.Prelude.{◌≡◌, ◌==◌, ◌∷◌, [], ◌<◌, Some, None, IfSome, IfNone, length};
ghost use Rattle.std.specs.List.{position};
ghost use Rattle.order_checker.specs.Lines.{has_no_line, is_note, line_at, lines_of, pieces_of};

use memchr::memchr;

/// Whether the line is one of a trace.
fn is_note(line: &[u8]) -> bool
    ensures { result ≡ is_note line.now }
{
    line.starts_with("# ".as_bytes())
}

/// The place of the first line feed, from 0.
fn line_end(text: &[u8]) -> Option<usize>
    ensures place { result ≡ position (λ b. b == 10) text.now }
    ensures within { IfSome result (λ i. i < length text.now) }
{
    memchr(b'\n', text)
}

/// The text up to its first line feed, and what stands behind that. `None` where there is no line
/// feed.
fn cut_line(text: &[u8]) -> Option<(&[u8], &[u8])>
    ensures pieces { IfSome result (λ p. pieces_of text.now ≡ p.0.now ∷ pieces_of p.1.now) }
    ensures shorter { IfSome result (λ p. length p.1.now < length text.now) }
    ensures last { IfNone result (pieces_of text.now ≡ text.now ∷ []) }
{
    let end = line_end(text)?;
    Some((&text[..end], &text[end + 1..]))
}

/// The next line, and what stands behind it. `None` where there is no whole line.
pub fn next_line(text: &[u8]) -> Option<(&[u8], &[u8])>
    ensures line { IfSome result (λ p. lines_of text.now ≡ Some p.0.now ∷ lines_of p.1.now) }
    ensures end { IfNone result (line_at (lines_of text.now) 0 ≡ None) }
{
    let mut rest = text;
    'notes: while let Some((line, behind)) = cut_line(rest) {
        if !is_note(line) {
            return Some((line, behind));
        }
        rest = behind;
    }
    None
}

/// Whether nothing is left but notes.
pub fn has_ended(text: &[u8]) -> bool
    ensures { result ≡ has_no_line (lines_of text.now) }
{
    let mut rest = text;
    'notes: while let Some((line, behind)) = cut_line(rest) {
        if !is_note(line) {
            return false;
        }
        rest = behind;
    }
    rest.is_empty() || is_note(rest)
}
