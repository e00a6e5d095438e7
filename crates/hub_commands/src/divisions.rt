//! How the input of a check is divided into a script and a record.
ghost use Rattle.std.specs.Prelude.{◌≡◌, ◌==◌, ◌<◌, ◌≤◌, ◌∷◌, drop, length, take};
ghost use Rattle.std.specs.List.{position};
ghost use Rattle.hub_commands.specs.Divisions.{division_of, is_divider, lines_with_feeds};

/// The place of the first line feed, from 0.
fn line_feed(text: &[u8]) -> Option<usize>
    ensures { result ≡ position (λ b. b == 10) text.now }
{
    text.iter().position(|byte| *byte == b'\n')
}

/// How many bytes the first line has, with its line feed.
fn line_length(text: &[u8]) -> usize
    requires { 0 < length text.now }
    ensures some { 0 < result }
    ensures within { result ≤ length text.now }
    ensures first { lines_with_feeds text.now
        ≡ take result text.now ∷ lines_with_feeds (drop result text.now) }
{
    match line_feed(text) {
        Some(at) => at + 1,
        None => text.len(),
    }
}

/// Whether the line is the one that divides a script and its record.
fn is_divider(line: &[u8]) -> bool
    ensures { result ≡ is_divider line.now }
{
    line == "%%\n".as_bytes() || line == "%%".as_bytes()
}

/// The script and the record of an input: what stands before its first line that is `%%`, and what
/// stands behind it. Without such a line the record is empty.
pub fn divide(text: &[u8]) -> (&[u8], &[u8])
    ensures script { result.0.now ≡ (division_of text.now).script }
    ensures record_text { result.1.now ≡ (division_of text.now).record_text }
{
    let mut at = 0;
    'lines: while at < text.len() {
        let rest = &text[at..];
        let end = line_length(rest);
        if is_divider(&rest[..end]) {
            return (&text[..at], &rest[end..]);
        }
        at += end;
    }
    (text, &text[at..])
}
