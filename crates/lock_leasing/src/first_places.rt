//! The first place where a run may be put.
ghost use Rattle.std.specs.Prelude.{◌≡◌, ◌+◌, ◌<◌, IsTrue, length};
ghost use Rattle.command_rules.specs.Rosters.{commands_of, is_run, runs_of};
ghost use Rattle.history_book.specs.Books.{end_of};
ghost use Rattle.lock_leasing.specs.Counts.{has_committed, up_to_followed, up_to_run, up_to_touched};
ghost use Rattle.lock_leasing.specs.FirstPlaces.{IsFirstPlaceOf};

use crate::standings::Standing;
use command_rules::IndexedRoster;
use history_book::{Book, End};
use home_types::{Item, RunNo};
use serial_line::Line;

/// The first place in the line, counted from 0, where `r` may be put: right behind the last item
/// that has touched one of its devices, the committed run that it follows, and the last item before
/// the first live run, or 0 where there is none of them.
///
/// The four parts belong to one window, whose model is not the weak one, and `r` is in the roster.
/// Takes no memory, and reads of the history no more than the end of the run that `r` follows.
pub fn first_place(s: &Standing, r: RunNo) -> u32
    requires { IsTrue (is_run s.now.runs r.0) }
    ensures { IsFirstPlaceOf s.now r.0 result }
{
    let touched = count_to_touched(s.line, s.roster, r);
    let followed = count_to_followed(s, r);
    touched.max(followed).max(s.line.front())
}

/// The number of items up to and with the last one that has touched a device of `r`.
fn count_to_touched(line: &Line, roster: &IndexedRoster, r: RunNo) -> u32
    requires { IsTrue (is_run (runs_of roster.now) r.0) }
    ensures { result ≡ up_to_touched (commands_of (runs_of roster.now) r.0) line.now.marks }
{
    match line.last_meeting(roster.devices(r)) {
        Some(at) => count_through(line, at),
        None => 0,
    }
}

/// The number of items up to and with the committed run that `r` follows, 0 where there is none.
fn count_to_followed(s: &Standing, r: RunNo) -> u32
    requires { IsTrue (is_run s.now.runs r.0) }
    ensures { result ≡ up_to_followed s.now.runs s.now.history r.0 s.now.line }
{
    match s.roster.roster().followed_by(r) {
        Some(f) if has_committed(s.book, f) => count_to_run(s.line, f),
        _ => 0,
    }
}

fn has_committed(book: &Book, r: RunNo) -> bool
    ensures { result ≡ has_committed book.now.items r.0 }
{
    matches!(book.end_of(r), Some(End::Committed))
}

/// The number of items up to and with the run, 0 where it is not in the line.
fn count_to_run(line: &Line, r: RunNo) -> u32
    ensures { result ≡ up_to_run r.0 line.now.marks }
{
    match line.place_of(Item::Ran(r)) {
        Some(at) => count_through(line, at),
        None => 0,
    }
}

/// The number of items up to and with the one at this place.
fn count_through(line: &Line, at: u32) -> u32
    requires { at < length line.now.marks }
    ensures { result ≡ at + 1 }
{
    let is_place = at < line.len();
    prove!(is_place);
    at + 1
}
