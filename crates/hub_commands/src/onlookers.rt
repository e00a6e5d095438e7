//! Who is told of the windows of a day as they close: nobody, or a board.
ghost use Rattle.atomic_table.specs.Seated.{TableId};
ghost use Rattle.day_report.specs.Days.{abort_count, commit_count};
ghost use Rattle.hub_commands.specs.Boards.{HasOneMore, IsPosting, IsToldOf, as_over};
ghost use Rattle.hub_commands.specs.Going.{IsNextToTell, windows_in};
ghost use Rattle.status_board.specs.Publishings.{last_of};
ghost use Rattle.status_board.specs.declared.day_counts.Counts.{Counts};
ghost use Rattle.std.specs.Prelude.{◌≡◌, ◌+◌, ◌++◌, ◌<◌, ◌^◌, ◌∷◌, [], List, None, Option, Some};

use crate::plays::UntoldDay;
use crate::told_windows::{ToldWindow, ends_told};
use day_report::Ends;
use device_states::Device;
use home_types::List;
use status_board::{Board, Counts, Publisher};
use std::sync::Wait;

/// Who is told of the windows of a day as they close.
pub trait Onlooker {
    /// The counts after each window that it was told of, where it tells them.
    ghost told: { Self → Option (List Counts) };

    /// The board on which it posts, if any.
    ghost posts_on: { Self → Option TableId };

    /// What its call asks for, and leaves so.
    ghost stands: { Self → Type 0 };

    /// One window more was closed: the last of these.
    fn closed<R: Wait>(&mut self, rt: &R, windows: &List<ToldWindow>)
        requires stands { stands self.old }
        requires more { HasOneMore (told self.old) windows.now.items }
        requires few { commit_count windows.now.items + abort_count windows.now.items < 2 ^ 64 }
        ensures stands { stands self.new }
        ensures same { posts_on self.new ≡ posts_on self.old }
        ensures told { IsToldOf (told self.new) windows.now.items };
}

/// Nobody is told.
#[derive(Clone, Copy)]
pub struct Nobody;

impl Onlooker for Nobody {
    ghost use Rattle.std.specs.Prelude.{None};

    ghost told = { λ _. None };

    ghost posts_on = { λ _. None };

    ghost stands = { λ _. Unit {0} };

    fn closed<R: Wait>(&mut self, _rt: &R, _windows: &List<ToldWindow>) {}
}

/// The counts of a day are posted on a board.
#[derive(Drop)]
pub struct Posting<'a> {
    pub board: &'a Board,
    pub publisher: Publisher,
    /// What was published last: zeros before the first window.
    pub last: Counts,
}

impl<'a> Onlooker for Posting<'a> {
    ghost use Rattle.hub_commands.specs.Boards.{IsPosting};
    ghost use Rattle.std.specs.Prelude.{Some};

    ghost told = { λ posting. Some posting.publisher.list };

    ghost posts_on = { λ posting. Some posting.board.now };

    ghost stands = { λ posting. IsPosting posting.board.now posting.publisher posting.last };

    fn closed<R: Wait>(&mut self, rt: &R, windows: &List<ToldWindow>) {
        let closed = windows.len() as usize - 1;
        let Ends { committed, aborted } = ends_told(&windows.as_slice()[closed..]);
        let committed = self.last.committed + committed as u64;
        let aborted = self.last.aborted + aborted as u64;
        let counts = Counts {
            windows: windows.len(),
            runs: committed + aborted,
            committed,
            aborted,
            over: false,
        };
        self.board.publish(rt, &mut self.publisher, counts);
        self.last = counts;
    }
}

impl<'a> Posting<'a> {
    /// Nothing was published on the board yet.
    pub fn new(board: &'a Board, publisher: Publisher) -> Posting<'a>
        requires board { publisher.board ≡ board.now }
        requires empty { publisher.list ≡ [] }
        ensures stands { IsPosting board.entry.now result.publisher result.last }
        ensures board { result.board.now ≡ board.entry.now }
        ensures empty { result.publisher.list ≡ [] }
    {
        Posting {
            board,
            publisher,
            last: Counts::none(),
        }
    }

    /// The day is over: publishes the last counts so.
    pub fn end<R: Wait>(&mut self, rt: &R)
        requires stands { IsPosting self.old.board.now self.old.publisher self.old.last }
        ensures board { self.new.board.now ≡ self.old.board.now }
        ensures own { self.new.publisher.board ≡ self.old.publisher.board }
        ensures published { self.new.publisher.list
            ≡ self.old.publisher.list ++ as_over (last_of self.old.publisher.list) ∷ [] }
    {
        let over = Counts {
            over: true,
            ..self.last
        };
        self.board.publish(rt, &mut self.publisher, over);
    }
}

/// Tells of the next window, where it was played.
pub fn tell_of<R: Wait, O: Onlooker, D: Device>(
    rt: &R,
    onlooker: &mut O,
    next: &Result<UntoldDay<D>, List<ToldWindow>>,
)
    requires stands { O.stands onlooker.old }
    requires next { IsNextToTell (O.told onlooker.old) next.now }
    ensures stands { O.stands onlooker.new }
    ensures same { O.posts_on onlooker.new ≡ O.posts_on onlooker.old }
    ensures told { IsToldOf (O.told onlooker.new) (windows_in next.now) }
{
    if let Ok(day) = next {
        onlooker.closed(rt, &day.windows);
    }
}
