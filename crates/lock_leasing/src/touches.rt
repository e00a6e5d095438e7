//! What a run meets at its next command: a holder, a dirty value, or nothing.
ghost use Rattle.std.specs.Prelude.{◌≡◌, ◌<◌, IsTrue, length};
ghost use Rattle.command_rules.specs.Rosters.{command_at, commands_of, is_run, runs_of};
ghost use Rattle.lineage_table.specs.Lineages.{accesses_at};
ghost use Rattle.lock_leasing.specs.Holders.{access_holds, dirty_writer, holder_before, writer_before};
ghost use Rattle.lock_leasing.specs.Standings.{MayTouch};
ghost use Rattle.lock_leasing.specs.Touches.{IsTouchOf};

use crate::standings::Standing;
use command_rules::IndexedRoster;
use command_rules::jobs::reads;
use history_book::Book;
use home_types::{Command, DeviceNo, RunNo};
use lineage_table::{Access, Status, View};

/// What a run meets at the device of its next command.
#[derive(Clone, Copy, Debug, PartialEq, Eq)]
pub enum Touch {
    /// No other run bars it.
    Free,
    /// This live run stands before it and holds the device.
    Behind(DeviceNo, RunNo),
    /// It would read the write of this live run, which stands before it.
    Dirty(DeviceNo, RunNo),
}

/// What `r` meets at its next command, `c`: the first live run before it that holds the device,
/// else the live run before it whose write `c` would read.
///
/// The four parts belong to one window, whose model is not the weak one. `r` is placed, neither
/// doomed nor ended, and `c` is its next command, counted from 0. Takes no memory, and reads of the
/// history no more than its dooms.
#[inline(always)]
pub fn test_touch(s: &Standing, r: RunNo, c: u32) -> Touch
    requires { MayTouch s.now r.0 c }
    ensures { IsTouchOf s.now r.0 c result }
{
    let command = command_at(s.roster, r, c);
    match first_holder(s, command.device, r) {
        Some(x) => Touch::Behind(command.device, x),
        None => match find_dirty_writer(s, command, r) {
            Some(x) => Touch::Dirty(command.device, x),
            None => Touch::Free,
        },
    }
}

/// The command of `r` with this number, counted from 0.
fn command_at(roster: &IndexedRoster, r: RunNo, c: u32) -> Command
    requires run { IsTrue (is_run (runs_of roster.now) r.0) }
    requires command { c < length (commands_of (runs_of roster.now) r.0) }
    ensures { result ≡ command_at (runs_of roster.now) r.0 c }
{
    roster.commands(r)[c as usize]
}

/// The first run that holds the device, among those with an access to it: before that of `r` where
/// it has one.
///
/// Takes no memory, and reads of the history no more than its dooms.
#[inline(always)]
pub fn first_holder(s: &Standing, d: DeviceNo, r: RunNo) -> Option<RunNo>
    requires { d.0 < length s.now.table }
    ensures { result ≡ holder_before s.now.history r.0 (accesses_at s.now.table d.0) }
{
    let writer = s.table.effective_writer(d);
    s.table
        .first_before(d, r, |access| holds(s.book, writer, access))
}

/// Whether the run of an access holds the device, whose effective writer is `writer`.
fn holds(book: &Book, writer: Option<RunNo>, access: Access) -> bool
    ensures { result ≡ access_holds book.now.items writer access }
{
    if book.is_doomed(access.run) {
        writer == Some(access.run)
    } else {
        access.status != Status::Released
    }
}

/// The effective writer of the command's device before `r`, where the command would read its write.
#[inline(always)]
fn find_dirty_writer(s: &Standing, command: Command, r: RunNo) -> Option<RunNo>
    requires { command.device.0 < length s.now.table }
    ensures { result ≡ dirty_writer command r.0 (accesses_at s.now.table command.device.0) }
{
    if !reads(command.job) {
        return None;
    }
    let access = s.table.access(command.device, r)?;
    let sees_down = access.view == Some(View::Down);
    if !sees_down && access.wrote.is_none() {
        find_writer(s, command.device, r)
    } else {
        None
    }
}

/// The effective writer of the device, where its access stands before that of `r`.
fn find_writer(s: &Standing, d: DeviceNo, r: RunNo) -> Option<RunNo>
    requires { d.0 < length s.now.table }
    ensures { result ≡ writer_before r.0 (accesses_at s.now.table d.0) }
{
    let writer = s.table.effective_writer(d);
    s.table
        .first_before(d, r, |access| writer == Some(access.run))
}
