//! Leases: which one is overdue for a run, its deadline, and whether one may ever be.
ghost use Rattle.std.specs.Prelude.{◌≡◌, ◌<◌, ◌≤◌, false, length, ℕ};
ghost use Rattle.command_rules.specs.Rosters.{commands_of, estimate_to_last, runs_of};
ghost use Rattle.home_types.specs.Limits.{most_commands};
ghost use Rattle.lineage_table.specs.Accesses.{first_before};
ghost use Rattle.lineage_table.specs.Lineages.{accesses_at};
ghost use Rattle.lock_leasing.specs.Leases.{IsBorrowedFrom, IsDeadlineOf, IsNeverOverdue, IsOverdueOf, access_borrows, access_deadline, access_is_overdue, placed_at};
ghost use Rattle.lock_leasing.specs.Standings.{MayAsk, MayLease};
ghost use Rattle.lock_leasing.specs.Words.{tenth_up};

use crate::standings::Standing;
use command_rules::{IndexedRoster, Roster};
use history_book::Book;
use home_types::{DeviceNo, RunNo};
use lineage_table::{Access, Status};

/// The run whose lease on the device is overdue for `w` at this moment, in ms, with its deadline:
/// the first one in line order. `None` where there is none.
///
/// The four parts belong to one window, whose model is not the weak one. `w` is placed, neither
/// doomed nor ended, and its next command is on `d`. Takes no memory, and reads of the history no
/// more than its dooms and placings.
pub fn overdue(s: &Standing, w: RunNo, d: DeviceNo, moment: u64) -> Option<(RunNo, u64)>
    requires { MayAsk s.now w.0 d.0 }
    ensures { IsOverdueOf s.now w.0 d.0 moment result }
{
    let x = find_overdue(s, w, d, moment)?;
    Some((x, deadline(s, x, d)))
}

/// Whether some lease on the device may become overdue for `w`: whether a run before it that was
/// placed later, and is not doomed, holds the device. Where none does, no lease is overdue for `w`
/// at any moment.
///
/// Asks what [`overdue`] asks, and reads no more.
pub fn lends(s: &Standing, w: RunNo, d: DeviceNo) -> bool
    requires { MayAsk s.now w.0 d.0 }
    ensures exact { IsBorrowedFrom s.now w.0 d.0 result }
    ensures never { result ≡ false → IsNeverOverdue s.now w.0 d.0 }
{
    find_borrower(s, w, d).is_some()
}

/// The deadline of the lease of `x` on the device, in ms: its planned end there, and a tenth,
/// rounded up, of its estimates up to its last command there. Sums stay at 2^64 - 1.
///
/// The four parts belong to one window, whose model is not the weak one, and `x` has an access to
/// the device. Takes no memory, and goes over the accesses to the device and the commands of `x`.
pub fn deadline(s: &Standing, x: RunNo, d: DeviceNo) -> u64
    requires { MayLease s.now x.0 d.0 }
    ensures { IsDeadlineOf s.now x.0 d.0 result }
{
    let access = s.table.access(d, x).unwrap();
    lease_deadline(s.roster, d, access)
}

/// The first run before `w`, among those with an access to the device, whose lease is overdue for
/// it.
pub(crate) fn find_overdue(s: &Standing, w: RunNo, d: DeviceNo, moment: u64) -> Option<RunNo>
    requires device { d.0 < length s.now.table }
    requires few { (r : ℕ) → length (commands_of s.now.runs r) ≤ most_commands }
    ensures { result ≡ first_before
        (access_is_overdue s.now.runs s.now.history (placed_at s.now.history w.0) d.0 moment) w.0
        (accesses_at s.now.table d.0) }
{
    let placed = placed_at(s.book, w);
    s.table
        .first_before(d, w, |access| is_overdue(s, placed, d, moment, access))
}

/// The first run before `w`, among those with an access to the device, that has it on a lease.
fn find_borrower(s: &Standing, w: RunNo, d: DeviceNo) -> Option<RunNo>
    requires { d.0 < length s.now.table }
    ensures { result ≡ first_before (access_borrows s.now.history (placed_at s.now.history w.0)) w.0
        (accesses_at s.now.table d.0) }
{
    let placed = placed_at(s.book, w);
    s.table
        .first_before(d, w, |access| is_borrower(s.book, placed, access))
}

/// Whether the run of an access has the device on a lease that is overdue at this moment for a run
/// that was placed then.
fn is_overdue(s: &Standing, placed: u64, d: DeviceNo, moment: u64, access: Access) -> bool
    requires { (r : ℕ) → length (commands_of s.now.runs r) ≤ most_commands }
    ensures { result ≡ access_is_overdue s.now.runs s.now.history placed d.0 moment access }
{
    if moment <= access.to {
        // Its deadline is no earlier than its planned end.
        return false;
    }
    is_borrower(s.book, placed, access) && lease_deadline(s.roster, d, access) < moment
}

/// Whether the run of an access has the device on a lease from one that was placed then.
fn is_borrower(book: &Book, placed: u64, access: Access) -> bool
    ensures { result ≡ access_borrows book.now.items placed access }
{
    access.status != Status::Released
        && placed < placed_at(book, access.run)
        && !book.is_doomed(access.run)
}

/// When the run was placed: the number of entries before.
fn placed_at(book: &Book, r: RunNo) -> u64
    ensures { result ≡ placed_at book.now.items r.0 }
{
    book.placing_of(r).unwrap_or(0)
}

/// The deadline of the lease that an access to the device stands for.
pub(crate) fn lease_deadline(roster: &IndexedRoster, d: DeviceNo, access: Access) -> u64
    requires { (r : ℕ) → length (commands_of (runs_of roster.now) r) ≤ most_commands }
    ensures { result ≡ access_deadline (runs_of roster.now) d.0 access }
{
    let estimates = estimate_to_last(roster.roster(), access.run, d);
    access.to.saturating_add(tenth_up(estimates))
}

/// The sum of the estimates of `r`, in ms, up to and with its last command on the device: 0 where
/// no command is on it, or no run of the roster has this number.
fn estimate_to_last(roster: &Roster, r: RunNo, d: DeviceNo) -> u64
    requires { (r : ℕ) → length (commands_of (runs_of roster.now) r) ≤ most_commands }
    ensures { result ≡ estimate_to_last d.0 (commands_of (runs_of roster.now) r.0) }
{
    let is_run = r.0 != 0 && r.0 as u64 <= roster.runs.len();
    if is_run {
        roster.estimate_to_last(r, d)
    } else {
        0
    }
}

/// A tenth, rounded up.
fn tenth_up(sum: u64) -> u64
    ensures { result ≡ tenth_up sum }
{
    sum.div_ceil(10)
}
