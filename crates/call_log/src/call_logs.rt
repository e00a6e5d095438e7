//! A log of calls on a disk, which holds back what rests on calls that are not synced.
ghost use Rattle.std.specs.Prelude.{◌≡◌, ◌+◌, ◌<◌, ◌≢◌, ◌≤◌, ◌++◌, [], ◌∷◌, IfErr, IfOk, Ok, OnErr, OnOk, length, true};
ghost use Rattle.call_log.specs.CallLogs.{AddsCalls, FindsAll, IsAppended, IsBegun, IsLetOut, IsRefused, IsSameOrNew, IsSyncedFrom, KnowsCalls, LeavesCalls, LeavesOldOrSame, LogState, calls_kept, disk_of, drive_held, opened_disk, report_held};
ghost use Rattle.call_log.specs.KeptCalls.{kept_calls};
ghost use Rattle.slot_disks.specs.Disks.{LeavesOnly, LeavesThis};
ghost use Rattle.logged_calls.specs.CallBytes.{calls_from};
ghost use Rattle.logged_calls.specs.Calls.{HasCivilTime};

use crate::call_files::{add_call, open_file, restart, write_calls};
use crate::faults::LogFault;
use crate::heads::Head;
use day_clock::Failed;
use home_types::{List, NoMemory};
use logged_calls::{CALL_SIZE, Logged};
use slot_disks::Disk;
use std::alloc::Global;
use std::marker::Model;
use std::snapshot::Snapshot;

/// The calls of a live home on a disk. A drive or a report that rests on them is held back here,
/// and comes out of a `Synced` alone.
#[derive(Drop)]
pub struct CallLog<Q: Disk, D: Drop, R: Drop> {
    disk: Q,
    head: Head,
    most: u32,
    // How many calls are on the disk.
    kept: u32,
    // The calls that were appended since, and the bytes of their slots.
    pending: Vec<Logged>,
    group: Vec<u8>,
    drives: List<D>,
    reports: List<R>,
    // For contracts alone: the disk when some of them were last let out.
    let_out: Snapshot<Q>,
}

impl<Q: Disk, D: Drop, R: Drop> Model for CallLog<Q, D, R> {
    ghost use Rattle.std.specs.Prelude.{◌≡◌, true, vec_capacity};
    ghost use Rattle.call_log.specs.CallLogs.{FindsAll, IsOpenFile, LogState};

    ghost Value = { LogState Q D R };

    ghost view = { λ l. record {
      disk = l.disk;
      head = l.head;
      most = l.most;
      kept = l.kept;
      pending = l.pending.items;
      drives = l.drives.items;
      reports = l.reports.items;
      let_out = l.let_out.value;
    } };

    ghost invariant = { λ l. IsOpenFile l.head l.most l.kept l.pending.items l.group.items
        (vec_capacity l.group) Q.told (Q.seen l.disk) (Q.images l.disk)
        × (Q.told ≡ true → FindsAll Q.seen Q.moment Q.images_since l.head l.most l.let_out.value
        l.disk) };
}

/// A log of which all calls are on the disk: only a sync makes it, and only it lets out what was
/// held back.
#[derive(Drop)]
pub struct Synced<Q: Disk, D: Drop, R: Drop> {
    log: CallLog<Q, D, R>,
}

impl<Q: Disk, D: Drop, R: Drop> Model for Synced<Q, D, R> {
    ghost use Rattle.std.specs.Prelude.{◌≡◌, []};
    ghost use Rattle.call_log.specs.CallLogs.{LogState};

    ghost Value = { LogState Q D R };

    ghost view = { λ s. s.log };

    ghost invariant = { λ s. s.log.pending ≡ [] };
}

/// What a log lets out: the drives to start, and the reports to hand on.
#[derive(Drop)]
pub struct LetOut<D: Drop, R: Drop> {
    /// In the order in which they were held back.
    pub drives: List<D>,
    /// In the order in which they were held back.
    pub reports: List<R>,
}

/// Why a call was not appended.
#[derive(Clone, Copy, Debug, PartialEq, Eq)]
pub enum AppendFault {
    /// There was no memory.
    NoMemory,
    /// The log has as many calls as it may have.
    Full,
}

impl<Q: Disk, D: Drop, R: Drop> CallLog<Q, D, R> {
    /// Opens the log on a disk that a crash may have left, with room for `most` calls, and begins
    /// one where there is none. Answers it with the bytes of the calls that it keeps. It begins
    /// with a sync.
    ///
    /// A log with another head is refused by the name of what differs, a call that was synced and
    /// is none now by its place. What was not synced whole is not found.
    pub fn open(
        alloc: Global,
        disk: Q,
        head: Head,
        most: u32,
    ) -> Result<(CallLog<Q, D, R>, List<u8>), (Q, LogFault)>
        ensures begun { IfOk result (λ opened. IsBegun head most opened.0) }
        ensures found { Q.told ≡ true → IfOk result
            (λ opened. kept_calls head most (Q.seen disk) ≡ Ok (calls_from opened.1.items)) }
        ensures same { Q.told ≡ true → IfOk result
            (λ opened. calls_kept Q.seen opened.0 ≡ kept_calls head most (Q.seen disk)) }
        ensures refused { Q.told ≡ true → IfErr result (λ e. IsRefused e.1
            (kept_calls head most (Q.seen disk)) (Q.seen disk) (Q.seen e.0)) }
        ensures failed { IfErr result (λ e. e.1 ≡ LogFault.Failed → Q.faults disk < Q.faults e.0) }
        ensures later { Q.faults disk ≤ Q.faults (opened_disk result) }
        // A crash at any moment of the call leaves one of the images that there were, or what keeps
        // the same calls.
        ensures any_moment { Q.told ≡ true → LeavesOnly Q.moment Q.images_since disk
            (opened_disk result) (LeavesOldOrSame (Q.images disk) head most (Q.seen disk)) }
    {
        let Ok(mut group) = Vec::with_capacity(alloc, CALL_SIZE + 2) else {
            return Err((disk, LogFault::NoMemory));
        };
        let mut calls = List::new(alloc);
        let mut disk = disk;
        match open_file(alloc, &mut disk, most, head, &mut group, &mut calls) {
            Ok(Ok(kept)) => {
                let let_out = Snapshot::of(&disk);
                let log = CallLog {
                    disk,
                    head,
                    most,
                    kept,
                    pending: Vec::new(alloc),
                    group,
                    drives: List::new(alloc),
                    reports: List::new(alloc),
                    let_out,
                };
                Ok((log, calls))
            }
            Ok(Err(fault)) => {
                drop(group);
                drop(calls);
                Err((disk, fault))
            }
            Err(_) => {
                drop(group);
                drop(calls);
                Err((disk, LogFault::Failed))
            }
        }
    }

    /// How many calls are on the disk.
    pub fn kept(&self) -> u32
        ensures { result ≡ self.now.kept }
    {
        self.kept
    }

    /// What holds of every log: it knows what its disk keeps, and a crash leaves all of it. And at
    /// any moment since something was last let out a crash left, and leaves, all calls on which it
    /// rests. It does no work.
    pub fn settled(&self)
        ensures few { self.now.kept + length self.now.pending ≤ self.now.most }
        ensures knows { Q.told ≡ true
            → KnowsCalls self.now.head self.now.most self.now.kept (Q.seen self.now.disk) }
        ensures durable { Q.told ≡ true
            → LeavesThis (Q.seen self.now.disk) (Q.images self.now.disk) }
        ensures found { Q.told ≡ true → FindsAll Q.seen Q.moment Q.images_since self.now.head
            self.now.most self.now.let_out self.now.disk }
    {
        let _ = &self.kept;
    }

    /// Appends a call that was made. It is on the disk after the next sync.
    pub fn append(&mut self, call: Logged) -> Result<(), AppendFault>
        requires time { HasCivilTime call }
        ensures ok { OnOk result (IsAppended self.old call self.new) }
        ensures err { OnErr result (self.new ≡ self.old) }
        ensures full { IfErr result (λ fault. fault ≡ AppendFault.Full
            → self.old.most ≤ self.old.kept + length self.old.pending) }
    {
        if self.pending.len() as u64 + u64::from(self.kept) >= u64::from(self.most) {
            return Err(AppendFault::Full);
        }
        match add_call(&mut self.pending, &mut self.group, call) {
            Ok(()) => Ok(()),
            Err(_) => Err(AppendFault::NoMemory),
        }
    }

    /// Holds back a drive, which rests on all calls that were appended. Where there is no memory it
    /// is dropped.
    pub fn hold_drive(&mut self, drive: D) -> Result<(), NoMemory>
        ensures ok { OnOk result (self.new ≡ drive_held self.old drive) }
        ensures err { OnErr result (self.new ≡ self.old) }
    {
        self.drives.push(drive)
    }

    /// Holds back a report, which rests on all calls that were appended. Where there is no memory
    /// it is dropped.
    pub fn hold_report(&mut self, report: R) -> Result<(), NoMemory>
        ensures ok { OnOk result (self.new ≡ report_held self.old report) }
        ensures err { OnErr result (self.new ≡ self.old) }
    {
        self.reports.push(report)
    }

    /// Waits until all calls that were appended are on the disk: two syncs for all of them, and
    /// none where there are none. From `Ok` on every crash leaves them; a crash at any moment of
    /// the call leaves what was kept, with all of them or with none. Takes no memory.
    ///
    /// After `Failed` what was held back is dropped. Open the disk again, and make the home again
    /// from what it keeps.
    pub fn sync(self) -> Result<Synced<Q, D, R>, (Q, Failed)>
        ensures synced { IfOk result (λ s. IsSyncedFrom self s) }
        ensures kept { Q.told ≡ true → IfOk result
            (λ s. AddsCalls (calls_kept Q.seen self) (calls_kept Q.seen s) self.pending) }
        ensures any_moment { Q.told ≡ true → LeavesCalls Q.seen Q.moment Q.images_since self.head
            self.most self.disk (disk_of result) self.pending }
        ensures later { Q.faults self.disk ≤ Q.faults (disk_of result) }
        ensures failed { IfErr result (λ e. Q.faults self.disk < Q.faults e.0) }
    {
        let CallLog {
            mut disk,
            head,
            most,
            kept,
            mut pending,
            mut group,
            drives,
            reports,
            let_out,
        } = self;
        match write_calls(&mut disk, most, head, kept, pending.as_slice(), &mut group) {
            Ok(()) => {
                let kept = kept + pending.len() as u32;
                pending.clear();
                let log = CallLog {
                    disk,
                    head,
                    most,
                    kept,
                    pending,
                    group,
                    drives,
                    reports,
                    let_out,
                };
                Ok(Synced { log })
            }
            Err(failed) => {
                drop(pending);
                drop(group);
                drop(drives);
                drop(reports);
                Err((disk, failed))
            }
        }
    }

    /// Begins the log anew with this head, between two windows, when all was synced and let out:
    /// what it kept has to be on a disk elsewhere by then. A crash at any moment leaves what was
    /// kept, or a log with the new head and no call. Takes no memory.
    pub fn begin_anew(self, head: Head) -> Result<CallLog<Q, D, R>, (Q, Failed)>
        requires synced { self.pending ≡ [] }
        requires let_out { (self.drives ≡ []) × (self.reports ≡ []) }
        ensures begun { IfOk result (λ log. IsBegun head self.most log × (log.kept ≡ 0)) }
        ensures none { Q.told ≡ true → IfOk result (λ log. calls_kept Q.seen log ≡ Ok []) }
        ensures any_moment { Q.told ≡ true → LeavesOnly Q.moment Q.images_since self.disk
            (disk_of result) (IsSameOrNew self.head head self.most (Q.seen self.disk)) }
        ensures later { Q.faults self.disk ≤ Q.faults (disk_of result) }
        ensures failed { IfErr result (λ e. Q.faults self.disk < Q.faults e.0) }
    {
        let CallLog {
            mut disk,
            head: _,
            most,
            kept,
            pending,
            mut group,
            drives,
            reports,
            let_out: _,
        } = self;
        match restart(&mut disk, most, kept, head, &mut group) {
            Ok(()) => {
                let let_out = Snapshot::of(&disk);
                Ok(CallLog {
                    disk,
                    head,
                    most,
                    kept: 0,
                    pending,
                    group,
                    drives,
                    reports,
                    let_out,
                })
            }
            Err(failed) => {
                drop(pending);
                drop(group);
                drop(drives);
                drop(reports);
                Err((disk, failed))
            }
        }
    }

    /// Gives the disk back. What is pending is lost, and what is held back is dropped.
    pub fn into_disk(self) -> Q
        ensures { result ≡ self.disk }
    {
        let CallLog {
            disk,
            head: _,
            most: _,
            kept: _,
            pending: _,
            group: _,
            drives: _,
            reports: _,
            let_out: _,
        } = self;
        disk
    }

    // Lets out what was held back.
    fn release(self, alloc: Global) -> (CallLog<Q, D, R>, LetOut<D, R>)
        requires synced { self.pending ≡ [] }
        ensures out { (result.1.drives.items ≡ self.drives)
            × (result.1.reports.items ≡ self.reports) }
        ensures log { IsLetOut self result.0 }
    {
        let CallLog {
            disk,
            head,
            most,
            kept,
            pending,
            group,
            drives,
            reports,
            let_out: _,
        } = self;
        let let_out = Snapshot::of(&disk);
        let log = CallLog {
            disk,
            head,
            most,
            kept,
            pending,
            group,
            drives: List::new(alloc),
            reports: List::new(alloc),
            let_out,
        };
        (log, LetOut { drives, reports })
    }
}

impl<Q: Disk, D: Drop, R: Drop> Synced<Q, D, R> {
    /// Lets out what was held back. All calls on which it rests are on the disk, and every crash
    /// leaves them. Takes no memory.
    pub fn let_out(self, alloc: Global) -> (CallLog<Q, D, R>, LetOut<D, R>)
        ensures out { (result.1.drives.items ≡ self.drives)
            × (result.1.reports.items ≡ self.reports) }
        ensures log { IsLetOut self result.0 }
        ensures synced { self.pending ≡ [] }
    {
        let Synced { log } = self;
        log.release(alloc)
    }
}
