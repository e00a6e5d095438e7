//! The lineage of one device: its committed value and its accesses, in line order.
ghost use Rattle.std.specs.Prelude.{◌≡◌, ◌+◌, ◌<◌, [], false, IfOk, IsSome, IsTrue, OnErr, OnOk, Some, not};
ghost use Rattle.chain_arena.specs.Chains.{values_of};
ghost use Rattle.std.specs.Option.{ForSome};
ghost use Rattle.lineage_table.specs.declared.accesses.Access.{Access};
ghost use Rattle.lineage_table.specs.Accesses.{IsDisciplined, IsFirstBefore, access_of, accesses_before, accesses_without, effective_writer, has_access, put_access_before, run_behind, some_acquired, some_scheduled, status_of, value_standing, written_by};
ghost use Rattle.lineage_table.specs.Answers.{MayAnswer, answered_access, answered_if};
ghost use Rattle.home_types.specs.declared.numbers.RunNo.{RunNo};
ghost use Rattle.lineage_table.specs.Knots.{CutAtKnot, IsKnotOf};
ghost use Rattle.lineage_table.specs.Lineages.{IsNewLineage, acquired, counted_up, released, removed, scheduled, settled, undone, with_committed, with_more_room, with_value_written};

use crate::accesses::{Access, Status};
use chain_arena::{Chain, Knot};
use home_types::{NoMemory, RunNo, Stand, Value, View};
use std::alloc::Global;
use std::marker::Model;

/// The lineage of one device: its committed value, its accesses in line order, and whether it is
/// counted up.
///
/// Contracts see beside them how many more accesses it takes. Only `open` and `make_room` take
/// memory.
#[derive(Drop)]
pub struct Lineage {
    committed: Value,
    accesses: Chain<Access>,
    // the run of the last access that has a written value
    writer: Option<RunNo>,
    up: bool,
}

impl Model for Lineage {
    ghost use Rattle.chain_arena.specs.Chains.{values_of};
    ghost use Rattle.lineage_table.specs.KeptWriters.{IsSoundLineage};
    ghost use Rattle.lineage_table.specs.Lineages.{LineageState};

    ghost Value = { LineageState };

    ghost view = { λ l. record {
      committed = l.committed;
      accesses = values_of l.accesses.pairs;
      room = l.accesses.spare;
      up = l.up;
    } };

    ghost invariant = { λ l. IsSoundLineage (values_of l.accesses.pairs) l.writer };
}

impl Lineage {
    /// Opens the lineage of a device that stands so, with room for `runs` accesses and for no more
    /// than these.
    pub fn open(alloc: Global, stand: Stand, runs: usize) -> Result<Lineage, NoMemory>
        ensures { IfOk result (IsNewLineage stand runs) }
    {
        if runs > u32::MAX as usize {
            return Err(NoMemory);
        }
        let mut accesses = Chain::new(alloc);
        accesses.reserve(runs as u32)?;
        Ok(Lineage {
            committed: stand.value,
            accesses,
            writer: None,
            up: stand.up,
        })
    }

    /// Makes room for one access more, or answers `NoMemory`, and nothing changes then.
    pub fn make_room(&mut self) -> Result<(), NoMemory>
        ensures made { OnOk result (self.new ≡ with_more_room self.old) }
        ensures refused { OnErr result (self.new ≡ self.old) }
    {
        let room = self.accesses.spare();
        if room == u32::MAX {
            return Err(NoMemory);
        }
        self.accesses.reserve(room + 1)
    }

    /// Puts a scheduled access before that of this run, last where none is named.
    pub fn schedule(&mut self, before: Option<RunNo>, access: Access)
        requires scheduled { access.status ≡ Status.Scheduled }
        requires new { has_access access.run.0 self.old.accesses ≡ false }
        requires room { 0 < self.old.room }
        requires before { ForSome before
            (λ r. status_of r.0 self.old.accesses ≡ Some Status.Scheduled) }
        ensures { self.new ≡ scheduled before access self.old }
    {
        put_in(&mut self.accesses, before, access);
        let stays = access.wrote.is_none();
        self.writer = writer_of(stays, self.writer, &self.accesses);
    }

    /// The run has its first answer on the device, and sees it so from then on.
    pub fn acquire(&mut self, r: RunNo, view: View)
        requires scheduled { status_of r.0 self.old.accesses ≡ Some Status.Scheduled }
        requires none_acquired { some_acquired self.old.accesses ≡ false }
        requires first { some_scheduled (accesses_before r.0 self.old.accesses) ≡ false }
        ensures { self.new ≡ acquired r.0 view self.old }
    {
        self.accesses.kept_invariant();
        let k = knot(&self.accesses, r);
        let access = self.accesses.get_mut(k);
        access.status = Status::Acquired;
        access.view = Some(view);
    }

    /// The run wrote the value.
    pub fn note_write(&mut self, r: RunNo, v: Value)
        requires acquired { status_of r.0 self.old.accesses ≡ Some Status.Acquired }
        ensures { self.new ≡ with_value_written r.0 v self.old }
    {
        self.accesses.kept_invariant();
        let k = knot(&self.accesses, r);
        self.accesses.get_mut(k).wrote = Some(v);
        self.writer = writer_with(self.writer, r, &self.accesses);
    }

    /// The run notes an answer on the device: with its first one it acquires it, and sees it so;
    /// then the value that it wrote, where there is one; and with its last one it is done there.
    ///
    /// Answers false, and changes nothing, where a scheduled access stands before its own.
    pub fn note(&mut self, r: RunNo, view: View, wrote: Option<Value>, is_last: bool) -> bool
        requires { MayAnswer r.0 self.old.accesses }
        ensures turn { result ≡ not (some_scheduled (accesses_before r.0 self.old.accesses)) }
        ensures noted { self.new ≡ answered_if result r.0 view wrote is_last self.old }
    {
        self.accesses.kept_invariant();
        let (k, waits) = knot_in_turn(&self.accesses, r);
        if waits {
            return false;
        }
        let access = self.accesses.get_mut(k);
        *access = answered(*access, view, wrote, is_last);
        self.writer = match wrote {
            Some(_) => writer_with(self.writer, r, &self.accesses),
            None => self.writer,
        };
        true
    }

    /// The run is done with the device.
    pub fn release(&mut self, r: RunNo)
        requires acquired { status_of r.0 self.old.accesses ≡ Some Status.Acquired }
        ensures { self.new ≡ released r.0 self.old }
    {
        self.accesses.kept_invariant();
        let k = knot(&self.accesses, r);
        self.accesses.get_mut(k).status = Status::Released;
    }

    /// What the run wrote is undone. Nothing changes where it has no access, or wrote nothing.
    pub fn undone(&mut self, r: RunNo)
        ensures { self.new ≡ undone r.0 self.old }
    {
        self.accesses.kept_invariant();
        if let Some(k) = knot_of(&self.accesses, r) {
            self.accesses.get_mut(k).wrote = None;
            let of_another = self.writer != Some(r);
            self.writer = writer_of(of_another, self.writer, &self.accesses);
        }
    }

    /// Takes the access of the run out. Answers false where it has none.
    pub fn remove(&mut self, r: RunNo) -> bool
        ensures found { result ≡ has_access r.0 self.old.accesses }
        ensures left { self.new ≡ removed r.0 self.old }
    {
        self.accesses.kept_invariant();
        match knot_of(&self.accesses, r) {
            Some(k) => {
                self.accesses.unlink(k);
                let stays = self.writer != Some(r);
                self.writer = writer_of(stays, self.writer, &self.accesses);
                true
            }
            None => false,
        }
    }

    /// Commits the value that the run wrote: its access and those before it leave.
    pub fn settle(&mut self, r: RunNo)
        requires wrote { IsSome (written_by r.0 self.old.accesses) }
        ensures { self.new ≡ settled r.0 self.old }
    {
        self.accesses.kept_invariant();
        let k = knot(&self.accesses, r);
        self.accesses.drop_left_of(k);
        self.committed = self.accesses.unlink(k).wrote.unwrap();
        self.writer = if self.writer == Some(r) {
            None
        } else {
            self.writer
        };
    }

    /// Sets the committed value. There are no accesses.
    pub fn set_committed(&mut self, v: Value)
        requires none { self.old.accesses ≡ [] }
        ensures { self.new ≡ with_committed v self.old }
    {
        self.committed = v;
    }

    /// Sets whether the device is counted up.
    pub fn set_up(&mut self, up: bool)
        ensures { self.new ≡ counted_up up self.old }
    {
        self.up = up;
    }

    /// Whether the device is counted up.
    pub fn is_up(&self) -> bool
        ensures { result ≡ self.now.up }
    {
        self.up
    }

    /// How many more accesses it takes.
    pub fn room(&self) -> u64
        ensures { result ≡ self.now.room }
    {
        self.accesses.spare() as u64
    }

    /// The accesses, in line order.
    pub fn chain(&self) -> &Chain<Access>
        ensures { values_of result.now.pairs ≡ self.now.accesses }
    {
        &self.accesses
    }

    /// The run of the first access before that of the run of which the test holds.
    pub fn first_before<F: Fn(Access) -> bool>(&self, r: RunNo, test: F) -> Option<RunNo>
        requires { F.IsAlwaysCallable test }
        ensures { IsFirstBefore (F.post test) r.0 self.now.accesses result }
    {
        'accesses: for (_, access) in self.accesses.iter() {
            if access.run == r {
                return None;
            }
            if test(*access) {
                return Some(access.run);
            }
        }
        None
    }

    /// The run of the access immediately behind that of the run. `None` where none is.
    pub fn run_behind(&self, r: RunNo) -> Option<RunNo>
        ensures { result ≡ run_behind r.0 self.now.accesses }
    {
        self.accesses.kept_invariant();
        let k = knot_of(&self.accesses, r)?;
        let behind = self.accesses.after(k)?;
        Some(self.accesses.get(behind).run)
    }

    /// Does nothing. Its contract is what the accesses of every lineage keep: the released ones
    /// stand before the acquired one, and that before the scheduled ones, and no run has two.
    pub fn kept_invariant(&self)
        ensures { IsDisciplined self.now.accesses }
    {
        let _ = &self.up;
    }

    /// The access of the run, where it has one.
    pub fn access(&self, r: RunNo) -> Option<Access>
        ensures { result ≡ access_of r.0 self.now.accesses }
    {
        self.accesses.kept_invariant();
        let k = knot_of(&self.accesses, r)?;
        Some(*self.accesses.get(k))
    }

    /// The value that stands: the last one written, else the committed one.
    pub fn stand(&self) -> Value
        ensures { result ≡ value_standing self.now.committed self.now.accesses }
    {
        match self.writer {
            Some(r) => {
                self.accesses.kept_invariant();
                let k = knot(&self.accesses, r);
                self.accesses.get(k).wrote.unwrap()
            }
            None => self.committed,
        }
    }

    /// The value that stands without the run's access: the last one that another run wrote, else
    /// the committed one.
    pub fn stand_without(&self, r: RunNo) -> Value
        ensures { result
            ≡ value_standing self.now.committed (accesses_without r.0 self.now.accesses) }
    {
        self.accesses
            .iter()
            .fold(self.committed, |value, (_, access)| {
                if access.run == r {
                    value
                } else {
                    access.wrote.unwrap_or(value)
                }
            })
    }

    /// The run of the last access that has a written value.
    pub fn effective_writer(&self) -> Option<RunNo>
        ensures { result ≡ effective_writer self.now.accesses }
    {
        self.writer
    }
}

/// Puts an access in before that of this run, last where none is named. There is room for it.
fn put_in(accesses: &mut Chain<Access>, before: Option<RunNo>, access: Access)
    requires room { 0 < accesses.old.spare }
    requires before { ForSome before (λ r. IsTrue (has_access r.0 (values_of accesses.old.pairs))) }
    ensures items { values_of accesses.new.pairs
        ≡ put_access_before before access (values_of accesses.old.pairs) }
    ensures spare { accesses.new.spare + 1 ≡ accesses.old.spare }
{
    accesses.kept_invariant();
    match before {
        Some(r) => {
            let k = knot(accesses, r);
            accesses.insert_before(k, access);
        }
        None => {
            accesses.push_back(access);
        }
    }
}

/// The knot of the run's access. It has one.
fn knot(accesses: &Chain<Access>, r: RunNo) -> Knot
    requires { IsTrue (has_access r.0 (values_of accesses.now.pairs)) }
    ensures { CutAtKnot r.0 result accesses.now.pairs }
{
    knot_of(accesses, r).unwrap()
}

/// The knot of the run's access, where it has one.
pub(crate) fn knot_of(accesses: &Chain<Access>, r: RunNo) -> Option<Knot>
    ensures { IsKnotOf r.0 accesses.now.pairs result }
{
    'accesses: for (k, access) in accesses.iter() {
        if access.run == r {
            return Some(k);
        }
    }
    None
}

/// The knot of the run's access, and whether a scheduled access stands before it. The run has one.
fn knot_in_turn(accesses: &Chain<Access>, r: RunNo) -> (Knot, bool)
    requires { IsTrue (has_access r.0 (values_of accesses.now.pairs)) }
    ensures knot { CutAtKnot r.0 result.0 accesses.now.pairs }
    ensures waits { result.1 ≡ some_scheduled (accesses_before r.0 (values_of accesses.now.pairs)) }
{
    let mut waits = false;
    'accesses: for (k, access) in accesses.iter() {
        if access.run == r {
            return (k, waits);
        }
        waits = waits || access.status == Status::Scheduled;
    }
    unreachable!()
}

/// The access when its run has noted an answer.
fn answered(access: Access, view: View, wrote: Option<Value>, is_last: bool) -> Access
    ensures { result ≡ answered_access view wrote is_last access }
{
    Access {
        status: if is_last {
            Status::Released
        } else {
            Status::Acquired
        },
        view: if access.status == Status::Scheduled {
            Some(view)
        } else {
            access.view
        },
        wrote: wrote.or(access.wrote),
        ..access
    }
}

/// The run of the last of these accesses that has a written value, when this run has just written,
/// and it was `writer` before.
fn writer_with(writer: Option<RunNo>, r: RunNo, accesses: &Chain<Access>) -> Option<RunNo>
    requires { ((q : RunNo) → writer ≡ Some q → q ≡ r)
        → Some r ≡ effective_writer (values_of accesses.now.pairs) }
    ensures { result ≡ effective_writer (values_of accesses.now.pairs) }
{
    let is_last = writer.is_none() || writer == Some(r);
    writer_of(is_last, Some(r), accesses)
}

/// The run of the last of these accesses that has a written value: `writer`, where it is known to
/// be that.
fn writer_of(known: bool, writer: Option<RunNo>, accesses: &Chain<Access>) -> Option<RunNo>
    requires { IsTrue known → writer ≡ effective_writer (values_of accesses.now.pairs) }
    ensures { result ≡ effective_writer (values_of accesses.now.pairs) }
{
    if known { writer } else { last_writer(accesses) }
}

/// The run of the last of these accesses that has a written value.
fn last_writer(accesses: &Chain<Access>) -> Option<RunNo>
    ensures { result ≡ effective_writer (values_of accesses.now.pairs) }
{
    accesses.iter().fold(None, |writer, (_, access)| {
        if access.wrote.is_some() {
            Some(access.run)
        } else {
            writer
        }
    })
}
