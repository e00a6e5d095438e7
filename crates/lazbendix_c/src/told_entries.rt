//! Entries of a history, as C sees them.
ghost use Rattle.std.specs.Prelude.{◌≡◌, ◌≤◌};
ghost use Rattle.lazbendix_c.specs.Told.{about, caused, did_entry, entry_as_told, entry_of_end, entry_or_none, made_of, one_if};

use history_book::{Cause, End, Entry, Made};
use home_types::Answer;

/// An entry of a history. A number that its kind does not speak of is 0.
#[repr(C)]
#[derive(Clone, Copy, Debug, PartialEq, Eq)]
pub struct ToldEntry {
    /// In ms from the window's beginning: of an arrival, a placing, and a revocation.
    pub moment: u64,
    /// Of a revocation: when the lease was over, in ms.
    pub deadline: u64,
    /// 0 for no entry.
    pub kind: u32,
    pub run: u32,
    /// Counted from 0.
    pub command: u32,
    pub device: u32,
    /// The place in the line of a run that is placed, counted from 0.
    pub place: u32,
    pub answer: u32,
    /// The value found.
    pub value: u32,
    /// 1 where an undo drove the device, 0 where it was dropped.
    pub drove: u32,
    pub cause: u32,
    /// The run that asked for the device of a revocation.
    pub lender: u32,
}

/// The entries of a step, in their order, and how many they are.
#[repr(C)]
#[derive(Clone, Copy, Debug, PartialEq, Eq)]
pub struct ToldMade {
    pub a: ToldEntry,
    pub b: ToldEntry,
    pub c: ToldEntry,
    pub count: u64,
}

const ARRIVED: u32 = 1;

const PLACED: u32 = 2;

const DID: u32 = 3;

const UNDID: u32 = 4;

const FELL: u32 = 5;

const ROSE: u32 = 6;

const DOOMED: u32 = 7;

const COMMITTED: u32 = 8;

const ABORTED: u32 = 9;

const FINE: u32 = 1;

const FOUND: u32 = 2;

const DOWN: u32 = 3;

const SKIPPED: u32 = 4;

const MUST_DOWN: u32 = 1;

const REFUTED: u32 = 2;

const LOST: u32 = 3;

const REVOKED: u32 = 4;

const DOWN_AT_END: u32 = 5;

/// No entry.
pub(crate) const NO_ENTRY: ToldEntry = ToldEntry {
    moment: 0,
    deadline: 0,
    kind: 0,
    run: 0,
    command: 0,
    device: 0,
    place: 0,
    answer: 0,
    value: 0,
    drove: 0,
    cause: 0,
    lender: 0,
};

/// Tells an entry.
pub(crate) fn tell_entry(entry: &Entry, told: &mut ToldEntry)
    ensures { told.new ≡ entry_as_told entry.now }
{
    match entry {
        Entry::Arrived(run, moment) => {
            tell_kind(ARRIVED, run.0, told);
            told.moment = *moment;
        }
        Entry::Placed(run, place, moment) => {
            tell_kind(PLACED, run.0, told);
            told.place = *place;
            told.moment = *moment;
        }
        Entry::Did(run, command, answer) => tell_did(run.0, *command, *answer, told),
        Entry::Undid(run, device, drove) => {
            tell_kind(UNDID, run.0, told);
            told.device = u32::from(device.0);
            told.drove = if *drove { 1 } else { 0 };
        }
        Entry::Fell(device) => {
            tell_kind(FELL, 0, told);
            told.device = u32::from(device.0);
        }
        Entry::Rose(device) => {
            tell_kind(ROSE, 0, told);
            told.device = u32::from(device.0);
        }
        Entry::Doomed(run, cause) => {
            tell_kind(DOOMED, run.0, told);
            tell_cause(cause, told);
        }
        Entry::Ended(run, end) => tell_end(run.0, end, told),
    }
}

/// Tells that the entry is of this kind and about this run, and nothing else of it.
fn tell_kind(kind: u32, run: u32, told: &mut ToldEntry)
    ensures { told.new ≡ about kind run }
{
    *told = ToldEntry {
        kind,
        run,
        ..NO_ENTRY
    };
}

/// Tells the answer of a run's command.
fn tell_did(run: u32, command: u32, answer: Answer, told: &mut ToldEntry)
    ensures { told.new ≡ did_entry run command answer }
{
    tell_kind(DID, run, told);
    told.command = command;
    match answer {
        Answer::Fine => told.answer = FINE,
        Answer::Found(value) => {
            told.answer = FOUND;
            told.value = value;
        }
        Answer::Down => told.answer = DOWN,
        Answer::Skipped => told.answer = SKIPPED,
    }
}

/// Tells how a run ended.
pub(crate) fn tell_end(run: u32, end: &End, told: &mut ToldEntry)
    ensures { told.new ≡ entry_of_end run end.now }
{
    match end {
        End::Committed => tell_kind(COMMITTED, run, told),
        End::Aborted(cause) => {
            tell_kind(ABORTED, run, told);
            tell_cause(cause, told);
        }
    }
}

/// Tells the cause of an entry.
fn tell_cause(cause: &Cause, told: &mut ToldEntry)
    ensures { told.new ≡ caused told.old cause.now }
{
    match cause {
        Cause::MustDown(command) => {
            told.cause = MUST_DOWN;
            told.command = *command;
        }
        Cause::Refuted(command, value) => {
            told.cause = REFUTED;
            told.command = *command;
            told.value = *value;
        }
        Cause::Lost(device) => {
            told.cause = LOST;
            told.device = u32::from(device.0);
        }
        Cause::Revoked {
            lender,
            device,
            deadline,
            moment,
        } => {
            told.cause = REVOKED;
            told.lender = lender.0;
            told.device = u32::from(device.0);
            told.deadline = *deadline;
            told.moment = *moment;
        }
        Cause::DownAtEnd(device) => {
            told.cause = DOWN_AT_END;
            told.device = u32::from(device.0);
        }
    }
}

/// Tells the entry, or that there is none, and answers how many that is.
fn tell_or_none(entry: &Option<Entry>, told: &mut ToldEntry) -> u64
    ensures told { told.new ≡ entry_or_none entry.now }
    ensures count { result ≡ one_if entry.now }
    ensures small { result ≤ 1 }
{
    match entry {
        Some(entry) => {
            tell_entry(entry, told);
            1
        }
        None => {
            *told = NO_ENTRY;
            0
        }
    }
}

/// Tells the entries of a step, three at most.
pub(crate) fn tell_made(made: &Made, told: &mut ToldMade)
    ensures told { told.new ≡ made_of made.now }
    ensures few { told.new.count ≤ 3 }
{
    let a = tell_or_none(&made.a, &mut told.a);
    let b = tell_or_none(&made.b, &mut told.b);
    let c = tell_or_none(&made.c, &mut told.c);
    told.count = a + b + c;
}

/// No entries.
pub(crate) const NOTHING_MADE: ToldMade = ToldMade {
    a: NO_ENTRY,
    b: NO_ENTRY,
    c: NO_ENTRY,
    count: 0,
};
