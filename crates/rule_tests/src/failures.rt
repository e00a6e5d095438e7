//! A lamp fails at a run's first access and comes back, and a fan fails between two accesses of the
//! run, which is lost.
ghost use Rattle.std.specs.Prelude.{◌≡◌, ◌<◌, IfOk, IsTrue, Some, false, length};
ghost use Rattle.command_rules.specs.Footprints.{FitsIndex};
ghost use Rattle.command_rules.specs.Rosters.{is_run, runs_of};
ghost use Rattle.lineage_table.specs.Accesses.{accesses_before, has_access, some_acquired, some_scheduled, status_of};
ghost use Rattle.lineage_table.specs.Lineages.{accesses_at};

use command_rules::{Roster, RosterRun};
use failure_serialization::{device_failed, device_recovered};
use history_book::Book;
use home_types::{
    Command, DeviceNo, Guard, Item, Job, List, NoMemory, Routine, RunNo, Stand, World,
};
use lineage_table::{Access, Status, Table, View};
use serial_line::Line;
use std::alloc::Global;

const LAMP: DeviceNo = DeviceNo(0);

const FAN: DeviceNo = DeviceNo(1);

const A: RunNo = RunNo(1);

/// A run that drives a lamp and a fan.
fn roster(alloc: Global) -> Result<Roster, NoMemory>
    ensures one { IfOk result (λ roster. IsTrue (is_run (runs_of roster) 1)) }
    ensures fits { IfOk result (λ roster. FitsIndex (runs_of roster)) }
{
    let lamp = Command {
        device: LAMP,
        job: Job::Set(1),
        when: Guard::Always,
        must: false,
        ms: 100,
        takes: 100,
    };
    let fan = Command {
        device: FAN,
        job: Job::Set(1),
        when: Guard::Always,
        must: false,
        ms: 100,
        takes: 100,
    };
    let commands = List::of(alloc, &[lamp, fan])?;
    let mut runs = List::new(alloc);
    runs.push(RosterRun {
        routine: Routine::new(alloc, commands)?,
        follows: None,
    })?;
    Ok(Roster { runs })
}

/// The table of a home with a lamp and a fan.
fn table(alloc: Global, roster: &Roster) -> Result<Table, NoMemory> {
    let stand = Stand { value: 0, up: true };
    let world = World {
        devices: List::of(alloc, &[stand, stand])?,
    };
    Table::open(alloc, &world, roster)
}

/// A line with the run alone.
fn line(alloc: Global, roster: &Roster) -> Result<Line, NoMemory>
    requires fits { FitsIndex (runs_of roster.now) }
    requires there { IsTrue (is_run (runs_of roster.now) 1) }
{
    let mut line = Line::open(alloc, roster)?;
    line.reserve(1)?;
    line.insert(0, Item::Ran(A));
    Ok(line)
}

/// The run has an access on the device.
fn schedule(table: &mut Table, d: DeviceNo) -> Result<(), NoMemory> {
    if d.0 as u32 >= table.devices() || table.room(d) == 0 || has_access(table, d, A) {
        return Err(NoMemory);
    }
    let access = Access {
        run: A,
        status: Status::Scheduled,
        view: None,
        wrote: None,
        from: 0,
        to: 100,
    };
    table.schedule(d, None, access);
    Ok(())
}

/// The run has its first answer on the device.
fn acquire(table: &mut Table, d: DeviceNo, view: View) -> Result<(), NoMemory> {
    if d.0 as u32 >= table.devices() || has_access(table, d, RunNo(0)) {
        return Err(NoMemory);
    }
    if !is_scheduled(table, d) || some_acquired(table, d) || some_scheduled_before(table, d) {
        return Err(NoMemory);
    }
    table.acquire(d, A, view);
    Ok(())
}

/// The device fails.
fn fail(
    line: &mut Line,
    table: &mut Table,
    book: &Book,
    d: DeviceNo,
    first: Option<RunNo>,
) -> Result<Option<RunNo>, NoMemory> {
    if d.0 as u32 >= table.devices() || has_access(table, d, RunNo(0)) || !table.is_up(d) {
        return Err(NoMemory);
    }
    if line.len() >= 64 || line.place_of(Item::Failed(d, 1)).is_some() || line.sealed() != 0 {
        return Err(NoMemory);
    }
    line.reserve(1)?;
    Ok(device_failed(line, table, book, d, 1, first))
}

/// The device comes back.
fn restart(line: &mut Line, table: &mut Table, book: &Book, d: DeviceNo) -> Result<(), NoMemory> {
    if d.0 as u32 >= table.devices() || has_access(table, d, RunNo(0)) || table.is_up(d) {
        return Err(NoMemory);
    }
    if line.len() >= 64 || line.place_of(Item::Back(d, 1)).is_some() || line.sealed() != 0 {
        return Err(NoMemory);
    }
    line.reserve(1)?;
    device_recovered(line, table, book, d, 1);
    Ok(())
}

fn has_access(table: &Table, d: DeviceNo, r: RunNo) -> bool
    requires { d.0 < length table.now }
    ensures { result ≡ has_access r.0 (accesses_at table.now d.0) }
{
    table.access(d, r).is_some()
}

/// Whether the run's access waits for its first answer.
fn is_scheduled(table: &Table, d: DeviceNo) -> bool
    requires { d.0 < length table.now }
    ensures { IsTrue result → status_of 1 (accesses_at table.now d.0) ≡ Some Status.Scheduled }
{
    match table.access(d, A) {
        Some(access) => access.status == Status::Scheduled,
        None => false,
    }
}

fn some_acquired(table: &Table, d: DeviceNo) -> bool
    requires device { d.0 < length table.now }
    requires runs { has_access 0 (accesses_at table.now d.0) ≡ false }
    ensures { result ≡ some_acquired (accesses_at table.now d.0) }
{
    table
        .first_before(d, RunNo(0), |access| access.status == Status::Acquired)
        .is_some()
}

/// Whether an access before the run's waits for its first answer.
fn some_scheduled_before(table: &Table, d: DeviceNo) -> bool
    requires { d.0 < length table.now }
    ensures { result ≡ some_scheduled (accesses_before 1 (accesses_at table.now d.0)) }
{
    table
        .first_before(d, A, |access| access.status == Status::Scheduled)
        .is_some()
}

#[test]
fn events_of_two_devices(rt: HostRuntime) {
    let alloc = rt.alloc();
    let roster = roster(alloc).expect(&rt, "memory");
    let mut table = table(alloc, &roster).expect(&rt, "memory");
    schedule(&mut table, LAMP).expect(&rt, "the lamp");
    schedule(&mut table, FAN).expect(&rt, "the fan");
    let book = Book::new(alloc);
    let mut line = line(alloc, &roster).expect(&rt, "memory");
    let lost = fail(&mut line, &mut table, &book, LAMP, Some(A)).expect(&rt, "the lamp fails");
    assert!(rt; lost.is_none());
    acquire(&mut table, LAMP, View::Down).expect(&rt, "the lamp is seen down");
    restart(&mut line, &mut table, &book, LAMP).expect(&rt, "the lamp is back");
    acquire(&mut table, FAN, View::Up).expect(&rt, "the fan answers");
    let lost = fail(&mut line, &mut table, &book, FAN, None).expect(&rt, "the fan fails");
    assert!(rt; lost == Some(A));
    assert!(rt; line.get(0) == Some(Item::Failed(LAMP, 1)));
    assert!(rt; line.get(1) == Some(Item::Ran(A)));
    assert!(rt; line.get(2) == Some(Item::Back(LAMP, 1)));
    assert!(rt; line.get(3) == Some(Item::Failed(FAN, 1)));
}
