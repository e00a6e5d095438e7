//! How often the labels of a line are given anew, into which one item after another comes at the
//! same place; and which neighbours of a line are apart, so that they may be exchanged.
ghost use Rattle.std.specs.Prelude.{◌≡◌, ◌∷◌, [], IfOk, IsTrue};
ghost use Rattle.command_rules.specs.Footprints.{FitsIndex};
ghost use Rattle.command_rules.specs.Rosters.{is_run, runs_of};
ghost use Rattle.serial_line.specs.KeptRuns.{is_known};

use command_rules::{Roster, RosterRun};
use home_types::{Command, DeviceNo, Guard, Item, Job, List, NoMemory, Routine, RunNo};
use serial_line::Line;
use std::alloc::Global;

const LAMP: DeviceNo = DeviceNo(0);

const FAN: DeviceNo = DeviceNo(1);

const A: RunNo = RunNo(1);

const B: RunNo = RunNo(2);

/// How many failures come at one place.
const FAILURES: u32 = 200;

/// A run with this one command.
fn run(alloc: Global, command: Command, follows: Option<RunNo>) -> Result<RosterRun, NoMemory>
    ensures { IfOk result (λ run. run.routine.commands.items ≡ command ∷ []) }
{
    Ok(RosterRun {
        routine: Routine::new(alloc, List::of(alloc, &[command])?)?,
        follows,
    })
}

/// A run that drives the lamp, and one that drives the fan, and follows this run.
fn roster(alloc: Global, follows: Option<RunNo>) -> Result<Roster, NoMemory>
    ensures one { IfOk result (λ roster. IsTrue (is_run (runs_of roster) 1)) }
    ensures two { IfOk result (λ roster. IsTrue (is_run (runs_of roster) 2)) }
    ensures fits { IfOk result (λ roster. FitsIndex (runs_of roster)) }
{
    let lamp = Command {
        device: LAMP,
        job: Job::Set(1),
        when: Guard::Always,
        must: true,
        ms: 101,
        takes: 101,
    };
    let fan = Command {
        device: FAN,
        job: Job::Set(1),
        when: Guard::Always,
        must: true,
        ms: 101,
        takes: 101,
    };
    let mut runs = List::new(alloc);
    runs.push(run(alloc, lamp, None)?)?;
    runs.push(run(alloc, fan, follows)?)?;
    Ok(Roster { runs })
}

/// An empty line for these runs, with room for three items.
fn open_line(alloc: Global, follows: Option<RunNo>) -> Result<Line, NoMemory>
    ensures one { IfOk result (λ line. IsTrue (is_run line.runs 1)) }
    ensures two { IfOk result (λ line. IsTrue (is_run line.runs 2)) }
{
    let roster = roster(alloc, follows)?;
    let mut line = Line::open(alloc, &roster)?;
    line.reserve(3)?;
    Ok(line)
}

/// Puts an item into the line. Refuses one that is there, and a place behind the end or before an
/// item that is sealed.
fn put(line: &mut Line, at: u32, item: Item) -> Result<(), NoMemory>
    requires { IsTrue (is_known line.old.runs item) }
    ensures { line.new.runs ≡ line.old.runs }
{
    if line.len() >= 256 || at > line.len() || line.place_of(item).is_some() {
        return Err(NoMemory);
    }
    if at < line.sealed() {
        return Err(NoMemory);
    }
    line.reserve(1)?;
    line.insert(at, item);
    Ok(())
}

/// The first item is sealed, and each failure comes right behind it, before the others. Between two
/// labels a label is found at most 64 times in a row, so those of the items that are not sealed are
/// given anew, again and again; the sealed one keeps its own, and all rise.
#[test]
fn labels_are_given_anew_behind_what_is_sealed(rt: HostRuntime) {
    let mut line = open_line(rt.alloc(), None).expect(&rt, "a line");
    put(&mut line, 0, Item::Ran(A)).expect(&rt, "the run");
    put(&mut line, 1, Item::Back(LAMP, 1)).expect(&rt, "the restart");
    if line.sealed() == 0 && line.len() == 2 {
        line.seal(1);
    }
    let first = line.label(Item::Ran(A));
    let mut last = line.label(Item::Back(LAMP, 1));
    let mut given_anew = 0u32;
    for number in 1..=FAILURES {
        put(&mut line, 1, Item::Failed(LAMP, number)).expect(&rt, "a failure");
        assert!(rt; line.label(Item::Ran(A)) == first && line.sealed() == 1);
        assert!(rt; labels_rise(&line));
        let now = line.label(Item::Back(LAMP, 1));
        if now != last {
            given_anew = given_anew.saturating_add(1);
        }
        last = now;
    }
    assert!(rt; line.len() == FAILURES + 2);
    assert!(rt; FAILURES / 64 <= given_anew && given_anew <= FAILURES / 16);
    assert!(rt; line.label(Item::Failed(LAMP, FAILURES + 1)).is_none());
    drop(line);
}

/// Whether each item has a label, greater than that of the one before it.
fn labels_rise(line: &Line) -> bool {
    let mut before = None;
    for at in 0..line.len() {
        let label = line.get(at).and_then(|item| line.label(item));
        if label.is_none() || label <= before {
            return false;
        }
        before = label;
    }
    true
}

/// The runs share no device, and the second one may follow the first.
#[test]
fn neighbours_that_are_apart_are_exchanged(rt: HostRuntime) {
    let mut line = open_line(rt.alloc(), None).expect(&rt, "a line");
    put(&mut line, 0, Item::Ran(A)).expect(&rt, "the first run");
    put(&mut line, 1, Item::Ran(B)).expect(&rt, "the second run");
    put(&mut line, 2, Item::Failed(FAN, 1)).expect(&rt, "the failure");
    let first = line.label(Item::Ran(A));
    assert!(rt; line.apart(0) && !line.apart(1) && !line.apart(2));
    if line.apart(0) && line.sealed() == 0 {
        line.swap(0);
    }
    assert!(rt; line.get(0) == Some(Item::Ran(B)) && line.get(1) == Some(Item::Ran(A)));
    assert!(rt; line.label(Item::Ran(B)) == first && labels_rise(&line));
    assert!(rt; line.apart(0) && line.apart(1));
    drop(line);
    let mut line = open_line(rt.alloc(), Some(A)).expect(&rt, "a line");
    put(&mut line, 0, Item::Ran(A)).expect(&rt, "the first run");
    put(&mut line, 1, Item::Ran(B)).expect(&rt, "the second run");
    assert!(rt; !line.apart(0));
    drop(line);
}
