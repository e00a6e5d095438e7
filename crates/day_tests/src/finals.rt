//! The items of a line that are final while the window is open.
ghost use Rattle.routine_reader.specs.Scripts.{plain_script};
ghost use Rattle.routine_reader.specs.Sound.{IsSound};

use crate::hubs::open_first;
use device_gate::{Grip, Ready};
use device_states::{SimBench, SimDevice};
use home_types::{DeviceNo, Item, List, RunNo, Scheduler};
use hub_core::{Hub, Turn};
use routine_reader::{Script, read_script};
use seeded_draws::Draws;
use std::alloc::Global;
use std::process::Abort;

/// The worked window `released-lamp-overwritten`: run 2 commits behind run 1, which is live.
const SCRIPT: &str = r#"{"safehome": 1,
 "devices": [{"name": "lamp", "states": ["off", "on"], "start": "off"},
  {"name": "fan", "states": ["off", "on"], "start": "off"}],
 "routines": [{"name": "a",
    "commands": [{"on": "lamp", "do": "set", "to": "on"}, {"on": "fan", "do": "set", "to": "on"}]},
  {"name": "b", "commands": [{"on": "lamp", "do": "set", "to": "off"}]}],
 "windows": [{"at": "2021-04-26T07:00:00", "runs": [{"routine": "a"}, {"routine": "b"}]}]}"#;

/// Six runs of four routines on four devices, three of which fail, with two rounds of probes: runs
/// are aborted for what a `check` finds and for failures, one follows another, and devices come
/// back.
const DRAWN: &str = r#"{"safehome": 1, "devices": [
  {"name": "lamp", "states": ["off", "on"], "start": "off", "down": [[3, 4]]},
  {"name": "fan", "states": ["off", "on"], "start": "off"},
  {"name": "oven", "states": ["off", "on"], "start": "off", "down": [[2, 3], [6, 8]]},
  {"name": "heat", "low": 10, "high": 30, "start": 18, "down": [[4, 5]]}],
 "routines": [
  {"name": "bake",
    "commands": [{"on": "oven", "do": "set", "to": "on"}, {"on": "fan", "do": "set", "to": "on"},
    {"on": "oven", "do": "set", "to": "off"}]},
  {"name": "leave",
    "commands": [{"on": "heat", "do": "set", "to": 15}, {"on": "lamp", "do": "set", "to": "off"},
    {"on": "oven", "do": "check", "to": "off"}, {"on": "heat", "do": "set", "to": 12}]},
  {"name": "read", "commands": [{"on": "lamp", "do": "set", "to": "on", "must": false},
    {"on": "heat", "do": "load", "must": false}, {"on": "heat", "do": "store", "must": false}]},
  {"name": "air", "commands": [{"on": "fan", "do": "set", "to": "on", "must": false},
    {"on": "fan", "do": "set", "to": "off", "must": false}]}],
 "windows": [{"at": "2021-04-26T07:00", "probes": 2,
    "runs": [{"routine": "bake"}, {"routine": "leave"}, {"routine": "read"}, {"routine": "air"},
      {"routine": "leave"},
      {"routine": "read", "follows": 1}]}]}"#;

/// So many steps are drawn.
const STEPS: u32 = 20_000;

/// No window takes so many.
const MOST_STEPS: u32 = 10_000;

/// The steps do not take so many windows.
const MOST_WINDOWS: usize = 1_000;

const A: RunNo = RunNo(1);

const B: RunNo = RunNo(2);

#[test]
fn the_released_lamp_is_final_with_its_first_run(rt: HostRuntime) {
    let script = read_script(rt.alloc(), SCRIPT.as_bytes()).expect(&rt, "the script");
    let opened = open_first(rt.alloc(), &script, &mut SimBench, Scheduler::Fcfs);
    drop(script);
    let mut hub = opened.expect(&rt, "a hub");
    moves(&rt, &mut hub, A);
    moves(&rt, &mut hub, A);
    moves(&rt, &mut hub, B);
    moves(&rt, &mut hub, B);
    commands(&rt, &mut hub, A);
    commands(&rt, &mut hub, B);
    ends(&rt, &mut hub, B);
    assert!(rt; hub.sealed() == 0 && hub.final_item(0).is_none());
    commands(&rt, &mut hub, A);
    ends(&rt, &mut hub, A);
    assert!(rt; hub.sealed() == 2 && hub.final_item(2).is_none());
    assert!(rt; hub.final_item(0) == Some(Item::Ran(A)) && hub.final_item(1) == Some(Item::Ran(B)));
    drop(hub);
}

/// A pick that makes entries.
fn moves(rt: &impl Abort, hub: &mut Hub<SimDevice>, r: RunNo) {
    match hub.take(r, 0) {
        Turn::Moved(_made) => {}
        Turn::Go(_grip) => panic!(rt; "a device goes out"),
        Turn::Wait(_why) => panic!(rt; "the run waits"),
        Turn::Over(_end, _made) => panic!(rt; "the run is over"),
        Turn::Absent => panic!(rt; "no such run"),
    }
}

/// Two picks: a device goes out for the run's command, and comes back.
fn commands(rt: &impl Abort, hub: &mut Hub<SimDevice>, r: RunNo) {
    match hub.take(r, 0) {
        Turn::Go(grip) => match hub.give(grip.act(), 0) {
            Ok(_made) => {}
            Err((_back, _stranger)) => panic!(rt; "the grip is refused"),
        },
        Turn::Moved(_made) => panic!(rt; "no device goes out"),
        Turn::Wait(_why) => panic!(rt; "the run waits"),
        Turn::Over(_end, _made) => panic!(rt; "the run is over"),
        Turn::Absent => panic!(rt; "no such run"),
    }
}

/// A pick by which the run ends.
fn ends(rt: &impl Abort, hub: &mut Hub<SimDevice>, r: RunNo) {
    match hub.take(r, 0) {
        Turn::Over(_end, _made) => {}
        Turn::Go(_grip) => panic!(rt; "a device goes out"),
        Turn::Moved(_made) => panic!(rt; "the run goes on"),
        Turn::Wait(_why) => panic!(rt; "the run waits"),
        Turn::Absent => panic!(rt; "no such run"),
    }
}

/// A window that is stepped by draws, and what was final in it so far.
#[derive(Drop)]
struct Course {
    hub: Hub<SimDevice>,
    finals: List<Item>,
    steps: u32,
}

/// What was seen in all windows.
#[derive(Drop)]
struct Seen {
    steps: u32,
    /// Items that were final while some run had not ended.
    early: u64,
    /// Runs that had not ended stood behind final items in so many windows.
    windows: u32,
}

/// One window after another, each step drawn, under one scheduler after another. After each step
/// the items that were final before it stand first, and the record's order begins with all of them.
#[test]
fn final_items_stay_through_drawn_steps(rt: HostRuntime) {
    let schedulers = [Scheduler::Fcfs, Scheduler::JustInTime, Scheduler::Timeline];
    let mut draws = Draws::new(1);
    let mut seen = Seen {
        steps: 0,
        early: 0,
        windows: 0,
    };
    let script = read_script(rt.alloc(), DRAWN.as_bytes()).expect(&rt, "the script");
    for number in 0..MOST_WINDOWS {
        if seen.steps < STEPS {
            let scheduler = schedulers[number % 3];
            draw_window(&rt, rt.alloc(), &script, scheduler, &mut draws, &mut seen);
        }
    }
    drop(script);
    assert!(rt; seen.steps >= STEPS && seen.early > 200 && seen.windows > 50);
}

/// Steps the script's first window by draws until it is quiet, and closes it.
fn draw_window(
    rt: &impl Abort,
    alloc: Global,
    script: &Script,
    scheduler: Scheduler,
    draws: &mut Draws,
    seen: &mut Seen,
)
    requires sound { IsSound (plain_script script.now) }
{
    let mut course = Course {
        hub: open_first(alloc, script, &mut SimBench, scheduler).expect(rt, "a hub"),
        finals: List::new(alloc),
        steps: 0,
    };
    let mut early = 0u64;
    for _ in 0..MOST_STEPS {
        if course.hub.quiet().is_some() {
            early = course.finals.len();
            step(rt, &mut course, draws);
        }
    }
    seen.steps = seen.steps.saturating_add(course.steps);
    seen.early = seen.early.saturating_add(early);
    if early > 0 {
        seen.windows = seen.windows.saturating_add(1);
    }
    close(rt, course);
}

/// The record's order begins with the items that were final, and at the end all of them were.
fn close(rt: &impl Abort, course: Course) {
    let Course {
        hub,
        finals,
        steps: _,
    } = course;
    match hub.close_window() {
        Ok((home, record)) => {
            drop(home);
            assert!(rt; record.order.as_slice() == finals.as_slice());
            drop(record);
        }
        Err((_hub, _why)) => panic!(rt; "the window does not close"),
    }
}

/// Steps an actor that is drawn. While its device is out another one is stepped.
fn step(rt: &impl Abort, course: &mut Course, draws: &mut Draws) {
    match draws.below(u64::from(course.hub.run_count()) + 1) {
        0 => probe(rt, course, draws),
        run => match take(rt, course, run as u32) {
            Some(grip) => {
                step_within(rt, course, draws);
                give(rt, course, grip);
            }
            None => {}
        },
    }
}

/// Steps an actor that is drawn, whose device comes home at once.
fn step_within(rt: &impl Abort, course: &mut Course, draws: &mut Draws) {
    match draws.below(u64::from(course.hub.run_count()) + 1) {
        0 => probe(rt, course, draws),
        run => match take(rt, course, run as u32) {
            Some(grip) => give(rt, course, grip),
            None => {}
        },
    }
}

fn take(rt: &impl Abort, course: &mut Course, run: u32) -> Option<Grip<SimDevice, Ready>> {
    let moment = u64::from(course.steps) * 10;
    let handed = match course.hub.take(RunNo(run), moment) {
        Turn::Go(grip) => Some(grip),
        Turn::Moved(_made) => None,
        Turn::Wait(_why) => None,
        Turn::Over(_end, _made) => None,
        Turn::Absent => None,
    };
    look(rt, course);
    handed
}

fn give(rt: &impl Abort, course: &mut Course, grip: Grip<SimDevice, Ready>) {
    let moment = u64::from(course.steps) * 10;
    match course.hub.give(grip.act(), moment) {
        Ok(_made) => look(rt, course),
        Err((_back, _stranger)) => panic!(rt; "the grip is refused"),
    }
}

/// Probes a device that is drawn.
fn probe(rt: &impl Abort, course: &mut Course, draws: &mut Draws) {
    // A home has at most 256 devices.
    let device = draws.below(course.hub.device_count().max(1)).min(255) as u16;
    match course.hub.take_probe(DeviceNo(device)) {
        Some(grip) => match course.hub.give_probe(grip.act()) {
            Ok(_made) => look(rt, course),
            Err((_back, _stranger)) => panic!(rt; "the grip is refused"),
        },
        None => {}
    }
}

/// What was final stands where it stood, and what has become final is noted.
fn look(rt: &impl Abort, course: &mut Course) {
    course.steps = course.steps.saturating_add(1);
    let sealed = u64::from(course.hub.sealed());
    assert!(rt; course.finals.len() <= sealed);
    for at in 0..course.finals.len() {
        assert!(rt; course.hub.final_item(at as u32) == course.finals.get(at).copied());
    }
    for at in course.finals.len()..sealed {
        let item = course.hub.final_item(at as u32).expect(rt, "a final item");
        course.finals.push(item).expect(rt, "memory");
    }
}
