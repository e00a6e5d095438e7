//! Days that are run with threads: two runs that meet, a lease that is revoked while nobody else
//! steps, a device that does not answer its probe, and a day whose record is stored.
ghost use Rattle.std.specs.Prelude.{◌≤◌};

use day_clock::{BytesSink, BytesSource, Clock, SetClock, StdClock};
use device_states::{Bench, Dead, Device, SimBench};
use home_types::{Bytes, DeviceNo, List, NoMemory, Value};
use hub_commands::{Finish, run_command};
use std::alloc::Global;
use std::hint;
use std::str::from_utf8;
use std::sync::Wait;
use std::sync::atomic::{AtomicBool, Ordering};
use std::thread::Threads;

/// Two runs that share the lamp; each drives a device of its own after it.
const MEETING: &str = r#"{"safehome": 1, "devices": [
  {"name": "lamp", "states": ["off", "on"], "start": "off"},
  {"name": "fan", "states": ["off", "on"], "start": "off"},
  {"name": "oven", "states": ["off", "on"], "start": "off"},
  {"name": "heat", "low": 10, "high": 30, "start": 18}],
 "routines": [
  {"name": "a",
    "commands": [{"on": "lamp", "do": "set", "to": "on"}, {"on": "fan", "do": "set", "to": "on"}]},
  {"name": "b",
    "commands": [{"on": "lamp", "do": "set", "to": "off"},
      {"on": "oven", "do": "set", "to": "on"}]}],
 "windows": [{"at": "2021-04-26T07:00", "runs": [{"routine": "a"}, {"routine": "b"}]}]}"#;

/// A run that bakes, and one that dries, which follows a look at the door. The look ends when the
/// lamp is driven, so the drying is placed behind the baking in time, and before it in the line: it
/// has the oven on lease, for 20 ms.
const LENDING: &str = r#"{"safehome": 1, "devices": [
  {"name": "door", "states": ["open", "shut"], "start": "open"},
  {"name": "lamp", "states": ["off", "on"], "start": "off"},
  {"name": "drum", "states": ["off", "on"], "start": "off"},
  {"name": "oven", "states": ["off", "on"], "start": "off"}],
 "routines": [
  {"name": "look", "commands": [{"on": "door", "do": "check", "to": "shut"}]},
  {"name": "dry",
    "commands": [{"on": "drum", "do": "set", "to": "on", "ms": 10},
      {"on": "oven", "do": "set", "to": "on", "ms": 8}]},
  {"name": "bake",
    "commands": [{"on": "lamp", "do": "set", "to": "on"},
      {"on": "oven", "do": "set", "to": "off"}]}],
 "windows": [{"at": "2021-04-26T07:00",
    "runs": [{"routine": "look"}, {"routine": "dry", "follows": 1}, {"routine": "bake"}]}]}"#;

/// How long the drum's call takes in `LENDING`, in ms.
const DRUM_MS: u64 = 300;

/// How long after its deadline a lease is revoked at most, in ms.
const MOST_DELAY: u64 = 50;

/// How many windows are run for one in which the system let the threads run in time.
const ATTEMPTS: u32 = 3;

/// A window with one probe of each device, which the lamp does not answer.
const PROBED: &str = r#"{"safehome": 1, "devices": [
  {"name": "lamp", "states": ["off", "on"], "start": "off", "down": [[1, 2]]},
  {"name": "fan", "states": ["off", "on"], "start": "off"},
  {"name": "oven", "states": ["off", "on"], "start": "off"},
  {"name": "heat", "low": 10, "high": 30, "start": 18}],
 "routines": [{"name": "a", "commands": [{"on": "fan", "do": "set", "to": "on"}]}],
 "windows": [{"at": "2021-04-26T07:00", "probes": 1, "runs": [{"routine": "a"}]}]}"#;

/// A window of one run that drives the lamp.
pub const LIGHT: &str =
    r#"{"safehome":1,"devices":[{"name":"lamp","states":["off","on"],"start":"off"}],
 "routines":[{"name":"light","commands":[{"on":"lamp","do":"set","to":"on"}]}],
 "windows":[{"at":"2021-04-26T07:00:00","runs":[{"routine":"light"}]}]}"#;

/// The record of the day of `LIGHT`.
pub const LIGHT_RECORD: &str = "safehome day
model ev fcfs
window 1 2021-04-26T07:00:00
run 1 light committed .
order 1
home lamp=on
total windows 1 runs 1 committed 1 aborted 0
";

/// For how many turns a device looks at most whether its wait is over.
const PATIENCE: u32 = 100_000_000;

#[test]
fn two_meet(rt: HostRuntime) {
    let scene = Scene::new(&rt);
    let mut bench = PlayingBench {
        parts: [
            None,
            Some(FirstCall::meeting(0, 1)),
            Some(FirstCall::meeting(1, 0)),
            None,
        ],
        scene: &scene,
    };
    let (finish, sink) = run(&rt, rt.alloc(), &["run"], MEETING, &mut bench, &scene.clock).expect(
        &rt, "memory",
    );
    assert_eq!(rt; finish.status, 0);
    assert!(rt; has_line(sink.held(), b"run 1 a committed . ."));
    assert!(rt; has_line(sink.held(), b"run 2 b committed . ."));
    drop(sink);
}

#[test]
fn a_lease_is_revoked_while_nobody_else_steps(rt: HostRuntime) {
    let mut least = u64::MAX;
    for _ in 0..ATTEMPTS {
        let scene = Scene::new(&rt);
        let mut bench = PlayingBench {
            parts: [
                Some(FirstCall::waiting(0)),
                Some(FirstCall::meeting(0, 1)),
                Some(FirstCall::working(1, DRUM_MS)),
                None,
            ],
            scene: &scene,
        };
        let words = ["run", "--scheduler", "jit"];
        let (finish, sink) = run(&rt, rt.alloc(), &words, LENDING, &mut bench, &scene.clock).expect(
            &rt, "memory",
        );
        assert_eq!(rt; finish.status, 0);
        assert!(rt; has_line(sink.held(), b"run 3 bake committed . ."));
        least = least.min(delay(sink.held()).unwrap_or(u64::MAX));
        drop(sink);
    }
    assert!(rt; least <= MOST_DELAY);
}

#[test]
fn shows_a_device_that_died_in_its_probe(rt: HostRuntime) {
    let clock = SetClock::new(7);
    let (finish, sink) = run(&rt, rt.alloc(), &["run"], PROBED, &mut SimBench, &clock).expect(
        &rt, "memory",
    );
    assert_eq!(rt; finish.status, 0);
    drop(finish);
    assert!(rt; has_line(sink.held(), b"home lamp=off! fan=on oven=off heat=18"));
    drop(sink);
}

#[test]
fn writes_the_stored_record(rt: HostRuntime) {
    let clock = SetClock::new(7);
    let (finish, sink) = run(&rt, rt.alloc(), &["run"], LIGHT, &mut SimBench, &clock).expect(
        &rt, "memory",
    );
    assert_eq!(rt; finish.status, 0);
    drop(finish);
    assert!(rt; sink.held() == LIGHT_RECORD.as_bytes());
    drop(sink);
}

/// Calls `run` with these words on the script, and gives how it ended and the sink.
pub fn run<R: Threads + Wait + Sync, B: Bench, C: Clock + Sync>(
    rt: &R,
    alloc: Global,
    words: &[&str],
    script: &str,
    bench: &mut B,
    clock: &C,
) -> Result<(Finish<B::Dev>, BytesSink), NoMemory>
where
    B::Dev: Send,
{
    let (words, mut source, mut sink) = streams(alloc, words, script, 4096)?;
    let finish = run_command(rt, alloc, &words, &mut source, &mut sink, bench, clock);
    drop(words);
    drop(source);
    Ok((finish, sink))
}

/// These words, a source of this script, and a sink with so much room. Neither of the two fails
/// before its end.
pub fn streams(
    alloc: Global,
    words: &[&str],
    script: &str,
    room: u64,
) -> Result<(Vec<String>, BytesSource, BytesSink), NoMemory> {
    let words = owned(alloc, words)?;
    match open_streams(alloc, script, room) {
        Ok((source, sink)) => Ok((words, source, sink)),
        Err(fault) => {
            drop(words);
            Err(fault)
        }
    }
}

fn open_streams(
    alloc: Global,
    script: &str,
    room: u64,
) -> Result<(BytesSource, BytesSink), NoMemory> {
    let input = Bytes::of(alloc, script.as_bytes())?;
    match BytesSink::new(alloc, room, List::new(alloc), 4096) {
        Ok(sink) => Ok((BytesSource::new(input, List::new(alloc), 4096), sink)),
        Err(fault) => {
            drop(input);
            Err(fault)
        }
    }
}

/// These words, as the command line has them.
fn owned(alloc: Global, words: &[&str]) -> Result<Vec<String>, NoMemory> {
    let mut all = Vec::new(alloc);
    for word in words {
        let word = String::from_str(alloc, word).map_err(|_| NoMemory)?;
        all.push(word).map_err(|_| NoMemory)?;
    }
    Ok(all)
}

/// Whether one of the text's lines is this one.
pub fn has_line(text: &[u8], line: &[u8]) -> bool {
    text.split(|byte| *byte == b'\n').any(|found| found == line)
}

/// How long after its deadline the lease of the second run was revoked, in ms, as its line says.
/// None where it was not.
fn delay(text: &[u8]) -> Option<u64> {
    let text = from_utf8(text).ok()?;
    let line = text.lines().find(|line| line.starts_with("run 2 "))?;
    let (_, times) = line.split_once(" deadline ")?;
    let (deadline, moment) = times.split_once(" at ")?;
    let deadline: u64 = deadline.parse().ok()?;
    let moment: u64 = moment.parse().ok()?;
    moment.checked_sub(deadline)
}

/// What the devices of a home share: two flags, and a clock.
#[derive(Drop)]
pub struct Scene<C> {
    flags: [AtomicBool; 2],
    pub clock: C,
}

impl<T: std::time::Clock> Scene<StdClock<T>> {
    /// A scene in which no flag is raised yet.
    pub fn new(time: T) -> Scene<StdClock<T>> {
        Scene {
            flags: [AtomicBool::new(false), AtomicBool::new(false)],
            clock: StdClock::new(time),
        }
    }
}

impl<C: Clock> Scene<C> {
    /// Whether the flag that the part waits for was raised in time.
    fn play(&self, part: FirstCall) -> bool {
        if let Some(own) = part.raises {
            self.raise(own);
        }
        work_for(&self.clock, part.ms);
        match part.awaits {
            Some(other) => match self.flags.get(other) {
                Some(flag) => is_raised(flag),
                None => false,
            },
            None => true,
        }
    }

    fn raise(&self, flag: usize) {
        if let Some(flag) = self.flags.get(flag) {
            flag.store(true, Ordering::SeqCst);
        }
    }
}

/// What a device does in its first call, before it answers: it raises its own flag, works for so
/// many ms, and waits for another's flag. Flags count from 0.
#[derive(Clone, Copy)]
pub struct FirstCall {
    raises: Option<usize>,
    awaits: Option<usize>,
    ms: u64,
}

impl FirstCall {
    pub fn meeting(own: usize, other: usize) -> FirstCall {
        FirstCall {
            raises: Some(own),
            awaits: Some(other),
            ms: 0,
        }
    }

    fn waiting(other: usize) -> FirstCall {
        FirstCall {
            raises: None,
            awaits: Some(other),
            ms: 0,
        }
    }

    fn working(own: usize, ms: u64) -> FirstCall {
        FirstCall {
            raises: Some(own),
            awaits: None,
            ms,
        }
    }
}

/// A device that plays its part in its first call, where it has one. It dies where the flag that it
/// waits for is not raised in time.
#[derive(Drop)]
pub struct Playing<'a, C> {
    number: DeviceNo,
    value: Value,
    part: Option<FirstCall>,
    scene: &'a Scene<C>,
    answered: u64,
    driven: u64,
    probed: u64,
    failed: u64,
    ghost few_drives: { driven ≤ answered },
}

impl<'a, C: Clock> Device for Playing<'a, C> {
    ghost use Rattle.std.specs.Prelude.{None};

    ghost shows = { λ s. record {
      tag = s.number.0;
      plan = None;
      stands = s.value;
      turns = s.answered;
      drives = s.driven;
      probes = s.probed;
      faults = s.failed;
    } };

    fn drive(&mut self, v: Value) -> Result<(), Dead> {
        if let Some(part) = self.part {
            self.part = None;
            if !self.scene.play(part) {
                self.failed += 1;
                return Err(Dead);
            }
        }
        self.value = v;
        self.answered += 1;
        self.driven += 1;
        Ok(())
    }

    fn sense(&mut self) -> Result<Value, Dead> {
        if let Some(part) = self.part {
            self.part = None;
            if !self.scene.play(part) {
                self.failed += 1;
                return Err(Dead);
            }
        }
        self.answered += 1;
        Ok(self.value)
    }

    fn probe(&mut self) -> Result<(), Dead> {
        self.probed += 1;
        Ok(())
    }

    fn turns(&self) -> u64 {
        self.answered
    }

    fn drives(&self) -> u64 {
        self.driven
    }

    fn probes(&self) -> u64 {
        self.probed
    }

    fn faults(&self) -> u64 {
        self.failed
    }
}

/// Whether the flag is raised before all turns of the patience have passed.
fn is_raised(flag: &AtomicBool) -> bool {
    for _ in 0..PATIENCE {
        if flag.load(Ordering::SeqCst) {
            return true;
        }
        hint::spin_loop();
    }
    false
}

/// Works for so many ms of the clock, or for all turns of the patience.
fn work_for<C: Clock>(clock: &C, ms: u64) {
    let begun = clock.now();
    for _ in 0..PATIENCE {
        if clock.now().saturating_sub(begun) >= ms {
            return;
        }
        hint::spin_loop();
    }
}

/// The bench of a home of four devices with these parts.
#[derive(Drop)]
pub struct PlayingBench<'a, C> {
    pub parts: [Option<FirstCall>; 4],
    pub scene: &'a Scene<C>,
}

impl<'a, C: Clock> Bench for PlayingBench<'a, C> {
    type Dev = Playing<'a, C>;

    fn build(
        &mut self,
        _alloc: Global,
        d: DeviceNo,
        start: Value,
        _downs: &[(u32, u32)],
    ) -> Result<Playing<'a, C>, NoMemory> {
        let part = match self.parts.get(d.0 as usize) {
            Some(part) => *part,
            None => None,
        };
        Ok(Playing {
            number: d,
            value: start,
            part,
            scene: self.scene,
            answered: 0,
            driven: 0,
            probed: 0,
            failed: 0,
        })
    }
}
