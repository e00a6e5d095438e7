//! A day of rooms whose hubs work at once.
use crate::runs::{FirstCall, PlayingBench, Scene, has_line, run, streams};
use day_clock::{BytesSink, Clock, StdClock};
use device_states::Bench;
use home_types::NoMemory;
use hub_commands::{RoomFinish, room_command};
use std::alloc::Global;
use std::sync::Wait;
use std::thread::Threads;

/// Two runs, one in the hall and one in the bedroom, where the second device is driven.
const ROOMS: &str = r#"{"safehome": 1, "devices": [
  {"name": "hall_lamp", "states": ["off", "on"], "start": "off"},
  {"name": "bed_fan", "states": ["off", "on"], "start": "off"},
  {"name": "bed_lamp", "states": ["off", "on"], "start": "off"}],
 "routines": [
  {"name": "a", "commands": [{"on": "hall_lamp", "do": "set", "to": "on"}]},
  {"name": "b", "commands": [{"on": "bed_lamp", "do": "set", "to": "on"}]}],
 "windows": [{"at": "2021-04-26T07:00", "runs": [{"routine": "a"}, {"routine": "b"}]}]}"#;

/// In a room the bench numbers its devices from 0, so the lamps are the first and the second
/// device.
#[test]
fn two_rooms_meet(rt: HostRuntime) {
    let scene = Scene::new(&rt);
    let mut bench = PlayingBench {
        parts: [
            Some(FirstCall::meeting(0, 1)),
            Some(FirstCall::meeting(1, 0)),
            None,
            None,
        ],
        scene: &scene,
    };
    let (finish, sink) = run_rooms(&rt, rt.alloc(), &mut bench, &scene.clock).expect(&rt, "memory");
    assert_eq!(rt; finish.status, 0);
    assert!(rt; has_line(sink.held(), b"total windows 1 runs 2 committed 2 aborted 0"));
    drop(sink);
}

/// The same runs with one hub for both rooms: under the global strict model the first waits in vain
/// for the second.
#[test]
fn two_runs_of_one_hub_do_not(rt: HostRuntime) {
    let scene = Scene::new(&rt);
    let mut bench = PlayingBench {
        parts: [
            Some(FirstCall::meeting(0, 1)),
            None,
            Some(FirstCall::meeting(1, 0)),
            None,
        ],
        scene: &scene,
    };
    let words = ["run", "--model", "gsv"];
    let (finish, sink) = run(&rt, rt.alloc(), &words, ROOMS, &mut bench, &scene.clock).expect(
        &rt, "memory",
    );
    assert_eq!(rt; finish.status, 0);
    assert!(rt; has_line(sink.held(), b"total windows 1 runs 2 committed 1 aborted 1"));
    drop(sink);
}

/// Calls `rooms` on the script under the global strict model, and gives how it ended and the sink.
fn run_rooms<R: Threads + Wait + Sync, B: Bench, C: Clock + Sync>(
    rt: &R,
    alloc: Global,
    bench: &mut B,
    clock: &C,
) -> Result<(RoomFinish<B::Dev>, BytesSink), NoMemory>
where
    B::Dev: Send,
{
    let words = ["rooms", "--model", "gsv"];
    let (words, mut source, mut sink) = streams(alloc, &words, ROOMS, 4096)?;
    let finish = room_command(rt, alloc, &words, &mut source, &mut sink, bench, clock);
    drop(words);
    drop(source);
    Ok((finish, sink))
}
