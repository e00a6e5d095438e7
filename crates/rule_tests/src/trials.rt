//! What an independent program draws.
use day_clock::When;
use home_types::{Command, DeviceNo, Guard, Job};
use trial_scripts::trial_script;

fn must(device: u16, job: Job) -> Command {
    Command {
        device: DeviceNo(device),
        job,
        when: Guard::Always,
        must: true,
        ms: 100,
        takes: 100,
    }
}

fn best_effort(device: u16, job: Job) -> Command {
    Command {
        must: false,
        ..must(device, job)
    }
}

#[test]
fn two_windows(rt: HostRuntime) {
    let script = trial_script(rt.alloc(), 2).expect(&rt, "memory");
    assert!(rt; script.devices.len() == 32 && script.routines.len() == 64);
    let routine = script.routines.get(0).expect(&rt, "a routine");
    assert!(rt;
        routine.routine.commands.as_slice()
            == [
                must(12, Job::Load),
                must(8, Job::Set(295)),
                must(11, Job::Set(478)),
                must(17, Job::Load),
            ]
            .as_slice()
    );
    let runs = script
        .windows
        .get(0)
        .expect(&rt, "a window")
        .runs
        .as_slice();
    assert!(rt; runs.len() == 64);
    for (run, routine) in runs.iter().zip([15, 9, 27, 37, 22, 30, 27, 9]) {
        assert!(rt; run.routine == routine && run.follows.is_none());
    }
    drop(script);
}

#[test]
fn three_windows(rt: HostRuntime) {
    let script = trial_script(rt.alloc(), 3).expect(&rt, "memory");
    let routine = script.routines.get(0).expect(&rt, "a routine");
    assert!(rt; routine.name.as_str() == "r00");
    assert!(rt;
        routine.routine.commands.as_slice()
            == [
                must(3, Job::Store),
                must(3, Job::Load),
                must(20, Job::Store),
                best_effort(31, Job::Check(89)),
            ]
            .as_slice()
    );
    drop(script);
}

#[test]
fn whole_day(rt: HostRuntime) {
    let script = trial_script(rt.alloc(), 288).expect(&rt, "memory");
    let device = script.devices.get(31).expect(&rt, "a device");
    let routine = script.routines.get(63).expect(&rt, "a routine");
    assert!(rt; device.name.as_str() == "d31" && routine.name.as_str() == "r63");
    let window = script.windows.get(287).expect(&rt, "a window");
    let last = When {
        year: 2021,
        month: 4,
        day: 26,
        hour: 23,
        minute: 55,
        second: 0,
    };
    assert!(rt; window.at == last);
    assert!(rt; window.seed == 288 && window.probes == 0 && window.turns.len() == 0);
    let run = window.runs.get(63).expect(&rt, "a run");
    assert!(rt; run.routine == 9);
    drop(script);
}
