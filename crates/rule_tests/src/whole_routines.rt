//! A whole routine in a home with a lamp, a fan and a heater. No program calls `run_whole`.
ghost use Rattle.std.specs.Prelude.{◌≡◌, ◌<◌, All, IfOk, length};

use home_types::{
    Answer, Command, DeviceNo, Guard, Job, Kind, List, NoMemory, Routine, Stand, World,
};
use serial_meaning::run_whole;
use std::alloc::Global;

const LAMP: DeviceNo = DeviceNo(0);

const FAN: DeviceNo = DeviceNo(1);

const HEATER: DeviceNo = DeviceNo(2);

fn must(device: DeviceNo, job: Job) -> Command
    ensures { result.device ≡ device }
{
    Command {
        device,
        job,
        when: Guard::Always,
        must: true,
        ms: 100,
        takes: 100,
    }
}

fn best_effort(device: DeviceNo, job: Job) -> Command
    ensures { result.device ≡ device }
{
    Command {
        device,
        job,
        when: Guard::Always,
        must: false,
        ms: 100,
        takes: 100,
    }
}

/// A must command that is skipped where the register is not this value.
fn only_at(register: u32, device: DeviceNo, job: Job) -> Command
    ensures { result.device ≡ device }
{
    Command {
        device,
        job,
        when: Guard::Is(register),
        must: true,
        ms: 100,
        takes: 100,
    }
}

fn up(value: u32) -> Stand {
    Stand { value, up: true }
}

fn kinds(alloc: Global) -> Result<List<Kind>, NoMemory>
    ensures { IfOk result (λ kinds. length kinds.items ≡ 3) }
{
    List::of(
        alloc,
        &[Kind::States(2), Kind::States(3), Kind::Range(10, 30)],
    )
}

/// The lamp stands at 0, the fan at 2 and the heater at 18.
fn world(alloc: Global) -> Result<World, NoMemory>
    ensures { IfOk result (λ world. length world.devices.items ≡ 3) }
{
    Ok(World {
        devices: List::of(alloc, &[up(0), up(2), up(18)])?,
    })
}

/// Loads the heater and stores to the lamp, beside a check that may find another value, and two
/// commands with a guard.
fn first_routine(alloc: Global) -> Result<Routine, NoMemory>
    ensures { IfOk result (λ routine. All (λ c. c.device.0 < 3) routine.commands.items) }
{
    let commands = [
        must(HEATER, Job::Load),
        best_effort(FAN, Job::Check(1)),
        must(LAMP, Job::Store),
        must(LAMP, Job::Check(1)),
        only_at(20, FAN, Job::Set(0)),
        only_at(18, FAN, Job::Set(1)),
    ];
    Routine::new(alloc, List::of(alloc, &commands)?)
}

#[test]
fn runs_a_whole_routine(rt: HostRuntime) {
    let alloc = rt.alloc();
    let kinds = kinds(alloc).expect(&rt, "memory");
    let mut world = world(alloc).expect(&rt, "memory");
    let first = first_routine(alloc).expect(&rt, "memory");
    let answers = run_whole(alloc, &mut world, &first, &kinds).expect(&rt, "memory");
    let told = [
        Answer::Found(18),
        Answer::Found(2),
        Answer::Fine,
        Answer::Found(1),
        Answer::Skipped,
        Answer::Fine,
    ];
    assert!(rt; answers.is_some_and(|answers| answers.as_slice() == told.as_slice()));
    assert!(rt; world.devices.as_slice() == [up(1), up(1), up(18)].as_slice());
    drop(world);
    drop(first);
    drop(kinds);
}
