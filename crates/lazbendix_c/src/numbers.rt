//! Numbers of the caller, as what they stand for.
ghost use Rattle.std.specs.Prelude.{◌≡◌, ◌++◌, ◌-◌, IfSome, IsTrue, drop, length, min, take};
ghost use Rattle.hub_core.specs.Openings.{is_mode};
ghost use Rattle.lazbendix_c.specs.Numbers.{device_number, followed, mode_of, told_as};

use device_gate::Told;
use home_types::{DeviceNo, Mode, RunNo, Scheduler, Visibility};

/// No home has a device of this number.
const NO_DEVICE: u32 = 65535;

/// The device of this number; numbers of no device stay numbers of none.
pub(crate) fn device_number(device: u32) -> DeviceNo
    ensures { result.0 ≡ device_number device }
{
    DeviceNo(device.min(NO_DEVICE) as u16)
}

/// The run that is to be followed: 0 is none.
pub(crate) fn followed(run: u32) -> Option<RunNo>
    ensures { result ≡ followed run }
{
    if run == 0 { None } else { Some(RunNo(run)) }
}

/// The mode of this model and this scheduler, where they are some and go together.
pub(crate) fn mode_of(model: u32, scheduler: u32) -> Option<Mode>
    ensures is { result ≡ mode_of model scheduler }
    ensures goes { IfSome result (λ mode. IsTrue (is_mode mode)) }
{
    match (model, scheduler) {
        (0, 0) => Some(eventual(Scheduler::Fcfs)),
        (0, 1) => Some(eventual(Scheduler::JustInTime)),
        (0, 2) => Some(eventual(Scheduler::Timeline)),
        (1, 0) => Some(in_turn(Visibility::Partitioned)),
        (2, 0) => Some(in_turn(Visibility::Global)),
        (3, 0) => Some(in_turn(Visibility::Weak)),
        (_, _) => None,
    }
}

fn eventual(scheduler: Scheduler) -> Mode
    ensures { result ≡ record { model = Visibility.Eventual; scheduler = scheduler } }
{
    Mode {
        model: Visibility::Eventual,
        scheduler,
    }
}

fn in_turn(model: Visibility) -> Mode
    ensures { result ≡ record { model = model; scheduler = Scheduler.Fcfs } }
{
    Mode {
        model,
        scheduler: Scheduler::Fcfs,
    }
}

/// What the device told: 1 that it worked, 2 the value found, 3 nothing.
pub(crate) fn told_as(answer: u32, value: u32) -> Option<Told>
    ensures { result ≡ told_as answer value }
{
    match answer {
        1 => Some(Told::Worked),
        2 => Some(Told::Sensed(value)),
        3 => Some(Told::Died),
        _ => None,
    }
}

/// Copies the text from `from` on into the room, as much as there is and fits, and answers how
/// much.
pub(crate) fn copy_from(text: &[u8], from: usize, room: &mut [u8]) -> usize
    ensures count { result ≡ min (length text.now - from) (length room.old) }
    ensures copied { room.new ≡ take result (drop from text.now) ++ drop result room.old }
{
    let have = text.len();
    let rest = if from < have { have - from } else { 0 };
    let n = if rest < room.len() { rest } else { room.len() };
    if 0 < n {
        room[..n].copy_from_slice(&text[from..from + n]);
    }
    n
}
