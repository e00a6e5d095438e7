//! The detector's thread: round after round of probes.
ghost use Rattle.std.specs.Prelude.{◌≡◌, ◌<◌, ◌≤◌};
ghost use Rattle.hub_threads.specs.Names.{IsTimedBy};

use crate::held::Steps;
use crate::names::Name;
use crate::workers::{Stepped, WorkerContext, probe, step};
use day_clock::Clock;
use device_states::Device;
use home_types::{DeviceNo, RunNo};
use hub_core::{Done, Grip};
use std::sync::Wait;
use std::sync::ledger::Share;

/// Probes each device once in each round, passing by those that are out, and steps the runs that
/// have no thread to their end. Answers how often a device was passed by.
pub(crate) fn detect<D: Device, N: Name, S: Steps<D, N, Grip<D, Done>>, R: Wait, C: Clock>(
    rt: &R,
    context: &WorkerContext<S>,
    share: &mut Share<N>,
    runs: u32,
    rounds: u32,
    devices: u16,
    clock: &C,
) -> u64
    requires share { 0 < share.old.parts }
    requires clock { IsTimedBy N.window (C.earliest clock.now) (C.latest clock.now) }
    ensures { share.new.parts ≡ share.old.parts }
{
    let mut passed = 0u64;
    for _ in 0..rounds {
        for d in 0..devices {
            if !probe(rt, context, share, DeviceNo(d)) {
                passed = passed.saturating_add(1);
            }
            sweep(rt, context, share, runs, clock);
        }
    }
    finish(rt, context, share, runs, clock);
    passed
}

/// Probes the devices again, where so many were passed by. Answers how many are still to be probed.
pub(crate) fn probe_again<D: Device, N: Name, S: Steps<D, N, Grip<D, Done>>, R: Wait>(
    rt: &R,
    context: &WorkerContext<S>,
    share: &mut Share<N>,
    devices: u16,
    passed: u64,
) -> u64
    requires share { 0 < share.old.parts }
    ensures { share.new.parts ≡ share.old.parts }
{
    let mut left = passed;
    for d in 0..devices {
        if left == 0 {
            return 0;
        }
        if probe(rt, context, share, DeviceNo(d)) {
            left -= 1;
        }
    }
    left
}

/// Takes the probes that are left over.
pub(crate) fn probe_left_over<D: Device, N: Name, S: Steps<D, N, Grip<D, Done>>, R: Wait>(
    rt: &R,
    context: &WorkerContext<S>,
    share: &mut Share<N>,
    devices: u16,
)
    requires share { 0 < share.old.parts }
    ensures { share.new.parts ≡ share.old.parts }
{
    for d in 0..devices {
        for _ in rt.forever() {
            if !probe(rt, context, share, DeviceNo(d)) {
                break;
            }
        }
    }
}

/// Steps the runs that have no thread to their end.
fn finish<D: Device, N: Name, S: Steps<D, N, Grip<D, Done>>, R: Wait, C: Clock>(
    rt: &R,
    context: &WorkerContext<S>,
    share: &mut Share<N>,
    runs: u32,
    clock: &C,
)
    requires share { 0 < share.old.parts }
    requires clock { IsTimedBy N.window (C.earliest clock.now) (C.latest clock.now) }
    ensures { share.new.parts ≡ share.old.parts }
{
    for _ in rt.forever() {
        match sweep(rt, context, share, runs, clock) {
            Stepped::Over => return,
            Stepped::Moved => {}
            Stepped::Waits => context.wakers.pause(rt),
        }
    }
    unreachable!()
}

/// Steps each run that has no thread once. Answers `Over` where all of them have ended, else
/// whether one moved or all the others wait.
fn sweep<D: Device, N: Name, S: Steps<D, N, Grip<D, Done>>, R: Wait, C: Clock>(
    rt: &R,
    context: &WorkerContext<S>,
    share: &mut Share<N>,
    runs: u32,
    clock: &C,
) -> Stepped
    requires share { 0 < share.old.parts }
    requires clock { IsTimedBy N.window (C.earliest clock.now) (C.latest clock.now) }
    ensures { share.new.parts ≡ share.old.parts }
{
    if context.unstarted.is_empty() {
        return Stepped::Over;
    }
    let mut all = Stepped::Over;
    for i in 0..runs {
        let r = RunNo(i + 1);
        if context.unstarted.has(r) {
            all = either(all, step(rt, context, share, r, clock, false));
        }
    }
    all
}

/// What came of two steps together.
fn either(all: Stepped, one: Stepped) -> Stepped {
    match (all, one) {
        (Stepped::Moved, _) | (_, Stepped::Moved) => Stepped::Moved,
        (Stepped::Waits, _) | (_, Stepped::Waits) => Stepped::Waits,
        (Stepped::Over, Stepped::Over) => Stepped::Over,
    }
}
