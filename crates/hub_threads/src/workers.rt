//! The thread of a run: steps under the lock, calls of devices outside it.
ghost use Rattle.std.specs.Prelude.{◌≡◌, ◌<◌, ◌≤◌, IfSome};
ghost use Rattle.hub_core.specs.HubCalls.{carried_by};
ghost use Rattle.hub_threads.specs.Named.{HasPlan};
ghost use Rattle.hub_threads.specs.Names.{IsTimedBy};
ghost use Rattle.hub_threads.specs.Passes.{IsDetectorsPass, IsRunsPass};

use crate::held::{Lent, Steps};
use crate::names::Name;
use crate::sleepers::bit_of;
use crate::wakers::Wakers;
use day_clock::Clock;
use device_states::Device;
use grip_seats::Pass;
use home_types::{DeviceNo, RunNo};
use hub_core::{Done, Grip, Ready, Turn};
use std::sync::atomic::{AtomicU64, Ordering};
use std::sync::ledger::Share;
use std::sync::{Mutex, MutexGuard, Wait};
use std::thread;

/// How often a thread tries the lock before it sleeps.
const TRIES: u32 = 64;

/// The lock, and what stands beside it.
#[derive(Drop)]
pub(crate) struct WorkerContext<S> {
    pub(crate) held: Mutex<S>,
    pub(crate) wakers: Wakers,
    pub(crate) unstarted: Unstarted,
    pub(crate) untaken: Untaken,
}

/// The runs of a window that no thread has taken yet. Each is taken once, in the order of the
/// numbers.
#[derive(Drop)]
pub(crate) struct Untaken {
    taken: AtomicU64,
    runs: u32,
}

/// The runs that have no thread of their own. The calling thread steps them, and it alone writes
/// them down here.
#[derive(Drop)]
pub(crate) struct Unstarted {
    runs: AtomicU64,
}

/// What came of a step.
#[derive(Clone, Copy, Debug, PartialEq, Eq)]
pub(crate) enum Stepped {
    Moved,
    Waits,
    Over,
}

/// What a worker hands back: its part of the ledger.
#[derive(Drop)]
pub(crate) struct Spent<N: Name> {
    pub(crate) share: Share<N>,
    pub(crate) ghost one_part: { share.parts ≡ 1 },
}

impl Untaken {
    /// So many runs, of which none is taken.
    pub(crate) fn new(runs: u32) -> Untaken {
        Untaken {
            taken: AtomicU64::new(0),
            runs,
        }
    }

    /// Takes the next run. `None` where each is taken.
    pub(crate) fn take(&self) -> Option<RunNo> {
        let taken = self.taken.fetch_add(1, Ordering::SeqCst);
        if taken < u64::from(self.runs) {
            Some(RunNo(taken as u32 + 1))
        } else {
            None
        }
    }
}

impl Unstarted {
    /// Every run has a thread.
    pub(crate) fn new() -> Unstarted {
        Unstarted {
            runs: AtomicU64::new(0),
        }
    }

    /// The run has none.
    pub(crate) fn add(&self, r: RunNo) {
        self.runs.store(
            self.runs.load(Ordering::SeqCst) | bit_of(r),
            Ordering::SeqCst,
        );
    }

    /// Whether the run has none.
    pub(crate) fn has(&self, r: RunNo) -> bool {
        self.runs.load(Ordering::SeqCst) & bit_of(r) != 0
    }

    /// Whether each run has one.
    pub(crate) fn is_empty(&self) -> bool {
        self.runs.load(Ordering::SeqCst) == 0
    }
}

/// Works the run to its end, unless the calling thread steps it, and then those that no thread has
/// taken yet.
pub(crate) fn work<D: Device, N: Name, S: Steps<D, N, Grip<D, Done>>, R: Wait, C: Clock>(
    rt: &R,
    context: &WorkerContext<S>,
    share: Share<N>,
    r: RunNo,
    clock: &C,
) -> Spent<N>
    requires part { share.parts ≡ 1 }
    requires clock { IsTimedBy N.window (C.earliest clock.now) (C.latest clock.now) }
{
    if context.unstarted.has(r) {
        return Spent { share };
    }
    let mut share = share;
    let mut worked = r;
    for _ in rt.forever() {
        if step(rt, context, &mut share, worked, clock, true) != Stepped::Over {
            continue;
        }
        match context.untaken.take() {
            Some(next) => worked = next,
            None => break,
        }
    }
    Spent { share }
}

/// Makes a step of the run under the lock, and where a device goes out its call, outside the lock,
/// and the step back. Where the run waits it may sleep.
pub(crate) fn step<D: Device, N: Name, S: Steps<D, N, Grip<D, Done>>, R: Wait, C: Clock>(
    rt: &R,
    context: &WorkerContext<S>,
    share: &mut Share<N>,
    r: RunNo,
    clock: &C,
    sleeps: bool,
) -> Stepped
    requires share { 0 < share.old.parts }
    requires clock { IsTimedBy N.window (C.earliest clock.now) (C.latest clock.now) }
    ensures { share.new.parts ≡ share.old.parts }
{
    let moment = clock.now();
    let mut guard = enter(rt, &context.held);
    let (turn, pass) = guard.take(share, r, moment);
    match turn {
        Turn::Go(grip) => {
            unlock::<D, N, S>(&context.wakers, guard);
            give(rt, context, share, grip.act(), pass.unwrap(), clock);
            Stepped::Moved
        }
        Turn::Moved(_) => {
            unlock::<D, N, S>(&context.wakers, guard);
            Stepped::Moved
        }
        Turn::Over(_, _) => {
            unlock::<D, N, S>(&context.wakers, guard);
            Stepped::Over
        }
        Turn::Wait(why) => {
            if sleeps {
                let is_blocked = guard.sleep(r, why);
                context.wakers.sleep(rt, guard, r, is_blocked);
            }
            Stepped::Waits
        }
        Turn::Absent => Stepped::Over,
    }
}

/// Enters the lock. A thread tries it for a while and lets others run in between, since one that
/// sleeps before the lock is woken late.
fn enter<'b, S, R: Wait>(rt: &R, held: &'b Mutex<S>) -> MutexGuard<'b, S> {
    for _ in 0..TRIES {
        if let Some(guard) = held.try_lock() {
            return guard;
        }
        thread::yield_now();
    }
    held.lock(rt)
}

/// Leaves the lock, and wakes the runs that a step under it may have freed.
fn unlock<D: Device, N: Name, S: Steps<D, N, Grip<D, Done>>>(
    wakers: &Wakers,
    guard: MutexGuard<S>,
) {
    let mut guard = guard;
    let woken = guard.wake();
    drop(guard);
    wakers.wake(woken);
}

/// Gives the grip of a run back under the lock.
fn give<D: Device, N: Name, S: Steps<D, N, Grip<D, Done>>, R: Wait, C: Clock>(
    rt: &R,
    context: &WorkerContext<S>,
    share: &mut Share<N>,
    grip: Grip<D, Done>,
    pass: Pass<Lent>,
    clock: &C,
)
    requires share { 0 < share.old.parts }
    requires clock { IsTimedBy N.window (C.earliest clock.now) (C.latest clock.now) }
    requires plan { HasPlan D.shows N.window.plans grip }
    requires pass { IsRunsPass N.desk (carried_by grip) pass }
    ensures { share.new.parts ≡ share.old.parts }
{
    let moment = clock.now();
    let mut guard = enter(rt, &context.held);
    guard.give(share, grip, pass, moment);
    unlock::<D, N, S>(&context.wakers, guard);
}

/// Takes a probe of the device, where one may be taken, and tells whether it did.
pub(crate) fn probe<D: Device, N: Name, S: Steps<D, N, Grip<D, Done>>, R: Wait>(
    rt: &R,
    context: &WorkerContext<S>,
    share: &mut Share<N>,
    d: DeviceNo,
) -> bool
    requires share { 0 < share.old.parts }
    ensures { share.new.parts ≡ share.old.parts }
{
    match take_probe(rt, context, share, d) {
        Some((grip, pass)) => {
            give_probe(rt, context, share, grip.act(), pass);
            true
        }
        None => false,
    }
}

/// Takes a probe of the device under the lock.
fn take_probe<D: Device, N: Name, S: Steps<D, N, Grip<D, Done>>, R: Wait>(
    rt: &R,
    context: &WorkerContext<S>,
    share: &mut Share<N>,
    d: DeviceNo,
) -> Option<(Grip<D, Ready>, Pass<Lent>)>
    requires share { 0 < share.old.parts }
    ensures parts { share.new.parts ≡ share.old.parts }
    ensures plan { IfSome result (λ probe. HasPlan D.shows N.window.plans probe.0) }
    ensures pass { IfSome result (λ probe. IsDetectorsPass N.desk (carried_by probe.0) probe.1) }
{
    let mut guard = enter(rt, &context.held);
    let probe = guard.take_probe(share, d);
    unlock::<D, N, S>(&context.wakers, guard);
    probe
}

/// Gives the detector's grip back under the lock.
fn give_probe<D: Device, N: Name, S: Steps<D, N, Grip<D, Done>>, R: Wait>(
    rt: &R,
    context: &WorkerContext<S>,
    share: &mut Share<N>,
    grip: Grip<D, Done>,
    pass: Pass<Lent>,
)
    requires share { 0 < share.old.parts }
    requires plan { HasPlan D.shows N.window.plans grip }
    requires pass { IsDetectorsPass N.desk (carried_by grip) pass }
    ensures { share.new.parts ≡ share.old.parts }
{
    let mut guard = enter(rt, &context.held);
    guard.give_probe(share, grip, pass);
    unlock::<D, N, S>(&context.wakers, guard);
}
