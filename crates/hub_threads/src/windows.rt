//! A window worked with threads, at most one for each run.
ghost use Rattle.std.specs.Prelude.{◌≡◌, ◌+◌, ◌<◌, ◌≤◌, IfErr, IfOk, IsTrue, [], length, vec_capacity, vec_len, ℕ};
ghost use Rattle.hub_core.specs.HubCalls.{HubStands, WindowIsClosed};
ghost use Rattle.hub_core.specs.OpenHubs.{configuration_of};
ghost use Rattle.hub_core.specs.Steps.{opened};
ghost use Rattle.hub_threads.specs.Named.{IsNamed};
ghost use Rattle.hub_threads.specs.Names.{IsTimedBy};
ghost use Rattle.hub_threads.specs.Passes.{what_is_out};
ghost use Rattle.hub_threads.specs.WorkedWindows.{IsWorked, NoneIsLeft};

use crate::detectors::{detect, probe_again, probe_left_over};
use crate::held::{Held, Lent};
use crate::names::Name;
use crate::wakers::{BackOff, Wakers};
use crate::workers::{Spent, Unstarted, Untaken, WorkerContext, work};
use day_clock::Clock;
use device_states::Device;
use grip_seats::Desk;
use history_book::WindowRecord;
use home_types::{DeviceNo, NoMemory, RunNo};
use hub_core::{Home, Hub};
use std::alloc::Global;
use std::marker::Brand;
use std::sync::ledger::{Blank, Share};
use std::sync::{Mutex, Wait};
use std::thread;
use std::thread::{JoinHandle, Threads};

/// By what means a window is worked.
#[derive(Clone, Copy, Debug)]
pub struct Means {
    /// How many threads are started at most.
    pub threads: u32,
    pub back_off: BackOff,
}

/// A window that is to be worked: so many runs, rounds of probes and devices, at the moments of
/// this clock.
#[derive(Drop)]
struct Window<'a, C> {
    runs: u32,
    rounds: u32,
    devices: u16,
    clock: &'a C,
    means: Means,
}

/// How many threads are started at once. Each further one starts after a pause, where a run is left
/// then that no thread has taken: where devices answer at once the first ones work the window
/// alone, and where they are slow each run has a thread of its own, the last one after as many
/// pauses as there are further runs.
const AT_ONCE: u32 = 4;

/// As many threads as runs.
const USUAL: Means = Means {
    threads: u32::MAX,
    back_off: BackOff {
        blocked: 100,
        restless: 10,
    },
};

/// Works a window of a hub in which nothing was done yet: threads for the runs, which the system
/// may refuse, and the calling thread as the detector, which comes so often to each device. A
/// thread whose run is over takes the next one that none has taken, and but for the first four a
/// thread starts after a pause of a ms: so there is one for each run where all take long, and fewer
/// where some are over soon. Each moment is an answer of the clock.
///
/// Answers `NoMemory` where there is none to be had, before any thread starts, and gives the hub
/// back. It may wait: what is said of its answer holds if it returns.
pub fn run_window<R: Threads + Wait + Sync, D: Device + Send, C: Clock + Sync>(
    rt: &R,
    alloc: Global,
    hub: Hub<D>,
    rounds: u32,
    clock: &C,
) -> Result<(Home<D>, WindowRecord), (Hub<D>, NoMemory)>
    requires fresh { configuration_of hub ≡ opened hub.setting hub.rounds }
    requires rounds { (d : ℕ) → d < length hub.setting.first
        → (configuration_of hub).probes d ≡ rounds }
    ensures worked { IfOk result (λ closed. IsWorked D.shows (C.earliest clock.now)
        (C.latest clock.now) hub closed.0 closed.1) }
    ensures refused { IfErr result (λ refused. refused.0 ≡ hub) }
{
    run_window_by(rt, alloc, hub, rounds, clock, USUAL)
}

/// Works a window as `run_window` does, by these means. Each window has a name of its own.
pub fn run_window_by<R: Threads + Wait + Sync, D: Device + Send, C: Clock + Sync>(
    rt: &R,
    alloc: Global,
    hub: Hub<D>,
    rounds: u32,
    clock: &C,
    means: Means,
) -> Result<(Home<D>, WindowRecord), (Hub<D>, NoMemory)>
    requires fresh { configuration_of hub ≡ opened hub.setting hub.rounds }
    ensures worked { IfOk result (λ closed. IsWorked D.shows (C.earliest clock.now)
        (C.latest clock.now) hub closed.0 closed.1) }
    ensures refused { IfErr result (λ refused. refused.0 ≡ hub) }
{
    hub.kept_invariant();
    let window = Window {
        runs: hub.run_count(),
        rounds,
        devices: hub.device_count() as u16,
        clock,
        means,
    };
    let Ok(desk) = Desk::open(alloc, hub.device_count()) else {
        return Err((hub, NoMemory));
    };
    let blank = Blank::new(u64::from(window.runs) + 1);
    match run_named::<R, D, C, Brand>(rt, alloc, hub, desk, blank, window) {
        Ok(last) => Ok(closed(rt, last)),
        Err(refused) => Err(refused),
    }
}

/// The steps of a window, with no type of its name among the arguments and the answer.
fn run_named<
    'a,
    R: Threads + Wait + Sync,
    D: Device + Send,
    C: Clock + Sync,
    N: Name + Send + Sync,
>(
    rt: &R,
    alloc: Global,
    hub: Hub<D>,
    desk: Desk<Lent>,
    blank: Blank,
    window: Window<'a, C>,
) -> Result<Hub<D>, (Hub<D>, NoMemory)>
    requires name { blank.name ≡ N.name }
    requires parts { (blank.parts ≡ N.parts) × (blank.parts ≡ window.runs + 1) }
    requires clock { IsTimedBy N.window (C.earliest window.clock.now) (C.latest window.clock.now) }
    requires named { IsNamed D.shows N.window hub }
    requires fresh { hub.history ≡ [] }
    requires desk { desk.name ≡ N.desk }
    requires out { desk.out ≡ what_is_out hub.places }
    ensures named { IfOk result (λ last. IsNamed D.shows N.window last) }
    ensures refused { IfErr result (λ refused. refused.0 ≡ hub) }
{
    match run_counted::<R, D, C, N>(rt, alloc, hub, desk, blank, window) {
        Ok((last, _)) => Ok(last),
        Err(refused) => Err(refused),
    }
}

/// The steps of a window, and the whole ledger: it counts what all of them have answered.
fn run_counted<
    'a,
    R: Threads + Wait + Sync,
    D: Device + Send,
    C: Clock + Sync,
    N: Name + Send + Sync,
>(
    rt: &R,
    alloc: Global,
    hub: Hub<D>,
    desk: Desk<Lent>,
    blank: Blank,
    window: Window<'a, C>,
) -> Result<(Hub<D>, Share<N>), (Hub<D>, NoMemory)>
    requires name { blank.name ≡ N.name }
    requires parts { (blank.parts ≡ N.parts) × (blank.parts ≡ window.runs + 1) }
    requires clock { IsTimedBy N.window (C.earliest window.clock.now) (C.latest window.clock.now) }
    requires named { IsNamed D.shows N.window hub }
    requires fresh { hub.history ≡ [] }
    requires desk { desk.name ≡ N.desk }
    requires out { desk.out ≡ what_is_out hub.places }
    ensures named { IfOk result (λ last. IsNamed D.shows N.window last.0) }
    ensures counted { IfOk result (λ last. length last.0.history ≡ last.1.amount) }
    ensures refused { IfErr result (λ refused. refused.0 ≡ hub) }
{
    let Ok(wakers) = Wakers::new(alloc, window.runs, window.means.back_off) else {
        let _ = blank.open::<N>();
        drop(desk);
        return Err((hub, NoMemory));
    };
    let Ok(handles) = room_for(alloc, window.runs) else {
        let _ = blank.open::<N>();
        drop(desk);
        return Err((hub, NoMemory));
    };
    let (book, all) = blank.open::<N>();
    let context = WorkerContext {
        held: Mutex::new(Held::new(hub, book, desk)),
        wakers,
        unstarted: Unstarted::new(),
        untaken: Untaken::new(window.runs),
    };
    let mut all = in_threads(rt, &context, all, handles, window);
    let WorkerContext {
        held,
        wakers: _,
        unstarted: _,
        untaken: _,
    } = context;
    let last = held.into_inner().ended(&mut all);
    Ok((last, all))
}

/// Room for the handles of so many workers.
fn room_for<N: Name>(alloc: Global, workers: u32) -> Result<Vec<JoinHandle<Spent<N>>>, NoMemory>
    ensures room { IfOk result (λ handles. workers ≤ vec_capacity handles) }
    ensures none { IfOk result (λ handles. handles.items ≡ []) }
{
    Vec::with_capacity(alloc, workers as usize).map_err(|_| NoMemory)
}

/// Starts the workers, detects, joins the workers and gathers their shares.
fn in_threads<
    'a,
    R: Threads + Wait + Sync,
    D: Device + Send,
    C: Clock + Sync,
    N: Name + Send + Sync,
>(
    rt: &R,
    context: &WorkerContext<Held<D, N>>,
    all: Share<N>,
    handles: Vec<JoinHandle<Spent<N>>>,
    window: Window<'a, C>,
) -> Share<N>
    requires parts { (all.parts ≡ N.parts) × (all.parts ≡ window.runs + 1) × (all.amount ≡ 0) }
    requires clock { IsTimedBy N.window (C.earliest window.clock.now) (C.latest window.clock.now) }
    requires room { window.runs ≤ vec_capacity handles }
    requires none { handles.items ≡ [] }
    ensures { result.parts ≡ N.parts }
{
    thread::scope(
        thread::scope_env(),
        rt,
        move |scope| -> Share<N>
            requires { (all.parts ≡ N.parts) × (all.parts ≡ window.runs + 1) × (all.amount ≡ 0)
                × IsTimedBy N.window (C.earliest window.clock.now) (C.latest window.clock.now)
                × (window.runs ≤ vec_capacity handles) × (handles.items ≡ []) }
            ensures { result.parts ≡ N.parts }
        {
            let clock = window.clock;
            let mut all = all;
            let mut handles = handles;
            'runs: for i in 0..window.runs {
                let Some(r) = next_untaken(rt, context, i) else {
                    break;
                };
                if window.means.threads <= i {
                    context.unstarted.add(r);
                    continue;
                }
                let share = all.split_off(1, 0);
                let job = move || -> Spent<N>
                    requires { (share.parts ≡ 1)
                        × IsTimedBy N.window (C.earliest clock.now) (C.latest clock.now) }
                { work(rt, context, share, r, clock) };
                match scope.spawn(job) {
                    Ok(handle) => handles.push_reserved(handle),
                    Err(refused) => {
                        // Its run has no thread, so the job makes no step: it hands its share back.
                        context.unstarted.add(r);
                        let Spent { share } = (refused.value)();
                        all.merge(share);
                    }
                }
            }
            joined(rt, context, all, handles, window)
        },
    )
}

/// The run for the worker with this number, counted from 0, which but for the first ones starts
/// after a pause. `None` where each run is taken.
fn next_untaken<R: Wait, S>(rt: &R, context: &WorkerContext<S>, i: u32) -> Option<RunNo> {
    if AT_ONCE <= i {
        context.wakers.pause(rt);
    }
    context.untaken.take()
}

/// Detects, joins the workers and gathers their shares.
fn joined<'a, R: Threads + Wait + Sync, D: Device + Send, C: Clock + Sync, N: Name + Send + Sync>(
    rt: &R,
    context: &WorkerContext<Held<D, N>>,
    all: Share<N>,
    handles: Vec<JoinHandle<Spent<N>>>,
    window: Window<'a, C>,
) -> Share<N>
    requires parts { all.parts + vec_len handles ≡ N.parts }
    requires own { 1 ≤ all.parts }
    requires clock { IsTimedBy N.window (C.earliest window.clock.now) (C.latest window.clock.now) }
    ensures { result.parts ≡ N.parts }
{
    let Window {
        runs,
        rounds,
        devices,
        clock,
        means: _,
    } = window;
    let mut all = all;
    let mut handles = handles;
    let mut passed = detect(rt, context, &mut all, runs, rounds, devices, clock);
    'workers: while let Some(handle) = handles.pop() {
        passed = probe_again(rt, context, &mut all, devices, passed);
        let Spent { share } = handle.join(rt);
        all.merge(share);
    }
    probe_left_over(rt, context, &mut all, devices);
    all
}

/// Closes the window once it is quiet and no probe is left. After the joins it is: this does not
/// wait then.
fn closed<R: Wait, D: Device>(rt: &R, hub: Hub<D>) -> (Home<D>, WindowRecord)
    ensures stands { HubStands D.shows hub }
    ensures closed { WindowIsClosed D.shows hub result.0 result.1 }
    ensures none_left { NoneIsLeft hub }
{
    hub.kept_invariant();
    let mut hub = hub;
    for _ in rt.forever() {
        if !none_is_left(&hub) {
            thread::yield_now();
            continue;
        }
        match hub.close_window() {
            Ok(closed) => return closed,
            Err((back, _)) => hub = back,
        }
    }
    unreachable!()
}

/// Whether no probe of a device is left.
fn none_is_left<D: Device>(hub: &Hub<D>) -> bool
    ensures { IsTrue result → NoneIsLeft hub.now }
{
    hub.kept_invariant();
    'devices: for d in 0..hub.device_count() {
        if hub.probes_left(DeviceNo(d as u16)) != 0 {
            return false;
        }
    }
    true
}
