//! The wakers of sleeping workers, and how long a worker backs off.
use home_types::{NoMemory, RunNo};
use std::alloc::Global;
use std::sync::{Condvar, MutexGuard, Wait};
use std::thread;
use std::time::Duration;

/// How long a run sleeps at most before it looks again, in ms.
#[derive(Clone, Copy, Debug)]
pub struct BackOff {
    /// A run that only a step of another can free. A wake-up that is missed costs so much.
    pub blocked: u64,
    /// Any other run: time alone may free it.
    pub restless: u64,
}

/// How often a blocked run looks whether it was woken before it sleeps.
const LOOKS: u32 = 64;

/// How long the calling thread sleeps, in ms, where each run that it steps waits.
const CALLERS_PAUSE: u64 = 1;

/// Where runs sleep: a waker for each, by its number. The waker 0 is the calling thread's.
///
/// No promise rests on who is woken: a wake-up too few costs a pause, one too many a step.
#[derive(Drop)]
pub(crate) struct Wakers {
    wakers: Vec<Condvar>,
    back_off: BackOff,
}

impl Wakers {
    /// The wakers of so many runs. Takes all memory of their waits.
    pub(crate) fn new(alloc: Global, runs: u32, back_off: BackOff) -> Result<Wakers, NoMemory> {
        let mut wakers = Vec::new(alloc);
        wakers.push(Condvar::new()).map_err(|_| NoMemory)?;
        for _ in 0..runs {
            wakers.push(Condvar::new()).map_err(|_| NoMemory)?;
        }
        Ok(Wakers { wakers, back_off })
    }

    /// Sleeps until the run is woken, or its pause is over. The guard is the one under
    /// which the run was told to wait, and noted as asleep: a wake-up after that ends the sleep at
    /// once. A blocked run only lets others run for a while, since most waits are shorter than it
    /// takes to fall asleep and to wake; that of another may end by time.
    pub(crate) fn sleep<R: Wait, S>(
        &self,
        rt: &R,
        guard: MutexGuard<S>,
        r: RunNo,
        is_blocked: bool,
    ) {
        let Some(waker) = self.wakers.get(r.0 as usize) else {
            drop(guard);
            return;
        };
        let seen = waker.notifications();
        drop(guard);
        if is_blocked && is_woken_soon(waker, seen) {
            return;
        }
        let longest = if is_blocked {
            self.back_off.blocked
        } else {
            self.back_off.restless
        };
        waker.sleep(rt, seen, Duration::from_millis(longest));
    }

    /// Wakes these runs, the run r as the bit r - 1.
    pub(crate) fn wake(&self, woken: u64) {
        let mut left = woken;
        for _ in 0..woken.count_ones() {
            let r = left.trailing_zeros() + 1;
            left &= left.wrapping_sub(1);
            if let Some(waker) = self.wakers.get(r as usize) {
                waker.notify_one();
            }
        }
    }

    /// A short sleep of the calling thread.
    pub(crate) fn pause<R: Wait>(&self, rt: &R) {
        if let Some(waker) = self.wakers.get(0) {
            waker.sleep(
                rt,
                waker.notifications(),
                Duration::from_millis(CALLERS_PAUSE),
            );
        }
    }
}

/// Whether the run is woken while it looks some times and lets others run.
fn is_woken_soon(waker: &Condvar, seen: u64) -> bool {
    for _ in 0..LOOKS {
        if waker.notifications() != seen {
            return true;
        }
        thread::yield_now();
    }
    false
}
