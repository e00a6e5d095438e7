//! The clock of the system.
use crate::clocks::Clock;
use std::time::Instant;

/// The clock of the system, by a handle that tells its time: the ms since it was made, by the
/// system's clock that is never set. Where the system gives no time, the moment is 0.
#[derive(Clone, Copy)]
pub struct StdClock<T> {
    time: T,
    made: Option<Instant>,
}

impl<T: std::time::Clock> StdClock<T> {
    /// Makes the clock that asks `time`, which stands at 0 now.
    pub fn new(time: T) -> StdClock<T> {
        let made = Instant::now(&time).ok();
        StdClock { time, made }
    }
}

impl<T: std::time::Clock> Clock for StdClock<T> {
    ghost use Rattle.std.specs.Prelude.{◌-◌, ◌^◌};

    ghost earliest = { λ _. 0 };

    ghost latest = { λ _. 2 ^ 64 - 1 };

    fn now(&self) -> u64 {
        let Some(made) = self.made else {
            return 0;
        };
        let Ok(since) = made.elapsed(&self.time) else {
            return 0;
        };
        u64::try_from(since.as_millis()).unwrap_or(u64::MAX)
    }
}
