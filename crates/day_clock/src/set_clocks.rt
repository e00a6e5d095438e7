//! A clock that stands at the moment that it was set to.
ghost use Rattle.std.specs.Prelude.{◌≡◌};

use crate::clocks::Clock;

/// A clock that stands.
#[derive(Clone, Copy, Debug)]
pub struct SetClock {
    moment: u64,
}

impl SetClock {
    /// Makes a clock that stands at `moment`.
    pub fn new(moment: u64) -> SetClock
        ensures earliest { ⟦<SetClock as Clock>⟧.earliest result ≡ moment }
        ensures latest { ⟦<SetClock as Clock>⟧.latest result ≡ moment }
    {
        SetClock { moment }
    }
}

impl Clock for SetClock {
    ghost earliest = { λ c. c.moment };

    ghost latest = { λ c. c.moment };

    fn now(&self) -> u64
        ensures { result ≡ self.now.moment }
    {
        self.moment
    }
}
