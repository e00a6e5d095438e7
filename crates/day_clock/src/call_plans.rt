//! Which calls of a source or a sink in memory fail.
ghost use Rattle.std.specs.Prelude.{◌≡◌};
ghost use Rattle.day_clock.specs.CallPlans.{after_call, fails_next, fresh_plan};

use home_types::List;

/// The calls that were made, and those that are to fail, counted from 1.
#[derive(Drop)]
pub(crate) struct CallPlan {
    // How many calls were made. From the number 2^64 - 1 on each call has that number.
    made: u64,
    failing: List<u64>,
}

impl CallPlan {
    /// Makes the plan of something that was not called yet.
    pub(crate) fn new(failing: List<u64>) -> CallPlan
        ensures { result ≡ fresh_plan failing }
    {
        CallPlan { made: 0, failing }
    }

    /// Counts one more call, and tells whether it is to fail.
    pub(crate) fn call_fails(&mut self) -> bool
        ensures fails { result ≡ fails_next self.old }
        ensures counted { self.new ≡ after_call self.old }
    {
        self.made = self.made.saturating_add(1);
        let call = self.made;
        self.failing
            .as_slice()
            .iter()
            .any(|failing| *failing == call)
    }
}
