//! The ways of working a window: step by step, or in threads.
ghost use Rattle.std.specs.Prelude.{ℕ};
ghost use Rattle.history_book.specs.Settings.{Setting};
ghost use Rattle.history_book.specs.declared.records.WindowRecord.{WindowRecord};
ghost use Rattle.routine_reader.specs.declared.scripts.WindowText.{WindowText};

use day_clock::Clock;

/// A way of working the windows of a day. It does nothing; contracts tell by it how a day was
/// worked.
pub trait Way {
    /// What is true of a window that was worked in this way, in its setting: of its text, its
    /// record, and how many probes were taken of each device.
    ghost works: { Self → Setting → WindowText → WindowRecord → (ℕ → ℕ) → Type 0 };
}

/// Windows are worked step by step, by their turns and their seeds.
#[derive(Clone, Copy)]
pub struct StepByStep;

impl Way for StepByStep {
    ghost use Rattle.hub_commands.specs.Ways.{IsReplayOf};

    ghost works = { λ _. IsReplayOf };
}

/// Windows are worked with threads, at the moments of the clock.
#[derive(Drop)]
pub struct InThreads<'a, C> {
    pub clock: &'a C,
}

impl<'a, C: Clock> Way for InThreads<'a, C> {
    ghost use Rattle.hub_commands.specs.Ways.{IsRunWithin};

    ghost works = { λ way. IsRunWithin (C.earliest way.clock.now) (C.latest way.clock.now) };
}
