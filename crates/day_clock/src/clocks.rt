//! A clock: it answers moments, none above its latest.
ghost use Rattle.std.specs.Prelude.{ℕ, ◌≤◌};

/// A clock, in ms. It does not fail.
pub trait Clock {
    /// The least moment that it can answer.
    ghost earliest: { Self → ℕ };

    /// The greatest moment that it can answer.
    ghost latest: { Self → ℕ };

    /// The moment that it is.
    fn now(&self) -> u64
        ensures since { earliest self.now ≤ result }
        ensures until { result ≤ latest self.now };
}
