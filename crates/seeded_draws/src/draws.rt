//! A generator of draws from a seed.
ghost use Rattle.std.specs.Prelude.{◌≡◌, ◌<◌};
ghost use Rattle.seeded_draws.specs.Draws.{below as below_of, drawn};

use std::marker::Model;

const MULTIPLIER: u128 = 6_364_136_223_846_793_005;

const INCREMENT: u128 = 1_442_695_040_888_963_407;

const STATES: u128 = 1 << 64;

/// How many states give the same number: a draw leaves out the low 33 bits, which are the least
/// random.
const STATES_OF_A_NUMBER: u64 = 1 << 33;

/// The generator by which a replay draws its picks, and a trial its script. The same state draws
/// the same numbers, on every machine.
#[derive(Drop)]
pub struct Draws {
    state: u64,
}

impl Model for Draws {
    ghost use Rattle.std.specs.Prelude.{ℕ};

    ghost Value = { ℕ };

    ghost view = { λ s. s.state };
}

impl Draws {
    /// A generator with this state.
    pub fn new(state: u64) -> Draws
        ensures { result ≡ state }
    {
        Draws { state }
    }

    /// Draws a number below `k`, which is above 0.
    pub fn below(&mut self, k: u64) -> u64
        requires { 0 < k }
        ensures state { self.new ≡ drawn self.old }
        ensures number { result ≡ below_of self.new k }
        ensures below { result < k }
    {
        let next = self.state as u128 * MULTIPLIER + INCREMENT;
        self.state = (next % STATES) as u64;
        self.state / STATES_OF_A_NUMBER % k
    }
}
