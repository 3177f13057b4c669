//! Pseudo-random numbers.

ghost use Rattle.std.specs.Prelude.{◌≡◌, ◌<◌, ◌^◌};
ghost use Rattle.soak_run.specs.Generator.{drawn, first_state, next_state};

use std::marker::Model;

/// The number of states. Each state is less than this number.
const STATES: u64 = 1 << 31;

const MULTIPLIER: u64 = 1_103_515_245;

const INCREMENT: u64 = 12_345;

/// A generator of pseudo-random numbers, the same in each run: the linear congruential generator that the C standard
/// gives as an example, with 31 bits of state.
#[derive(Debug, Drop)]
pub struct Noise {
    state: u64,
}

impl Model for Noise {
    ghost use Rattle.std.specs.Prelude.{ℕ, ◌<◌};
    ghost use Rattle.soak_run.specs.Generator.{states};

    ghost Value = { ℕ };

    ghost view = { λ noise. noise.state };

    ghost invariant = { λ noise. noise.state < states };
}

impl Noise {
    /// The generator whose seed is `n` modulo 2^31.
    pub fn new(n: u64) -> Self
        ensures { result ≡ first_state n }
    {
        Noise { state: n % STATES }
    }

    /// The next number, 0 to 32,767.
    pub fn draw(&mut self) -> u32
        ensures state { self.new ≡ next_state self.old }
        ensures drawn { result ≡ drawn self.new }
        ensures bound { result < 2 ^ 15 }
    {
        self.state = (self.state * MULTIPLIER + INCREMENT) % STATES;
        (self.state >> 16) as u32
    }
}
