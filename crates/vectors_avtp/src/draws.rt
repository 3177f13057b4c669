//! Pseudo-random numbers, the same in each run.

ghost use Rattle.std.specs.Prelude.{◌<◌, max};

/// A linear congruential generator of 31 bits.
#[derive(Debug, Drop)]
pub struct Draws {
    state: u64,
}

impl Draws {
    /// The generator of a seed.
    pub fn seeded(seed: u64) -> Self {
        Draws { state: seed }
    }

    /// The next number: it is below `n`, or 0 if `n` is 0.
    pub fn below(&mut self, n: u32) -> u32
        ensures { result < max n 1 }
    {
        self.state = self.state.wrapping_mul(1_103_515_245).wrapping_add(12_345) % (1 << 31);
        if n == 0 {
            return 0;
        }
        ((self.state >> 16) % n as u64) as u32
    }
}
