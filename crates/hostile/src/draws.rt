//! The random draws for a capture. The draws depend only on the seed and the capture's number.

ghost use Rattle.std.specs.Prelude.{◌<◌, max};

use rand_core::{Rng, SeedableRng};
use rand_xoshiro::Xoshiro256PlusPlus;

/// The draws for one capture.
#[derive(Drop)]
pub struct Draws {
    words: Xoshiro256PlusPlus,
}

impl Draws {
    /// The draws for the capture with this number.
    pub fn of(seed: u64, number: u64) -> Self {
        Draws {
            words: Xoshiro256PlusPlus::seed_from_u64(seed.rotate_left(32) ^ number),
        }
    }

    /// A number below `n`, or 0 if `n` is 0.
    pub fn below(&mut self, n: usize) -> usize
        ensures { result < max n 1 }
    {
        if n == 0 {
            return 0;
        }
        (self.words.next_u64() % n as u64) as usize
    }

    /// True in one of `n` draws, on average.
    pub fn one_in(&mut self, n: usize) -> bool {
        self.below(n) == 0
    }

    /// One of `numbers`, chosen by the next draw.
    pub fn pick(&mut self, numbers: &[u64]) -> u64 {
        let at = self.below(numbers.len());
        numbers.get(at).copied().unwrap_or(0)
    }

    /// One of these texts.
    pub fn pick_text<'t>(&mut self, texts: &[&'t str]) -> &'t str {
        let at = self.below(texts.len());
        texts.get(at).copied().unwrap_or("")
    }
}
