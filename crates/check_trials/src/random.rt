//! Random numbers from a seed.

ghost use Rattle.std.specs.Prelude.{◌≡◌, ◌<◌};

use rand_core::utils::NextWord;
use rand_pcg::Pcg64;

/// Generates random numbers, the same for the same seed.
#[derive(Drop)]
pub(crate) struct Random {
    rng: Pcg64,
}

impl Random {
    /// Makes a generator from a seed.
    pub(crate) fn new(seed: u64) -> Random {
        Random {
            rng: Pcg64::new(u128::from(seed), 1),
        }
    }

    /// Returns a random number.
    pub(crate) fn number(&mut self) -> u64 {
        self.rng.next_word()
    }

    /// Returns a random number below `end`, or 0 if `end` is 0.
    pub(crate) fn below(&mut self, end: usize) -> usize
        ensures below { 0 < end → result < end }
        ensures none { end ≡ 0 → result ≡ 0 }
    {
        if end == 0 {
            return 0;
        }
        self.number() as usize % end
    }

    /// Returns a random byte.
    pub(crate) fn byte(&mut self) -> u8 {
        (self.number() % 256) as u8
    }

    /// Returns a random number with a random number of bits, at most 32.
    pub(crate) fn short(&mut self) -> u32 {
        let bits = self.number() % 32;
        ((self.number() % 4_294_967_296) as u32) >> bits
    }

    /// Returns one of these values at random, or `other` if there are none.
    pub(crate) fn one_of<T: Copy>(&mut self, all: &[T], other: T) -> T {
        let at = self.below(all.len());
        all.get(at).copied().unwrap_or(other)
    }
}
