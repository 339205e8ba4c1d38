//! Pseudo-random numbers, the same on each run.
ghost use Rattle.std.specs.Prelude.{◌<◌};

use rand_core::Rng;
use rand_pcg::Pcg32;

/// At most this many positions are looked at before one is skipped, and half as many on average.
const MOST_BEFORE_BLINK: u16 = 199;

/// A generator, and the number of positions until the next one is skipped. Public for tests alone.
#[derive(Drop)]
pub struct Random {
    words: Pcg32,
    before_blink: u16,
}

impl Random {
    /// The generator seeded by a number. No clause pins the numbers that it draws.
    pub fn new(number: u64) -> Random {
        Random {
            words: Pcg32::new(number, 1),
            before_blink: 0,
        }
    }

    /// Any number.
    pub(crate) fn any(&mut self) -> u32 {
        self.words.next_u32()
    }

    /// A number below a bound.
    pub(crate) fn below(&mut self, bound: u16) -> u16
        requires { 0 < bound }
        ensures { result < bound }
    {
        (self.any() % u32::from(bound)) as u16
    }

    /// Whether the next position is skipped (a blink), as one in a hundred is.
    #[inline(always)]
    pub(crate) fn blinks(&mut self) -> bool {
        if self.before_blink > 0 {
            self.before_blink -= 1;
            return false;
        }
        self.before_blink = self.below(MOST_BEFORE_BLINK);
        true
    }
}
