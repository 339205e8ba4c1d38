//! Small random numbers that break ties of values.

/// A generator of such numbers.
#[derive(Clone, Copy, Debug)]
pub(crate) struct Random {
    state: u64,
    // The numbers are below so many millionths.
    millionths: u32,
}

impl Random {
    /// A generator of numbers below so many millionths of one.
    pub(crate) fn new(millionths: u32) -> Random {
        Random {
            state: 12_345,
            millionths,
        }
    }

    /// The next number, as a value that is not negative.
    pub(crate) fn next(&mut self) -> i64 {
        self.state = self
            .state
            .wrapping_mul(6_364_136_223_846_793_005)
            .wrapping_add(1_442_695_040_888_963_407);
        let part = (self.state >> 40).wrapping_mul(u64::from(self.millionths)) / 1_000_000;
        (part & 0xffff_ffff).wrapping_mul(1 << 12).cast_signed()
    }
}
