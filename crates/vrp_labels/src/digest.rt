//! Digests of labels: what the test of dominance looks at before it reads a label.
ghost use Rattle.std.specs.Prelude.{◌%◌, ◌<◌};

use crate::label::Label;

/// A fifth of a label: its cost, and a bit for each customer that it remembers, by the customer's number modulo 64. Nothing rests on it: no
/// clause says what it is.
#[derive(Clone, Copy, Debug)]
pub struct Digest {
    pub cost: i64,
    visited: u64,
}

impl Digest {
    /// The digest of a label.
    #[inline(always)]
    pub fn of(label: &Label) -> Digest {
        let mut visited = 0;
        for customer in label.visited.iter() {
            visited |= 1 << (customer % 64);
        }
        Digest {
            cost: label.cost,
            visited,
        }
    }

    /// Whether a label with this digest may remember nothing but what one with the other remembers.
    #[inline(always)]
    pub fn is_within(self, other: Digest) -> bool {
        self.visited & !other.visited == 0
    }
}
