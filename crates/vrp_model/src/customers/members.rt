//! The customers of a set, one by one.
ghost use Rattle.std.specs.Prelude.{◌≡◌, ◌-◌, IfNone, IfSome, bit_and};
ghost use Rattle.std.specs.Iterator.{at_most};
ghost use Rattle.vrp_model.specs.CustomerSet.{IsFirst};

use crate::customers::customer_set::CustomerSet;

/// The customers of a set that are left, by rising place.
#[derive(Debug, Drop)]
pub struct Members {
    left: CustomerSet,
}

impl CustomerSet {
    /// The customers, one by one, by rising place.
    #[inline(always)]
    pub fn iter(self) -> Members
        ensures { result.left ≡ self }
    {
        Members { left: self }
    }
}

impl Iterator for Members {
    type Item = u16;

    ghost next_gives = { λ s r t. IfNone r (s.left ≡ 0) × IfSome r (IsFirst s.left) × (t.left ≡ bit_and s.left (s.left - 1)) };

    ghost remaining = { λ s. at_most s.left };

    #[inline(always)]
    fn next(&mut self) -> Option<u16> {
        self.left.take_first()
    }
}
