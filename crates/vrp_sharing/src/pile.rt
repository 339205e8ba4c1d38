//! A pile from its beginning to its end.
ghost use Rattle.std.specs.Prelude.{◌≡◌, ◌+◌, ◌≤◌, ◌++◌, IfOk, length};
ghost use Rattle.std.specs.List.{All};
ghost use Rattle.vrp_sharing.specs.declared.limits.TheConstants.{MAX_DRAWERS, MAX_THIEVES};
ghost use Rattle.vrp_sharing.specs.Pile.{IsNewPile, LeavesSoMany, drawn_by};

use crate::owner::Owner;
use crate::thief::Thief;
use std::alloc::Global;
use vrp_model::NoMemory;
use vrp_search_tree::Cutting;

/// A pile of the pieces of a cutting, from which its owner and its thieves draw.
pub struct Pile;

impl Pile {
    /// All pieces of a cutting on one pile, in order: its owner, and this many thieves. If memory is refused, the cutting is
    /// dropped.
    pub fn new(
        alloc: Global,
        cutting: Cutting,
        thieves: u32,
    ) -> Result<(Owner, Vec<Thief>), NoMemory>
        requires few { thieves ≤ MAX_THIEVES }
        ensures { IfOk result (λ pile. IsNewPile cutting thieves pile.0 pile.1.items) }
    {
        let mut made = Vec::with_capacity(alloc, thieves as usize)?;
        let mut owner = Owner::of_pieces(alloc, cutting.into_pieces())?;
        for _ in 0..thieves {
            made.push(owner.make_thief()?)?;
        }
        Ok((owner, made))
    }
}

/// The number of pieces that nobody drew, when all drawers of the pile are handed in. The drawn and the remaining pieces are
/// all those put on the pile, each once.
pub fn settle(mut owner: Owner, thieves: Vec<Thief>) -> u32
    requires pile { All (λ thief. thief.pile ≡ owner.pile) thieves.items }
    requires all { owner.parts + length thieves.items ≡ MAX_DRAWERS }
    ensures { LeavesSoMany (owner.drawn ++ drawn_by thieves.items) owner.put result }
{
    for thief in thieves {
        owner.take_in(thief);
    }
    owner.count_left()
}
