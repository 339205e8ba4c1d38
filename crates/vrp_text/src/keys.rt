//! The keys of a file's lines.
ghost use Rattle.std.specs.Prelude.{◌≡◌, ◌<◌};
ghost use Rattle.vrp_text.specs.Keyword.{rank};

use crate::lexer::Key;
use std::marker::Model;

// The number of keys.
const KEYS: usize = 9;

/// A set of keys.
#[derive(Drop)]
pub(crate) struct Keys {
    // A mark for each key, by its rank.
    marks: [bool; KEYS],
}

impl Model for Keys {
    ghost use Rattle.std.specs.Prelude.{List, Bool};

    ghost Value = { List Bool };

    ghost view = { λ keys. keys.marks };
}

impl Keys {
    ghost use Rattle.std.specs.Prelude.{◌≡◌, false, not};
    ghost use Rattle.vrp_text.specs.Keyword.{rank};
    ghost use Rattle.vrp_text.specs.Inner.MarkedKeys.{AddsKey, is_marked};
    ghost use Rattle.vrp_text.specs.declared.lexer.key.Key.{Key};

    /// The empty set.
    pub(crate) fn new() -> Self
        ensures { (key : Key) → is_marked result key ≡ false }
    {
        Keys {
            marks: [false; KEYS],
        }
    }

    /// Inserts a key, and answers whether it is new.
    pub(crate) fn insert(&mut self, key: Key) -> bool
        ensures fresh { result ≡ not (is_marked self.old key) }
        ensures marked { AddsKey self.old key self.new }
    {
        let place = rank(key);
        let was_in = self.marks[place];
        self.marks[place] = true;
        !was_in
    }
}

// The position of a key among all keys.
fn rank(key: Key) -> usize
    ensures value { result ≡ rank key }
    ensures within { result < 9 }
{
    match key {
        Key::Problem => 0,
        Key::Dimension => 1,
        Key::Capacity => 2,
        Key::WeightKind => 3,
        Key::WeightFormat => 4,
        Key::NodeCoord => 5,
        Key::EdgeWeight => 6,
        Key::Demand => 7,
        Key::Depot => 8,
    }
}
