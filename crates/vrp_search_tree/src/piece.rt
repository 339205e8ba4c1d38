//! Pieces: the prefixes of a cutting, by number.
ghost use Rattle.std.specs.Prelude.{◌≡◌, IfOk};
ghost use Rattle.std.specs.Option.{ForSome};
ghost use Rattle.vrp_model.specs.Word.{IsPrefix, NoneCheaperUnder, unserved_in};
ghost use Rattle.vrp_search_tree.specs.Low.{AreCovered, IsLow};

use crate::partial::Partial;
use std::alloc::Global;
use std::marker::Model;
use vrp_bound::{Tables, bounds_hold};
use vrp_model::{Instance, NoMemory};

/// A piece of a cutting: a prefix of the instance's words, and its number in the cutting.
#[derive(Debug, Drop)]
pub struct Piece {
    number: u32,
    word: Vec<u16>,
}

impl Model for Piece {
    ghost use Rattle.vrp_search_tree.specs.Cutting.{NumberedWord};

    ghost Value = { NumberedWord };

    ghost view = { λ a. record { number = a.number; word = a.word.items } };
}

impl Piece {
    /// A piece of this number in its cutting, whose words begin with these symbols.
    pub fn new(number: u32, word: Vec<u16>) -> Piece
        ensures { result ≡ record { number = number; word = word.items } }
    {
        Piece { number, word }
    }

    /// Its number in its cutting.
    pub fn number(&self) -> u32
        ensures { result ≡ self.now.number }
    {
        self.number
    }

    /// The prefix of all words under it.
    pub fn word(&self) -> &[u16]
        ensures { result.now ≡ self.now.word }
    {
        self.word.as_slice()
    }

    /// The customers that the piece leaves unserved, by rising place.
    pub fn unserved(&self, alloc: Global, instance: &Instance) -> Result<Vec<u16>, NoMemory>
        requires { IsPrefix instance.now self.now.word }
        ensures { IfOk result (λ found. found.items ≡ unserved_in instance.now self.now.word) }
    {
        let partial = Partial::at_prefix(alloc, instance, self.word())?;
        let mut unserved = Vec::with_capacity(alloc, usize::from(instance.customers()))?;
        partial.list_unserved(&mut unserved);
        Ok(unserved)
    }

    /// The low of the piece, which no plan under it undercuts: the cost of its word plus the bound on what is still to pay. `None` if
    /// the bound says that there is no plan.
    pub fn low(
        &self,
        alloc: Global,
        instance: &Instance,
        tables: &Tables<'_>,
    ) -> Result<Option<u64>, NoMemory>
        requires prefix { IsPrefix instance.now self.now.word }
        requires tables { tables.now.problem ≡ instance.now }
        requires covered { AreCovered instance.now tables.now.among self.now.word }
        ensures low { IfOk result (IsLow instance.now tables.now.among self.now.word) }
        ensures none_cheaper { IfOk result (λ low.
            ForSome low (NoneCheaperUnder instance.now self.now.word)) }
    {
        bounds_hold();
        let partial = Partial::at_prefix(alloc, instance, self.word())?;
        Ok(partial.low(tables))
    }
}
