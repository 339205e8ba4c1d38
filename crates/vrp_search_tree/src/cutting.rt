//! Cuttings: they divide the feasible words of an instance into pieces, which are searched one by one.
ghost use Rattle.std.specs.Prelude.{◌≡◌, ◌+◌, ◌-◌, ◌*◌, ◌^◌, ◌≤◌, ◌<◌, IfOk, OnOk, OnErr, [], ◌∷◌, ◌++◌, length, map, max, IsTrue, ◌↔◌};
ghost use Rattle.std.specs.List.{All};
ghost use Rattle.vrp_model.specs.Word.{IsPrefix};
ghost use Rattle.vrp_model.specs.declared.limits.TheConstants.{MAX_NODES};
ghost use Rattle.vrp_search_tree.specs.declared.cutting.TheConstants.{MAX_PIECES, MAX_REFINED};
ghost use Rattle.vrp_search_tree.specs.Cutting.{AreEnough, AreNumbered, BeginsAmong, IsCutting, IsRefined};
ghost use Rattle.vrp_search_tree.specs.Inner.Pass.{AreAdded, IsPass, IsStep};

use crate::partial::Partial;
use crate::piece::Piece;
use std::alloc::Global;
use std::marker::Model;
use vrp_model::{Instance, NoMemory};

/// The most pieces that may be requested.
pub const MAX_PIECES: u32 = 65_536;

/// The most pieces of a cutting that may still be refined; so their numbers fit a `u32`.
pub const MAX_REFINED: usize = 1_000_000;

/// A cutting of an instance's words: prefixes such that each feasible word begins with exactly one of them. It starts as the
/// empty word alone, and grows as partial plans are replaced by their children.
#[derive(Debug, Drop)]
pub struct Cutting {
    // By rising number, from 0 on.
    pieces: Vec<Piece>,
}

impl Model for Cutting {
    ghost use Rattle.std.specs.Prelude.{◌<◌, ◌^◌, List, ℕ, length, map};
    ghost use Rattle.vrp_model.specs.declared.limits.TheConstants.{MAX_NODES};
    ghost use Rattle.vrp_search_tree.specs.declared.cutting.TheConstants.{MAX_PIECES, MAX_REFINED};
    ghost use Rattle.vrp_search_tree.specs.Cutting.{AreNumbered};

    ghost Value = { List (List ℕ) };

    ghost view = { λ a. map (λ piece. piece.word) a.pieces.items };

    ghost invariant = { λ a. AreNumbered a.pieces.items × (length a.pieces.items < 2 ^ 32) };
}

impl Cutting {
    /// The empty word alone.
    pub fn whole(alloc: Global, instance: &Instance) -> Result<Cutting, NoMemory>
        ensures words { IfOk result (λ cutting. cutting ≡ [] ∷ []) }
        ensures cutting { IfOk result (IsCutting instance.now) }
    {
        let mut cutting = Cutting::none(alloc);
        cutting.push(Vec::new(alloc))?;
        Ok(cutting)
    }

    /// The pieces, by rising number.
    pub fn pieces(&self) -> &[Piece]
        ensures words { map (λ piece. piece.word) result.now ≡ self.now }
        ensures numbers { AreNumbered result.now }
    {
        self.pieces.as_slice()
    }

    /// The pieces themselves, by rising number.
    pub fn into_pieces(self) -> Vec<Piece>
        ensures words { map (λ piece. piece.word) result.items ≡ self }
        ensures numbers { AreNumbered result.items }
        ensures few { length result.items < 2 ^ 32 }
    {
        let Cutting { pieces } = self;
        pieces
    }

    /// Replaces a piece by its children, by rising symbol, and answers whether it has any. There are at most 1,200, one for each
    /// node. A refused call changes nothing.
    pub fn refine(
        &mut self,
        alloc: Global,
        instance: &Instance,
        piece: u32,
    ) -> Result<bool, NoMemory>
        requires cutting { IsCutting instance.now self.old }
        requires piece { piece < length self.old }
        requires few { length self.old ≤ MAX_REFINED }
        ensures refined { IfOk result (λ refined.
            IsRefined instance.now piece self.old refined self.new) }
        ensures cutting { IsCutting instance.now self.new }
        ensures few { length self.new ≤ length self.old + (MAX_NODES - 1) }
        ensures err { OnErr result (self.new ≡ self.old) }
    {
        let at = piece as usize;
        let pieces = self.pieces();
        let mut next = Cutting::none(alloc);
        next.push_copies(alloc, &pieces[..at])?;
        if !next.push_children(alloc, instance, pieces[at].word())? {
            return Ok(false);
        }
        next.push_copies(alloc, &pieces[at + 1..])?;
        *self = next;
        Ok(true)
    }

    /// Refines until there are this many pieces, or none has a child. Each piece lies under an earlier one. A refused call leaves a
    /// cutting.
    pub fn at_least(
        &mut self,
        alloc: Global,
        instance: &Instance,
        pieces: u32,
    ) -> Result<(), NoMemory>
        requires cutting { IsCutting instance.now self.old }
        requires pieces { pieces ≤ MAX_PIECES }
        ensures cutting { IsCutting instance.now self.new }
        ensures enough { OnOk result (AreEnough instance.now pieces self.new) }
        ensures few { length self.new ≤ max (pieces + (MAX_NODES - 1)) (length self.old) }
        ensures begins { All (BeginsAmong self.old) self.new }
    {
        let wanted = pieces as usize;
        // A partial plan has at most two symbols for each customer, and a pass adds one to each that has a child.
        for _depth in 0..2 * instance.customers() + 1 {
            if wanted <= self.len() {
                return Ok(());
            }
            let (next, refined) = self.pass(alloc, instance, wanted)?;
            *self = next;
            if !refined {
                return Ok(());
            }
        }
        Ok(())
    }

    // Replaces pieces by their children, from the first piece on, until there are enough. Answers whether any piece had children.
    fn pass(
        &self,
        alloc: Global,
        instance: &Instance,
        wanted: usize,
    ) -> Result<(Cutting, bool), NoMemory>
        requires cutting { IsCutting instance.now self.now }
        requires fewer { length self.now < wanted }
        requires wanted { wanted ≤ MAX_PIECES }
        ensures { IfOk result (λ next. IsPass instance.now wanted self.now next.0 [] next.1) }
    {
        let pieces = self.pieces();
        let mut next = Cutting::none(alloc);
        let mut refined = false;
        for (index, piece) in pieces.iter().enumerate() {
            let too_few = next.len() + (pieces.len() - index) < wanted;
            refined |= next.push_step(alloc, instance, piece.word(), too_few)?;
        }
        Ok((next, refined))
    }

    // No piece at all.
    fn none(alloc: Global) -> Cutting
        ensures { result ≡ [] }
    {
        Cutting {
            pieces: Vec::new(alloc),
        }
    }

    fn len(&self) -> usize
        ensures { result ≡ length self.now }
    {
        self.pieces.len()
    }

    // Adds a piece with the next number.
    fn push(&mut self, word: Vec<u16>) -> Result<(), NoMemory>
        requires { length self.old ≤ 2 * MAX_REFINED }
        ensures { OnOk result (self.new ≡ self.old ++ word.items ∷ []) }
    {
        let number = self.pieces.len() as u32;
        self.pieces.push(Piece::new(number, word))?;
        Ok(())
    }

    // Adds pieces of the same words.
    fn push_copies(&mut self, alloc: Global, pieces: &[Piece]) -> Result<(), NoMemory>
        requires { length self.old + length pieces.now ≤ 2 * MAX_REFINED }
        ensures { OnOk result (self.new ≡ self.old ++ map (λ piece. piece.word) pieces.now) }
    {
        for piece in pieces {
            self.push(Vec::from_slice(alloc, piece.word())?)?;
        }
        Ok(())
    }

    // Adds a partial plan's children, by rising symbol, and answers whether there are any.
    fn push_children(
        &mut self,
        alloc: Global,
        instance: &Instance,
        prefix: &[u16],
    ) -> Result<bool, NoMemory>
        requires prefix { IsPrefix instance.now prefix.now }
        requires room { length self.old ≤ MAX_REFINED }
        ensures children { OnOk result (AreAdded instance.now prefix.now self.old self.new) }
        ensures some { IfOk result (λ some. IsTrue some ↔ length self.old < length self.new) }
    {
        let before = self.len();
        let partial = Partial::at_prefix(alloc, instance, prefix)?;
        for symbol in 0..instance.customers() + 1 {
            if partial.child(symbol) {
                self.push_child(alloc, prefix, symbol)?;
            }
        }
        Ok(before < self.len())
    }

    // Adds a partial plan with one more symbol.
    fn push_child(&mut self, alloc: Global, prefix: &[u16], symbol: u16) -> Result<(), NoMemory>
        requires { length self.old ≤ 2 * MAX_REFINED }
        ensures { OnOk result (self.new ≡ self.old ++ (prefix.now ++ symbol ∷ []) ∷ []) }
    {
        let mut word = Vec::from_slice(alloc, prefix)?;
        word.push(symbol)?;
        self.push(word)
    }

    // Adds the children of a partial plan if it is to be refined and has any, and otherwise the plan itself. Answers which.
    fn push_step(
        &mut self,
        alloc: Global,
        instance: &Instance,
        prefix: &[u16],
        refine: bool,
    ) -> Result<bool, NoMemory>
        requires prefix { IsPrefix instance.now prefix.now }
        requires room { length self.old ≤ MAX_REFINED }
        ensures { IfOk result (λ refined.
            IsStep instance.now prefix.now refine self.old refined self.new) }
    {
        if refine && self.push_children(alloc, instance, prefix)? {
            return Ok(true);
        }
        self.push(Vec::from_slice(alloc, prefix)?)?;
        Ok(false)
    }
}
