//! Records which pieces are finished.
ghost use Rattle.std.specs.Prelude.{◌≡◌, IfOk, false, replicate};
ghost use Rattle.vrp_answer.specs.Gatherer.{IsFirstMissing, AnswersAdd};

use crate::outcome::Finished;
use std::alloc::Global;
use std::marker::Model;
use vrp_model::NoMemory;

/// Why a piece is not added.
#[derive(Clone, Copy, Debug, PartialEq, Eq, thiserror::Error)]
pub enum GatherError {
    /// It was added before.
    #[error("piece {0} is finished twice")]
    Double(u32),
    /// There is no piece of this number.
    #[error("there is no piece {0}")]
    Stranger(u32),
}

/// The numbers of the finished pieces, out of this many. Contracts see for each number whether it was added.
#[derive(Debug, Drop)]
pub struct Gatherer {
    added: Vec<bool>,
}

impl Model for Gatherer {
    ghost use Rattle.std.specs.Prelude.{List, Bool, ◌<◌, ◌^◌, length};

    ghost Value = { List Bool };

    ghost view = { λ g. g.added.items };

    ghost invariant = { λ g. length g.added.items < 2 ^ 32 };
}

impl Gatherer {
    /// A gatherer with nothing added.
    pub fn new(alloc: Global, pieces: u32) -> Result<Gatherer, NoMemory>
        ensures { IfOk result (λ gatherer. gatherer ≡ replicate pieces false) }
    {
        let added = Vec::from_elem(alloc, false, pieces as usize)?;
        Ok(Gatherer { added })
    }

    /// Adds a finished piece. A number that was added before, or that is not below the number of pieces, is refused, and
    /// nothing changes.
    pub fn add(&mut self, finished: Finished) -> Result<(), GatherError>
        ensures { AnswersAdd self.old finished.number result self.new }
    {
        let number = finished.number;
        let Some(added) = self.added.get_mut(number as usize) else {
            return Err(GatherError::Stranger(number));
        };
        if *added {
            return Err(GatherError::Double(number));
        }
        *added = true;
        Ok(())
    }

    /// The lowest number that was not added.
    pub fn missing(&self) -> Option<u32>
        ensures { IsFirstMissing self.now result }
    {
        for number in 0..self.added.len() {
            if !self.added[number] {
                return Some(number as u32);
            }
        }
        None
    }
}
