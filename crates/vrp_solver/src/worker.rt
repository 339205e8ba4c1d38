//! A worker: it draws pieces, searches them one by one, and keeps the outcome of each.
ghost use Rattle.std.specs.Prelude.{◌≡◌, ◌≤◌, IfOk, OnOk};
ghost use Rattle.std.specs.Option.{ForSome, option_map};
ghost use Rattle.vrp_model.specs.Cheapest.{cost_of};
ghost use Rattle.vrp_model.specs.Route.{IsPlanOf};
ghost use Rattle.vrp_model.specs.Word.{IsPrefix};
ghost use Rattle.vrp_sharing.specs.Caller.{IsCallerOf};
ghost use Rattle.vrp_solver.specs.SeatBoard.{IsLater, floor_of};
ghost use Rattle.vrp_answer.specs.Outcomes.{EndsPiece, IsOutcome};
ghost use Rattle.vrp_solver.specs.Inner.Workers.{CanWork, CostsNoLess, HasHelped, HasSearched, IsNewCaller, IsTakenOver, IsWorked, IsWorker, new_worker};

use crate::draws::Drawer;
use crate::seat_board::SeatBoard;
use std::marker::Model;
use std::sync::Wait;
use std::sync::ledger::Ledger;
use vrp_answer::{Event, Finished, Gate, OpenPiece, PieceOutcome, Searched, Shared};
use vrp_model::{NoMemory, Plan, plans_cost_less};
use vrp_search_tree::{Board, Ended, LOOKS_BEFORE_ASKING, Piece, search};
use vrp_sharing::{Caller, Drawn, Owner, Register, Thief};

// How many times in a row a worker may find that others were drawing, before it stops drawing.
const MAX_BUSY: u32 = 1_000;

/// Draws from a pile, offers plans to its board, and has an outcome for each piece that it drew.
#[derive(Drop)]
pub(crate) struct Worker<'a, D: Drawer, R: Wait, L: Ledger, G: Gate> {
    number: u32,
    pub(crate) drawer: D,
    pub(crate) board: SeatBoard<'a, R, L, G>,
    pub(crate) outcomes: Vec<PieceOutcome>,
    // The refusal of memory that the worker met as a helper, if any.
    refused: Option<NoMemory>,
}

impl<'a, D: Drawer, R: Wait, L: Ledger, G: Gate> Model for Worker<'a, D, R, L, G> {
    ghost use Rattle.std.specs.Prelude.{is_some};
    ghost use Rattle.vrp_solver.specs.Inner.Workers.{WorkerState};

    ghost Value = { WorkerState };

    ghost view = { λ w. record { drawer = D.drawer w.drawer; board = w.board; outcomes = w.outcomes.items; refused = is_some w.refused } };
}

impl<'a, D: Drawer, R: Wait, L: Ledger, G: Gate> Worker<'a, D, R, L, G> {
    /// The worker of this caller, before it has done anything.
    pub(crate) fn new(
        shared: &Shared<'a, R, G>,
        register: &'a Register<L>,
        caller: Caller<L>,
        drawer: D,
    ) -> Worker<'a, D, R, L, G>
        requires { IsNewCaller register.now caller }
        ensures { result ≡ new_worker shared.entry.now register.entry.now caller (D.drawer drawer) }
    {
        Worker {
            number: caller.number(),
            drawer,
            board: SeatBoard::new(shared.rt, register, caller, shared.gate),
            outcomes: Vec::new(shared.alloc),
            refused: None,
        }
    }

    /// Offers a feasible plan, if there is one, to its board.
    pub(crate) fn offer(
        &mut self,
        shared: &Shared<'_, R, G>,
        plan: Option<&Plan>,
    ) -> Result<(), NoMemory>
        requires can { CanWork shared.now self.old }
        requires plan { ForSome (option_map (λ plan. plan.now) plan) (IsPlanOf shared.now.problem) }
        ensures worked { IsWorked shared.now self.old self.new }
        ensures searched { HasSearched shared.now self.old self.new }
    {
        match plan {
            Some(plan) => self.board.offer(shared.alloc, plan),
            None => Ok(()),
        }
    }

    /// The worker, after its work as the lead.
    pub(crate) fn led(
        mut self,
        shared: &Shared<'_, R, G>,
    ) -> Result<Worker<'a, D, R, L, G>, NoMemory>
        requires { CanWork shared.now self }
        ensures worked { IfOk result (IsWorked shared.now self.entry) }
        ensures searched { IfOk result (HasSearched shared.now self.entry) }
    {
        self.work(shared)?;
        Ok(self)
    }

    /// Works as a helper, and records a refusal of memory in a search. If there is no room for the outcomes of all pieces, it
    /// draws none: the others continue without it.
    pub(crate) fn help(&mut self, shared: &Shared<'_, R, G>)
        requires { CanWork shared.now self.old }
        ensures { HasHelped shared.now self.old self.new }
    {
        if !self.makes_room(shared) {
            return;
        }
        self.refused = self.draw_all(shared).err();
    }

    // Makes room for the outcomes of all pieces, and answers whether that succeeded.
    fn makes_room(&mut self, shared: &Shared<'_, R, G>) -> bool
        ensures { self.new ≡ self.old }
    {
        self.outcomes.reserve(shared.pieces as usize).is_ok()
    }

    /// Makes room for the outcomes of all pieces, and draws.
    pub(crate) fn work(&mut self, shared: &Shared<'_, R, G>) -> Result<(), NoMemory>
        requires { CanWork shared.now self.old }
        ensures worked { IsWorked shared.now self.old self.new }
        ensures searched { OnOk result (HasSearched shared.now self.old self.new) }
    {
        self.outcomes.reserve(shared.pieces as usize)?;
        self.draw_all(shared)
    }

    /// Draws pieces and searches them until none is left, or until it found too often that others were drawing.
    pub(crate) fn draw_all(&mut self, shared: &Shared<'_, R, G>) -> Result<(), NoMemory>
        requires { CanWork shared.now self.old }
        ensures worked { IsWorked shared.now self.old self.new }
        ensures searched { OnOk result (HasSearched shared.now self.old self.new) }
        ensures at_end { OnOk result (D.at_end self.new.drawer) }
    {
        let mut busy = 0;
        for _ in shared.rt.forever() {
            match self.drawer.draw() {
                Drawn::Piece(piece) => {
                    shared.gate.begins(self.number, piece.number());
                    let outcome = search_piece(shared, piece, &mut self.board)?;
                    self.outcomes.push(outcome)?;
                    busy = 0;
                }
                Drawn::Busy if busy < MAX_BUSY - 1 => busy += 1,
                Drawn::Busy | Drawn::Empty => return Ok(()),
            }
        }
        unreachable!()
    }
}

impl<'a, R: Wait, L: Ledger, G: Gate> Worker<'a, Owner, R, L, G> {
    /// Takes in a helper's pieces, outcomes and plan, and answers its caller. If memory is or was refused, only part of that
    /// is taken in.
    pub(crate) fn take_over(
        &mut self,
        shared: &Shared<'_, R, G>,
        helper: Worker<'_, Thief, R, L, G>,
    ) -> Result<Caller<L>, NoMemory>
        requires lead { IsWorker shared.now self.old.board.register self.old.drawer.pile self.old }
        requires helper { IsWorker shared.now self.old.board.register self.old.drawer.pile helper }
        ensures { IfOk result (λ caller. IsTakenOver shared.now self.old helper.entry caller self.new) }
    {
        let Worker {
            drawer,
            board,
            mut outcomes,
            refused,
            ..
        } = helper;
        self.drawer.take_in(drawer);
        let (caller, best) = board.into_parts();
        if let Some(refusal) = refused {
            return Err(refusal);
        }
        self.outcomes.append(&mut outcomes)?;
        // All plans cost less than `NO_COST`.
        let _customers = shared.instance.customers();
        plans_cost_less();
        if let Some(best) = &best {
            self.board.keep(shared.alloc, best)?;
        }
        Ok(caller)
    }

    /// The lead's caller and all workers' results, once the lead has taken in the helpers.
    pub(crate) fn into_searched(self) -> (Caller<L>, Searched)
        ensures caller { result.0 ≡ self.entry.board.caller }
        ensures one_of { IsCallerOf self.entry.board.register result.0 }
        ensures no_less { CostsNoLess (cost_of result.1.best) result.0 }
        ensures pile { result.1.pile ≡ self.entry.drawer }
        ensures outcomes { result.1.outcomes.items ≡ self.entry.outcomes }
        ensures best { result.1.best ≡ self.entry.board.best }
    {
        let Worker {
            drawer: pile,
            board,
            outcomes,
            ..
        } = self;
        let (caller, best) = board.into_parts();
        let searched = Searched {
            pile,
            outcomes,
            best,
        };
        (caller, searched)
    }
}

// How the search of a piece ends.
fn search_piece<R: Wait, L: Ledger, G: Gate>(
    shared: &Shared<'_, R, G>,
    piece: Piece,
    board: &mut SeatBoard<'_, R, L, G>,
) -> Result<PieceOutcome, NoMemory>
    requires prefix { IsPrefix shared.now.problem piece.word }
    requires serves { ForSome board.old.best (IsPlanOf shared.now.problem) }
    requires gate { board.old.may_stop ≡ shared.now.may_stop }
    ensures serves { ForSome board.new.best (IsPlanOf shared.now.problem) }
    ensures falls { floor_of board.new ≤ floor_of board.old }
    ensures later { IsLater board.old board.new }
    ensures kept { IfOk result (IsOutcome shared.now (floor_of board.new) piece) }
{
    let ended = end_of_search(shared, &piece, board)?;
    tell_ended(shared.gate, &ended);
    match ended {
        Ended::Finished { first, .. } => Ok(PieceOutcome::Finished(Finished {
            number: piece.number(),
            floor: board.least(),
            last_offer: first,
        })),
        Ended::Unfinished { low, .. } => Ok(PieceOutcome::Unfinished(OpenPiece { piece, low })),
    }
}

// The search of a piece: by prices, where there are any.
fn end_of_search<R: Wait, L: Ledger, G: Gate>(
    shared: &Shared<'_, R, G>,
    piece: &Piece,
    board: &mut SeatBoard<'_, R, L, G>,
) -> Result<Ended, NoMemory>
    requires prefix { IsPrefix shared.now.problem piece.now.word }
    requires serves { ForSome board.old.best (IsPlanOf shared.now.problem) }
    requires gate { board.old.may_stop ≡ shared.now.may_stop }
    ensures serves { ForSome board.new.best (IsPlanOf shared.now.problem) }
    ensures falls { floor_of board.new ≤ floor_of board.old }
    ensures later { IsLater board.old board.new }
    ensures ended { IfOk result (EndsPiece shared.now piece.now.word (floor_of board.new)) }
{
    search(
        shared.alloc,
        shared.instance,
        shared.tables,
        piece,
        shared.piece_budget(),
        board,
    )
}

// Reports to the gate how the search of a piece ended, and the partial plans that the board has not reported.
fn tell_ended<G: Gate>(gate: &G, ended: &Ended) {
    let (spent, news) = match ended {
        Ended::Finished { spent, .. } => (*spent, Event::Done),
        Ended::Unfinished { spent, .. } => (*spent, Event::LeftOpen),
    };
    let untold = match spent % LOOKS_BEFORE_ASKING {
        0 => spent.min(LOOKS_BEFORE_ASKING),
        rest => rest,
    };
    gate.on_event(Event::Looked(untold));
    gate.on_event(news);
}
