//! The board of a register's caller.
ghost use Rattle.std.specs.Prelude.{◌≡◌, ◌≤◌, None, OnOk, []};
ghost use Rattle.std.specs.List.{All};
ghost use Rattle.std.specs.Option.{ForSome};
ghost use Rattle.vrp_model.specs.Cheapest.{cost_of};
ghost use Rattle.vrp_model.specs.Problem.{Problem};
ghost use Rattle.vrp_model.specs.Route.{IsPlanOf};
ghost use Rattle.vrp_sharing.specs.Caller.{IsCallerOf};
ghost use Rattle.vrp_solver.specs.SeatBoard.{IsLater, SeatBoardState, floor_of};

use std::alloc::Global;
use std::marker::Model;
use std::sync::Wait;
use std::sync::ledger::Ledger;
use vrp_answer::{Event, Gate};
use vrp_model::{NoMemory, Plan};
use vrp_search_tree::{Board, LOOKS_BEFORE_ASKING, Local};
use vrp_sharing::{Caller, Register};

/// A board that offers plans to a register, as one of its callers, and keeps the first of them, by cost and then by word. Its
/// floor is the least of the opening cost and the costs that the caller has seen. A gate hears of the plans and may stop
/// searches.
#[derive(Drop)]
pub struct SeatBoard<'a, R: Wait, L: Ledger, G: Gate> {
    rt: &'a R,
    register: &'a Register<L>,
    caller: Caller<L>,
    best: Local,
    gate: &'a G,
}

impl<'a, R: Wait, L: Ledger, G: Gate> Model for SeatBoard<'a, R, L, G> {
    ghost use Rattle.std.specs.Prelude.{◌≤◌};
    ghost use Rattle.std.specs.List.{All};
    ghost use Rattle.vrp_model.specs.Cheapest.{cost_of};
    ghost use Rattle.vrp_sharing.specs.Caller.{IsCallerOf};
    ghost use Rattle.vrp_solver.specs.SeatBoard.{SeatBoardState};

    ghost Value = { SeatBoardState };

    ghost view = { λ b. record { register = b.register.now; caller = b.caller; best = b.best; may_stop = G.may_stop b.gate.now } };

    ghost invariant = { λ b. IsCallerOf b.register.now b.caller × All (λ offer. cost_of b.best ≤ offer.cost) b.caller.known.mine };
}

impl<'a, R: Wait, L: Ledger, G: Gate> SeatBoard<'a, R, L, G> {
    /// The board of a caller that has made no offer yet.
    pub fn new(
        rt: &'a R,
        register: &'a Register<L>,
        caller: Caller<L>,
        gate: &'a G,
    ) -> SeatBoard<'a, R, L, G>
        requires caller { IsCallerOf register.now caller }
        requires new { caller.known.mine ≡ [] }
        ensures { result ≡ record { register = register.entry.now; caller = caller; best = None; may_stop = G.may_stop gate.entry.now } }
    {
        SeatBoard {
            rt,
            register,
            caller,
            best: Local::open(None),
            gate,
        }
    }

    /// The caller, and the first plan that was offered to the board. None of the caller's offers costs less.
    pub fn into_parts(self) -> (Caller<L>, Option<Plan>)
        ensures caller { result.0 ≡ self.entry.caller }
        ensures best { result.1 ≡ self.entry.best }
        ensures one_of { IsCallerOf self.entry.register result.0 }
        ensures no_less { All (λ offer. cost_of result.1 ≤ offer.cost) result.0.known.mine }
    {
        let SeatBoard { caller, best, .. } = self;
        (caller, best.into_plan())
    }

    /// Keeps a plan that was offered to another board, if it is before its own; offers it to nobody.
    pub fn keep(&mut self, alloc: Global, plan: &Plan) -> Result<(), NoMemory>
        requires { (p : Problem) × ForSome self.old.best (IsPlanOf p) × IsPlanOf p plan.now }
        ensures serves { (p : Problem) → ForSome self.old.best (IsPlanOf p) → IsPlanOf p plan.now → ForSome self.new.best (IsPlanOf p) }
        ensures later { IsLater self.old self.new }
        ensures caller { self.new.caller ≡ self.old.caller }
        ensures taken { OnOk result (cost_of self.new.best ≤ plan.now.cost) }
    {
        self.best.offer(alloc, plan)
    }

    // Offers the register a plan that costs at least as much as the board's own.
    fn tell(&mut self, alloc: Global, plan: &Plan) -> Result<(), NoMemory>
        requires { cost_of self.old.best ≤ plan.now.cost }
        ensures register { self.new.register ≡ self.old.register }
        ensures may_stop { self.new.may_stop ≡ self.old.may_stop }
        ensures best { self.new.best ≡ self.old.best }
        ensures falls { floor_of self.new ≤ floor_of self.old }
        ensures taken { OnOk result (floor_of self.new ≤ plan.now.cost) }
    {
        self.register.offer(self.rt, alloc, &mut self.caller, plan)?;
        self.gate.on_event(Event::Plan(plan.cost()));
        Ok(())
    }
}

impl<'a, R: Wait, L: Ledger, G: Gate> Board for SeatBoard<'a, R, L, G> {
    ghost serves = { λ b p. ForSome b.best (IsPlanOf p) };

    ghost floor = { λ b. floor_of b };

    ghost keeps = { IsLater };

    ghost may_stop = { λ b. b.may_stop };

    /// Asks the register each time; the contract would allow an older answer.
    fn least(&mut self) -> u64
        ensures serves { (p : Problem) → ForSome self.old.best (IsPlanOf p) → ForSome self.new.best (IsPlanOf p) }
        ensures keeps { (earlier : SeatBoardState) → IsLater earlier self.old → IsLater earlier self.new }
        ensures falls { floor_of self.new ≤ floor_of self.old }
        ensures answered { floor_of self.new ≤ result }
        ensures value { result ≡ floor_of self.new }
        ensures best { self.new.best ≡ self.old.best }
    {
        self.register.least(&mut self.caller)
    }

    fn offer(&mut self, alloc: Global, plan: &Plan) -> Result<(), NoMemory> {
        self.keep(alloc, plan)?;
        self.tell(alloc, plan)
    }

    fn should_continue(&self) -> bool {
        let should_continue = self.gate.should_continue();
        if should_continue {
            self.gate.on_event(Event::Looked(LOOKS_BEFORE_ASKING));
        }
        should_continue
    }
}
