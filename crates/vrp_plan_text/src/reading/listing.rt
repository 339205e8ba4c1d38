//! The routes and the cost that a text states.
ghost use Rattle.std.specs.Prelude.{◌≡◌, ◌≢◌, ◌+◌, ◌<◌, ◌↔◌, ℕ, List, [], ◌∷◌, ◌++◌, IfErr, IfOk, IsTrue, OnOk, Ok, Some, length, map, pos};
ghost use Rattle.vrp_plan_text.specs.Line.{Line, line_of, lines_of};
ghost use Rattle.vrp_plan_text.specs.Solution.{AreCustomers, HaveFault, IsRefusedFor};
ghost use Rattle.vrp_plan_text.specs.Inner.Listing.{IsCostAdded, IsRouteAdded, IsStopFault, Keeps, fault_at, kept_cost};
ghost use Rattle.vrp_plan_text.specs.Inner.Read.{number_stated, stops_written};

use crate::reading::error::SolutionError;
use crate::reading::line::{LineError, MAX_NUMBER, Said, StatedCost, line_of, parted, whole};
use crate::reading::route::NonemptyRoute;
use std::alloc::Global;
use vrp_model::Instance;
use vrp_text::Tokens;

/// The routes that a text lists, not yet known to be a feasible plan, and the cost that it states.
#[derive(Drop)]
pub(crate) struct ListedPlan {
    /// In the order of the text; those without stops are left out.
    pub(crate) routes: Vec<NonemptyRoute>,
    pub(crate) cost: Option<StatedCost>,
}

impl ListedPlan {
    /// Reads all lines of a text.
    pub(crate) fn read(
        alloc: Global,
        text: &[u8],
        instance: &Instance,
    ) -> Result<ListedPlan, SolutionError>
        ensures listed { IfOk result (Keeps instance.now (lines_of text.now)) }
        ensures refused { IfErr result (λ error.
            error ≢ SolutionError.OutOfMemory → IsRefusedFor instance.now text.now error) }
    {
        let mut listing = ListedPlan {
            routes: Vec::new(alloc),
            cost: None,
        };
        let mut rest = text;
        let mut number = 1u64;
        while let Some((line, behind)) = parted(rest, b'\n') {
            listing.add_line(alloc, number, line, instance)?;
            number = number.saturating_add(1);
            rest = behind;
        }
        listing.add_line(alloc, number, rest, instance)?;
        Ok(listing)
    }

    // Adds the statement of the line with this number.
    fn add_line(
        &mut self,
        alloc: Global,
        number: u64,
        text: &[u8],
        instance: &Instance,
    ) -> Result<(), SolutionError>
        ensures added { OnOk result ((lines : List Line) → Keeps instance.now lines self.old
            → Keeps instance.now (lines ++ line_of text.now ∷ []) self.new) }
        ensures refused { IfErr result (λ error. error ≢ SolutionError.OutOfMemory
            → (lines more : List Line) → Keeps instance.now lines self.old
            → (0 < length text.now → number ≡ length lines + 1)
            → HaveFault instance.now (lines ++ line_of text.now ∷ more) error) }
    {
        match line_of(text) {
            Ok(Said::Nothing) => Ok(()),
            Ok(Said::Cost(cost)) => self.add_cost(number, cost),
            Ok(
                Said::Route {
                    number: route,
                    stops,
                },
            ) => {
                let stops = read_stops(alloc, number, route, stops, instance)?;
                self.add_route(route, stops)
            }
            Err(error) => Err(refused(number, error)),
        }
    }

    // The line of this number states the cost.
    fn add_cost(&mut self, number: u64, cost: StatedCost) -> Result<(), SolutionError>
        ensures added { OnOk result (IsCostAdded cost self.old self.new) }
        ensures refused { IfErr result (λ error. (error ≡ SolutionError.RepeatedCost number)
            × ((before : StatedCost) × (self.old.cost ≡ Some before))) }
    {
        if self.cost.is_some() {
            return Err(SolutionError::RepeatedCost(number));
        }
        self.cost = Some(cost);
        Ok(())
    }

    // A line lists a route with this number and these stops. A route without stops is ignored.
    fn add_route(&mut self, number: u64, stops: Vec<u16>) -> Result<(), SolutionError>
        ensures added { OnOk result (IsRouteAdded number stops.items self.old self.new) }
        ensures refused { IfErr result (λ error. error ≡ SolutionError.OutOfMemory) }
    {
        if !stops.is_empty() {
            self.routes.push(NonemptyRoute { number, stops })?;
        }
        Ok(())
    }

    /// Whether the text states a cost different from this one.
    pub(crate) fn states_other_cost(&self, cost: u64) -> bool
        ensures { IsTrue result ↔ ((stated : StatedCost) × (self.now.cost ≡ Some stated)
            × (number_stated stated ≢ Ok (pos cost))) }
    {
        match self.cost {
            Some(StatedCost::Whole(stated)) => stated != cost,
            Some(StatedCost::Fraction) => true,
            None => false,
        }
    }

    /// The cost that the text states, if there is one and it is whole.
    pub(crate) fn stated_cost(&self) -> Option<u64>
        ensures { result ≡ kept_cost self.now.cost }
    {
        match self.cost {
            Some(StatedCost::Whole(stated)) => Some(stated),
            _ => None,
        }
    }
}

// The stops of a route, from the line of this number.
fn read_stops(
    alloc: Global,
    line: u64,
    route: u64,
    mut tokens: Tokens<'_>,
    instance: &Instance,
) -> Result<Vec<u16>, SolutionError>
    ensures stops { IfOk result (λ stops.
        stops_written tokens.entry ≡ map (λ stop. Ok (pos stop)) stops.items) }
    ensures customers { IfOk result (λ stops. AreCustomers instance.now stops.items) }
    ensures refused { IfErr result (λ error. error ≢ SolutionError.OutOfMemory
        → IsStopFault instance.now line route (stops_written tokens.entry) error) }
{
    let mut stops = Vec::new(alloc);
    while let Some(token) = tokens.next() {
        let customer = match whole(token, -MAX_NUMBER) {
            Ok(customer) => customer,
            Err(error) => return Err(refused(line, error)),
        };
        if customer < 1 || i64::from(instance.customers()) < customer {
            return Err(SolutionError::NotACustomer { route, customer });
        }
        stops.push(customer as u16)?;
    }
    Ok(stops)
}

// The reason for refusing a solution with such a line.
fn refused(line: u64, error: LineError) -> SolutionError
    ensures { result ≡ fault_at line error }
{
    match error {
        LineError::Unknown => SolutionError::UnknownLine(line),
        LineError::BadNumber => SolutionError::BadNumber(line),
    }
}
