//! What guides the passes: rounds of pricing and of separation, to dual prices that are worth a pass. Nothing rests on it.
ghost use Rattle.std.specs.Prelude.{◌≡◌, ◌≤◌, IfOk, IfSome, length};
ghost use Rattle.vrp_model.specs.declared.customers.customer_set.TheConstants.{PLACES};
ghost use Rattle.vrp_duals.specs.Duals.{AreDualsOf};
ghost use Rattle.vrp_model.specs.Problem.{place_count};

use crate::master::Master;
use crate::pace::{Decision, Pace};
use crate::program_rows::ProgramRow;
use crate::progress::PassLimits;
use std::alloc::Global;
use std::thread::Threads;
use vrp_columns_and_cuts::{
    CutSearch, Effort, ONE, Priced, PricedRoutes, RoutePricer, RowSearch, violated_entries,
    violated_rows,
};
use vrp_duals::{Duals, EntryRow};
use vrp_model::{Crew, CustomerSet, Fleet, Instance, NoMemory, Watch, all_customers};
use vrp_priced_routes::unit_demands;

/// What may be spent on dual prices, and on the list of routes.
#[derive(Clone, Copy, Debug)]
pub struct Settings {
    /// The most passes and rounds of subset rows before there is a branch or an end.
    pub most_rounds: u32,
    /// The most labels of a pricing, and of a pass.
    pub most_labels: usize,
    /// The most labels of all pricings together, about.
    pub most_priced: u64,
    /// The most labels of a list for a lower limit.
    pub most_listed: u32,
    /// The most labels of a list for the limit that prices are found for.
    pub enough_listed: u32,
    /// The most subset rows; with many customers those without a price don't count.
    pub most_rows: usize,
    /// Where the number of routes in a solution isn't whole, two leaves are worth it if the gap is so many thousandths of the limit.
    pub worth_leaves: u16,
}

/// Dual prices, and how far below 0 a route may cost by them.
#[derive(Drop)]
pub(crate) struct Prices {
    pub(crate) duals: Duals,
    // In price units: what pricing said, and the tolerance at least.
    pub(crate) depth: u64,
    // Whether neither a route nor a capacity cut would change them.
    pub(crate) are_final: bool,
}

// Rounds of pricing, and steps of the simplex methods, after which it is taken as it is.
const MOST_ROUNDS: u32 = 2_000;

const STEPS_DOWN: u64 = 5_000;

const STEPS_UP: u64 = 4_000;

// The most rounds of capacity cuts for one pass, and how many of them price by few labels alone.
const MOST_CUT_ROUNDS: u32 = 250;

const MOST_QUICK_ROUNDS: u32 = 60;

// After so many quick rounds of cuts, and twice as many, and so on, prices are worth a pass: it leaves fewer arcs, and a bound.
const FIRST_INTERIM: u32 = 8;

// The most columns of the program, and how many stay when it has more.
const MOST_COLUMNS: usize = 5_000;

const COLUMNS_LEFT: usize = 2_500;

// Capacity cuts of a round, and subset rows of a round and with one customer.
const CUTS_AT_ONCE: usize = 30;

const ROWS_AT_ONCE: usize = 40;

const ROWS_WITH_A_CUSTOMER: u8 = 6;

// How many customers are moved in or out of a set where routes are short.
const CUT_MOVES: u32 = 20;

// From this many customers on only the subset rows with a price count: with fewer, more rows take longer than they gain.
const MANY_CUSTOMERS: u16 = 126;

// Routes with at most so many customers on average are short.
const SHORT_ROUTE: u64 = 14;

/// The program, and what finds its columns and rows.
#[derive(Drop)]
pub(crate) struct Guide {
    alloc: Global,
    customers: CustomerSet,
    fleet: Fleet,
    master: Master,
    pricer: RoutePricer,
    settings: Settings,
    // What a plan costs at most.
    limit: u64,
    // The labels of all pricings so far.
    priced: u64,
    // The rounds of capacity cuts since the last final prices, and after how many of them prices are worth a pass.
    cut_rounds: u32,
    next_interim: u32,
    // In price units: a reduced cost above its negative counts as none.
    tolerance: i64,
    has_short_routes: bool,
}

// How many routes a pricing is to find.
fn wanted(effort: Effort) -> usize {
    match effort {
        Effort::OneLabel => 60,
        Effort::FewLabels => 80,
        Effort::AllLabels => 150,
    }
}

// The pricer of an instance, with ng-sets by place. None if it can't use the demands.
fn pricer_of(
    alloc: Global,
    instance: &Instance,
    near: &[CustomerSet],
) -> Result<Option<RoutePricer>, NoMemory>
    requires { place_count instance.now ≤ PLACES }
{
    let Some(units) = unit_demands(alloc, instance)? else {
        return Ok(None);
    };
    RoutePricer::new(alloc, &units.demands, units.capacity, near)
}

// What comes after a pricing that found so many columns, unless it was the last that is wanted and found none.
fn next_effort(effort: Effort, added: usize) -> Effort {
    match effort {
        Effort::OneLabel if added == 0 => Effort::FewLabels,
        Effort::FewLabels if added == 0 => Effort::AllLabels,
        Effort::FewLabels if added > 30 => Effort::OneLabel,
        Effort::AllLabels if added > 20 => Effort::FewLabels,
        other => other,
    }
}

impl Guide {
    /// A program over the routes of one customer and these, with so many price units in a unit of cost, for plans up to a limit, and ng-sets
    /// by place. None if the pricing can't use the instance's demands.
    pub(crate) fn new(
        alloc: Global,
        instance: &Instance,
        scale: u32,
        limit: u64,
        near: &[CustomerSet],
        routes: &[Vec<u16>],
        settings: Settings,
    ) -> Result<Option<Guide>, NoMemory>
        requires { place_count instance.now ≤ PLACES }
    {
        let Some(pricer) = pricer_of(alloc, instance, near)? else {
            return Ok(None);
        };
        let customers = u64::from(instance.customers());
        let room = customers.saturating_mul(instance.capacity());
        Ok(Some(Guide {
            alloc,
            customers: all_customers(instance),
            fleet: Fleet::of_instance(alloc, instance)?,
            master: Master::new(alloc, instance, scale, limit, routes)?,
            pricer,
            settings,
            limit,
            priced: 0,
            cut_rounds: 0,
            next_interim: FIRST_INTERIM,
            tolerance: i64::from(scale / 4_000).max(10),
            has_short_routes: room <= instance.whole_demand().saturating_mul(SHORT_ROUTE),
        }))
    }

    /// The guide of a leaf: the same program, with its basis, and one row more. None only if there is none for the instance.
    pub(crate) fn of_leaf(
        &self,
        instance: &Instance,
        near: &[CustomerSet],
        row: ProgramRow,
    ) -> Result<Option<Guide>, NoMemory>
        requires { place_count instance.now ≤ PLACES }
    {
        let Some(pricer) = pricer_of(self.alloc, instance, near)? else {
            return Ok(None);
        };
        let mut master = self.master.copy()?;
        master.add_row(row)?;
        master.program.regain_feasibility(STEPS_UP)?;
        Ok(Some(Guide {
            alloc: self.alloc,
            customers: self.customers,
            fleet: Fleet::of_instance(self.alloc, instance)?,
            master,
            pricer,
            settings: self.settings,
            limit: self.limit,
            priced: self.priced,
            cut_rounds: 0,
            next_interim: FIRST_INTERIM,
            tolerance: self.tolerance,
            has_short_routes: self.has_short_routes,
        }))
    }

    /// The rows of both leaves of plans with at most so many routes, and with more.
    pub(crate) fn leaf_rows(&self, fewer: u16) -> (ProgramRow, ProgramRow) {
        let row = EntryRow {
            customers: self.customers,
            count: fewer,
            price: 0,
        };
        let next = EntryRow {
            count: fewer.saturating_add(1),
            ..row
        };
        (ProgramRow::AtMost(row), ProgramRow::AtLeast(next))
    }

    /// Takes over what another guide has priced since it began with this one.
    pub(crate) fn count_labels(&mut self, other: &Guide) {
        self.priced = self.priced.max(other.priced);
    }

    /// The greatest whole number below the number of routes in the present solution, if that number is well between two whole numbers, and the
    /// bound leaves a gap that is worth two leaves: of so many times as much as after the last rows.
    pub(crate) fn branch_on(&self, times: i64, bound: i64) -> Result<Option<u16>, NoMemory> {
        let limit = self.in_price_units(self.limit);
        let gap = limit.saturating_sub(bound);
        let worth = (limit / 1_000).saturating_mul(i64::from(self.settings.worth_leaves));
        if gap < worth.saturating_mul(times) {
            return Ok(None);
        }
        let mut routes: i64 = 0;
        for route in &self.master.used()? {
            routes = routes.saturating_add(route.value);
        }
        let part = routes % ONE;
        if part < ONE / 20 || part > ONE / 20 * 19 {
            return Ok(None);
        }
        Ok(u16::try_from(routes / ONE).ok())
    }

    /// The stops of the program's routes.
    pub(crate) fn routes(&self) -> Result<Vec<Vec<u16>>, NoMemory> {
        self.master.routes()
    }

    /// The most rounds of subset rows at the root.
    pub(crate) fn most_rounds(&self) -> u32 {
        self.settings.most_rounds
    }

    /// Adds a row for a limit on trucks, if there is one.
    pub(crate) fn limit_trucks(&mut self, instance: &Instance) -> Result<(), NoMemory> {
        if let Some(trucks) = instance.trucks() {
            let row = EntryRow {
                customers: self.customers,
                count: trucks,
                price: 0,
            };
            self.master.add_row(ProgramRow::AtMost(row))?;
            self.master.program.regain_feasibility(STEPS_UP)?;
        }
        Ok(())
    }

    /// The next prices that are worth a pass. Final ones: no route over these arcs has a negative reduced cost, and no capacity cut is found
    /// that their solution violates. Now and then others on the way to them, for which few labels find no such route. None if a limit is met.
    pub(crate) fn next_prices<R: Threads + Sync, W: Watch + Sync>(
        &mut self,
        crew: &Crew<'_, R, W>,
        instance: &Instance,
        followers: &[CustomerSet],
    ) -> Result<Option<Prices>, NoMemory>
        ensures { IfOk result (λ found. IfSome found (λ prices. AreDualsOf instance.now prices.duals)) }
    {
        for _ in 0..MOST_CUT_ROUNDS {
            let Some(quick) = self.generate(crew, instance, followers, Effort::FewLabels)? else {
                return Ok(None);
            };
            self.cut_rounds = self.cut_rounds.saturating_add(1);
            if self.cut()? > 0 && self.cut_rounds < MOST_QUICK_ROUNDS {
                if self.cut_rounds == self.next_interim {
                    self.next_interim = self.next_interim.saturating_mul(2);
                    return Ok(Some(quick));
                }
                continue;
            }
            let Some(prices) = self.generate(crew, instance, followers, Effort::AllLabels)? else {
                return Ok(None);
            };
            if self.cut()? == 0 {
                self.cut_rounds = 0;
                return Ok(Some(Prices {
                    are_final: true,
                    ..prices
                }));
            }
        }
        Ok(None)
    }

    // Adds columns until pricing finds none over these arcs, by all labels if that is wanted and else by few. The prices then; none if a
    // limit is met.
    fn generate<R: Threads + Sync, W: Watch + Sync>(
        &mut self,
        crew: &Crew<'_, R, W>,
        instance: &Instance,
        followers: &[CustomerSet],
        last: Effort,
    ) -> Result<Option<Prices>, NoMemory>
        ensures { IfOk result (λ found. IfSome found (λ prices. AreDualsOf instance.now prices.duals)) }
    {
        let mut effort = Effort::OneLabel;
        for _ in 0..MOST_ROUNDS {
            if !crew.watch.should_continue() || self.priced > self.settings.most_priced {
                return Ok(None);
            }
            self.master.program.lower_cost(STEPS_DOWN)?;
            let Some(duals) = self.master.duals(instance)? else {
                return Ok(None);
            };
            let Some(routes) = self.price(crew, instance, &duals, followers, effort)? else {
                return Ok(None);
            };
            self.priced = self.priced.saturating_add(routes.labels as u64);
            let added = self.add_columns(instance, &routes)?;
            if added == 0 && effort == last {
                let least = routes
                    .least()
                    .unwrap_or(0)
                    .min(self.tolerance.wrapping_neg());
                return Ok(Some(Prices {
                    duals,
                    depth: least.unsigned_abs(),
                    are_final: false,
                }));
            }
            effort = next_effort(effort, added);
        }
        Ok(None)
    }

    // Routes of negative reduced cost by these prices; none if a limit is met.
    fn price<R: Threads + Sync, W: Watch + Sync>(
        &self,
        crew: &Crew<'_, R, W>,
        instance: &Instance,
        duals: &Duals,
        followers: &[CustomerSet],
        effort: Effort,
    ) -> Result<Option<PricedRoutes>, NoMemory>
        requires { AreDualsOf instance.now duals.now }
    {
        let folded = duals.fold(self.alloc, instance)?;
        let priced = self.pricer.find_routes(
            crew,
            &folded,
            followers,
            effort,
            wanted(effort),
            self.settings.most_labels,
            self.tolerance,
        )?;
        match priced {
            Priced::Routes(routes) => Ok(Some(routes)),
            Priced::Met(_) => Ok(None),
        }
    }

    // Adds the columns of the routes whose reduced cost is below 0. How many.
    fn add_columns(
        &mut self,
        instance: &Instance,
        routes: &PricedRoutes,
    ) -> Result<usize, NoMemory> {
        let mut added: usize = 0;
        for number in 0..routes.len() {
            if self.master.offer(instance, routes.stops(number))? {
                added = added.saturating_add(1);
            }
        }
        if self.master.program.column_count() > MOST_COLUMNS {
            self.master.program.remove_costly_columns(COLUMNS_LEFT)?;
        }
        Ok(added)
    }

    /// Takes out the columns of routes that use other arcs than these.
    pub(crate) fn drop_columns(&mut self, followers: &[CustomerSet]) -> Result<(), NoMemory> {
        self.master.drop_columns(followers)?;
        self.master.program.regain_feasibility(STEPS_UP)?;
        Ok(())
    }

    /// Adds the capacity cuts that the solution violates, and takes out rows that are slack. How many are added.
    pub(crate) fn cut(&mut self) -> Result<usize, NoMemory> {
        self.master.remove_slack_rows()?;
        let used = self.master.used()?;
        let known = self.master.cut_sets()?;
        let search = CutSearch {
            most: CUTS_AT_ONCE,
            moves: if self.has_short_routes { CUT_MOVES } else { 0 },
        };
        let fleet = self.fleet.lent();
        let found = violated_entries(self.alloc, self.customers, fleet, &used, &known, search)?;
        for row in &found {
            self.master.add_row(ProgramRow::CapacityCut(*row))?;
        }
        if !found.is_empty() {
            self.master.program.regain_feasibility(STEPS_UP)?;
        }
        Ok(found.len())
    }

    /// Adds the subset rows that the solution violates, as many as there is room for. How many.
    pub(crate) fn add_subset_rows(&mut self) -> Result<usize, NoMemory> {
        let used = self.master.used()?;
        let known = self.master.subset_rows()?;
        let counted = if self.customers.len() < MANY_CUSTOMERS {
            known.len()
        } else {
            self.master.priced_subset_rows()
        };
        let room = self.settings.most_rows.saturating_sub(counted);
        let search = RowSearch {
            most: ROWS_AT_ONCE.min(room),
            most_each: ROWS_WITH_A_CUSTOMER,
            fives: self.has_short_routes,
        };
        let found = violated_rows(self.alloc, self.customers, &used, &known, search)?;
        for row in &found {
            self.master.add_row(ProgramRow::Subset(*row))?;
        }
        if !found.is_empty() {
            self.master.program.regain_feasibility(STEPS_UP)?;
        }
        Ok(found.len())
    }

    /// A cost in price units.
    pub(crate) fn in_price_units(&self, cost: u64) -> i64 {
        let units = cost.saturating_mul(u64::from(self.master.scale));
        i64::try_from(units).unwrap_or(i64::MAX)
    }

    /// About what these prices bound, in price units.
    pub(crate) fn bound_by(&self, prices: &Prices) -> i64 {
        let customers = u64::from(self.customers.len());
        let loss = prices.depth.saturating_mul(customers);
        prices.duals.low().saturating_sub_unsigned(loss)
    }

    /// What to do with prices that give about this lower bound.
    pub(crate) fn decide(&self, pace: &mut Pace, bound: i64, are_final: bool) -> Decision {
        if are_final {
            pace.decide(bound, self.in_price_units(1))
        } else {
            pace.decide_on_the_way(bound)
        }
    }

    /// What a pass by these prices may use. It guesses that no route costs less than pricing said.
    pub(crate) fn pass_limits(&self, prices: &Prices, decision: Decision) -> PassLimits {
        PassLimits {
            guess: prices.depth,
            most_labels: self.settings.most_labels,
            most_listed: match decision {
                Decision::PassAndList | Decision::End => self.settings.enough_listed,
                Decision::GoOn | Decision::Pass => 0,
            },
        }
    }
}
