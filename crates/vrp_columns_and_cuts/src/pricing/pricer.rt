//! `RoutePricer`: routes of negative reduced cost, by labels that are joined or go home.
ghost use Rattle.std.specs.Prelude.{◌≡◌, IfOk, IfSome, length};
ghost use Rattle.vrp_columns_and_cuts.specs.Priced.{IfRoutes};

use crate::pricing::bands::LabelBands;
use crate::pricing::closed_labels::ClosedLabels;
use crate::pricing::closing::{Closer, Closing};
use crate::pricing::joins::{Joiner, Joining};
use crate::pricing::near_masks::NearMasks;
use crate::pricing::onward::OnwardTable;
use crate::pricing::price_table::PriceTable;
use crate::pricing::priced_routes::PricedRoutes;
use crate::pricing::route_choice::RouteChoice;
use std::alloc::Global;
use std::marker::Model;
use std::thread::Threads;
use vrp_duals::FoldedDuals;
use vrp_model::{Crew, CustomerSet, NoMemory, Watch};

// The most places, and the greatest capacity.
const MOST_PLACES: usize = 256;

const MOST_CAPACITY: u32 = 4_096;

/// How many labels are kept at a place and a load.
#[derive(Clone, Copy, Debug, PartialEq, Eq)]
pub enum Effort {
    /// The cheapest, if it costs less than those of smaller loads.
    OneLabel,
    /// Six.
    FewLabels,
    /// All that no other dominates: then the least reduced cost of all routes is found.
    AllLabels,
}

/// Why no routes are found.
#[derive(Clone, Copy, Debug, PartialEq, Eq)]
pub enum Limit {
    /// There are more labels than allowed.
    Labels,
    /// The watch stopped it.
    Stopped,
}

/// What comes of a search for routes.
#[derive(Debug, Drop)]
pub enum Priced {
    Routes(PricedRoutes),
    /// A limit was met before.
    Met(Limit),
}

/// Finds routes of negative reduced cost in an instance. It is made once, and serves all prices. A clause sees it as the number of places.
#[derive(Debug, Drop)]
pub struct RoutePricer {
    places: u16,
    capacity: u16,
    // By place.
    demands: Vec<u16>,
    masks: NearMasks,
}

impl Model for RoutePricer {
    ghost use Rattle.std.specs.Prelude.{ℕ};

    ghost Value = { ℕ };

    ghost view = { λ a. a.places };
}

impl RoutePricer {
    /// The pricer of an instance: the demand of each place, the depot's first, the capacity of a truck, and the customers near each place,
    /// of which labels remember at most eight, those with the lowest numbers. `None` if the lists don't have an entry for each of at most
    /// 256 places, if the capacity is above 4,096, or if a customer demands nothing. A customer who demands more than the capacity is in no
    /// route. The only error is lack of memory.
    pub fn new(
        alloc: Global,
        demands: &[u32],
        capacity: u32,
        near: &[CustomerSet],
    ) -> Result<Option<RoutePricer>, NoMemory>
        ensures { IfOk result (λ made. IfSome made (λ pricer. pricer ≡ length demands.now)) }
    {
        if demands.len() != near.len() || demands.len() > MOST_PLACES || capacity > MOST_CAPACITY {
            return Ok(None);
        }
        if demands.iter().skip(1).any(|demand| *demand == 0) {
            return Ok(None);
        }
        Ok(Some(RoutePricer {
            places: demands.len() as u16,
            capacity: capacity as u16,
            demands: cut_demands(alloc, demands)?,
            masks: NearMasks::new(alloc, near)?,
        }))
    }

    /// Routes of customers with a reduced cost below `-tolerance` price units under these prices, the least first. `followers` says for each
    /// place which places may come next, the depot's first; a place that it lacks has none. The routes are ng-routes for the near
    /// customers: a customer may come twice if some stop in between does not remember it. No two have the same customers, and at most
    /// `most_routes` are found. With all labels the first one has the least reduced cost of all such routes. Prices for another number of
    /// places give no route. At most about `most_labels` labels are in memory. Now and then the watch is asked whether to go on. The
    /// contract leaves open which routes are found, that their reduced costs are true, and which limit is met and when. The only error is
    /// lack of memory.
    pub fn find_routes<R: Threads + Sync, W: Watch + Sync>(
        &self,
        crew: &Crew<'_, R, W>,
        duals: &FoldedDuals,
        followers: &[CustomerSet],
        effort: Effort,
        most_routes: usize,
        most_labels: usize,
        tolerance: i64,
    ) -> Result<Priced, NoMemory>
        ensures { IfOk result (λ priced. IfRoutes priced (λ routes. routes.places ≡ self.now)) }
    {
        if duals.places() != self.places {
            return Ok(Priced::Routes(PricedRoutes::none(crew.alloc, self.places)));
        }
        let prices = PriceTable::new(crew.alloc, duals, followers)?;
        let most_cost = half_units_below(tolerance);
        let onward = match effort {
            Effort::OneLabel => None,
            _ => Some(OnwardTable::new(crew.alloc, self, &prices)?),
        };
        let closer = Closer {
            pricer: self,
            prices: &prices,
            onward,
            effort,
            most_cost,
        };
        let closed = match closer.close(crew, most_labels)? {
            Closing::Closed(closed) => closed,
            Closing::Met(limit) => return Ok(Priced::Met(limit)),
        };
        self.join_routes(crew, &prices, &closed, most_cost, most_routes)
    }

    /// The number of places, the depot among them.
    pub fn places(&self) -> u16
        ensures { result ≡ self.now }
    {
        self.places
    }

    /// The capacity of a truck.
    pub fn capacity(&self) -> u16 {
        self.capacity
    }

    /// The number of loads, from 0 to the capacity.
    pub fn loads(&self) -> u16 {
        self.capacity.saturating_add(1)
    }

    /// The demand of a place, more than any capacity if there is no such place.
    #[inline(always)]
    pub fn demand(&self, place: u16) -> u16 {
        self.demands
            .get(usize::from(place))
            .copied()
            .unwrap_or(u16::MAX)
    }

    /// What labels remember.
    #[inline(always)]
    pub fn masks(&self) -> &NearMasks {
        &self.masks
    }

    // The routes that closed labels make.
    fn join_routes<R: Threads + Sync, W: Watch>(
        &self,
        crew: &Crew<'_, R, W>,
        prices: &PriceTable<'_>,
        closed: &ClosedLabels,
        most_cost: i64,
        most_routes: usize,
    ) -> Result<Priced, NoMemory>
        ensures { IfOk result (λ priced. IfRoutes priced (λ routes. routes.places ≡ self.now)) }
    {
        let alloc = crew.alloc;
        let bands = if prices.symmetric() {
            Some(LabelBands::new(alloc, closed.all(), self.places, self.loads())?)
        } else {
            None
        };
        let joiner = Joiner {
            pricer: self,
            prices,
            closed,
            bands,
        };
        match joiner.join_all(crew, most_cost)? {
            Joining::Joined(joins) => {
                let choice = RouteChoice::new(alloc, closed, self.places, most_routes)?;
                let mut routes = choice.choose(&joins, self.places)?;
                routes.labels = closed.all().len();
                Ok(Priced::Routes(routes))
            }
            Joining::Met(limit) => Ok(Priced::Met(limit)),
        }
    }
}

// The greatest cost in half price units of a route that costs less than this below nothing.
fn half_units_below(tolerance: i64) -> i64 {
    0i64.saturating_sub(tolerance)
        .saturating_mul(2)
        .saturating_sub(1)
}

// The demands, where one that doesn't fit is cut: it is above any capacity.
fn cut_demands(alloc: Global, demands: &[u32]) -> Result<Vec<u16>, NoMemory> {
    let mut cut = Vec::new(alloc);
    for demand in demands {
        cut.push(u16::try_from(*demand).unwrap_or(u16::MAX))?;
    }
    Ok(cut)
}
