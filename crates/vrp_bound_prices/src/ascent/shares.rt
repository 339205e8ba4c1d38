//! Shares: each customer pays a part of the least route through it. A round learns more from one route for each customer than from the
//! least tours, which are mostly one tour repeated. After Baldacci, Christofides and Mingozzi (2008).
use crate::ascent::least_routes::{LeastRoute, LeastRoutes};
use crate::ascent::tours_used::UsedArc;
use crate::ascent::walks::Walks;
use std::alloc::Global;
use vrp_model::NoMemory;

/// The least route through each customer.
#[derive(Drop)]
pub(crate) struct Shares {
    finder: LeastRoutes,
    routes: Vec<LeastRoute>,
}

impl Shares {
    /// No routes yet.
    pub(crate) fn new(alloc: Global, walks: &Walks) -> Result<Shares, NoMemory> {
        Ok(Shares {
            finder: LeastRoutes::new(alloc, walks)?,
            routes: Vec::new(alloc),
        })
    }

    /// Finds the least route through each customer in the tables filled by these prices, and adds its share of that route's cost to the
    /// customer's price, in proportion to its demand in the route's load. Then no route has a negative cost, so the prices alone bound.
    /// Half of a share is paid on the inbound arc, and half on the outbound arc.
    pub(crate) fn settle(&mut self, walks: &Walks, prices: &mut [i64]) -> Result<(), NoMemory> {
        self.routes.clear();
        for (place, price) in prices.iter_mut().enumerate() {
            if place > 0 {
                if let Some(route) = self.finder.through(walks, place) {
                    let share = route.share(route.cost, walks.demand(place));
                    *price = price.wrapping_sub(share / 2);
                    self.routes.push(route)?;
                }
            }
        }
        Ok(())
    }

    /// Replaces the contents of a list by the arcs of those routes.
    pub(crate) fn list_used(&self, walks: &Walks, used: &mut Vec<UsedArc>) -> Result<(), NoMemory> {
        used.clear();
        for route in &self.routes {
            walks.list_route(route, used)?;
        }
        Ok(())
    }
}
