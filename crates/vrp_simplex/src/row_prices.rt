//! The prices of the rows by their customers and cuts: the reduced costs of routes, and the bound.
use crate::cut::CutKind;
use crate::fixed_point::{in_units, price_of, rescaled, wide_product};
use crate::program::RouteProgram;
use crate::scope::Scope;
use std::alloc::{AllocError, Global};
use vrp_duals::Duals;
use vrp_model::{CustomerSet, PLACES};
use vrp_partition::{Cut, PriceOffer, Route};

// The dual of a customer that no route may serve.
const SHUT_OUT: i64 = -(1 << 50);

// The greatest absolute dual of a customer, and price of a cut.
const MOST_DUAL: i64 = 1 << 52;

const MOST_CUT_PRICE: u64 = 1 << 50;

/// The prices of a program's rows. Those of the subset rows fall.
#[derive(Clone, Debug, Drop)]
pub(crate) struct RowPrices {
    duals: [i64; PLACES],
    truck_price: u64,
    subset_rows: Vec<Cut>,
    capacity_cuts: Vec<Cut>,
}

impl RowPrices {
    /// The prices of a program, with the signs that a bound needs.
    pub(crate) fn new(program: &RouteProgram) -> Result<RowPrices, AllocError> {
        let mut prices = RowPrices {
            duals: [SHUT_OUT; PLACES],
            truck_price: 0,
            subset_rows: Vec::new(program.alloc),
            capacity_cuts: Vec::new(program.alloc),
        };
        let bits = program.linear.price_bits();
        for (customer, &price) in program.scope.customers.iter().zip(program.linear.prices()) {
            let price = in_units(price, bits).clamp(-MOST_DUAL, MOST_DUAL);
            prices.duals[usize::from(customer)] = price;
        }
        prices.push_cuts(program)?;
        prices.subset_rows.sort_by_key(|cut| u64::MAX - cut.price)?;
        Ok(prices)
    }

    /// The prices that column generation left: those of the customers, of its capacity cuts and of its subset rows with three customers.
    pub(crate) fn of_duals(alloc: Global, duals: &Duals) -> Result<RowPrices, AllocError> {
        let mut prices = RowPrices {
            duals: [SHUT_OUT; PLACES],
            truck_price: 0,
            subset_rows: Vec::new(alloc),
            capacity_cuts: Vec::new(alloc),
        };
        let scale = duals.scale();
        for (dual, &price) in prices.duals.iter_mut().zip(duals.prices()) {
            *dual = rescaled(price, scale).clamp(-MOST_DUAL, MOST_DUAL);
        }
        for entry in duals.entries() {
            let price = rescaled(entry.price.max(0), scale).unsigned_abs();
            let kind = CutKind::Capacity(u32::from(entry.count));
            prices.push_cut(entry.customers, kind, price.min(MOST_CUT_PRICE))?;
        }
        for row in duals.rows() {
            if row.customers.len() == 3 {
                let price = i64::try_from(row.price).unwrap_or(i64::MAX);
                let price = rescaled(price, scale).unsigned_abs();
                prices.push_cut(row.customers, CutKind::SubsetRow, price.min(MOST_CUT_PRICE))?;
            }
        }
        prices.subset_rows.sort_by_key(|cut| u64::MAX - cut.price)?;
        Ok(prices)
    }

    // Adds the cuts that have a price.
    fn push_cuts(&mut self, program: &RouteProgram) -> Result<(), AllocError> {
        let bits = program.linear.price_bits();
        let customers = usize::from(program.scope.customers.len());
        let prices = program.linear.prices().iter().skip(customers);
        for (cut, &price) in program.cuts.iter().zip(prices) {
            let price = cut.size(in_units(price, bits)).min(MOST_CUT_PRICE);
            if price > 0 {
                self.push_cut(cut.set, cut.kind, price)?;
            }
        }
        Ok(())
    }

    fn push_cut(&mut self, set: CustomerSet, kind: CutKind, price: u64) -> Result<(), AllocError> {
        match kind {
            CutKind::SubsetRow => self.subset_rows.push(Cut {
                set,
                count: 1,
                price,
            })?,
            CutKind::Capacity(count) => self.capacity_cuts.push(Cut { set, count, price })?,
            CutKind::Trucks(_) => self.truck_price = price,
        }
        Ok(())
    }

    /// What each choice in the scope costs at least, in price units, if no reduced cost is negative.
    pub(crate) fn sum(&self, scope: &Scope) -> i64 {
        let mut sum = 0i64;
        for customer in scope.customers.iter() {
            sum = sum.saturating_add(self.duals[usize::from(customer)]);
        }
        sum.saturating_add(sum_of(self.capacity_cuts.as_slice()))
            .saturating_sub(sum_of(self.subset_rows.as_slice()))
            .saturating_sub_unsigned(
                self.truck_price
                    .saturating_mul(u64::from(scope.most_routes)),
            )
    }

    /// The reduced cost of a route, unless it is above this mark.
    #[inline(always)]
    pub(crate) fn reduced_cost(&self, route: &Route, mark: i64) -> Option<i64> {
        let mut rest = price_of(route.cost).wrapping_add_unsigned(self.truck_price);
        for customer in route.set.iter() {
            rest = rest.wrapping_sub(self.duals[usize::from(customer)]);
        }
        for cut in &self.capacity_cuts {
            if !cut.set.is_disjoint(route.set) {
                rest = rest.wrapping_sub_unsigned(cut.price);
            }
        }
        for cut in &self.subset_rows {
            if rest > mark {
                return None;
            }
            if cut.set.intersection(route.set).has_two() {
                rest = rest.wrapping_add_unsigned(cut.price);
            }
        }
        if rest > mark { None } else { Some(rest) }
    }

    /// The subset-row cuts that have a price.
    pub(crate) fn subset_rows(&self) -> &[Cut] {
        self.subset_rows.as_slice()
    }

    /// The capacity cuts that have a price.
    pub(crate) fn capacity_cuts(&self) -> &[Cut] {
        self.capacity_cuts.as_slice()
    }

    /// These prices as an offer, found by this many looks.
    pub(crate) fn offer(&self, alloc: Global, work: u64) -> Result<PriceOffer, AllocError> {
        Ok(PriceOffer {
            duals: Vec::from_slice(alloc, &self.duals)?,
            subset_rows: Vec::from_slice(alloc, self.subset_rows.as_slice())?,
            capacity_cuts: Vec::from_slice(alloc, self.capacity_cuts.as_slice())?,
            truck_price: self.truck_price,
            work,
        })
    }
}

// The sum of the prices of cuts, each times its count.
fn sum_of(cuts: &[Cut]) -> i64 {
    let mut sum = 0i64;
    for cut in cuts {
        let price = wide_product(i64::from(cut.count), cut.price.cast_signed());
        sum = sum.saturating_add(i64::try_from(price).unwrap_or(i64::MAX));
    }
    sum
}
