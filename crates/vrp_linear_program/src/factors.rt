//! The factors of a basis: a lower and an upper triangle by columns, and then an eta column for each exchange since.
use crate::entries::{Entry, ROOM, Span, Table, WideTable, dot, place, subtract_times};
use crate::fixed_point::{ONE, clamped_entry, is_tiny, narrow, quotient, wide_product, widen};
use std::alloc::{AllocError, Global};

// A pivot of the upper triangle: its row, its position in the basis, its reciprocal, and the entries of its column above it.
#[derive(Clone, Copy, Debug)]
struct Pivot {
    row: u16,
    position: u16,
    reciprocal: i64,
    above: Span,
}

// A column of the lower triangle, in multiples of its pivot: the row of the pivot, and the entries below it.
#[derive(Clone, Copy, Debug)]
struct Lower {
    row: u16,
    below: Span,
}

// A column that entered at a position, in terms of the basis before: its entry there, as a reciprocal, and its other entries.
#[derive(Clone, Copy, Debug)]
struct Eta {
    position: u16,
    reciprocal: i64,
    others: Span,
}

/// The factors of a basis.
#[derive(Clone, Debug, Drop)]
pub(crate) struct Factors {
    pivots: Vec<Pivot>,
    lowers: Vec<Lower>,
    etas: Vec<Eta>,
    // The entries of both triangles, and those of the eta columns.
    entries: Vec<Entry>,
    eta_entries: Vec<Entry>,
    // The number in `pivots` of the pivot at each position.
    order: Vec<u16>,
}

impl Factors {
    /// The factors of an empty basis.
    pub(crate) fn new(alloc: Global) -> Factors {
        Factors {
            pivots: Vec::new(alloc),
            lowers: Vec::new(alloc),
            etas: Vec::new(alloc),
            entries: Vec::new(alloc),
            eta_entries: Vec::new(alloc),
            order: Vec::new(alloc),
        }
    }

    /// Forgets the factors, and keeps the memory.
    pub(crate) fn clear(&mut self) {
        self.pivots.clear();
        self.lowers.clear();
        self.etas.clear();
        self.entries.clear();
        self.eta_entries.clear();
    }

    /// The number of entries of both triangles so far: where the next column begins.
    pub(crate) fn entry_count(&self) -> usize {
        self.entries.len()
    }

    /// Adds an entry to the column that is being made.
    pub(crate) fn push_entry(&mut self, row: u16, number: i64) -> Result<(), AllocError> {
        let number = clamped_entry(number);
        self.entries.push(Entry { index: row, number })?;
        Ok(())
    }

    /// Ends a column of the upper triangle, which began at this number of entries.
    pub(crate) fn push_pivot(
        &mut self,
        row: u16,
        position: u16,
        pivot: i64,
        start: usize,
    ) -> Result<(), AllocError> {
        let end = self.entries.len();
        self.pivots.push(Pivot {
            row,
            position,
            reciprocal: quotient(ONE, pivot),
            above: Span { start, end },
        })?;
        Ok(())
    }

    /// Ends a column of the lower triangle, which began at this number of entries.
    pub(crate) fn push_lower(&mut self, row: u16, start: usize) -> Result<(), AllocError> {
        let end = self.entries.len();
        if start < end {
            let below = Span { start, end };
            self.lowers.push(Lower { row, below })?;
        }
        Ok(())
    }

    /// Notes the order of the pivots, once all columns have ended.
    pub(crate) fn finish(&mut self, count: usize) -> Result<(), AllocError> {
        self.order.clear();
        for _ in 0..count {
            self.order.push(0)?;
        }
        let mut number = 0u16;
        for pivot in &self.pivots {
            if let Some(order) = self.order.get_mut(usize::from(pivot.position)) {
                *order = number;
            }
            number = number.wrapping_add(1);
        }
        Ok(())
    }

    /// Adds a column that enters at a position, given in terms of the basis.
    pub(crate) fn push_eta(
        &mut self,
        position: u16,
        direction: &Table,
        count: usize,
    ) -> Result<(), AllocError> {
        let start = self.eta_entries.len();
        for (index, &number) in (0u16..).zip(direction.iter().take(count)) {
            if index != position && number != 0 {
                let number = clamped_entry(number);
                self.eta_entries.push(Entry { index, number })?;
            }
        }
        let end = self.eta_entries.len();
        self.etas.push(Eta {
            position,
            reciprocal: quotient(ONE, direction[place(position)]),
            others: Span { start, end },
        })?;
        Ok(())
    }

    /// Whether no column has entered since the basis was factorized.
    pub(crate) fn is_fresh(&self) -> bool {
        self.etas.is_empty()
    }

    /// Whether so many columns have entered that new factors are cheaper.
    pub(crate) fn has_grown(&self, most_etas: usize) -> bool {
        let usual = self.entries.len().saturating_mul(2).saturating_add(4_000);
        self.etas.len() >= most_etas || self.eta_entries.len() > usual
    }

    /// Solves for a column: `wide` by rows is overwritten, the answer is by positions.
    pub(crate) fn solve_forward(&self, wide: &mut WideTable, direction: &mut Table) {
        self.undo_lower(wide);
        self.undo_upper(wide, direction);
        if !self.etas.is_empty() {
            self.undo_etas(wide, direction);
        }
    }

    fn undo_lower(&self, wide: &mut WideTable) {
        let entries = self.entries.as_slice();
        for lower in &self.lowers {
            let factor = narrow(wide[place(lower.row)]);
            if !is_tiny(factor) {
                subtract_times(wide, lower.below.of(entries), factor);
            }
        }
    }

    fn undo_upper(&self, wide: &mut WideTable, direction: &mut Table) {
        let entries = self.entries.as_slice();
        for pivot in self.pivots.iter().rev() {
            let rest = narrow(wide[place(pivot.row)]);
            let position = place(pivot.position);
            if is_tiny(rest) {
                direction[position] = 0;
            } else {
                let factor = narrow(wide_product(rest, pivot.reciprocal));
                direction[position] = factor;
                subtract_times(wide, pivot.above.of(entries), factor);
            }
        }
    }

    fn undo_etas(&self, wide: &mut WideTable, direction: &mut Table) {
        let count = self.pivots.len();
        let entries = self.eta_entries.as_slice();
        for (wide, &number) in wide.iter_mut().zip(direction.iter()).take(count) {
            *wide = widen(number);
        }
        for eta in &self.etas {
            let position = place(eta.position);
            let rest = narrow(wide[position]);
            if is_tiny(rest) {
                wide[position] = 0;
            } else {
                let factor = narrow(wide_product(rest, eta.reciprocal));
                wide[position] = widen(factor);
                subtract_times(wide, eta.others.of(entries), factor);
            }
        }
        for (number, &wide) in direction.iter_mut().zip(wide.iter()).take(count) {
            let rounded = narrow(wide);
            *number = if is_tiny(rounded) { 0 } else { rounded };
        }
    }

    /// Solves for a row: `costs` by positions is overwritten, the answer is by rows.
    pub(crate) fn solve_backward(&self, costs: &mut Table, prices: &mut Table) {
        self.undo_etas_backward(costs);
        let first = self.first_pivot(costs);
        self.undo_upper_backward(costs, prices, first);
        self.undo_lower_backward(prices);
        for price in prices.iter_mut().take(self.pivots.len()) {
            *price = clamped_entry(*price);
        }
    }

    fn undo_etas_backward(&self, costs: &mut Table) {
        let entries = self.eta_entries.as_slice();
        for eta in self.etas.iter().rev() {
            let position = place(eta.position);
            let others = dot(eta.others.of(entries), costs);
            let rest = narrow(widen(costs[position]).wrapping_sub(others));
            costs[position] = narrow(wide_product(rest, eta.reciprocal));
        }
    }

    // The first pivot with a nonzero cost. The answer is 0 at the rows of those before.
    fn first_pivot(&self, costs: &Table) -> usize {
        let mut first = self.pivots.len();
        for (&order, &cost) in self.order.iter().zip(costs.iter()) {
            if cost != 0 {
                first = first.min(usize::from(order));
            }
        }
        first
    }

    fn undo_upper_backward(&self, costs: &Table, prices: &mut Table, first: usize) {
        let entries = self.entries.as_slice();
        for pivot in self.pivots.iter().take(first) {
            prices[place(pivot.row)] = 0;
        }
        for pivot in self.pivots.iter().skip(first) {
            let others = dot(pivot.above.of(entries), prices);
            let rest = narrow(widen(costs[place(pivot.position)]).wrapping_sub(others));
            prices[place(pivot.row)] = if is_tiny(rest) {
                0
            } else {
                narrow(wide_product(rest, pivot.reciprocal))
            };
        }
    }

    fn undo_lower_backward(&self, prices: &mut Table) {
        let entries = self.entries.as_slice();
        for lower in self.lowers.iter().rev() {
            let row = place(lower.row);
            let others = dot(lower.below.of(entries), prices);
            let rest = narrow(widen(prices[row]).wrapping_sub(others));
            prices[row] = if is_tiny(rest) { 0 } else { rest };
        }
    }
}
