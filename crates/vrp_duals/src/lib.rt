//! Dual prices of a linear program over routes: of customers, of entries into sets, and of subset rows with limited memory; the lower bound
//! that they give, the reduced costs of routes, and both folded into prices of arcs and sets of rows.
#![tactic(auto)]

mod checks;
mod duals;
mod fault;
mod folded;
mod law;
mod limits;
mod needed;
mod row_set;
mod rows;
mod sums;
mod tables;

pub use duals::Duals;
pub use fault::DualFault;
pub use folded::FoldedDuals;
pub use law::{
    costly_routes_left_out, folding_keeps_costs, full_counts_cost_no_less,
    full_memories_count_pairs, needed_rows_are_obeyed, plans_cost_at_least, prices_bound_plans,
    rows_of_a_range_are_obeyed, rows_read_either_way,
};
pub use limits::{
    MAX_ARC_PRICE, MAX_ENTRY_PRICE, MAX_ENTRY_ROWS, MAX_LOW, MAX_PRICE, MAX_ROW_CHARGE,
    MAX_ROW_PRICE, MAX_SCALE, MAX_SUBSET_ROWS,
};
pub use row_set::RowSet;
pub use rows::{EntryRow, SubsetRow};
