//! What the tests of dual prices share: sets, and the cost of a route by folded prices.

use std::alloc::Global;
use std::process::Abort;
use vrp_duals::{Duals, FoldedDuals, RowSet};
use vrp_model::{CustomerSet, Instance, PLACES};

/// These places.
pub(crate) fn set_of(places: &[u16]) -> CustomerSet {
    let mut set = CustomerSet::empty();
    for &place in places {
        if usize::from(place) < PLACES {
            set = set.with(place);
        }
    }
    set
}

/// The prices of an instance folded, and the same with each row remembered everywhere.
pub(crate) fn folded(
    rt: &impl Abort,
    alloc: Global,
    duals: &Duals,
    instance: &Instance,
) -> FoldedDuals {
    assert!(rt; duals.prices().len() == usize::from(instance.customers()) + 1);
    duals.fold(alloc, instance).expect(rt, "memory")
}

/// The same with each row remembered everywhere.
pub(crate) fn folded_in_full(
    rt: &impl Abort,
    alloc: Global,
    duals: &Duals,
    instance: &Instance,
) -> FoldedDuals {
    let folded = folded(rt, alloc, duals, instance);
    let memories = duals.full_memories(alloc).expect(rt, "memory");
    assert!(rt; memories.len() == usize::from(folded.places()));
    folded.remembering(memories)
}

/// What a route costs in folded prices: read from its last stop, as labels do.
pub(crate) fn route_cost(rt: &impl Abort, folded: &FoldedDuals, route: &[u16]) -> i64 {
    let mut rows = RowSet::empty();
    let mut next = 0;
    let mut cost = 0i64;
    for &stop in route.iter().rev() {
        assert!(rt; stop < folded.places() && next < folded.places());
        cost = cost.wrapping_add(folded.arc_price(stop, next));
        cost = cost.wrapping_add(folded.due_at(stop, rows) as i64);
        rows = folded.rows_at(stop, rows);
        next = stop;
    }
    assert!(rt; next < folded.places());
    cost.wrapping_add(folded.arc_price(0, next))
}
