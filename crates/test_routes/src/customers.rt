//! Sets of customers compared with plain tables of places, and the fleet of an instance.

use crate::assertion::assert_same;
use crate::sets::set_of;
use test_fixtures::{Random, with_arcs};
use vrp_model::{CustomerSet, Fleet, PLACES, all_customers};
use vrp_routes::can_list;

// Whether each place is in a set.
type Table = [bool; PLACES];

// Some of the places: one in so many.
fn some_places(random: &mut Random, one_in: u32) -> Table {
    let mut table = [false; PLACES];
    for place in table.iter_mut() {
        *place = random.next() % one_in.max(1) == 0;
    }
    table
}

// The places of a table as a set.
fn set_from(table: &Table) -> CustomerSet {
    let mut set = CustomerSet::empty();
    for place in 0..256u16 {
        if table[usize::from(place)] {
            set = set.with(place);
        }
    }
    set
}

// What is made of two sets.
#[derive(Clone, Copy, Debug)]
enum Made {
    Union,
    Intersection,
    Difference,
}

impl Made {
    // Whether a place is in it that is in the first set, and in the second, or not.
    fn has(self, first: bool, second: bool) -> bool {
        match self {
            Made::Union => first || second,
            Made::Intersection => first && second,
            Made::Difference => first && !second,
        }
    }
}

// Whether a set has the places that it should have by two tables.
fn is_made_of(set: CustomerSet, made: Made, one: &Table, other: &Table) -> bool {
    for place in 0..256u16 {
        let at = usize::from(place);
        if set.contains(place) != made.has(one[at], other[at]) {
            return false;
        }
    }
    true
}

#[test]
fn sets_like_tables(rt: HostRuntime) {
    let mut random = Random(1);
    for one_in in [1u32, 2, 3, 40, 300] {
        for other_in in [1u32, 2, 60] {
            let (one, other) = (
                some_places(&mut random, one_in),
                some_places(&mut random, other_in),
            );
            let (first, second) = (set_from(&one), set_from(&other));
            let at = (one_in, other_in);
            let union = first.union(second);
            assert_same(&rt, is_made_of(union, Made::Union, &one, &other), true, at);
            let both = first.intersection(second);
            assert_same(
                &rt,
                is_made_of(both, Made::Intersection, &one, &other),
                true,
                at,
            );
            let rest = first.difference(second);
            assert_same(
                &rt,
                is_made_of(rest, Made::Difference, &one, &other),
                true,
                at,
            );
            assert_same(
                &rt,
                first.is_subset(second),
                rest == CustomerSet::empty(),
                at,
            );
            assert_same(
                &rt,
                first.is_disjoint(second),
                both == CustomerSet::empty(),
                at,
            );
        }
    }
}

#[test]
fn members_like_tables(rt: HostRuntime) {
    let mut random = Random(2);
    for one_in in [1u32, 2, 3, 40, 300] {
        let table = some_places(&mut random, one_in);
        let set = set_from(&table);
        let mut members = set.iter();
        let mut count = 0u16;
        for place in 0..256u16 {
            assert_same(&rt, set.rank(place), count, (one_in, place));
            if table[usize::from(place)] {
                assert_same(&rt, members.next(), Some(place), (one_in, place));
                count = count.saturating_add(1);
            }
        }
        assert_same(&rt, members.next(), None, one_in);
        assert_same(&rt, set.len(), count, one_in);
        assert_same(&rt, set.has_two(), count >= 2, one_in);
        assert_same(&rt, set.is_empty(), count == 0, one_in);
    }
}

#[test]
fn a_fleet(rt: HostRuntime) {
    let alloc = rt.alloc();
    let arcs = [0u64, 1, 1, 1, 0, 1, 1, 1, 0];
    let instance = with_arcs(alloc, &arcs, &[0, 3, 1_000_000_000], 1_000_000_000).expect(
        &rt,
        "an instance",
    );
    assert!(rt; can_list(&instance));
    assert_same(&rt, all_customers(&instance), set_of(&[1, 2]), "customers");
    let fleet = Fleet::of_instance(alloc, &instance).expect(&rt, "memory");
    assert_same(&rt, fleet.capacity, 1_000_000_000, "capacity");
    assert_same(&rt, fleet.trucks, 2, "trucks");
    let view = fleet.lent();
    for (place, demand) in [0u64, 3, 1_000_000_000, 0].into_iter().enumerate() {
        assert_same(&rt, view.demand(place), demand, place);
    }
    assert_same(&rt, view.demand(300), 0, "no place");
}
