//! The unserved customers of pieces of small instances, and the tables over them.
ghost use Rattle.std.specs.Prelude.{◌≡◌, IfOk};
ghost use Rattle.vrp_model.specs.Word.{IsPrefix, unserved_in};

use crate::assertion::assert_same;
use crate::search::fixture::piece_at;
use std::alloc::Global;
use std::process::Abort;
use test_fixtures::at_points;
use vrp_bound::Tables;
use vrp_model::{Instance, NoMemory};
use vrp_search_tree::Piece;

// The word of a piece, and its unserved customers.
const UNSERVED: &[(&[u16], &[u16])] = &[
    (&[], &[1, 2, 3]),
    (&[2], &[1, 3]),
    (&[1, 0, 3, 0], &[2]),
    (&[1, 0, 2, 3, 0], &[]),
];

#[test]
fn customers_left_unserved(rt: HostRuntime) {
    let instance = four_nodes(&rt, rt.alloc(), 2);
    for &(word, unserved) in UNSERVED {
        let piece = piece_at(&rt, rt.alloc(), &instance, word);
        let listed = piece.unserved(rt.alloc(), &instance).expect(&rt, "memory");
        assert_same(&rt, listed.as_slice(), unserved, word);
    }
}

// The word of a piece, and the bound on what is still to pay at the third customer if there is no rest.
const AT_THE_THIRD: &[(&[u16], u64)] = &[(&[], 0), (&[3], 15)];

// No tables are made over all customers, since one demands nothing. The piece serves it, so tables over the others are made.
#[test]
fn tables_where_no_demand_is_served(rt: HostRuntime) {
    let instance = four_nodes(&rt, rt.alloc(), 1);
    assert!(rt; instance.customers() == 3);
    for &(word, home) in AT_THE_THIRD {
        let piece = piece_at(&rt, rt.alloc(), &instance, word);
        let tables = own_tables(rt.alloc(), &instance, &piece).expect(&rt, "memory");
        assert_same(&rt, tables.q_bound(3, 0, 0), Some(home), word);
    }
}

// The depot and three customers on a line, five apart; the last one demands nothing.
fn four_nodes(rt: &impl Abort, alloc: Global, capacity: u64) -> Instance {
    let points = [(0, 0), (3, 4), (6, 8), (9, 12)];
    at_points(alloc, &points, &[0, 1, 1, 0], capacity).expect(rt, "an instance")
}

/// Tables over a piece's unserved customers.
pub(crate) fn own_tables<'a>(
    alloc: Global,
    instance: &'a Instance,
    piece: &Piece,
) -> Result<Tables<'a>, NoMemory>
    requires { IsPrefix instance.now piece.now.word }
    ensures { IfOk result (λ tables.
        tables ≡ record { problem = instance.now; among = unserved_in instance.now piece.now.word }) }
{
    let unserved = piece.unserved(alloc, instance)?;
    Tables::build(alloc, instance, &unserved)
}
