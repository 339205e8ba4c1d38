//! Tables over a sparse graph, compared with the program that follows each walk, without the arcs that are missing.
use crate::walks::ng_walks::{compare_filled, empty_walks};
use crate::walks::slow::Slow;
use std::alloc::Global;
use std::process::Abort;
use test_fixtures::with_arcs;
use vrp_model::Instance;

// Places on a line, at 0, 10, 12, 15, 30 and 33.
const LINE: [u64; 36] = [
    0, 10, 12, 15, 30, 33, 10, 0, 2, 5, 20, 23, 12, 2, 0, 3, 18, 21, 15, 5, 3, 0, 15, 18, 30, 20,
    18, 15, 0, 3, 33, 23, 21, 18, 3, 0,
];

const DEMANDS: &[u64] = &[0, 1, 2, 1, 1, 2];

const PRICES: &[i64] = &[0, -7, 4, -3, -9, 2];

// A sparse graph.
#[derive(Clone, Copy)]
struct Sparse {
    // The number of near customers of each place: ng-sets matter between those who share one.
    near: usize,
    // The number of nearest places to which each keeps an arc.
    count: usize,
    // The pairs of customers without an arc.
    missing: &'static [(usize, usize)],
}

const GRAPHS: &[Sparse] = &[
    Sparse {
        near: 0,
        count: 1,
        missing: &[(1, 3), (1, 4), (1, 5), (2, 4), (2, 5), (3, 4), (3, 5)],
    },
    Sparse {
        near: 0,
        count: 2,
        missing: &[(1, 4), (1, 5), (2, 4), (2, 5)],
    },
    Sparse {
        near: 0,
        count: 5,
        missing: &[],
    },
    Sparse {
        near: 1,
        count: 1,
        missing: &[(1, 4), (1, 5), (2, 4), (2, 5), (3, 4), (3, 5)],
    },
];

#[test]
fn sparse_walks(rt: HostRuntime) {
    let instance = with_arcs(rt.alloc(), &LINE, DEMANDS, 5).expect(&rt, "an instance");
    for &sparse in GRAPHS {
        compare_sparse(&rt, rt.alloc(), &instance, sparse);
    }
}

// Compares the tables over a sparse graph, and then those over all arcs.
fn compare_sparse(rt: &impl Abort, alloc: Global, instance: &Instance, sparse: Sparse) {
    let mut walks = empty_walks(rt, alloc, instance, sparse.near);
    walks.keep_nearest(alloc, sparse.count).expect(rt, "memory");
    walks.enter(PRICES);
    let mut slow = Slow::new(rt, alloc, instance, PRICES, sparse.near, walks.loads());
    for &(from, to) in sparse.missing {
        slow.remove_arc(from, to);
        slow.remove_arc(to, from);
    }
    compare_filled(rt, alloc, &mut walks, &mut slow);
    walks.keep_all();
    let mut slow = Slow::new(rt, alloc, instance, PRICES, sparse.near, walks.loads());
    compare_filled(rt, alloc, &mut walks, &mut slow);
}
