//! The weights between the nodes of a file, looked up one by one.

use crate::slow::distance::Metric;

/// The weights as the file gives them.
#[derive(Debug, Drop)]
pub(crate) enum Weights {
    /// A metric, and for each node its number and its point.
    Points(Metric, Vec<(i64, (i64, i64))>),
    /// Each listed cell with its row, its column and its weight.
    Listed(Vec<((i64, i64), i64)>),
}

impl Weights {
    /// The weight from a node to another one.
    pub(crate) fn weight(&self, from: i64, to: i64) -> u64 {
        let weight = match self {
            Weights::Points(metric, points) => match (find(points, from), find(points, to)) {
                (Some(from), Some(to)) => Some(metric.distance(from, to)),
                _ => None,
            },
            // A weight listed for one direction holds for both.
            Weights::Listed(weights) => find(weights, (from, to))
                .or(find(weights, (to, from)))
                .and_then(|weight| u64::try_from(weight).ok()),
        };
        weight.unwrap_or(u64::MAX)
    }
}

/// The value for a key in a list.
pub(crate) fn find<K: Copy + PartialEq, V: Copy>(pairs: &[(K, V)], key: K) -> Option<V> {
    for (other, value) in pairs {
        if *other == key {
            return Some(*value);
        }
    }
    None
}
