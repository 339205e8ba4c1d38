//! A place that is not yet taken.

/// A place, and the weight of the arc that is paid when it is taken.
#[derive(Clone, Copy, Debug)]
pub struct Arc {
    pub place: u16,
    pub weight: u64,
}
