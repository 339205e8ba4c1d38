//! A fractional solution of the linear program: the routes that it uses.

/// The value of a route that is used once: 2 ^ 20.
pub const ONE: i64 = 1_048_576;

/// A route that a solution uses: its stops, and how much of it is used, in units of 1/2^20. A stop may come more than once.
#[derive(Debug, Drop)]
pub struct UsedRoute {
    pub stops: Vec<u16>,
    pub value: i64,
}
