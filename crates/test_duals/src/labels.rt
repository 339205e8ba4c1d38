//! Labels under dual prices, compared with a plain slow program that tries every route, and at the limits.

mod compared;
mod fixture;
mod limits;
mod reused;
