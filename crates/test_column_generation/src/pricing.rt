//! Tests of pricing: compared with a plain slow program, and at the limits.

mod compared;
mod fixture;
mod limits;
mod shared;
mod slow;
