//! Tests of `vrp_linear_program`: programs whose optimum is known, or proved by the prices; programs that grow; and the limits.

mod by_hand;
mod calls;
mod cover;
mod exact;
mod growth;
mod limits;
mod optimal;
