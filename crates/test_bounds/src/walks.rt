//! Tests of the tables of least walks against a program that follows each walk.

mod least_routes;
mod ng_walks;
mod slow;
mod sparse;
