//! Tests of sets of customers, `vrp_routes`, `vrp_canonical`, `vrp_partition` and `vrp_simplex` with values from outside. They are a separate
//! crate, since a crate with tests is proved twice.
#![tactic(auto)]

#[cfg(test)]
mod assertion;
#[cfg(test)]
mod by_hand;
#[cfg(test)]
mod canonical;
#[cfg(test)]
mod customers;
#[cfg(test)]
mod five_places;
#[cfg(test)]
mod guides;
#[cfg(test)]
mod partition;
#[cfg(test)]
mod passes;
#[cfg(test)]
mod random;
#[cfg(test)]
mod routes;
#[cfg(test)]
mod sets;
#[cfg(test)]
mod simplex;
#[cfg(test)]
mod slow;
