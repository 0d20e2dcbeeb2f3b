//! An arrangement that is made of pairings: two names are the same exactly when a chain of pairings joins them.

#![tactic(auto)]

pub mod pairing;
pub mod store;
pub mod why;
