//! Names joined by links: which are joined, and the lowest of them.

#![tactic(auto)]

pub mod groups;
pub mod joining;
