//! How few links lead from a name to the nearest name that passes a test: one search, breadth first, over any
//! links, any test and any kind of entry that waits.

#![tactic(auto)]

pub mod entry;
pub mod goal;
pub mod linked;
pub mod queue;
pub mod search;
mod wave;
