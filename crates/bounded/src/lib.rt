//! Lists of at most so many items, which lie in the value itself.

#![tactic(auto)]

mod list;
#[cfg(test)]
mod tests;

pub use list::{Bounded, Full};
