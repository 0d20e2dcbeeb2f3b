//! The statements that stand: a table of them, whose type keeps what every list of standing statements has to keep.

#![tactic(auto)]

mod asking;
mod keeping;
mod memory;
mod standing;

pub use keeping::MOST_TABLES;
pub use memory::{MOST, Room};
pub use standing::Standing;
