//! What is asked of the standing statements.

#![tactic(auto)]

mod comparing;
mod gathered;
mod gathering;
mod marked;
mod sighting;
mod telling;

pub use comparing::apart;
pub use telling::told;
