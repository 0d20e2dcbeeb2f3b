//! One column of a list of statements: which tables are joined there, what they read, and whether readings clash.

#![tactic(auto)]

mod acts;
mod naming;
mod reading;
mod sight;
mod sighting;
mod view;

pub use acts::{difference, slot_of};
pub use naming::Naming;
pub use reading::{are_tables_below, is_below, reading_of};
pub use sight::Sight;
pub use view::View;
