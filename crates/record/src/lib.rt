//! Records: the seven bytes in which a log keeps an opening, a pairing or a statement.

#![tactic(auto)]

pub mod entry;
mod kinds;
pub mod reader;
pub mod reading;
pub mod show;
pub mod writing;
