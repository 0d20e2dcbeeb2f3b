//! The worked frames as a table, and the proof that the definitions of `meaning` answer them as the table expects.

#![tactic(auto)]

mod frame;
mod table;

pub use frame::{Answer, Frame, Names, Opening, Question, Standing};
pub use table::{ROWS, frames};
