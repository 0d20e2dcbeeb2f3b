//! What frames mean: fillings, columns, and the proof that the columns decide. The definitions are in `specs/`.

#![tactic(auto)]

mod apart;
mod column;
pub mod theorems;

pub use apart::Apart;
pub use column::Column;
