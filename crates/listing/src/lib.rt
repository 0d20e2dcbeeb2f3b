//! What a log holds, line by line.

#![tactic(auto)]

pub mod class;
mod classing;
mod hearing;
pub mod input;
pub mod line;
pub mod list;
pub mod names;
mod under_way;
