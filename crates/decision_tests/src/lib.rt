//! Tests of deciding and asking: on the worked frames, and at the limits.

#![tactic(auto)]

#[cfg(test)]
mod limits;
#[cfg(test)]
mod rows;
