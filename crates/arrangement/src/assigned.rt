//! An arrangement that is given as a number for each name.

use bounded::Bounded;

/// A number for each name, of at most 64. Names with equal numbers are the same.
#[derive(Clone, Copy)]
pub struct Assigned {
    pub(crate) numbers: Bounded<u32, 64>,
}
