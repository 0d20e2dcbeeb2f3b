//! The names of slots and of readings, as a log opens and pairs them.

use paired::store::Paired;

/// The pairings of slots and those of readings.
#[derive(Clone, Copy)]
pub struct Names {
    pub(crate) slots: Paired,
    pub(crate) readings: Paired,
}
