//! Columns of tables.

use statement::Slot;

/// Where tables are compared: at a slot class, by its lowest name, or elsewhere, at the slots that no name has.
// No Option: elsewhere is a place, and not the lack of one.
#[derive(Clone, Copy, PartialEq, Eq, Debug)]
pub enum Column {
    At(Slot),
    Elsewhere,
}
