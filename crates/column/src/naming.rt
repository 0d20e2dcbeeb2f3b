//! Under which classes of names statements are read.

use arrangement::Classes;

/// The classes of the slot names and of the reading names, as plain data.
#[derive(Clone, Copy)]
pub struct Naming {
    pub slots: Classes,
    pub readings: Classes,
}
