//! A row of the table of frames.

use meaning::Apart;
use statement::{Reading, Slot, Statement, Table};

/// How many names there are of a sort, and two of them that are paired.
#[derive(Clone, Copy)]
pub struct Names {
    pub count: u8,
    pub pair: Option<(u8, u8)>,
}

/// What a case is opened with.
#[derive(Clone, Copy)]
pub struct Opening {
    pub tables: u8,
    pub slots: Names,
    pub readings: Names,
}

/// What a case was opened with, and the statements that stand in it, in order.
#[derive(Clone, Copy)]
pub struct Standing(pub Opening, pub &'static [Statement]);

/// What is asked of the statements that stand.
#[derive(Clone, Copy)]
pub enum Question {
    Enter(Statement),
    Told(Table, Slot),
    Apart(Table, Table),
    Filling,
}

/// What is answered.
#[derive(Clone, Copy)]
pub enum Answer {
    /// The entered statement fits.
    Taken,
    /// The entered statement does not fit: the positions that are cited, from 1, and 0 where there are fewer. An array, since in a
    /// clause a slice brings its place in memory along, and answers with equal slices would still differ.
    Finding([u16; 2]),
    /// No reading follows.
    Free,
    /// The reading that follows, and its distance.
    Known(Reading, u8),
    /// At how many slots the tables can differ.
    Differ(Apart),
    /// The filling, table by table. An array, as above.
    Numbers([u16; 4]),
}

/// A question in a case, and the answer that is expected.
#[derive(Clone, Copy)]
pub struct Frame(pub Standing, pub Question, pub Answer);
