//! Names, and what a frame states of tables.

#![tactic(auto)]

/// A table, by its name.
#[derive(Clone, Copy, PartialEq, Eq, Debug)]
pub struct Table(pub u8);

/// A slot of a table, by one of its tags.
#[derive(Clone, Copy, PartialEq, Eq, Debug)]
pub struct Slot(pub u8);

/// A reading that a slot holds, by one of its names.
#[derive(Clone, Copy, PartialEq, Eq, Debug)]
pub struct Reading(pub u8);

/// What a frame states. The letters are those of the records and of the documents.
#[derive(Clone, Copy, PartialEq, Eq, Debug)]
pub enum Statement {
    /// Table b is table a with reading v written at slot i.
    W {
        b: Table,
        a: Table,
        i: Slot,
        v: Reading,
    },
    /// Slot i of table a reads v.
    R {
        a: Table,
        i: Slot,
        v: Reading,
    },
    /// The tables are the same at every slot.
    E {
        a: Table,
        b: Table,
    },
    /// The tables differ at some slot.
    D {
        a: Table,
        b: Table,
    },
}
