//! The lists of statements that are measured.

use statement::{Reading, Slot, Statement, Table};
use std::alloc::{AllocError, Global};
use std::fmt;

/// What a list is made of.
#[derive(Clone, Copy)]
pub enum Kind {
    /// Writes at eight slots, each into the table that the one before wrote: long chains at few columns.
    Writes,
    /// Such writes at all 64 slots: as many columns as there can be.
    Classes,
    /// Writes that change something, and differences of the tables that they make: each is looked for at every column.
    Differences,
}

impl fmt::Display for Kind {
    fn fmt<W: fmt::Write>(&self, f: &mut fmt::Formatter<W>) -> fmt::Result {
        f.write_str(match self {
            Kind::Writes => "chains of writes",
            Kind::Classes => "many classes",
            Kind::Differences => "many differences",
        })
    }
}

impl Kind {
    /// The k-th statement of the list. After 127 of them they repeat, so that all are of tables below 128.
    fn statement(self, k: usize) -> Statement {
        let t = (k % 127) as u8;
        match self {
            Kind::Writes => write(t, t % 8, t % 8),
            Kind::Classes => write(t, t % 64, t % 64),
            Kind::Differences => {
                if k % 2 == 0 {
                    write(t, t % 8, t / 8)
                } else {
                    Statement::D {
                        a: Table(t),
                        b: Table(127 - t),
                    }
                }
            }
        }
    }

    /// A statement that does not fit with the list.
    pub fn offered(self) -> Statement {
        match self {
            Kind::Differences => Statement::E {
                a: Table(3),
                b: Table(124),
            },
            _ => Statement::R {
                a: Table(31),
                i: Slot(1),
                v: Reading(63),
            },
        }
    }
}

/// Table t + 1 is table t with the reading written at the slot.
// As in the tests of decisions, which a program cannot use.
fn write(t: u8, slot: u8, reading: u8) -> Statement {
    Statement::W {
        b: Table(if t < 127 { t + 1 } else { 127 }),
        a: Table(t),
        i: Slot(slot),
        v: Reading(reading),
    }
}

/// The first statements of a kind.
pub fn list(heap: Global, kind: Kind, count: usize) -> Result<Vec<Statement>, AllocError> {
    (0..count).map(|k| kind.statement(k)).collect(heap)
}
