//! What a record says, apart from its bytes.

ghost use Rattle.std.specs.Prelude.{◌≡◌};
ghost use Rattle.record.specs.Records.{fields_of, kind_of, record_of};

use crate::kinds::Kind;
use statement::{Reading, Slot, Statement, Table};

/// One record of a log.
#[derive(Clone, Copy, PartialEq, Eq, Debug)]
pub enum Record {
    /// There are so many tables, slots and readings.
    Open { tables: u8, slots: u8, readings: u8 },
    /// The two tags are of one slot.
    PairSlots { i: Slot, j: Slot },
    /// The two names are of one reading.
    PairReadings { v: Reading, w: Reading },
    /// A frame states this.
    State(Statement),
}

impl Record {
    /// The kind, whose row in the table of kinds says which fields count.
    pub(crate) fn kind(&self) -> Kind
        ensures { result ≡ kind_of self.now }
    {
        match self {
            Record::Open { .. } => Kind::Opening,
            Record::PairSlots { .. } => Kind::SlotPairing,
            Record::PairReadings { .. } => Kind::ReadingPairing,
            Record::State(Statement::W { .. }) => Kind::Writes,
            Record::State(Statement::R { .. }) => Kind::Reads,
            Record::State(Statement::E { .. }) => Kind::Equals,
            Record::State(Statement::D { .. }) => Kind::Differs,
        }
    }

    /// What the record says, field by field, with 0 in the fields that its kind leaves unused.
    pub(crate) fn fields(&self) -> [u8; 4]
        ensures { result ≡ fields_of self.now }
    {
        match *self {
            Record::Open {
                tables,
                slots,
                readings,
            } => [tables, slots, readings, 0],
            Record::PairSlots { i, j } => [i.0, j.0, 0, 0],
            Record::PairReadings { v, w } => [v.0, w.0, 0, 0],
            Record::State(Statement::W { b, a, i, v }) => [b.0, a.0, i.0, v.0],
            Record::State(Statement::R { a, i, v }) => [a.0, i.0, v.0, 0],
            Record::State(Statement::E { a, b }) => [a.0, b.0, 0, 0],
            Record::State(Statement::D { a, b }) => [a.0, b.0, 0, 0],
        }
    }

    /// The record of a kind that has these fields; those that the kind leaves unused do not matter.
    // No `From` of a pair, nor for the way back: that would not say that fields which the kind leaves unused are dropped.
    pub(crate) fn of(kind: Kind, fields: [u8; 4]) -> Record
        ensures { result ≡ record_of kind fields }
    {
        let [x, y, z, u] = fields;
        match kind {
            Kind::Opening => Record::Open {
                tables: x,
                slots: y,
                readings: z,
            },
            Kind::SlotPairing => Record::PairSlots {
                i: Slot(x),
                j: Slot(y),
            },
            Kind::ReadingPairing => Record::PairReadings {
                v: Reading(x),
                w: Reading(y),
            },
            Kind::Writes => Record::State(Statement::W {
                b: Table(x),
                a: Table(y),
                i: Slot(z),
                v: Reading(u),
            }),
            Kind::Reads => Record::State(Statement::R {
                a: Table(x),
                i: Slot(y),
                v: Reading(z),
            }),
            Kind::Equals => Record::State(Statement::E {
                a: Table(x),
                b: Table(y),
            }),
            Kind::Differs => Record::State(Statement::D {
                a: Table(x),
                b: Table(y),
            }),
        }
    }
}
