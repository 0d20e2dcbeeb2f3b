//! The table of kinds: which fields of a record count. The reader and the writer both read it.

ghost use Rattle.std.specs.Prelude.{◌≡◌};
ghost use Rattle.record.specs.Kinds.{allows, counts, kept, kinds, masked, row_in, row_of, unused_are_zero};

use Sort::{Count, ReadingName, SlotName, TableName, Unused};

/// What a field of a record holds.
#[derive(Clone, Copy)]
pub(crate) enum Sort {
    /// how many names there are of a sort
    Count,
    TableName,
    SlotName,
    ReadingName,
    /// nothing: the field is 0
    Unused,
}

impl Sort {
    /// Does a field of this sort say something?
    pub(crate) fn counts(self) -> bool
        ensures { result ≡ counts self }
    {
        !matches!(self, Sort::Unused)
    }

    /// What a field of this sort is written as: itself where it counts, else 0.
    fn kept(self, field: u8) -> u8
        ensures { result ≡ kept self field }
    {
        if self.counts() { field } else { 0 }
    }

    /// Is the field 0, or one that counts?
    fn allows(self, field: u8) -> bool
        ensures { result ≡ allows self field }
    {
        self.counts() || field == 0
    }
}

/// What a record is about, in the order of the rows of the table.
#[derive(Clone, Copy)]
pub(crate) enum Kind {
    Opening,
    SlotPairing,
    ReadingPairing,
    Writes,
    Reads,
    Equals,
    Differs,
}

/// A row of the table: a kind, its byte, and what each of the four fields holds.
#[derive(Clone, Copy)]
pub(crate) struct Row {
    pub(crate) kind: Kind,
    // In the row, and no discriminant: the reader looks for a row by its byte, and the cast of a kind is the place of its row.
    pub(crate) byte: u8,
    pub(crate) sorts: [Sort; 4],
}

/// The table of kinds. A byte is also the letter by which a kind is printed.
///
/// A new kind is one row here and in `specs/Kinds.antt`, a variant of `Kind` at the same place, a variant of `Record` (or
/// of `Statement`), and an arm in each of `Record::kind`, `Record::fields` and `Record::of`, here and in the definitions.
const KINDS: [Row; 7] = [
    Row {
        kind: Kind::Opening,
        byte: 0x4F,
        sorts: [Count, Count, Count, Unused],
    },
    Row {
        kind: Kind::SlotPairing,
        byte: 0x49,
        sorts: [SlotName, SlotName, Unused, Unused],
    },
    Row {
        kind: Kind::ReadingPairing,
        byte: 0x56,
        sorts: [ReadingName, ReadingName, Unused, Unused],
    },
    Row {
        kind: Kind::Writes,
        byte: 0x57,
        sorts: [TableName, TableName, SlotName, ReadingName],
    },
    Row {
        kind: Kind::Reads,
        byte: 0x52,
        sorts: [TableName, SlotName, ReadingName, Unused],
    },
    Row {
        kind: Kind::Equals,
        byte: 0x45,
        sorts: [TableName, TableName, Unused, Unused],
    },
    Row {
        kind: Kind::Differs,
        byte: 0x44,
        sorts: [TableName, TableName, Unused, Unused],
    },
];

/// The row of the kind that this byte stands for.
pub(crate) fn row_of_byte(byte: u8) -> Option<Row>
    ensures { result ≡ row_in kinds byte }
{
    KINDS.iter().copied().find(|row| row.byte == byte)
}

impl Kind {
    /// The row of this kind.
    pub(crate) fn row(self) -> Row
        ensures { result ≡ row_of self }
    {
        KINDS[self as usize]
    }
}

/// The fields, with 0 for each that does not count.
// The sorts of a row and the fields of a record stand apart, in two arrays: the row is a constant, and the fields come with a log.
pub(crate) fn masked(sorts: [Sort; 4], fields: [u8; 4]) -> [u8; 4]
    ensures { result ≡ masked sorts fields }
{
    std::array::from_fn(|k| sorts[k].kept(fields[k]))
}

/// Is each field that does not count 0?
pub(crate) fn unused_are_zero(sorts: [Sort; 4], fields: [u8; 4]) -> bool
    ensures { result ≡ unused_are_zero sorts fields }
{
    sorts
        .iter()
        .zip(&fields)
        .all(|(sort, field)| sort.allows(*field))
}
