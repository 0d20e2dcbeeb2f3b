//! Reading a log, record by record.

ghost use Rattle.std.specs.Prelude.{◌≡◌, ◌+◌, ◌/◌, take, drop, Some, Ok};
ghost use Rattle.record.specs.declared.entry.Record.{Record};
ghost use Rattle.record.specs.Records.{OneRecordEach, advance, bytes_of, number_of, read_next, read_one};

use crate::entry::Record;
use crate::kinds::{row_of_byte, unused_are_zero};
use crate::reader::Reader;

/// How many bytes a record has.
pub(crate) const LENGTH: usize = 7;

/// The two bytes with which every record begins.
pub(crate) const MARK: [u8; 2] = [0x4D, 0x54];

/// Why the bytes at hand are no record.
#[derive(Clone, Copy, PartialEq, Eq, Debug)]
pub enum ReadRefusal {
    /// fewer than seven bytes are left
    Incomplete = 31,
    /// they do not begin with the mark
    Unmarked = 32,
    /// no kind has this byte
    UnknownKind = 33,
    /// a field that the kind leaves unused is not 0
    UnusedFieldSet = 34,
}

impl ReadRefusal {
    /// The number by which the refusal is reported.
    pub fn number(self) -> u8
        ensures { result ≡ number_of self }
    {
        self as u8
    }
}

/// The record with which the bytes begin; none where there are no bytes.
fn read(bytes: &[u8]) -> Result<Option<Record>, ReadRefusal>
    ensures { result ≡ read_one bytes.now }
{
    if bytes.is_empty() {
        return Ok(None);
    }
    let [first, second, kind, x, y, z, u, ..] = *bytes else {
        return Err(ReadRefusal::Incomplete);
    };
    if [first, second] != MARK {
        return Err(ReadRefusal::Unmarked);
    }
    let row = row_of_byte(kind).ok_or(ReadRefusal::UnknownKind)?;
    let fields = [x, y, z, u];
    if !unused_are_zero(row.sorts, fields) {
        return Err(ReadRefusal::UnusedFieldSet);
    }
    Ok(Some(Record::of(row.kind, fields)))
}

/// How many bytes an answer of `read` takes.
fn advance(answer: &Result<Option<Record>, ReadRefusal>) -> usize
    ensures { result ≡ advance answer.now }
{
    match answer {
        Ok(Some(_)) => LENGTH,
        Ok(None) | Err(_) => 0,
    }
}

impl Reader<'_> {
    /// The number of the next record, counted from 1.
    pub fn number(&self) -> usize
        ensures { result ≡ self.now.offset / 7 + 1 }
    {
        self.offset / LENGTH + 1
    }

    /// The next record, or none at the very end of the log. A refused reader stays where it is.
    pub fn next(&mut self) -> Result<Option<Record>, ReadRefusal>
        ensures step { (result, self.new.offset) ≡ read_next self.old.log.now self.old.offset }
        ensures log { self.new.log.now ≡ self.old.log.now }
        ensures only { (x : Record) → result ≡ Ok (Some x) → take 7 (drop self.old.offset self.old.log.now) ≡ bytes_of x }
        ensures each { OneRecordEach }
    {
        let answer = read(&self.log[self.offset..]);
        self.offset += advance(&answer);
        answer
    }
}
