//! Writing a record into a lent buffer.

ghost use Rattle.std.specs.Prelude.{◌≡◌, Some, Ok};
ghost use Rattle.record.specs.Records.{bytes_of, number_of_write, read_one, write_into};

use crate::entry::Record;
use crate::kinds::masked;
use crate::reading::{LENGTH, MARK};

/// Why a record is not written.
#[derive(Clone, Copy, PartialEq, Eq, Debug)]
pub enum WriteRefusal {
    /// the buffer has fewer than seven bytes
    BufferTooShort = 20,
}

impl WriteRefusal {
    /// The number by which the refusal is reported.
    pub fn number(self) -> u8
        ensures { result ≡ number_of_write self }
    {
        self as u8
    }
}

impl Record {
    /// The seven bytes of the record.
    pub(crate) fn bytes(&self) -> [u8; 7]
        ensures { result ≡ bytes_of self.now }
    {
        let row = self.kind().row();
        let [first, second] = MARK;
        let [x, y, z, u] = masked(row.sorts, self.fields());
        [first, second, row.byte, x, y, z, u]
    }

    /// Puts the record into the first seven bytes of the buffer, and answers 7.
    pub fn write(&self, buffer: &mut [u8]) -> Result<usize, WriteRefusal>
        ensures step { (result, buffer.new) ≡ write_into self.now buffer.old }
        ensures back { result ≡ Ok 7 → read_one buffer.new ≡ Ok (Some self.now) }
    {
        if buffer.len() < LENGTH {
            return Err(WriteRefusal::BufferTooShort);
        }
        buffer[0..LENGTH].copy_from_slice(&self.bytes());
        Ok(LENGTH)
    }
}
