//! Listing a log.

ghost use Rattle.std.specs.Prelude.{◌≡◌, ◌+◌, ◌≤◌, [], ◌++◌, length, vec_capacity};
ghost use Rattle.record.specs.Records.{advance};
ghost use Rattle.listing.specs.Names.{sorts_of};
ghost use Rattle.listing.specs.Lines.{ListsRecords, ending, heard, lines_of, met, stopped};

use crate::class::Sort;
use crate::classing::list_classes;
use crate::line::{Fault, Line};
use crate::names::Names;
use crate::under_way::Listing;
use record::reader::Reader;

/// How many bytes a log has at the most.
pub const LONGEST: usize = 8190;

/// How many lines the longest log has at the most: 1,170 records, a refusal, their count, and the classes of 64 names
/// of each sort.
pub const MOST_LINES: usize = 1300;

/// Memory for the lines of one log.
pub type Room = room::Room<Line, MOST_LINES>;

impl<'a> Listing<'a> {
    /// Before the first record.
    fn new(lines: Vec<Line>, log: &'a [u8]) -> Listing<'a>
        requires empty { lines.items ≡ [] }
        requires enough { 1300 ≤ vec_capacity lines }
        requires short { length log.now ≤ 8190 }
        ensures { result.reader.log.now ≡ log.now }
    {
        Listing {
            lines,
            reader: Reader::new(log),
            names: Names::new(),
        }
    }

    /// Lists the next record, if there is one, has the names hear it, and answers whether there was one.
    fn list_next(&mut self) -> Result<bool, Fault>
        ensures answer { result ≡ heard (met self.old.reader) }
        ensures offset { self.new.reader.offset ≡ self.old.reader.offset + advance (met self.old.reader) }
        ensures log { self.new.reader.log.now ≡ self.old.reader.log.now }
    {
        let number = self.reader.number();
        let offset = self.reader.offset();
        let Some(record) = self.reader.next()? else {
            return Ok(false);
        };
        let refused = self.names.hear(&record).err();
        self.lines.push_reserved(Line::Read {
            number,
            offset,
            record,
            refused,
        });
        Ok(true)
    }

    /// Lists the records, to the end of the log or up to what the reader refuses.
    fn list_records(&mut self) -> Result<(), Fault>
        ensures stops { heard (met self.new.reader) ≡ stopped result }
        ensures log { self.new.reader.log.now ≡ self.old.reader.log.now }
    {
        while self.list_next()? {}
        Ok(())
    }

    /// Lists what the reader refused, how many records were read, and which names are the same.
    fn finish(self, read: Result<(), Fault>) -> Vec<Line>
        ensures { result.items ≡ self.entry.lines.items ++ ending read self.entry.reader.offset (sorts_of self.entry.names) }
    {
        let Listing {
            mut lines,
            reader,
            names,
        } = self;
        let number = reader.number();
        if let Err(fault) = read {
            lines.push_reserved(Line::Refused {
                number,
                fault,
                offset: reader.offset(),
            });
        }
        lines.push_reserved(Line::Records(number - 1));
        list_classes(&names.slots, Sort::Slots, &mut lines);
        list_classes(&names.readings, Sort::Readings, &mut lines);
        lines
    }
}

/// The lines of a log.
pub fn list(room: Room, log: &[u8]) -> Vec<Line>
    ensures lines { result.items ≡ lines_of log.now }
    ensures means { ListsRecords }
{
    let mut lines = room.into_list();
    if log.len() > LONGEST {
        // Record 0 at byte 0, by a rule of the project: no record of such a log is looked at.
        lines.push_reserved(Line::Refused {
            number: 0,
            fault: Fault::LogTooLong,
            offset: 0,
        });
        lines.push_reserved(Line::Records(0));
        return lines;
    }
    let mut listing = Listing::new(lines, log);
    let read = listing.list_records();
    listing.finish(read)
}
