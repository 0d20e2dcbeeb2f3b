//! A listing under way.

ghost use Rattle.std.specs.Prelude.{◌≡◌, ◌-◌, ◌*◌, ◌/◌, ◌≤◌, ◌++◌, length, vec_len, vec_capacity};
ghost use Rattle.listing.specs.Names.{nothing, sorts_of};
ghost use Rattle.listing.specs.Lines.{lines_from};

use crate::line::Line;
use crate::names::Names;
use record::reader::Reader;

/// The lines of the records that a reader has met so far, and the names as these records leave them. There is memory for
/// the lines to come, and with those of the rest of the log they are the lines of the whole log.
#[derive(Drop)]
pub(crate) struct Listing<'a> {
    pub(crate) lines: Vec<Line>,
    pub(crate) reader: Reader<'a>,
    pub(crate) names: Names,
    ghost enough: { 1300 ≤ vec_capacity lines },
    ghost short: { length reader.log.now ≤ 8190 },
    ghost few: { 7 * vec_len lines ≤ reader.offset },
    ghost whole: { lines.items ++ lines_from (1171 - reader.offset / 7) reader.log.now reader.offset (sorts_of names) ≡ lines_from 1171 reader.log.now 0 nothing },
}
