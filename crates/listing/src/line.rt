//! The lines of a listing, and how they are printed.

ghost use Rattle.std.specs.Prelude.{◌≡◌, Some};
ghost use Rattle.listing.specs.declared.line.Fault.TheVariants.{Reader};
ghost use Rattle.listing.specs.Lines.{layer_of, number_of, shown_line};

use crate::class::Class;
use arrangement::Refusal;
use record::entry::Record;
use record::reading::ReadRefusal;
use std::fmt;

/// Why a log is not read further.
#[derive(Clone, Copy, PartialEq, Eq, Debug)]
pub enum Fault {
    /// it has more than 8,190 bytes
    LogTooLong,
    /// the reader refused the next record
    Reader(ReadRefusal),
}

impl From<ReadRefusal> for Fault {
    ghost from_gives = { λ refusal fault. fault ≡ Reader refusal };

    fn from(refusal: ReadRefusal) -> Fault {
        Fault::Reader(refusal)
    }
}

impl Fault {
    /// The number by which the fault is reported. By cases, and no cast: one variant has that of its refusal.
    pub fn number(&self) -> u8
        ensures { result ≡ number_of self.now }
    {
        match self {
            Fault::LogTooLong => 37,
            Fault::Reader(refusal) => refusal.number(),
        }
    }

    /// The layer that reports it. Each fault is named, so that a new one has to say its layer.
    pub fn layer(&self) -> &'static str
        ensures { result.now ≡ layer_of self.now }
    {
        match self {
            Fault::LogTooLong | Fault::Reader(_) => "reader",
        }
    }
}

/// One line of a listing.
#[derive(Clone, Copy, PartialEq, Eq, Debug)]
pub enum Line {
    /// A record was read; what it opens or pairs may be refused.
    Read {
        number: usize,
        offset: usize,
        record: Record,
        refused: Option<Refusal>,
    },
    /// Nothing was read there, and nothing after it.
    Refused {
        number: usize,
        fault: Fault,
        offset: usize,
    },
    /// So many records were read.
    Records(usize),
    /// These names are the same.
    Grouped(Class),
}

impl fmt::Display for Line {
    ghost output = { λ line. Some (shown_line line) };

    fn fmt<W: fmt::Write>(&self, f: &mut fmt::Formatter<W>) -> fmt::Result {
        match self {
            Line::Read {
                number,
                offset,
                record,
                refused: None,
            } => write!(f, "{number} {offset} {record}"),
            Line::Read {
                number,
                offset,
                refused: Some(refusal),
                ..
            } => {
                let code = refusal.number();
                write!(f, "{number} refused {code} pairing {offset}")
            }
            Line::Refused {
                number,
                fault,
                offset,
            } => {
                let code = fault.number();
                let layer = fault.layer();
                write!(f, "{number} refused {code} {layer} {offset}")
            }
            Line::Records(count) => write!(f, "records {count}"),
            Line::Grouped(class) => write!(f, "{class}"),
        }
    }
}
