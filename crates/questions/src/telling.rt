//! What is told of a table at a slot.

ghost use Rattle.std.specs.Prelude.{◌≡◌, ◌<◌};
ghost use Rattle.meaning.specs.Answers.{distance, known, reading_and_distance};
ghost use Rattle.questions.specs.Asked.{list_in, setting_in, told_answer};

use crate::gathered::Gathered;
use crate::gathering::gather;
use crate::marked::Marked;
use crate::sighting::{lowest_slot, sight_in, view_in};
use meaning::Column;
use search::entry::Reached;
use search::goal::Goal;
use search::search::search;
use standing::Standing;
use statement::{Reading, Slot, Table};

/// One of the tables, asked at a column.
#[derive(Clone, Copy)]
struct Asked<'a> {
    standing: &'a Standing,
    column: Column,
    table: u8,
    ghost below: { table < standing.now.tables },
}

impl Asked<'_> {
    /// The fewest links from the table to a marked one.
    fn distance(&self) -> Option<u8>
        ensures { result ≡ distance (setting_in self.now.standing.now) (list_in self.now.standing.now) self.now.column self.now.table }
    {
        let view = view_in(self.standing, self.column);
        let marked = Marked::of(view, self.standing.statements());
        // Where the table is marked itself, there is nothing to search, and so nothing to gather.
        if marked.met(self.table) {
            return Some(0);
        }
        let links = gather(self.standing, self.column);
        search::<Gathered, Marked<'_>, Reached>(&links, &marked, self.table)
    }

    /// The reading that is known of the table.
    fn known(&self) -> Option<u8>
        ensures { result ≡ known (setting_in self.now.standing.now) (list_in self.now.standing.now) self.now.column self.now.table }
    {
        sight_in(self.standing, self.column).reading(self.table)
    }

    /// The reading that is known of the table, and the fewest links to a table that is marked with it.
    fn told(&self) -> Option<(Reading, u8)>
        ensures { result ≡ reading_and_distance (known (setting_in self.now.standing.now) (list_in self.now.standing.now) self.now.column self.now.table) (distance (setting_in self.now.standing.now) (list_in self.now.standing.now) self.now.column self.now.table) }
    {
        let reading = self.known()?;
        let distance = self.distance()?;
        Some((Reading(reading), distance))
    }
}

/// What follows for table a at slot i: the reading, by its lowest name, and the fewest links in a chain from the table to one
/// that is marked. Nothing where no reading follows, or where a or i is no name.
pub fn told(standing: &Standing, a: Table, i: Slot) -> Option<(Reading, u8)>
    ensures { result ≡ told_answer standing.now a.0 i.0 }
{
    if a.0 >= standing.tables() {
        return None;
    }
    let c = lowest_slot(standing, i.0)?;
    let asked = Asked {
        standing,
        column: Column::At(Slot(c)),
        table: a.0,
    };
    asked.told()
}
