//! At how many slots two tables can differ.

ghost use Rattle.std.specs.Prelude.{◌≡◌, ◌<◌, ◌==◌};
ghost use Rattle.arrangement.specs.Meaning.{lowest};
ghost use Rattle.links.specs.Lists.{Member};
ghost use Rattle.meaning.specs.Answers.{apart as apart_of, bits_of, unlike_columns};
ghost use Rattle.meaning.specs.Columns.{columns};
ghost use Rattle.questions.specs.Asked.{apart_answer, list_in, setting_in, unlike_at, unlike_class};

use crate::sighting::{lowest_slot, sight_in};
use arrangement::Arrangement;
use meaning::{Apart, Column};
use standing::Standing;
use statement::{Slot, Table};

/// Two of the tables.
#[derive(Clone, Copy)]
struct Couple<'a> {
    standing: &'a Standing,
    a: u8,
    b: u8,
    ghost first: { a < standing.now.tables },
    ghost second: { b < standing.now.tables },
}

/// Is c the lowest name of its slot class?
fn is_lowest(standing: &Standing, c: u8) -> bool
    ensures { c < (setting_in standing.now).slots.size → result ≡ (lowest (setting_in standing.now).slots c == c) }
{
    lowest_slot(standing, c).is_some_and(|low| low == c)
}

impl Couple<'_> {
    /// Are the tables not alike at the column?
    fn are_unlike(&self, column: Column) -> bool
        ensures { Member column (columns (setting_in self.now.standing.now)) → result ≡ unlike_at self.now.standing.now self.now.a self.now.b column }
    {
        !sight_in(self.standing, column).are_alike(self.a, self.b)
    }

    /// Is c the lowest name of a slot class at which the tables are not alike?
    fn is_unlike_class(&self, c: u8) -> bool
        ensures { c < (setting_in self.now.standing.now).slots.size → result ≡ unlike_class self.now.standing.now self.now.a self.now.b c }
    {
        is_lowest(self.standing, c) && self.are_unlike(Column::At(Slot(c)))
    }

    /// The slot classes at which the tables are not alike: a bit for the lowest name of each.
    fn unlike_classes(&self) -> u64
        ensures { result ≡ bits_of (unlike_columns (setting_in self.now.standing.now) (list_in self.now.standing.now) (self.now.a, self.now.b)) }
    {
        let mut set = 0;
        for c in 0..self.standing.naming().slots.count() {
            if self.is_unlike_class(c) {
                set |= 1 << c;
            }
        }
        set
    }

    /// At how many slots the tables can differ: without limit where they are not alike elsewhere.
    fn apart(&self) -> Apart
        ensures { result ≡ apart_of (setting_in self.now.standing.now) (list_in self.now.standing.now) self.now.a self.now.b }
    {
        if self.are_unlike(Column::Elsewhere) {
            return Apart::NoLimit;
        }
        let set = self.unlike_classes();
        Apart::Limit {
            set,
            count: set.count_ones(),
        }
    }
}

/// At how many slots tables a and b can differ, in fillings that fit. Nothing where a or b is no name.
pub fn apart(standing: &Standing, a: Table, b: Table) -> Option<Apart>
    ensures { result ≡ apart_answer standing.now a.0 b.0 }
{
    let tables = standing.tables();
    if a.0 >= tables || b.0 >= tables {
        return None;
    }
    let couple = Couple {
        standing,
        a: a.0,
        b: b.0,
    };
    Some(couple.apart())
}
