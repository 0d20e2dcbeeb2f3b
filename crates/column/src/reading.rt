//! Which statements can be read.

ghost use Rattle.std.specs.Prelude.{◌≡◌, nat_lt};
ghost use Rattle.std.specs.List.{list_all};
ghost use Rattle.column.specs.Naming.{setting_of};
ghost use Rattle.column.specs.Sights.{is_readable};
ghost use Rattle.meaning.specs.Fillings.{below, is_within, reading_of, tables_of};

use crate::acts::slot_of;
use crate::naming::Naming;
use arrangement::Arrangement;
use statement::Statement;

/// The reading that the statement names, if it names one.
pub fn reading_of(x: Statement) -> Option<u8>
    ensures { result ≡ reading_of x }
{
    match x {
        Statement::W { v, .. } | Statement::R { v, .. } => Some(v.0),
        Statement::E { .. } | Statement::D { .. } => None,
    }
}

/// Is the name, if there is one, below the count?
pub fn is_below(count: u8, name: Option<u8>) -> bool
    ensures { result ≡ below count name }
{
    name.is_none_or(|i| i < count)
}

/// Are the tables that the statement names below the count?
pub fn are_tables_below(tables: u8, x: Statement) -> bool
    ensures { result ≡ list_all (λ t. nat_lt t tables) (tables_of x) }
{
    match x {
        Statement::W { b, a, .. } => b.0 < tables && a.0 < tables,
        Statement::R { a, .. } => a.0 < tables,
        Statement::E { a, b } | Statement::D { a, b } => a.0 < tables && b.0 < tables,
    }
}

impl Naming {
    /// Are all names of the statement below the counts: its tables, its slot and its reading?
    pub fn is_within(&self, tables: u8, x: Statement) -> bool
        ensures { result ≡ is_within tables (setting_of self.now) x }
    {
        are_tables_below(tables, x)
            && is_below(self.slots.count(), slot_of(x))
            && is_below(self.readings.count(), reading_of(x))
    }

    /// So for each of the statements, with 128 tables: as many as there can be.
    pub fn can_read(&self, xs: &[Statement]) -> bool
        ensures { result ≡ is_readable (setting_of self.now) xs.now }
    {
        xs.iter().all(|x| self.is_within(128, *x))
    }
}
