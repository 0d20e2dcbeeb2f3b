//! A column, and what statements say there.

ghost use Rattle.std.specs.Prelude.{◌≡◌};
ghost use Rattle.column.specs.Naming.{setting_of};
ghost use Rattle.meaning.specs.Columns.{here, link_at, mark_at};

use crate::naming::Naming;
use arrangement::Arrangement;
use meaning::Column;
use statement::{Slot, Statement};

/// A column, and the classes of names under which it is read.
#[derive(Clone, Copy)]
pub struct View<'a> {
    pub naming: &'a Naming,
    pub column: Column,
}

impl View<'_> {
    /// Is the slot of the column's class?
    fn is_here(&self, slot: Slot) -> bool
        ensures { result ≡ here (setting_of self.now.naming.now) self.now.column slot.0 }
    {
        match self.column {
            Column::At(c) => self.naming.slots.same(c.0, slot.0),
            Column::Elsewhere => false,
        }
    }

    /// The two tables that the statement links at the column.
    pub fn link(&self, x: Statement) -> Option<(u8, u8)>
        ensures { result ≡ link_at (setting_of self.now.naming.now) self.now.column x }
    {
        match x {
            Statement::W { b, a, i, .. } if !self.is_here(i) => Some((b.0, a.0)),
            Statement::E { a, b } => Some((a.0, b.0)),
            _ => None,
        }
    }

    /// The table that the statement marks at the column, and the reading.
    pub fn mark(&self, x: Statement) -> Option<(u8, u8)>
        ensures { result ≡ mark_at (setting_of self.now.naming.now) self.now.column x }
    {
        match x {
            Statement::W { b: t, i, v, .. } | Statement::R { a: t, i, v } if self.is_here(i) => {
                Some((t.0, v.0))
            }
            _ => None,
        }
    }
}
