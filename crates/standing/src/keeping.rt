//! Changing a table of standing statements, so that what its type keeps still holds.

ghost use Rattle.std.specs.Prelude.{◌≡◌, slice_get};
ghost use Rattle.standing.specs.Stands.{added, admits, fitting, nothing, opened, opens, removed, stands_of};

use crate::memory::{MOST, Room};
use crate::standing::Standing;
use column::Naming;
use decision::Trial;
use statement::Statement;

/// How many tables there can be.
pub const MOST_TABLES: u8 = 128;

impl Standing {
    /// No table, and no statement.
    pub fn new(room: Room, naming: Naming) -> Standing
        ensures { stands_of result ≡ nothing naming }
    {
        Standing {
            tables: 0,
            naming,
            list: room.into_list(),
        }
    }

    /// Sets how many tables there are, and answers whether it did: no fewer than before, so that no statement loses its tables.
    pub fn open(&mut self, tables: u8) -> bool
        ensures answer { result ≡ opens (stands_of self.old) tables }
        ensures holds { stands_of self.new ≡ opened (stands_of self.old) tables }
    {
        if tables < self.tables || tables > MOST_TABLES {
            return false;
        }
        self.tables = tables;
        true
    }

    /// Does the statement fit with those that stand? No where one of its names is not below the counts.
    pub fn fits(&self, offered: Statement) -> bool
        ensures { result ≡ fitting (stands_of self.now) offered }
    {
        if !self.naming.is_within(self.tables, offered) {
            return false;
        }
        let trial = Trial {
            naming: &self.naming,
            offered,
            kept: &[],
            rest: self.list.as_slice(),
        };
        trial.fits()
    }

    /// Adds a statement at the end, if there is a place for it and it fits with those that stand, and answers whether it did.
    pub fn add(&mut self, x: Statement) -> bool
        ensures answer { result ≡ admits (stands_of self.old) x }
        ensures holds { stands_of self.new ≡ added (stands_of self.old) x }
    {
        if self.list.len() >= MOST {
            return false;
        }
        if !self.fits(x) {
            return false;
        }
        self.list.push_reserved(x);
        true
    }

    /// Takes away the statement at place k, if there is one, and gives it back.
    pub fn remove(&mut self, k: usize) -> Option<Statement>
        ensures answer { result ≡ slice_get (stands_of self.old).statements k }
        ensures holds { stands_of self.new ≡ removed (stands_of self.old) k }
    {
        if k >= self.list.len() {
            return None;
        }
        Some(self.list.remove(k))
    }
}
