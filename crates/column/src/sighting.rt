//! Looking at a column.

ghost use Rattle.std.specs.Prelude.{◌≡◌, ℕ, true, ◌||◌, List, [], ◌∷◌, ◌++◌};
ghost use Rattle.column.specs.Naming.{setting_of};
ghost use Rattle.column.specs.Sights.{Readable, Seen, SeenAt, marked_clash, marked_marks, reading_of, seem_alike, whole};
ghost use Rattle.links.specs.Groups.{Roots, root_of};
ghost use Rattle.links.specs.Lists.{present};
ghost use Rattle.meaning.specs.Columns.{link_at, links_at, mark_at, marks_at};
ghost use Rattle.meaning.specs.Fillings.{is_within};

use crate::sight::Sight;
use crate::view::View;
use arrangement::are_equal;
use links::groups::{Groups, NAMES};
use statement::Statement;

impl Sight {
    /// Marks a table's group with a reading, by its lowest name: the first one stays, and another one clashes.
    fn add_mark(&mut self, table: u8, reading: u8)
        ensures groups { self.new.groups ≡ self.old.groups }
        ensures marks { self.new.marks ≡ marked_marks self.old.groups.root self.old.marks table reading }
        ensures clash { self.new.clash ≡ (self.old.clash || marked_clash self.old.groups.root self.old.marks table reading) }
    {
        let root = self.lowest(table) as usize;
        match self.reading(table) {
            None if root < NAMES => self.marks[root] = Some(reading),
            Some(first) if first != reading => self.clash = true,
            _ => {}
        }
    }

    /// Does a chain join tables that are marked with readings that are not the same?
    pub fn clashes(&self) -> bool
        ensures { result ≡ self.now.clash }
    {
        self.clash
    }

    /// The reading of the first mark that the table is joined to, by its lowest name.
    pub fn reading(&self, table: u8) -> Option<u8>
        ensures { result ≡ reading_of self.now table }
    {
        *self.marks.get(self.lowest(table) as usize)?
    }

    /// The lowest table that the table is joined to.
    pub fn lowest(&self, table: u8) -> u8
        ensures { result ≡ root_of self.now.groups.root table }
    {
        self.groups.root(table)
    }

    /// Are the tables joined, or marked with the same reading?
    pub fn are_alike(&self, a: u8, b: u8) -> bool
        ensures { result ≡ seem_alike self.now a b }
    {
        self.groups.are_joined(a, b) || are_equal(self.reading(a), self.reading(b))
    }
}

// A view has no list of its own, so that its statements can be read is a premise of each clause.
impl View<'_> {
    /// Joins the tables that the statement links at the column, if it links two.
    fn add_link(&self, groups: &mut Groups, x: Statement)
        ensures { (links : List (ℕ × ℕ)) → is_within 128 (setting_of self.now.naming.now) x ≡ true → Roots links groups.old.root → Roots (links ++ present (link_at (setting_of self.now.naming.now) self.now.column x ∷ [])) groups.new.root }
    {
        if let Some((a, b)) = self.link(x) {
            groups.join(a, b);
        }
    }

    /// Joins the tables that the statements link at the column.
    fn add_links(&self, groups: &mut Groups, xs: &[Statement])
        ensures { (links : List (ℕ × ℕ)) → Readable (setting_of self.now.naming.now) xs.now → Roots links groups.old.root → Roots (links ++ links_at (setting_of self.now.naming.now) xs.now self.now.column) groups.new.root }
    {
        for x in xs {
            self.add_link(groups, *x);
        }
    }

    /// Marks the table that the statement marks at the column, if it marks one.
    fn add_mark(&self, sight: &mut Sight, x: Statement)
        ensures { (links marks : List (ℕ × ℕ)) → is_within 128 (setting_of self.now.naming.now) x ≡ true → Seen (setting_of self.now.naming.now).readings links marks sight.old → Seen (setting_of self.now.naming.now).readings links (marks ++ present (mark_at (setting_of self.now.naming.now) self.now.column x ∷ [])) sight.new }
    {
        let Some((table, v)) = self.mark(x) else {
            return;
        };
        let Some(reading) = self.naming.readings.lowest(v) else {
            return;
        };
        sight.add_mark(table, reading);
    }

    /// Marks the tables that the statements mark at the column.
    fn add_marks(&self, sight: &mut Sight, xs: &[Statement])
        ensures { (links marks : List (ℕ × ℕ)) → Readable (setting_of self.now.naming.now) xs.now → Seen (setting_of self.now.naming.now).readings links marks sight.old → Seen (setting_of self.now.naming.now).readings links (marks ++ marks_at (setting_of self.now.naming.now) xs.now self.now.column) sight.new }
    {
        for x in xs {
            self.add_mark(sight, *x);
        }
    }

    /// The groups of tables that a list links at the column. Written out too, for `sight`.
    #[inline(always)]
    fn groups(&self, parts: &[&[Statement]]) -> Groups
        ensures { Readable (setting_of self.now.naming.now) (whole parts.now) → Roots (links_at (setting_of self.now.naming.now) (whole parts.now) self.now.column) result.root }
    {
        let mut groups = Groups::new();
        for xs in parts {
            self.add_links(&mut groups, xs);
        }
        groups
    }

    /// The sight of the column, of a list that is given in parts: first all links, then the marks of the groups that they make.
    ///
    /// Written out where it is called, so that the loops know the column: a decision takes a twentieth less.
    #[inline(always)]
    pub fn sight(&self, parts: &[&[Statement]]) -> Sight
        ensures { Readable (setting_of self.now.naming.now) (whole parts.now) → SeenAt (setting_of self.now.naming.now) (whole parts.now) self.now.column result }
    {
        let mut sight = Sight {
            groups: self.groups(parts),
            marks: [None; 128],
            clash: false,
        };
        for xs in parts {
            self.add_marks(&mut sight, xs);
        }
        sight
    }
}
