//! Names that are the same, and how they are printed.

ghost use Rattle.std.specs.Prelude.{Some};
ghost use Rattle.listing.specs.Classes.{shown_class, shown_member, shown_sort};

use std::fmt;

/// Which names they are.
#[derive(Clone, Copy, PartialEq, Eq, Debug)]
pub enum Sort {
    Slots,
    Readings,
}

impl fmt::Display for Sort {
    ghost output = { λ sort. Some (shown_sort sort) };

    fn fmt<W: fmt::Write>(&self, f: &mut fmt::Formatter<W>) -> fmt::Result {
        match self {
            Sort::Slots => f.write_str("slots"),
            Sort::Readings => f.write_str("readings"),
        }
    }
}

/// A class: for each name whether it belongs to it.
#[derive(Clone, Copy, PartialEq, Eq, Debug)]
pub struct Class {
    pub sort: Sort,
    pub members: [bool; 64],
}

/// A name as it is printed where it belongs to the class, and nothing where it does not.
// A flag beside the name, so that the loop over the members writes one thing for each and has no branch. Not the operand of a
// record, which asks a sort of the table of kinds.
#[derive(Clone, Copy)]
struct Member {
    name: usize,
    belongs: bool,
}

impl fmt::Display for Member {
    ghost output = { λ member. Some (shown_member member.belongs member.name) };

    fn fmt<W: fmt::Write>(&self, f: &mut fmt::Formatter<W>) -> fmt::Result {
        let Member { name, belongs } = *self;
        if belongs {
            write!(f, " {name}")
        } else {
            Ok(())
        }
    }
}

impl fmt::Display for Class {
    ghost output = { λ class. Some (shown_class class) };

    fn fmt<W: fmt::Write>(&self, f: &mut fmt::Formatter<W>) -> fmt::Result {
        let sort = self.sort;
        write!(f, "{sort}")?;
        for (name, &belongs) in self.members.iter().enumerate() {
            let member = Member { name, belongs };
            write!(f, "{member}")?;
        }
        Ok(())
    }
}
