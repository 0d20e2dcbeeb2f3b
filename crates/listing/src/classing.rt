//! Finding the classes of two names and more.

ghost use Rattle.std.specs.Prelude.{◌≡◌, ◌+◌, ◌<◌, ◌≤◌, ◌++◌, length, vec_len, vec_capacity};
ghost use Rattle.listing.specs.Classes.{class_of, leads, members_of};
ghost use Rattle.listing.specs.Lines.{class_lines};
ghost use Rattle.paired.specs.Held.{pairings_of};
ghost use Rattle.paired.specs.Pairings.{meaning_of};

use crate::class::{Class, Sort};
use crate::line::Line;
use arrangement::Arrangement;
use paired::store::Paired;

/// Is the name the lowest of these members, and not the only one?
fn leads(members: &[bool], name: usize) -> bool
    requires { name < length members.now }
    ensures { result ≡ leads members.now name }
{
    !members[..name].contains(&true) && members[name + 1..].contains(&true)
}

/// For each name whether it is the same as this one.
fn members(names: &Paired, name: u8) -> [bool; 64]
    ensures { result ≡ members_of (meaning_of (pairings_of names.now)) name }
{
    std::array::from_fn(|other| names.same(name, other as u8))
}

/// The class whose lowest name this is, if it has two names and more.
fn class_of(names: &Paired, sort: Sort, name: u8) -> Option<Class>
    requires { name < 64 }
    ensures { result ≡ class_of sort (meaning_of (pairings_of names.now)) name }
{
    let members = members(names, name);
    leads(&members, name as usize).then_some(Class { sort, members })
}

/// Lists the classes of one sort.
// Room is a premise: the list is taken out of its Listing by then, whose type keeps it.
pub(crate) fn list_classes(names: &Paired, sort: Sort, lines: &mut Vec<Line>)
    requires { vec_len lines.old + 64 ≤ vec_capacity lines.old }
    ensures listed { lines.new.items ≡ lines.old.items ++ class_lines sort (meaning_of (pairings_of names.now)) }
    ensures few { vec_len lines.new ≤ vec_len lines.old + 64 }
    ensures room { vec_capacity lines.new ≡ vec_capacity lines.old }
{
    // No `extend`: it may fail, and here there is room, which the caller has kept for 64 lines.
    for name in 0..names.count() {
        if let Some(class) = class_of(names, sort, name) {
            lines.push_reserved(Line::Grouped(class));
        }
    }
}
