//! A list of statements that is tried.

ghost use Rattle.column.specs.Naming.{setting_of};
ghost use Rattle.column.specs.Sights.{Readable, given};

use column::Naming;
use statement::Statement;

/// An offered statement, those kept before it, and the rest of a list, with the classes of names under which they are read.
/// Their names are all below the counts.
#[derive(Clone, Copy)]
pub struct Trial<'a> {
    pub naming: &'a Naming,
    pub offered: Statement,
    pub kept: &'a [Statement],
    pub rest: &'a [Statement],
    ghost readable: { Readable (setting_of naming.now) (given offered kept.now rest.now) },
}
