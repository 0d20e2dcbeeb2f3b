//! What a statement says at every column.

ghost use Rattle.std.specs.Prelude.{◌≡◌};
ghost use Rattle.meaning.specs.Columns.{difference as difference_of};
ghost use Rattle.meaning.specs.Fillings.{slot_of};

use statement::Statement;

/// The slot that the statement names, if it names one.
pub fn slot_of(x: Statement) -> Option<u8>
    ensures { result ≡ slot_of x }
{
    match x {
        Statement::W { i, .. } | Statement::R { i, .. } => Some(i.0),
        Statement::E { .. } | Statement::D { .. } => None,
    }
}

/// The two tables that differ, since the statement says so.
pub fn difference(x: Statement) -> Option<(u8, u8)>
    ensures { result ≡ difference_of x }
{
    match x {
        Statement::D { a, b } => Some((a.0, b.0)),
        _ => None,
    }
}
