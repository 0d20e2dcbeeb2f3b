//! The columns of the standing statements.

ghost use Rattle.std.specs.Prelude.{◌≡◌};
ghost use Rattle.arrangement.specs.Stored.{lowest_of};
ghost use Rattle.column.specs.Sights.{SeenAt};
ghost use Rattle.questions.specs.Asked.{list_in, setting_in};

use column::{Sight, View};
use meaning::Column;
use standing::Standing;

/// The lowest name of a slot's class, where the slot is a name.
pub(crate) fn lowest_slot(standing: &Standing, i: u8) -> Option<u8>
    ensures { result ≡ lowest_of (setting_in standing.now).slots i }
{
    standing.naming().slots.lowest(i)
}

/// A column, with the classes under which the standing statements are read.
// Both are parameters of three functions: a view has neither the statements nor the count of tables, and a struct of the two would
// only be taken apart again.
pub(crate) fn view_in(standing: &Standing, column: Column) -> View<'_>
    ensures naming { result.naming.now ≡ standing.now.naming }
    ensures column { result.column ≡ column }
{
    View {
        naming: standing.naming(),
        column,
    }
}

/// The sight of a column of the standing statements.
pub(crate) fn sight_in(standing: &Standing, column: Column) -> Sight
    ensures { SeenAt (setting_in standing.now) (list_in standing.now) column result }
{
    view_in(standing, column).sight(&[standing.statements()])
}
