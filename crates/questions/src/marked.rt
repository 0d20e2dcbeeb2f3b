//! The tables that are marked at a column.

ghost use Rattle.std.specs.Prelude.{◌≡◌, ℕ, ◌<◌, false, ◌||◌, [], ◌∷◌, length, slice_index_or};
ghost use Rattle.column.specs.Naming.{setting_of};
ghost use Rattle.links.specs.Lists.{present};
ghost use Rattle.meaning.specs.Answers.{bears};
ghost use Rattle.meaning.specs.Columns.{mark_at, marks_at};

use column::View;
use search::goal::Goal;
use statement::Statement;

/// The tables that the statements mark at the column: what a search for the nearest mark looks for. They are noted once, since a
/// search asks for them again and again.
#[derive(Clone, Copy)]
pub(crate) struct Marked<'a> {
    pub(crate) view: View<'a>,
    pub(crate) list: &'a [Statement],
    // A place for every name that there can be, so that none has to be tested.
    tables: [bool; 256],
    ghost long: { length tables ≡ 256 },
    ghost noted: { (t : ℕ) → t < 256 → slice_index_or tables t false ≡ bears (marks_at (setting_of view.naming.now) list.now view.column) t },
}

/// Notes the table that the statement marks at the column, if it marks one.
fn note_mark(tables: &mut [bool; 256], view: &View<'_>, x: Statement)
    ensures { (t : ℕ) → t < 256 → slice_index_or tables.new t false ≡ (slice_index_or tables.old t false || bears (present (mark_at (setting_of view.now.naming.now) view.now.column x ∷ [])) t) }
{
    if let Some((table, _)) = view.mark(x) {
        tables[table as usize] = true;
    }
}

impl<'a> Marked<'a> {
    /// The tables that the statements mark at the column of the view.
    pub(crate) fn of(view: View<'a>, list: &'a [Statement]) -> Marked<'a>
        ensures view { result.view ≡ view.entry }
        ensures list { result.list.now ≡ list.now }
    {
        let mut tables = [false; 256];
        for x in list {
            note_mark(&mut tables, &view, *x);
        }
        Marked { view, list, tables }
    }
}

impl Goal for Marked<'_> {
    ghost test = { λ x. bears (marks_at (setting_of x.view.naming.now) x.list.now x.view.column) };

    fn met(&self, name: u8) -> bool {
        self.tables[name as usize]
    }
}
