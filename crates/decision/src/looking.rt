//! Looking at a list that is tried.

ghost use Rattle.std.specs.Prelude.{◌≡◌, ℕ, ◌<◌, false, ◌||◌, [], ◌∷◌, slice_index_or};
ghost use Rattle.column.specs.Naming.{setting_of};
ghost use Rattle.column.specs.Sights.{Readable, SeenAt};
ghost use Rattle.decision.specs.Looks.{is_named_in};
ghost use Rattle.decision.specs.Trials.{setting, tried};

use crate::trial::Trial;
use column::{Naming, Sight, View, slot_of};
use meaning::Column;
use statement::Statement;

/// Notes the lowest name of the class of the statement's slot.
fn note_class(named: &mut [bool; 64], naming: &Naming, x: Statement)
    ensures { (c : ℕ) → c < 64 → Readable (setting_of naming.now) (x ∷ []) → slice_index_or named.new c false ≡ (slice_index_or named.old c false || is_named_in (setting_of naming.now).slots (x ∷ []) c) }
{
    if let Some(i) = slot_of(x)
        && let Some(c) = naming.slots.lowest(i)
    {
        named[c as usize] = true;
    }
}

/// Notes the lowest names of the classes of the statements' slots.
fn note_classes(named: &mut [bool; 64], naming: &Naming, xs: &[Statement])
    ensures { (c : ℕ) → c < 64 → Readable (setting_of naming.now) xs.now → slice_index_or named.new c false ≡ (slice_index_or named.old c false || is_named_in (setting_of naming.now).slots xs.now c) }
{
    for x in xs {
        note_class(named, naming, *x);
    }
}

impl Trial<'_> {
    /// The sight of a column of the list.
    #[inline(always)]
    pub(crate) fn sight(&self, column: Column) -> Sight
        ensures { SeenAt (setting self.now) (tried self.now) column result }
    {
        let view = View {
            naming: self.naming,
            column,
        };
        view.sight(&[&[self.offered], self.kept, self.rest])
    }

    /// Which names are the lowest of a class that a statement names a slot of.
    pub(crate) fn classes_named(&self) -> [bool; 64]
        ensures { (c : ℕ) → c < 64 → slice_index_or result c false ≡ is_named_in (setting self.now).slots (tried self.now) c }
    {
        let mut named = [false; 64];
        note_class(&mut named, self.naming, self.offered);
        note_classes(&mut named, self.naming, self.kept);
        note_classes(&mut named, self.naming, self.rest);
        named
    }
}
