//! Does a list of statements fit?

ghost use Rattle.std.specs.Prelude.{◌≡◌};
ghost use Rattle.column.specs.Naming.{setting_of};
ghost use Rattle.column.specs.Sights.{given, is_readable as is_readable_of};
ghost use Rattle.decision.specs.Trials.{fits_answer, setting, tried};
ghost use Rattle.meaning.specs.Columns.{test};

use crate::sights::Sights;
use crate::trial::Trial;
use column::Naming;
use meaning::Column;
use statement::{Slot, Statement};

impl Trial<'_> {
    /// Does a filling fit the list?
    ///
    /// Not where readings clash at a column. Elsewhere aside, only the columns are looked at that a statement names a slot of:
    /// the others look as elsewhere.
    pub fn fits(&self) -> bool
        ensures { result ≡ test (setting self.now) (tried self.now) }
    {
        let elsewhere = self.sight(Column::Elsewhere);
        if elsewhere.clashes() {
            return false;
        }
        let named = self.classes_named();
        let mut each = [elsewhere; 64];
        for (c, seen) in each.iter_mut().enumerate() {
            if named[c] {
                *seen = self.sight(Column::At(Slot(c as u8)));
                if seen.clashes() {
                    return false;
                }
            }
        }
        let sights = Sights {
            elsewhere: &elsewhere,
            each: &each,
        };
        sights.fits(self)
    }
}

/// Does a filling fit the offered statement, those kept and the rest? No where a name is not below the counts.
pub fn fits(naming: &Naming, offered: Statement, kept: &[Statement], rest: &[Statement]) -> bool
    ensures { result ≡ fits_answer (setting_of naming.now) (given offered kept.now rest.now) }
{
    is_readable(naming, offered, kept, rest)
        && (Trial {
            naming,
            offered,
            kept,
            rest,
        })
        .fits()
}

/// Are all names of the statements below the counts?
pub(crate) fn is_readable(
    naming: &Naming,
    offered: Statement,
    kept: &[Statement],
    rest: &[Statement],
) -> bool
    ensures { result ≡ is_readable_of (setting_of naming.now) (given offered kept.now rest.now) }
{
    naming.is_within(128, offered) && naming.can_read(kept) && naming.can_read(rest)
}
