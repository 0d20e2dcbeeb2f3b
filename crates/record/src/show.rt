//! How a record is printed: the letter of its kind, and the fields that count.

ghost use Rattle.std.specs.Prelude.{Some};
ghost use Rattle.record.specs.Shown.{shown_field, shown_record};

use crate::entry::Record;
use crate::kinds::Sort;
use std::fmt;

/// A field as it is printed: a space and the number where it counts, else nothing.
// Its sort beside it, as the table of kinds has it: whether it counts is asked in one place.
#[derive(Clone, Copy)]
struct Operand {
    sort: Sort,
    field: u8,
}

impl fmt::Display for Operand {
    ghost output = { λ x. Some (shown_field x.sort x.field) };

    fn fmt<W: fmt::Write>(&self, f: &mut fmt::Formatter<W>) -> fmt::Result {
        let Operand { sort, field } = *self;
        if sort.counts() {
            write!(f, " {field}")
        } else {
            Ok(())
        }
    }
}

impl fmt::Display for Record {
    ghost output = { λ x. Some (shown_record x) };

    fn fmt<W: fmt::Write>(&self, f: &mut fmt::Formatter<W>) -> fmt::Result {
        let row = self.kind().row();
        let fields = self.fields();
        let [x, y, z, u]: [Operand; 4] = std::array::from_fn(|k| Operand {
            sort: row.sorts[k],
            field: fields[k],
        });
        let letter = char::from(row.byte);
        write!(f, "{letter}{x}{y}{z}{u}")
    }
}
