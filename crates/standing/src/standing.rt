//! The table of standing statements.

ghost use Rattle.std.specs.Prelude.{◌≡◌, ◌≤◌, true, vec_len, vec_capacity};
ghost use Rattle.standing.specs.Kept.{is_standing};

use column::Naming;
use statement::Statement;

/// The statements that stand, in order, how many tables there are, and the classes of names that statements are read under.
/// Every value of this type names only tables, slots and readings below its counts, and its statements fit together.
#[derive(Drop)]
pub struct Standing {
    pub(crate) tables: u8,
    pub(crate) naming: Naming,
    pub(crate) list: Vec<Statement>,
    ghost stands: { is_standing tables naming list.items ≡ true },
    ghost few: { tables ≤ 128 },
    ghost room: { 512 ≤ vec_capacity list },
    ghost short: { vec_len list ≤ 512 },
}
