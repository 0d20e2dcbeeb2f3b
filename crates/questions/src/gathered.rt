//! The links of a column, gathered once for a search.

ghost use Rattle.std.specs.Prelude.{◌≡◌, ◌≤◌, true};
ghost use Rattle.std.specs.List.{list_all};
ghost use Rattle.bounded.specs.Items.{items_of};
ghost use Rattle.questions.specs.Links.{is_inside};

use bounded::Bounded;

/// Links between tables, with a gap for each statement that links none: a search asks for every link again and again, and
/// reads them here as they stand.
#[derive(Clone, Copy)]
pub(crate) struct Gathered {
    pub(crate) tables: u8,
    pub(crate) links: Bounded<Option<(u8, u8)>, 512>,
    ghost few: { tables ≤ 128 },
    ghost inside: { list_all (is_inside tables) (items_of links) ≡ true },
}
