//! What all columns show.

ghost use Rattle.std.specs.Prelude.{◌≡◌, length};

use column::Sight;

/// The sight of elsewhere, and at each name the sight of a column: at the lowest name of a slot class that of its column.
///
/// They are lent, since copies of all of them would take longer than looking.
#[derive(Clone, Copy)]
pub(crate) struct Sights<'a> {
    pub(crate) elsewhere: &'a Sight,
    pub(crate) each: &'a [Sight],
    ghost long: { length each.now ≡ 64 },
}
