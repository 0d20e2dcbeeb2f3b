//! What a column shows.

ghost use Rattle.std.specs.Prelude.{◌≡◌, length};

use links::groups::Groups;

/// The groups of tables that are joined at a column, the first reading that each group is marked with, by its lowest name,
/// and whether some group is marked with another one too.
// `clash` is beside, and no Result: `questions` looks only at what stands, which never clashes, and would have an arm never taken.
#[derive(Clone, Copy)]
pub struct Sight {
    pub(crate) groups: Groups,
    pub(crate) marks: [Option<u8>; 128],
    pub(crate) clash: bool,
    ghost long: { length marks ≡ 128 },
}
