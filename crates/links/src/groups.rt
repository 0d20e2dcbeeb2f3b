//! For each name the lowest name that it is joined to.

ghost use Rattle.std.specs.Prelude.{◌≡◌, ℕ, ◌<◌, ◌≤◌, length, slice_index};

/// How many names there are at the most: 0 to 127.
pub const NAMES: usize = 128;

/// The groups of names that are joined, each known by its lowest name.
#[derive(Clone, Copy)]
pub struct Groups {
    pub(crate) root: [u8; 128],
    ghost long: { length root ≡ 128 },
    ghost down: { (t : ℕ) → t < 128 → slice_index root t ≤ t },
}
