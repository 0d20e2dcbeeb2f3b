//! The lowest name of each class of names.

ghost use Rattle.std.specs.Prelude.{◌≡◌, ℕ, ◌<◌, ◌≤◌, length, slice_index};
ghost use Rattle.bounded.specs.Items.{items_of};

use bounded::Bounded;

/// For each name, of at most 64, the lowest name that is the same.
#[derive(Clone, Copy)]
pub struct Classes {
    pub lowest: Bounded<u8, 64>,
    ghost down: { (i : ℕ) → i < length (items_of lowest) → slice_index (items_of lowest) i ≤ i },
    ghost root: { (i : ℕ) → i < length (items_of lowest) → slice_index (items_of lowest) (slice_index (items_of lowest) i) ≡ slice_index (items_of lowest) i },
}
