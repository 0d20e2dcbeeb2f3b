//! What is kept of pairings.

ghost use Rattle.std.specs.Prelude.{◌≡◌, ℕ, ◌<◌, ◌≤◌, length, slice_index, slice_index_or};
ghost use Rattle.bounded.specs.Items.{items_of};
ghost use Rattle.links.specs.Chains.{lowest_joined};

use bounded::Bounded;
use links::groups::Groups;

/// At most 256 pairings of names below a count of at most 64, and the groups that they make of the names.
#[derive(Clone, Copy)]
pub struct Paired {
    pub(crate) names: u8,
    pub(crate) pairs: Bounded<(u8, u8), 256>,
    pub(crate) groups: Groups,
    ghost few: { names ≤ 64 },
    ghost first: { (k : ℕ) → k < length (items_of pairs) → (slice_index_or (items_of pairs) k (0, 0)).0 < names },
    ghost second: { (k : ℕ) → k < length (items_of pairs) → (slice_index_or (items_of pairs) k (0, 0)).1 < names },
    ghost grouped: { (t : ℕ) → t < 128 → slice_index groups.root t ≡ lowest_joined (items_of pairs) t },
}
