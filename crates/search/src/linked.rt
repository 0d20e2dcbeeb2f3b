//! Links that can be searched.

ghost use Rattle.std.specs.Prelude.{◌≡◌, ℕ, ◌≤◌, List, length, None, Option, slice_index_or};
ghost use Rattle.search.specs.Entries.{Inside};
ghost use Rattle.std.specs.List.{AllByRecursion};

/// Links between names below a count, which run both ways. They stand in entries, of which some may be no link,
/// so that a table with gaps is searched as it stands.
pub trait Links {
    ghost entries: { Self → List (Option (ℕ × ℕ)) };

    ghost count: { Self → ℕ };

    /// How many names there are: the names are the numbers below it.
    fn names(&self) -> usize
        ensures { result ≡ count self.now };

    /// How many entries there are.
    fn len(&self) -> usize
        ensures { result ≡ length (entries self.now) };

    /// The two ends of an entry, if it is a link.
    fn link(&self, k: usize) -> Option<(u8, u8)>
        ensures { result ≡ slice_index_or (entries self.now) k None };

    ghost few: { (x : Self) → count x ≤ 128 };

    ghost inside: { (x : Self) → AllByRecursion (Inside (count x)) (entries x) };
}
