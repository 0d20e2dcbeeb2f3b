//! What is looked for.

ghost use Rattle.std.specs.Prelude.{◌≡◌, ℕ, Bool};

/// A test of names: the search ends at a name that passes.
// A trait, and no closure: to call a closure parameter needs a `requires`, and a public call has none.
pub trait Goal {
    ghost test: { Self → ℕ → Bool };

    /// Is the name one that is looked for?
    fn met(&self, name: u8) -> bool
        ensures { result ≡ test self.now name };
}
