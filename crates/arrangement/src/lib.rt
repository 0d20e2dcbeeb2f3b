//! Arrangements: which names name the same thing.

#![tactic(auto)]

ghost use Rattle.std.specs.Prelude.{◌≡◌, ℕ, ◌<◌, ◌≤◌, true};
ghost use Rattle.arrangement.specs.Meaning.{Meaning, same};

mod assigned;
mod assigning;
mod classed;
mod classes;
mod equals;
mod joined;
mod refusal;
mod stored;

pub use assigned::Assigned;
pub use classed::Classed;
pub use classes::Classes;
pub use equals::are_equal;
pub use joined::Joined;
pub use refusal::Refusal;

/// Which names name the same thing. A user asks by `count` and `same` alone, and may rely on the laws.
pub trait Arrangement {
    ghost meaning: { Self → Meaning };

    /// How many names there are; they are the numbers below it.
    fn count(&self) -> u8
        ensures { result ≡ (meaning self.now).size };

    /// Do both name the same thing? No where one of them is no name.
    fn same(&self, i: u8, j: u8) -> bool
        ensures { result ≡ same (meaning self.now) i j };

    ghost bounded: { (x : Self) → (meaning x).size ≤ 64 };

    ghost reflexive: { (x : Self) (i : ℕ) → i < (meaning x).size → same (meaning x) i i ≡ true };

    ghost symmetric: { (x : Self) (i j : ℕ) → same (meaning x) i j ≡ true → same (meaning x) j i ≡ true };

    ghost transitive: { (x : Self) (i j k : ℕ) → same (meaning x) i j ≡ true → same (meaning x) j k ≡ true → same (meaning x) i k ≡ true };
}
