//! How a program that measures is asked to, and how it prints a time.

#![tactic(auto)]

ghost use Rattle.std.specs.Prelude.{◌≡◌, ◌/◌, max, nat_eq, Some};
ghost use Rattle.timing.specs.Shown.{shown};
ghost use Rattle.timing.specs.Words.{time_word};
ghost use Rattle.std.specs.Cmp.Lexicographic.{pointwise};

use std::fmt;

/// Is it the word `time`, by which a program is asked for times?
// Of one word, and not of all that were given: what a program was given is no value that a contract could speak of.
pub fn asks_for_times(word: &str) -> bool
    ensures { result ≡ pointwise nat_eq word.now time_word }
{
    word == "time"
}

/// A number of thousandths, printed with three digits after a point.
#[derive(Clone, Copy)]
pub struct Thousandths(pub u128);

impl fmt::Display for Thousandths {
    ghost output = { λ x. Some (shown x.0) };

    fn fmt<W: fmt::Write>(&self, f: &mut fmt::Formatter<W>) -> fmt::Result {
        let whole = self.0 / 1000;
        let rest = self.0 % 1000;
        write!(f, "{whole}.{rest:03}")
    }
}

/// What one call took, where so many took all together.
pub fn each(all: u128, calls: u32) -> Thousandths
    ensures { result.0 ≡ all / max calls 1 }
{
    Thousandths(all / u128::from(calls.max(1)))
}
