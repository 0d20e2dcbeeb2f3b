//! Why an arrangement is not changed.

ghost use Rattle.std.specs.Prelude.{◌≡◌};
ghost use Rattle.arrangement.specs.Refusals.{number_of};

/// Why an arrangement is not changed. One enum serves them all, so that a number has one meaning.
#[derive(Clone, Copy, PartialEq, Eq, Debug)]
pub enum Refusal {
    /// there would be more than 64 names
    TooManyNames = 21,
    /// a name is at or above the count
    NameNotBelowCount = 22,
    /// the one pair is set already
    PairAlreadySet = 23,
    /// as many pairings are held as there is room for
    TooManyPairings = 24,
}

impl Refusal {
    /// The number by which the refusal is reported.
    pub fn number(self) -> u8
        ensures { result ≡ number_of self }
    {
        self as u8
    }
}
