//! Setting the count, pairing names, and asking which are the same.

ghost use Rattle.std.specs.Prelude.{◌≡◌, ℕ, ◌<◌, true, ◌↔◌, List, None};
ghost use Rattle.links.specs.Chains.{Joins};
ghost use Rattle.arrangement.specs.Meaning.{same};
ghost use Rattle.paired.specs.Calls.{Call, run};
ghost use Rattle.paired.specs.Held.{pairings_of};
ghost use Rattle.paired.specs.Pairings.{answer, are_names, count_questions, meaning_of, none, pair_questions, with_count, with_pair};
ghost use Rattle.paired.specs.Same;

use crate::store::Paired;
use arrangement::{Arrangement, Refusal};
use bounded::Bounded;
use links::groups::Groups;

/// How many names there are at the most.
const MOST_NAMES: u8 = 64;

impl Paired {
    /// No names, and so no pairings.
    pub fn new() -> Paired
        ensures { pairings_of result ≡ none }
    {
        Paired {
            names: 0,
            pairs: Bounded::new((0, 0)),
            groups: Groups::new(),
        }
    }

    /// Sets how many names there are, and drops the pairings.
    pub fn set_count(&mut self, names: u8) -> Result<(), Refusal>
        ensures answer { result ≡ answer (count_questions names) tt }
        ensures holds { pairings_of self.new ≡ with_count (pairings_of self.old) names }
    {
        if names > MOST_NAMES {
            return Err(Refusal::TooManyNames);
        }
        self.names = names;
        self.pairs.clear();
        self.groups = Groups::new();
        Ok(())
    }

    /// Are both names below the count?
    pub(crate) fn are_names(&self, i: u8, j: u8) -> bool
        ensures { result ≡ are_names (pairings_of self.now) i j }
    {
        i < self.names && j < self.names
    }

    /// Pairs two names.
    pub fn pair(&mut self, i: u8, j: u8) -> Result<(), Refusal>
        ensures answer { result ≡ answer (pair_questions (pairings_of self.old) i j) tt }
        ensures holds { pairings_of self.new ≡ with_pair (pairings_of self.old) i j }
    {
        if !self.are_names(i, j) {
            return Err(Refusal::NameNotBelowCount);
        }
        self.pairs
            .push((i, j))
            .map_err(|_| Refusal::TooManyPairings)?;
        self.groups.join(i, j);
        Ok(())
    }
}

impl Arrangement for Paired {
    ghost meaning = { λ x. meaning_of (pairings_of x) };

    ghost bounded = { λ x. x.few };

    ghost reflexive = { λ x. Same.reflexive (pairings_of x) };

    ghost symmetric = { λ x. Same.symmetric (pairings_of x) };

    ghost transitive = { λ x. Same.transitive (pairings_of x) };

    fn count(&self) -> u8 {
        self.names
    }

    fn same(&self, i: u8, j: u8) -> bool
        ensures is { result ≡ same (meaning_of (pairings_of self.now)) i j }
        ensures after { (calls : List Call) → pairings_of self.now ≡ run none calls → (result ≡ true) ↔ ((i < (run none calls).count) × (j < (run none calls).count) × Joins (run none calls).links i j) }
    {
        self.are_names(i, j) && self.groups.are_joined(i, j)
    }
}
