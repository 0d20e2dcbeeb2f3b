//! Why two names are the same: the fewest pairings in a chain between them.

ghost use Rattle.std.specs.Prelude.{◌≡◌, ◌==◌, nat_eq};
ghost use Rattle.links.specs.Chains.{Nearest};
ghost use Rattle.paired.specs.Held.{entries_of, pairings_of};
ghost use Rattle.paired.specs.Pairings.{answer, name_questions, why_of};
ghost use Rattle.paired.specs.Entries.{entries_inside};
ghost use Rattle.std.proofs.Common.{arith};

use crate::store::Paired;
use arrangement::Refusal;
use search::entry::Entry;
use search::goal::Goal;
use search::linked::Links;
use search::search::search;

/// The name that is looked for.
#[derive(Clone, Copy)]
struct Target(u8);

impl Goal for Target {
    ghost test = { λ target y. (y == target.0) };

    fn met(&self, name: u8) -> bool {
        name == self.0
    }
}

impl Links for Paired {
    ghost entries = { entries_of };

    ghost count = { λ x. x.names };

    ghost few = { λ x. Prim.omega (arith, x.few) };

    ghost inside = { λ x. entries_inside x };

    fn names(&self) -> usize {
        self.names as usize
    }

    fn len(&self) -> usize {
        self.pairs.len()
    }

    fn link(&self, k: usize) -> Option<(u8, u8)> {
        self.pairs.get(k)
    }
}

impl Paired {
    /// The fewest pairings in a chain that joins two names, none where no chain does, and 0 for a name and itself: by a search
    /// whose entries are of any kind.
    pub fn why_by<E: Entry>(&self, i: u8, j: u8) -> Result<Option<u8>, Refusal>
        ensures is { result ≡ answer (name_questions (pairings_of self.now) i j) (why_of (pairings_of self.now) i j) }
        ensures nearest { Nearest (pairings_of self.now).links (λ y. nat_eq y j) i (why_of (pairings_of self.now) i j) }
    {
        if !self.are_names(i, j) {
            return Err(Refusal::NameNotBelowCount);
        }
        Ok(search::<Paired, Target, E>(self, &Target(j), i))
    }

    /// So, by a search of bare names.
    pub fn why(&self, i: u8, j: u8) -> Result<Option<u8>, Refusal>
        ensures is { result ≡ answer (name_questions (pairings_of self.now) i j) (why_of (pairings_of self.now) i j) }
        ensures nearest { Nearest (pairings_of self.now).links (λ y. nat_eq y j) i (why_of (pairings_of self.now) i j) }
    {
        self.why_by::<u8>(i, j)
    }
}
