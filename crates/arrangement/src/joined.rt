//! One pair of names, laid over any arrangement.

ghost use Rattle.std.specs.Prelude.{◌≡◌, None};
ghost use Rattle.arrangement.specs.Joins.{joined_each};
ghost use Rattle.arrangement.specs.Pairs.{across, joined_meaning, meets, pair_after, pair_answer};

use crate::Arrangement;
use crate::refusal::Refusal;

/// An arrangement in which two names, with all that are the same as they, are made the same.
///
/// That the two are names is not kept, since the arrangement below answers no to what is no name of its own.
#[derive(Drop)]
pub struct Joined<A> {
    pub(crate) inner: A,
    pub(crate) pair: Option<(u8, u8)>,
}

impl<A: Arrangement> Joined<A> {
    /// The arrangement as it is, with no pair set.
    pub fn over(inner: A) -> Joined<A>
        ensures inner { result.inner ≡ inner }
        ensures pair { result.pair ≡ None }
    {
        Joined { inner, pair: None }
    }

    /// Sets the one pair. A name may be paired with itself, and that uses up the pair. A refusal changes nothing.
    pub fn set_pair(&mut self, p: u8, q: u8) -> Result<(), Refusal>
        ensures answer { result ≡ pair_answer (A.Arrangement.meaning self.old.inner).size self.old.pair p q }
        ensures pair { self.new.pair ≡ pair_after (A.Arrangement.meaning self.old.inner).size self.old.pair p q }
        ensures inner { self.new.inner ≡ self.old.inner }
    {
        let count = self.inner.count();
        if p >= count || q >= count {
            return Err(Refusal::NameNotBelowCount);
        }
        if self.pair.is_some() {
            return Err(Refusal::PairAlreadySet);
        }
        self.pair = Some((p, q));
        Ok(())
    }

    /// Is i the same below as p, and j as q?
    fn meets(&self, p: u8, q: u8, i: u8, j: u8) -> bool
        ensures { result ≡ meets (A.Arrangement.meaning self.now.inner) p q i j }
    {
        self.inner.same(i, p) && self.inner.same(j, q)
    }

    /// Does the pair lead from i to j, one way round or the other?
    fn across(&self, i: u8, j: u8) -> bool
        ensures { result ≡ across (A.Arrangement.meaning self.now.inner) self.now.pair i j }
    {
        self.pair
            .is_some_and(|(p, q)| self.meets(p, q, i, j) || self.meets(q, p, i, j))
    }
}

impl<A: Arrangement> Arrangement for Joined<A> {
    ghost meaning = { λ x. joined_meaning (A.Arrangement.meaning x.inner) x.pair };

    ghost bounded = { λ x. A.bounded x.inner };

    ghost reflexive = { λ x. (joined_each A.meaning A.bounded A.reflexive A.symmetric A.transitive x.inner x.pair).itself };

    ghost symmetric = { λ x. (joined_each A.meaning A.bounded A.reflexive A.symmetric A.transitive x.inner x.pair).back };

    ghost transitive = { λ x. (joined_each A.meaning A.bounded A.reflexive A.symmetric A.transitive x.inner x.pair).through };

    fn count(&self) -> u8 {
        self.inner.count()
    }

    fn same(&self, i: u8, j: u8) -> bool {
        self.inner.same(i, j) || self.across(i, j)
    }
}
