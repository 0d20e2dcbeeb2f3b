//! An arrangement with the lowest name of each class beside it, so that nothing is asked twice.

ghost use Rattle.std.specs.Prelude.{◌≡◌, ℕ};
ghost use Rattle.arrangement.specs.Meaning.{lowest, same};
ghost use Rattle.arrangement.specs.Stored.{classes_meaning, lowest_of};
ghost use Rattle.arrangement.specs.Kept.{lawful};

use crate::Arrangement;
use crate::classes::Classes;
use bounded::Bounded;

/// An arrangement, and what it answered when this was made.
#[derive(Drop)]
pub struct Classed<A> {
    pub(crate) inner: A,
    pub classes: Classes,
}

/// The lowest name that is the same as i.
fn lowest_in<A: Arrangement>(a: &A, i: u8) -> u8
    ensures { result ≡ lowest (A.Arrangement.meaning a.now) i }
{
    (0..i).find(|j| a.same(*j, i)).unwrap_or(i)
}

/// The lowest name of each class, by `count` and `same` alone.
fn classes_of<A: Arrangement>(a: &A) -> Classes
    ensures size { (classes_meaning result).size ≡ (A.Arrangement.meaning a.now).size }
    ensures agrees { (i j : ℕ) → same (classes_meaning result) i j ≡ same (A.Arrangement.meaning a.now) i j }
{
    let mut lowest = Bounded::new(0);
    for i in 0..a.count() {
        // There is room, since an arrangement has at most 64 names.
        let _ = lowest.push(lowest_in(a, i));
    }
    Classes { lowest }
}

impl<A: Arrangement> Classed<A> {
    /// Asks for the count and which names are the same, and keeps what that gives.
    // No `From`: a conversion would hide that every two names are asked about.
    pub fn of(inner: A) -> Classed<A>
        ensures inner { result.inner ≡ inner }
        ensures size { (classes_meaning result.classes).size ≡ (A.Arrangement.meaning inner).size }
        ensures agrees { (i j : ℕ) → same (classes_meaning result.classes) i j ≡ same (A.Arrangement.meaning inner) i j }
    {
        let classes = classes_of(&inner);
        Classed { inner, classes }
    }

    /// The lowest name that is the same as i, where i is a name.
    pub fn lowest(&self, i: u8) -> Option<u8>
        ensures { result ≡ lowest_of (classes_meaning self.now.classes) i }
    {
        self.classes.lowest(i)
    }

    /// Gives the arrangement back.
    pub fn into_inner(self) -> A
        ensures { result ≡ self.inner }
    {
        let Classed { inner, .. } = self;
        inner
    }
}

impl<A: Arrangement> Arrangement for Classed<A> {
    ghost meaning = { λ x. classes_meaning x.classes };

    ghost bounded = { λ x. (lawful x.classes).small };

    ghost reflexive = { λ x. (lawful x.classes).itself };

    ghost symmetric = { λ x. (lawful x.classes).back };

    ghost transitive = { λ x. (lawful x.classes).through };

    fn count(&self) -> u8 {
        self.classes.count()
    }

    fn same(&self, i: u8, j: u8) -> bool {
        self.classes.same(i, j)
    }
}
