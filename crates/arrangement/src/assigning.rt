//! Giving numbers to names.

ghost use Rattle.std.specs.Prelude.{◌≡◌, []};
ghost use Rattle.arrangement.specs.Numbers.{assigned_meaning, fill_answer, filled, numbers_of};
ghost use Rattle.arrangement.specs.NumbersLemmas.{lawful};

use crate::Arrangement;
use crate::assigned::Assigned;
use crate::equals::are_equal;
use crate::refusal::Refusal;
use bounded::Bounded;

impl Assigned {
    /// No names yet.
    pub fn new() -> Assigned
        ensures { numbers_of result ≡ [] }
    {
        Assigned {
            numbers: Bounded::new(0),
        }
    }

    /// Takes the numbers of the list, in place of those before. A list that is refused changes nothing.
    pub fn fill(&mut self, list: &[u32]) -> Result<(), Refusal>
        ensures answer { result ≡ fill_answer list.now }
        ensures holds { numbers_of self.new ≡ filled (numbers_of self.old) list.now }
    {
        self.numbers.fill(list).map_err(|_| Refusal::TooManyNames)
    }
}

impl Arrangement for Assigned {
    ghost meaning = { λ x. assigned_meaning (numbers_of x) };

    ghost bounded = { λ x. (lawful x).small };

    ghost reflexive = { λ x. (lawful x).itself };

    ghost symmetric = { λ x. (lawful x).back };

    ghost transitive = { λ x. (lawful x).through };

    fn count(&self) -> u8 {
        self.numbers.len() as u8
    }

    fn same(&self, i: u8, j: u8) -> bool {
        // As in `Classes`: the second name is looked up only where the first is one.
        let number = self.numbers.get(i as usize);
        number.is_some() && are_equal(number, self.numbers.get(j as usize))
    }
}
