//! Asking the sights of all columns.

ghost use Rattle.std.specs.Prelude.{◌≡◌};
ghost use Rattle.std.specs.List.{list_all};
ghost use Rattle.decision.specs.Looks.{AllSeen, is_borne_out, seem_parted};
ghost use Rattle.decision.specs.Trials.{setting, tried};
ghost use Rattle.meaning.specs.Columns.{difference as difference_of, test};

use crate::sights::Sights;
use crate::trial::Trial;
use column::difference;
use statement::Statement;

impl Sights<'_> {
    /// Are the tables not alike in some sight?
    fn are_parted(&self, a: u8, b: u8) -> bool
        ensures { result ≡ seem_parted self.now (a, b) }
    {
        !self.elsewhere.are_alike(a, b) || self.each.iter().any(|sight| !sight.are_alike(a, b))
    }

    /// If the statement says that tables differ: are they not alike in some sight?
    pub(crate) fn bears_out(&self, x: Statement) -> bool
        ensures { result ≡ is_borne_out self.now (difference_of x) }
    {
        // Not by `is_none_or`: with a pair for its closure the proof did not close.
        let Some((a, b)) = difference(x) else {
            return true;
        };
        self.are_parted(a, b)
    }

    /// So for each of the statements.
    pub(crate) fn bears_all_out(&self, xs: &[Statement]) -> bool
        ensures { result ≡ list_all (λ x. is_borne_out self.now (difference_of x)) xs.now }
    {
        xs.iter().all(|x| self.bears_out(*x))
    }

    /// So for all of a list, whose sights they are: does it fit?
    pub(crate) fn fits(&self, trial: &Trial) -> bool
        requires { AllSeen (setting trial.now) (tried trial.now) self.now }
        ensures { result ≡ test (setting trial.now) (tried trial.now) }
    {
        self.bears_out(trial.offered)
            && self.bears_all_out(trial.kept)
            && self.bears_all_out(trial.rest)
    }
}
