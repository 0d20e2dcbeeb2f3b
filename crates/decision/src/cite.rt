//! Which statements are to blame where an offered one does not fit?

ghost use Rattle.std.specs.Prelude.{◌≡◌, ◌<◌, ◌≤◌, true, false, [], ◌++◌, length, drop, IfSome};
ghost use Rattle.std.specs.List.{range_with_len};
ghost use Rattle.bounded.specs.Items.{items_of};
ghost use Rattle.column.specs.Naming.{setting_of};
ghost use Rattle.decision.specs.Citations.{Found, Turns, citation, cited_answer};
ghost use Rattle.decision.specs.Trials.{fits_with, setting};
ghost use Rattle.meaning.specs.Answers.{cited as cited_of};

use crate::citation::Citation;
use crate::deciding::is_readable;
use crate::trial::Trial;
use bounded::Bounded;
use column::Naming;
use statement::Statement;

/// How many positions a citation has room for.
const MOST: usize = 512;

// That the list does not fit is a premise of the three that look for the statements to blame: a type for it would have a name
// more and no clause less.
impl Trial<'_> {
    /// Does the list fit without what stands before that place of the rest?
    fn fits_from(&self, place: usize) -> bool
        requires { place ≤ length self.now.rest.now }
        ensures { result ≡ fits_with self.now (self.now.kept.now ++ drop place self.now.rest.now) }
    {
        let shorter = Trial {
            naming: self.naming,
            offered: self.offered,
            kept: self.kept,
            rest: &self.rest[place..],
        };
        shorter.fits()
    }

    /// The place from which on the rest does not fit with those kept, while from the next place on it does.
    ///
    /// More statements never fit better, so half of the places can be passed over at each test.
    fn halve(&self) -> usize
        requires fails { fits_with self.now (self.now.kept.now ++ self.now.rest.now) ≡ false }
        requires passes { fits_with self.now (self.now.kept.now ++ []) ≡ true }
        ensures within { result < length self.now.rest.now }
        ensures turns { Turns (fits_with self.now) self.now.kept.now self.now.rest.now result }
    {
        // By hand: the library's `partition_point` tests the items of a slice, and not its places.
        let mut low = 0;
        let mut high = self.rest.len();
        while high - low > 1 {
            let middle = low + (high - low) / 2;
            if self.fits_from(middle) {
                high = middle;
            } else {
                low = middle;
            }
        }
        low
    }

    /// The place in the rest of the next statement to blame; none where those kept do not fit by themselves.
    fn next_to_blame(&self) -> Option<usize>
        requires { fits_with self.now (self.now.kept.now ++ self.now.rest.now) ≡ false }
        ensures within { IfSome result (λ i. i < length self.now.rest.now) }
        ensures turns { Found (fits_with self.now) self.now.kept.now self.now.rest.now result }
    {
        if self.rest.is_empty() || !self.fits_from(self.rest.len()) {
            return None;
        }
        Some(self.halve())
    }

    /// The statements to blame of the rest, which does not fit with the offered one.
    fn blame(&self) -> Citation
        requires short { length self.now.rest.now ≤ 512 }
        requires fails { fits_with self.now self.now.rest.now ≡ false }
        ensures { result ≡ citation (cited_of (setting self.now) self.now.rest.now self.now.offered) }
    {
        let mut kept: Bounded<Statement, MOST> = Bounded::new(self.offered);
        let mut positions: Bounded<u16, MOST> = Bounded::new(0);
        // By hand: how far the next search goes on is known only when it has found its place.
        let mut p = 0;
        while let Some(i) = (Trial {
            naming: self.naming,
            offered: self.offered,
            kept: kept.as_slice(),
            rest: &self.rest[p..],
        })
        .next_to_blame()
        {
            // There is room: no more are kept than the list has.
            let _ = kept.push(self.rest[p + i]);
            p += i + 1;
            let _ = positions.push(p as u16);
        }
        citation_of(&positions)
    }
}

/// What cites these positions.
fn citation_of(list: &Bounded<u16, MOST>) -> Citation
    ensures { result ≡ citation (items_of list.now) }
{
    let list = list.as_slice();
    let mut positions = [0; MOST];
    positions[..list.len()].copy_from_slice(list);
    Citation {
        count: list.len() as u16,
        positions,
    }
}

/// Every position, from 1 to the count.
fn all(count: usize) -> Citation
    requires { count ≤ 512 }
    ensures { result ≡ citation (range_with_len 1 count) }
{
    let mut positions: Bounded<u16, MOST> = Bounded::new(0);
    // There is room, up to the most. Not by `from_fn`: its contract says too little of a closure that borrows the count. Nor
    // `1..=count`, whose last turn the proof has apart.
    for position in 1..count + 1 {
        let _ = positions.push(position as u16);
    }
    citation_of(&positions)
}

/// The statements of the list to blame for that the offered one does not fit with it: no filling fits it and all of them, and
/// one does once any of them is left out.
///
/// Where the offered one does fit, each statement stays, so all are cited. None is of a list longer than a citation has room
/// for, nor where a name is not below the counts.
pub fn cited(naming: &Naming, offered: Statement, list: &[Statement]) -> Citation
    ensures { result ≡ cited_answer (setting_of naming.now) list.now offered }
{
    if list.len() > MOST || !is_readable(naming, offered, &[], list) {
        return all(0);
    }
    let trial = Trial {
        naming,
        offered,
        kept: &[],
        rest: list,
    };
    if trial.fits() {
        all(list.len())
    } else {
        trial.blame()
    }
}
