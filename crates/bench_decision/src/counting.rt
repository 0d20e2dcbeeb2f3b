//! How often a citation asks whether a list fits, worked out from what it cites.

use decision::Citation;

/// How many tests halving takes to come down to place i of so many.
// By hand: it counts the steps of a search over places, which is in no slice.
fn halvings(count: usize, i: usize) -> usize {
    let mut low = 0;
    let mut high = count;
    let mut tests = 0usize;
    while high - low > 1 {
        let middle = low + (high - low) / 2;
        if middle > i {
            high = middle;
        } else {
            low = middle;
        }
        tests = tests.saturating_add(1);
    }
    tests
}

/// The decisions of a citation: one for the whole list; before each cited statement one of what is kept, and the halving;
/// and one of what is kept in the end, unless nothing is left.
pub fn decisions(count: usize, found: &Citation) -> usize {
    let mut asked = 1usize;
    let mut from = 0usize;
    for position in found.positions.iter().take(usize::from(found.count)) {
        let next = usize::from(*position);
        let place = next.saturating_sub(1);
        asked = asked.saturating_add(1).saturating_add(halvings(
            count.saturating_sub(from),
            place.saturating_sub(from),
        ));
        from = next;
    }
    if from < count {
        asked.saturating_add(1)
    } else {
        asked
    }
}
