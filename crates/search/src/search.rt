//! The search.

ghost use Rattle.std.specs.Prelude.{◌≡◌, ◌<◌};
ghost use Rattle.links.specs.Chains.{Nearest};
ghost use Rattle.links.specs.Lists.{present};
ghost use Rattle.search.specs.Entries.{searched};

use crate::entry::Entry;
use crate::goal::Goal;
use crate::linked::Links;
use crate::wave::Wave;

/// How many links lead from a name to the nearest name that meets the goal, if any do. Names come out of the queue
/// in the order of their distances, so the first that meets the goal is the nearest.
pub fn search<L: Links, G: Goal, E: Entry>(links: &L, goal: &G, from: u8) -> Option<u8>
    ensures is { result ≡ searched (L.count links.now) (present (L.entries links.now)) (G.test goal.now) from }
    ensures nearest { from < L.count links.now → Nearest (present (L.entries links.now)) (G.test goal.now) from result }
{
    if from as usize >= links.names() {
        return None;
    }
    let mut slots = [E::of(from, 0); 128];
    let mut wave = Wave::new(&mut slots);
    wave.note(from, 0);
    while let Some(entry) = wave.queue.pop() {
        let name = entry.name();
        // What waits is reached, so there always is a distance.
        let Some(distance) = entry.distance(&wave.known) else {
            continue;
        };
        if goal.met(name) {
            return Some(distance);
        }
        wave.visit(links, name, distance + 1);
    }
    None
}
