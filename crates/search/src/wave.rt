//! A search under way: what is reached, and what waits.

ghost use Rattle.std.specs.Prelude.{◌≡◌, ◌<◌, ◌≤◌, [], length};
ghost use Rattle.search.specs.Entries.{across};
ghost use Rattle.search.specs.Queues.{room};
ghost use Rattle.search.specs.Tables.{blank, unknowns};

use crate::entry::Entry;
use crate::linked::Links;
use crate::queue::Queue;

/// The table of distances, and what waits. There is room to wait for each name that is not reached yet.
#[derive(Drop)]
pub(crate) struct Wave<'a, E> {
    pub(crate) known: [Option<u8>; 128],
    pub(crate) queue: Queue<'a, E>,
    ghost fits: { unknowns known ≤ room queue },
}

/// The other end of a link at a name, which may be either end.
fn other_end(link: Option<(u8, u8)>, name: u8) -> Option<u8>
    ensures { result ≡ across link name }
{
    match link? {
        (a, b) if a == name => Some(b),
        (a, b) if b == name => Some(a),
        _ => None,
    }
}

impl<'a, E: Entry> Wave<'a, E> {
    ghost use Rattle.search.specs.Walks.{noted, visited, walk};
    ghost use Rattle.search.specs.Waves.{turns, walk_of};

    /// Nothing is reached and nothing waits. Each name has a slot to wait in.
    pub(crate) fn new(slots: &'a mut [E]) -> Wave<'a, E>
        requires { length slots.old ≡ 128 }
        ensures none { walk_of result ≡ walk blank [] }
        ensures all { turns result ≡ 128 }
    {
        Wave {
            known: [None; 128],
            queue: Queue::new(slots),
        }
    }

    /// Has a name wait that is not reached yet. One that was reached before is as near as can be, and is left alone.
    #[tactic(auto, using(crate::proofs::Tables::unknowns_set))]
    pub(crate) fn note(&mut self, name: u8, distance: u8)
        requires { name < 128 }
        ensures does { walk_of self.new ≡ noted E.made name distance (walk_of self.old) }
        ensures keeps { turns self.new ≡ turns self.old }
    {
        let before = self.known[name as usize];
        if before.is_none() {
            self.known[name as usize] = Some(distance);
            let _ = self.queue.push(E::of(name, distance));
        }
    }

    /// Has each name wait that a link joins to this one and that is not reached yet.
    pub(crate) fn visit<L: Links>(&mut self, links: &L, name: u8, distance: u8)
        ensures does { walk_of self.new ≡ visited E.made name distance (L.entries links.now) (walk_of self.old) }
        ensures keeps { turns self.new ≡ turns self.old }
    {
        // Entries are asked by place: one table holds pairs, another pairs and gaps, so they have no slice in common.
        for k in 0..links.len() {
            if let Some(other) = other_end(links.link(k), name) {
                self.note(other, distance);
            }
        }
    }
}
