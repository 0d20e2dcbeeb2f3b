//! A waiting list over a lent slice: first in, first out.

ghost use Rattle.std.specs.Prelude.{◌≡◌, ◌-◌, [], length, nat_lt};
ghost use Rattle.search.specs.Lines.{first_of, pushed, rest_of};
ghost use Rattle.search.specs.Queues.{room, waiting};

/// What waits, in slots that another owns.
/// A slot is used once: each name waits once at the most, and so no slot has to be used again.
#[derive(Drop)]
pub struct Queue<'a, E> {
    // A rule of the project: a queue waits in slots that its caller lends. So a place and a count stand beside a slice.
    slots: &'a mut [E],
    head: usize,
    count: usize,
}

impl<'a, E: Copy> Queue<'a, E> {
    /// Nothing waits, and there is room for as many as there are slots.
    pub fn new(slots: &'a mut [E]) -> Queue<'a, E>
        ensures none { waiting result ≡ [] }
        ensures left { room result ≡ length slots.old }
    {
        Queue {
            slots,
            head: 0,
            count: 0,
        }
    }

    /// Adds at the end, where there is room, and answers whether there was.
    #[tactic(auto, using(crate::proofs::Queues::push_waits))]
    pub fn push(&mut self, e: E) -> bool
        ensures had { result ≡ nat_lt 0 (room self.old) }
        ensures added { waiting self.new ≡ pushed (room self.old) (waiting self.old) e }
        ensures left { room self.new ≡ room self.old - 1 }
    {
        let len = self.slots.len();
        if self.head >= len || self.count >= len - self.head {
            return false;
        }
        self.slots[self.head + self.count] = e;
        self.count += 1;
        true
    }

    /// Takes the first that waits. Its slot is not used again, so there is as much room as before.
    #[tactic(auto, using(crate::proofs::Queues::pop_waits))]
    pub fn pop(&mut self) -> Option<E>
        ensures first { result ≡ first_of (waiting self.old) }
        ensures rest { waiting self.new ≡ rest_of (waiting self.old) }
        ensures left { room self.new ≡ room self.old }
    {
        let len = self.slots.len();
        if self.count == 0 || self.head >= len {
            return None;
        }
        let e = self.slots[self.head];
        self.head += 1;
        self.count -= 1;
        Some(e)
    }
}
