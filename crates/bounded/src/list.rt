//! The list, and what changes it.

ghost use Rattle.std.specs.Prelude.{◌≡◌, ◌≤◌, [], ◌++◌, length, drop, slice_get};

use std::alloc::AllocError;

/// At most N items, in order. They lie in the value itself: a list takes no memory of its own, and can be filled.
pub struct Bounded<T, const N: usize> {
    slots: [T; N],
    len: usize,
    ghost fits: { len ≤ N },
    ghost long: { length slots ≡ N },
}

// By hand: neither is derived for a struct with both a ghost field and a type parameter.
impl<T: Copy, const N: usize> Copy for Bounded<T, N> {}

impl<T: Copy, const N: usize> Clone for Bounded<T, N> {
    ghost is_clone = { λ x y. x ≡ y };

    ghost is_infallible = { λ x. Unit {0} };

    fn clone(&self) -> Result<Bounded<T, N>, AllocError> {
        Ok(*self)
    }
}

/// There is no room for so many items.
#[derive(Clone, Copy, PartialEq, Eq, Debug)]
pub struct Full;

/// Puts the items into the first slots.
fn overwrite<T: Copy>(slots: &mut [T], items: &[T])
    requires { length items.now ≤ length slots.old }
    ensures { slots.new ≡ items.now ++ drop (length items.now) slots.old }
{
    slots[..items.len()].copy_from_slice(items);
}

impl<T: Copy, const N: usize> Bounded<T, N> {
    ghost use Rattle.bounded.specs.Items.{filled, items_of, push_answer, fill_answer, pushed};

    /// No items. The slots that are not in use yet hold the filler.
    pub fn new(filler: T) -> Bounded<T, N>
        ensures { items_of result ≡ [] }
    {
        Bounded {
            slots: [filler; N],
            len: 0,
        }
    }

    /// The items, in order.
    pub fn as_slice(&self) -> &[T]
        ensures { result.now ≡ items_of self.now }
    {
        &self.slots[..self.len]
    }

    /// The item at place k, if there is one.
    pub fn get(&self, k: usize) -> Option<T>
        ensures { result ≡ slice_get (items_of self.now) k }
    {
        self.as_slice().get(k).copied()
    }

    /// How many items there are.
    pub fn len(&self) -> usize
        ensures { result ≡ length (items_of self.now) }
    {
        self.as_slice().len()
    }

    /// Adds an item at the end, where there is room.
    pub fn push(&mut self, item: T) -> Result<(), Full>
        ensures answer { result ≡ push_answer N (items_of self.old) }
        ensures holds { items_of self.new ≡ pushed N (items_of self.old) item }
    {
        if self.len >= N {
            return Err(Full);
        }
        self.slots[self.len] = item;
        self.len += 1;
        Ok(())
    }

    /// Takes the items of a slice in place of those before, where there is room for all.
    pub fn fill(&mut self, items: &[T]) -> Result<(), Full>
        ensures answer { result ≡ fill_answer N items.now }
        ensures holds { items_of self.new ≡ filled N (items_of self.old) items.now }
    {
        if items.len() > N {
            return Err(Full);
        }
        overwrite(&mut self.slots, items);
        self.len = items.len();
        Ok(())
    }

    /// Lets all items go.
    pub fn clear(&mut self)
        ensures { items_of self.new ≡ [] }
    {
        self.len = 0;
    }
}
