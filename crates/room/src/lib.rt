//! Memory for a list of at most N things, before there are any.

#![tactic(auto)]

ghost use Rattle.std.specs.Prelude.{◌≡◌, ◌≤◌, [], IfOk, vec_capacity};

use std::alloc::{AllocError, Global};

/// Memory for N things. It is taken beforehand, in the one call that can fail for want of it: whoever has the room
/// fills it with calls that cannot fail.
#[derive(Drop)]
pub struct Room<T, const N: usize> {
    list: Vec<T>,
    ghost unused: { list.items ≡ [] },
    ghost enough: { N ≤ vec_capacity list },
}

impl<T, const N: usize> Room<T, N> {
    /// Takes the memory.
    pub fn new(heap: Global) -> Result<Room<T, N>, AllocError>
        ensures { IfOk result (λ room. room.list.items ≡ []) }
    {
        let list = Vec::with_capacity(heap, N)?;
        Ok(Room { list })
    }

    /// The empty list that has the memory.
    pub fn into_list(self) -> Vec<T>
        ensures empty { result.items ≡ [] }
        ensures room { N ≤ vec_capacity result }
    {
        let Room { list } = self;
        list
    }
}

#[cfg(test)]
mod tests {
    use crate::Room;
    use std::test::Fail;

    #[test]
    fn a_room_gives_an_empty_list(rt: HostRuntime) -> Result<(), Fail> {
        let room: Room<u8, 2> = Room::new(rt.alloc())?;
        let mut list = room.into_list();
        assert!(rt; list.is_empty());
        list.push_reserved(7);
        list.push_reserved(8);
        assert_eq!(rt; list.as_slice(), [7, 8].as_slice());
        Ok(())
    }
}
