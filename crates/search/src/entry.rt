//! What waits in a search.

ghost use Rattle.std.specs.Prelude.{◌≡◌, ℕ, Some, Option};
ghost use Rattle.search.specs.Reached.{reached_at};
ghost use Rattle.search.specs.Slots.{Small};
ghost use Rattle.search.specs.Tables.{at};
ghost use Rattle.std.proofs.Common.{rules};

/// A name that waits, and maybe how far it is. One that does not say how far is looked up in the table of distances.
pub trait Entry: Copy {
    ghost made: { ℕ → ℕ → Self };

    ghost name_of: { Self → ℕ };

    /// How far it is, where the table has a distance for its name.
    ghost distance_of: { Self → Option ℕ → Option ℕ };

    /// What waits for a name that so many links reach.
    fn of(name: u8, distance: u8) -> Self
        ensures { result ≡ made name distance };

    /// The name that waits.
    fn name(&self) -> u8
        ensures { result ≡ name_of self.now };

    /// How many links reach it, by its own word or by the table's.
    fn distance(&self, known: &[Option<u8>; 128]) -> Option<u8>
        ensures { result ≡ distance_of self.now (at known.now (name_of self.now)) };

    ghost named: { (y d : ℕ) → name_of (made y d) ≡ y };

    ghost measured: { (y d : ℕ) → distance_of (made y d) (Some d) ≡ Some d };

    /// A search takes the slots for all names at once.
    ghost small: { Small Self.row };
}

/// A bare name: half the memory, and one more look into the table.
impl Entry for u8 {
    ghost made = { λ y d. y };

    ghost name_of = { λ e. e };

    ghost distance_of = { λ e known. known };

    ghost named = { Prim.search rules };

    ghost measured = { Prim.search rules };

    ghost small = { Prim.search rules };

    fn of(name: u8, distance: u8) -> u8 {
        let _ = distance;
        name
    }

    fn name(&self) -> u8 {
        *self
    }

    fn distance(&self, known: &[Option<u8>; 128]) -> Option<u8> {
        *known.get(*self as usize)?
    }
}

/// A name with its distance.
#[derive(Clone, Copy)]
pub struct Reached {
    name: u8,
    distance: u8,
}

impl Entry for Reached {
    ghost made = { reached_at };

    ghost name_of = { λ e. e.name };

    ghost distance_of = { λ e known. Some e.distance };

    ghost named = { Prim.search rules };

    ghost measured = { Prim.search rules };

    ghost small = { Prim.search rules };

    fn of(name: u8, distance: u8) -> Reached {
        Reached { name, distance }
    }

    fn name(&self) -> u8 {
        self.name
    }

    fn distance(&self, known: &[Option<u8>; 128]) -> Option<u8> {
        let _ = known;
        Some(self.distance)
    }
}
