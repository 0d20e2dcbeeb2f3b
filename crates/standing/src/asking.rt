//! What a table of standing statements holds.

ghost use Rattle.std.specs.Prelude.{◌≡◌};
ghost use Rattle.standing.specs.Stands.{stands_of};

use crate::standing::Standing;
use column::Naming;
use statement::Statement;

impl Standing {
    /// How many tables there are.
    pub fn tables(&self) -> u8
        ensures { result ≡ (stands_of self.now).tables }
    {
        self.tables
    }

    /// The classes of names that the statements are read under.
    pub fn naming(&self) -> &Naming
        ensures { result.now ≡ (stands_of self.now).naming }
    {
        &self.naming
    }

    /// The statements, in order.
    pub fn statements(&self) -> &[Statement]
        ensures { result.now ≡ (stands_of self.now).statements }
    {
        self.list.as_slice()
    }
}
