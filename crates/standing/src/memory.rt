//! Memory for statements.

use statement::Statement;

/// How many statements can stand.
pub const MOST: usize = 512;

/// The memory for the statements, before any stands. It is taken here, once, so that no later call can fail for want of it.
pub type Room = room::Room<Statement, MOST>;
