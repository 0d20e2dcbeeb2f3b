//! At how many slots two tables can differ.

/// At how many slots two tables can differ, in fillings that fit.
// No Option: who asks for it is answered none where a table is no name, and no limit is an answer.
#[derive(Clone, Copy, PartialEq, Eq, Debug)]
pub enum Apart {
    /// At as many as one likes.
    NoLimit,
    /// At the slot classes of the set, a bit for the lowest name of each, and at no others; and how many they are.
    Limit { set: u64, count: u32 },
}
