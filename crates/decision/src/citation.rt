//! Which statements are to blame.

/// The positions of the statements that are cited, counted from 1 and rising: the first `count`; the others are 0.
// No `Bounded`: its slots beyond the items may hold anything, and a citation promises 0 there.
#[derive(Clone, Copy)]
pub struct Citation {
    pub count: u16,
    pub positions: [u16; 512],
}
