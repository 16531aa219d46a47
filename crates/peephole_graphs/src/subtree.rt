//! What is kept of the entries from one downwards.

/// How many entries there are from one downwards, with itself, and whether all of them have one colour.
#[derive(Clone, Copy)]
pub struct Subtree {
    pub len: usize,
    pub one_color: bool,
}
