//! How many children a variant takes.

/// The children that a variant takes: none, one, this many, or any number of them.
#[derive(Clone, Copy)]
pub enum Arity {
    /// No child.
    Zero,
    /// One child.
    One,
    /// This many children.
    Several(usize),
    /// Any number of children.
    Any,
}
