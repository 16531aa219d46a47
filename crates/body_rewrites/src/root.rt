//! What has to stand at an operator where a line of the table applies.

/// What has to stand there.
#[derive(Clone, Copy)]
pub(crate) enum Root {
    /// An instruction of one of these classes, from the first one to the last one.
    Classes(usize, usize),
    /// The last operator of a tree.
    Tree,
    /// Anything.
    Any,
}
