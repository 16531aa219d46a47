//! In which form lines are written.

/// The form of what is listed and reported.
#[derive(Clone, Copy, Debug, PartialEq, Eq)]
pub enum Form {
    /// Text for people, its columns lined up.
    Text,
    /// JSON, one object a line.
    Json,
}
