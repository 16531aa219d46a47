//! In which form the rules are listed.

/// The form of the list.
#[derive(Clone, Copy, Debug, PartialEq, Eq)]
pub enum Form {
    /// Text for people: a line for each rule, and under it, indented, its lines.
    Text,
    /// JSON, one object a line, for each rule, with its `exact`, `growth`, `lines`, `name` and `number`.
    Json,
    /// A table of Markdown, which is text for people too.
    Markdown,
}
