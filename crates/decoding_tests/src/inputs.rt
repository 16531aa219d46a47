//! The parts of inputs and of answers that several families share.

use std::alloc::{AllocError, Global};
use wasm_types::PrimitiveTypeInfo;

/// A text, unless no memory is left for it.
pub type Text = Result<String, AllocError>;

/// What is answered to an input that can't be read.
pub fn unreadable(alloc: Global) -> Text {
    "unreadable input".to_string(alloc)
}

/// The field at that place, or an empty one.
pub fn field<'a>(fields: &[&'a str], place: usize) -> &'a str {
    fields.get(place).copied().unwrap_or("")
}

/// The types that the words name. Another word is none.
pub fn types_of(alloc: Global, words: &str) -> Result<Vec<PrimitiveTypeInfo>, AllocError> {
    words
        .split_whitespace()
        .filter_map(|word| PrimitiveTypeInfo::from_name(word))
        .collect(alloc)
}

/// How two values compare, by each comparison that there is.
pub fn compared<T: Ord>(alloc: Global, low: &T, high: &T) -> Text {
    let (order, reverse) = (low.cmp(high), high.cmp(low));
    let (partial, partial_reverse) = (low.partial_cmp(high), high.partial_cmp(low));
    let (less, equal) = (low < high, low == high);
    format!(in alloc; "{order:?} {reverse:?} {partial:?} {partial_reverse:?} {less} {equal}")
}
