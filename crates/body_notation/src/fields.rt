//! The fields of a row.

use crate::error::NotationError;
use std::alloc::{AllocError, Global};

/// The fields of a row, which stand between bars.
pub fn fields_of(alloc: Global, row: &str) -> Result<Vec<&str>, AllocError> {
    row.split('|').map(|field| field.trim()).collect(alloc)
}

// The number that the text is, in decimal digits, or in hexadecimal ones behind `0x`.
fn word_of(text: &str) -> Option<u64> {
    match text.strip_prefix("0x") {
        Some(digits) => u64::from_str_radix(digits, 16).ok(),
        None => text.parse().ok(),
    }
}

/// The numbers that the words of a field are; `Unknown` where one of them is none.
pub fn words_of(alloc: Global, field: &str) -> Result<Vec<u64>, NotationError> {
    let mut words = Vec::new(alloc);
    for word in field.split_whitespace() {
        let number = word_of(word).ok_or(NotationError::Unknown)?;
        words.push(number)?;
    }
    Ok(words)
}
