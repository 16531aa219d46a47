//! The parts of an input.

use std::alloc::{AllocError, Global};

/// The fields of a line, between bars, without the white space around them.
pub fn fields_of(alloc: Global, line: &str) -> Result<Vec<&str>, AllocError> {
    line.split('|').map(|field| field.trim()).collect(alloc)
}

// The value of a hexadecimal digit.
fn digit_of(character: u8) -> Option<u8> {
    match character {
        b'0'..=b'9' => Some(character - b'0'),
        b'a'..=b'f' => Some(character - b'a' + 10),
        _ => None,
    }
}

/// The bytes that hexadecimal digits in lower case stand for, two a byte. Other characters, such as white space, are skipped.
pub fn bytes_of(alloc: Global, digits: &str) -> Result<Vec<u8>, AllocError> {
    let mut bytes = Vec::new(alloc);
    let mut high = None;
    for digit in digits.bytes().filter_map(digit_of) {
        high = match high {
            None => Some(digit),
            Some(first) => {
                bytes.push(first << 4 | digit)?;
                None
            }
        };
    }
    Ok(bytes)
}
