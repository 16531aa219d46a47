//! Bytes in hexadecimal digits, both ways. The loops have no way out before their end, so that they go by many bytes at a time.

ghost use Rattle.std.specs.Prelude.{◌≡◌, ◌<◌, ◌*◌, ◌↔◌, true, length, slice_index, IsTrue, IfOk, Some, Ok};
ghost use Rattle.std.specs.List.{concat, AllPass};
ghost use Rattle.std.specs.Result.{result_ok};
ghost use Rattle.hex.specs.Hex.{decode_of, encode_lower, hex_digit_value, is_hex_digit, lower_digits};
ghost use Rattle.peephole_script.specs.Text.{texts};
ghost use Rattle.peephole_script.specs.Arguments.{Argument};

use crate::arguments::join;
use crate::fault::Fault;
use std::alloc::{AllocError, Global};

// Whether a text has hexadecimal digits alone.
fn is_digits(text: &[u8]) -> bool
    ensures { IsTrue result ↔ AllPass is_hex_digit text.now }
{
    let mut digits = true;
    for c in text {
        digits &= c.is_ascii_hexdigit();
    }
    digits
}

// What a digit stands for.
fn value_of(digit: u8) -> u8
    requires { is_hex_digit digit ≡ true }
    ensures value { hex_digit_value digit ≡ Some result }
    ensures small { result < 16 }
{
    if digit <= b'9' {
        digit - b'0'
    } else if digit <= b'F' {
        digit - b'A' + 10
    } else {
        digit - b'a' + 10
    }
}

// Writes the bytes that the digits stand for.
fn decode_into(digits: &[u8], bytes: &mut [u8])
    requires digits { AllPass is_hex_digit digits.now }
    requires length { length digits.now ≡ 2 * length bytes.old }
    ensures { decode_of digits.now ≡ Ok bytes.new }
{
    'bytes: for i in 0..bytes.len() {
        bytes[i] = value_of(digits[2 * i]) * 16 + value_of(digits[2 * i + 1]);
    }
}

// The bytes that a text stands for, two digits for each.
fn decode(alloc: Global, text: &[u8]) -> Result<Vec<u8>, Fault>
    ensures { Argument (result_ok (decode_of text.now)) result }
{
    if text.len() % 2 != 0 || !is_digits(text) {
        return Err(Fault::BadArgument);
    }
    let mut bytes = vec![in alloc; 0u8; text.len() / 2]?;
    decode_into(text, bytes.as_mut_slice());
    Ok(bytes)
}

/// The bytes that the words joined stand for; `BadArgument` where they have another sign than digits, or an odd number of
/// them, `Memory` for want of memory.
pub fn read_digits(alloc: Global, words: &[&str]) -> Result<Vec<u8>, Fault>
    ensures { Argument (result_ok (decode_of (concat (texts words.now)))) result }
{
    match words {
        [word] => decode(alloc, word.as_bytes()),
        _ => {
            let text = join(alloc, words)?;
            decode(alloc, text.as_slice())
        }
    }
}

// The digit of a value.
fn digit_of(value: u8) -> u8
    requires { value < 16 }
    ensures { result ≡ slice_index lower_digits value }
{
    if value < 10 {
        b'0' + value
    } else {
        b'a' + (value - 10)
    }
}

// Writes two digits for each byte.
fn encode_into(bytes: &[u8], digits: &mut [u8])
    requires { length digits.old ≡ 2 * length bytes.now }
    ensures { digits.new ≡ encode_lower bytes.now }
{
    'bytes: for i in 0..bytes.len() {
        let byte = bytes[i];
        digits[2 * i] = digit_of(byte >> 4);
        digits[2 * i + 1] = digit_of(byte & 15);
    }
}

/// The digits of bytes, two for each; an error for want of memory alone.
pub fn write_digits(alloc: Global, bytes: &[u8]) -> Result<Vec<u8>, AllocError>
    ensures { IfOk result (λ digits. digits.items ≡ encode_lower bytes.now) }
{
    let Some(count) = bytes.len().checked_mul(2) else {
        return Err(AllocError);
    };
    let mut digits = vec![in alloc; 0u8; count]?;
    encode_into(bytes, digits.as_mut_slice());
    Ok(digits)
}
