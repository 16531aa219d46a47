//! Whole numbers read from texts.
ghost use Rattle.std.specs.Prelude.{◌≡◌};
ghost use Rattle.std.specs.Option.{ok_or};
ghost use Rattle.peephole_payloads.specs.Number.{read_unsigned, read_signed};
ghost use Rattle.peephole_payloads.specs.declared.term_error.TermError.TheVariants.{BadInteger};

use crate::term_error::TermError;

/// The number of 8 bits that the text writes in decimal, or `BadInteger`.
pub fn read_u8(text: &str) -> Result<u8, TermError>
    ensures { result ≡ ok_or (read_unsigned 8 text.now) BadInteger }
{
    match text.parse::<u8>() {
        Ok(number) => Ok(number),
        Err(_) => Err(TermError::BadInteger),
    }
}

/// The number of 32 bits that the text writes in decimal, or `BadInteger`.
pub fn read_u32(text: &str) -> Result<u32, TermError>
    ensures { result ≡ ok_or (read_unsigned 32 text.now) BadInteger }
{
    match text.parse::<u32>() {
        Ok(number) => Ok(number),
        Err(_) => Err(TermError::BadInteger),
    }
}

/// The number of 64 bits that the text writes in decimal, or `BadInteger`.
pub fn read_u64(text: &str) -> Result<u64, TermError>
    ensures { result ≡ ok_or (read_unsigned 64 text.now) BadInteger }
{
    match text.parse::<u64>() {
        Ok(number) => Ok(number),
        Err(_) => Err(TermError::BadInteger),
    }
}

/// The signed number of 32 bits that the text writes in decimal, or `BadInteger`.
pub fn read_i32(text: &str) -> Result<i32, TermError>
    ensures { result ≡ ok_or (read_signed 32 text.now) BadInteger }
{
    match text.parse::<i32>() {
        Ok(number) => Ok(number),
        Err(_) => Err(TermError::BadInteger),
    }
}

/// The signed number of 64 bits that the text writes in decimal, or `BadInteger`.
pub fn read_i64(text: &str) -> Result<i64, TermError>
    ensures { result ≡ ok_or (read_signed 64 text.now) BadInteger }
{
    match text.parse::<i64>() {
        Ok(number) => Ok(number),
        Err(_) => Err(TermError::BadInteger),
    }
}

/// The signed number of 128 bits that the text writes in decimal, or `BadInteger`.
pub fn read_i128(text: &str) -> Result<i128, TermError>
    ensures { result ≡ ok_or (read_signed 128 text.now) BadInteger }
{
    match text.parse::<i128>() {
        Ok(number) => Ok(number),
        Err(_) => Err(TermError::BadInteger),
    }
}
