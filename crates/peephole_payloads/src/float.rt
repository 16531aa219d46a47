//! Float constants: their bits.
ghost use Rattle.std.specs.Prelude.{◌≡◌, ◌^◌, ◌<◌, ◌≤◌, IfSome};
ghost use Rattle.peephole_payloads.specs.PayloadText.{read_hex};

use crate::term_error::TermError;
use std::fmt;
use std::marker::Model;
use std::str::FromStr;

/// The bits of a constant of type f32, ordered by the bits. Its text is 8 hexadecimal digits.
#[derive(Clone, Copy, Debug, PartialEq, Eq, PartialOrd, Ord, Hash)]
pub struct F32 {
    bits: u32,
}

impl Model for F32 {
    ghost use Rattle.std.specs.Prelude.{ℕ};

    ghost Value = { ℕ };

    ghost view = { λ x. x.bits };

    ghost inverse = { λ bits. record { bits = bits } };
}

/// The bits of a constant of type f64, ordered by the bits. Its text is 16 hexadecimal digits.
#[derive(Clone, Copy, Debug, PartialEq, Eq, PartialOrd, Ord, Hash)]
pub struct F64 {
    bits: u64,
}

impl Model for F64 {
    ghost use Rattle.std.specs.Prelude.{ℕ};

    ghost Value = { ℕ };

    ghost view = { λ x. x.bits };

    ghost inverse = { λ bits. record { bits = bits } };
}

impl F32 {
    /// The constant with these bits.
    pub fn from_bits(bits: u32) -> F32
        ensures { result ≡ bits }
    {
        F32 { bits }
    }

    /// Its bits.
    pub fn to_bits(self) -> u32
        ensures { result ≡ self }
    {
        self.bits
    }
}

impl F64 {
    /// The constant with these bits.
    pub fn from_bits(bits: u64) -> F64
        ensures { result ≡ bits }
    {
        F64 { bits }
    }

    /// Its bits.
    pub fn to_bits(self) -> u64
        ensures { result ≡ self }
    {
        self.bits
    }
}

// The number that so many hexadecimal digits write.
fn read_hex(text: &str, count: usize) -> Option<u64>
    requires some { 0 < count }
    requires few { count ≤ 16 }
    ensures value { result ≡ read_hex count text.now }
    ensures fits { IfSome result (λ n. n < 16 ^ count) }
{
    let bytes = text.as_bytes();
    if bytes.len() != count || bytes[0] == b'+' {
        return None;
    }
    match u64::from_str_radix(text, 16) {
        Ok(number) => Some(number),
        Err(_) => None,
    }
}

impl FromStr for F32 {
    ghost use Rattle.std.specs.Prelude.{◌≡◌};
    ghost use Rattle.peephole_payloads.specs.PayloadText.{read_f32};

    type Err = TermError;

    ghost from_str_gives = { λ text r. r ≡ read_f32 text };

    fn from_str(text: &str) -> Result<F32, TermError> {
        match read_hex(text, 8) {
            Some(bits) => Ok(F32 { bits: bits as u32 }),
            None => Err(TermError::BadBits),
        }
    }
}

impl FromStr for F64 {
    ghost use Rattle.std.specs.Prelude.{◌≡◌};
    ghost use Rattle.peephole_payloads.specs.PayloadText.{read_f64};

    type Err = TermError;

    ghost from_str_gives = { λ text r. r ≡ read_f64 text };

    fn from_str(text: &str) -> Result<F64, TermError> {
        match read_hex(text, 16) {
            Some(bits) => Ok(F64 { bits }),
            None => Err(TermError::BadBits),
        }
    }
}

impl fmt::Display for F32 {
    ghost use Rattle.std.specs.Prelude.{Some};
    ghost use Rattle.peephole_payloads.specs.PayloadText.{f32_text};

    ghost output = { λ x. Some (f32_text x) };

    fn fmt<W: fmt::Write>(&self, f: &mut fmt::Formatter<W>) -> fmt::Result {
        let bits = self.bits;
        write!(f, "{bits:08x}")
    }
}

impl fmt::Display for F64 {
    ghost use Rattle.std.specs.Prelude.{Some};
    ghost use Rattle.peephole_payloads.specs.PayloadText.{f64_text};

    ghost output = { λ x. Some (f64_text x) };

    fn fmt<W: fmt::Write>(&self, f: &mut fmt::Formatter<W>) -> fmt::Result {
        let bits = self.bits;
        write!(f, "{bits:016x}")
    }
}
