//! The texts of floats, in hexadecimal, which tells each bit.

use std::fmt;

/// A float of 32 or 64 bits, by its parts.
#[derive(Clone, Copy)]
pub(crate) struct Float {
    negative: bool,
    exponent: u64,
    fraction: u64,
    // What the exponent is more than what it stands for.
    bias: u64,
}

// The digits of a fraction, behind a point.
#[derive(Clone, Copy)]
struct Digits(Float);

// A float that is a number, without its sign.
#[derive(Clone, Copy)]
struct Finite(Float);

// The biases.
const SINGLE: u64 = 127;

const DOUBLE: u64 = 1023;

impl Float {
    /// The float of 32 bits.
    pub(crate) fn single(bits: u32) -> Float {
        Float {
            negative: bits >> 31 == 1,
            exponent: (bits >> 23) as u64 % 256,
            fraction: bits as u64 % (1 << 23),
            bias: SINGLE,
        }
    }

    /// The float of 64 bits.
    pub(crate) fn double(bits: u64) -> Float {
        Float {
            negative: bits >> 63 == 1,
            exponent: (bits >> 52) % 2048,
            fraction: bits % (1 << 52),
            bias: DOUBLE,
        }
    }
}

impl fmt::Display for Digits {
    fn fmt<W: fmt::Write>(&self, f: &mut fmt::Formatter<W>) -> fmt::Result {
        let fraction = self.0.fraction;
        if self.0.bias == SINGLE {
            // 23 bits, in 24.
            let fraction = fraction.saturating_mul(2);
            write!(f, "{fraction:06x}")
        } else {
            write!(f, "{fraction:013x}")
        }
    }
}

impl fmt::Display for Finite {
    fn fmt<W: fmt::Write>(&self, f: &mut fmt::Formatter<W>) -> fmt::Result {
        let exponent = self.0.exponent;
        let bias = self.0.bias;
        let digits = Digits(self.0);
        if exponent == 0 && self.0.fraction == 0 {
            write!(f, "0x0p+0")
        } else if exponent == 0 {
            let less = bias.saturating_sub(1);
            write!(f, "0x0.{digits}p-{less}")
        } else if exponent < bias {
            let less = bias.saturating_sub(exponent);
            write!(f, "0x1.{digits}p-{less}")
        } else {
            let more = exponent.saturating_sub(bias);
            write!(f, "0x1.{digits}p+{more}")
        }
    }
}

impl fmt::Display for Float {
    fn fmt<W: fmt::Write>(&self, f: &mut fmt::Formatter<W>) -> fmt::Result {
        let sign = if self.negative { "-" } else { "" };
        let fraction = self.fraction;
        if self.exponent <= self.bias.saturating_mul(2) {
            write!(f, "{sign}{}", Finite(*self))
        } else if fraction == 0 {
            write!(f, "{sign}inf")
        } else {
            write!(f, "{sign}nan:0x{fraction:x}")
        }
    }
}
