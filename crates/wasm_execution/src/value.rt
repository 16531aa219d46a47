//! What operators give.
ghost use Rattle.std.specs.Prelude.{◌≡◌, ◌%◌, ◌^◌, ◌<◌, [], ◌∷◌, if◌then◌else◌};
ghost use Rattle.std.specs.Int.{w8, w16, w32, w64, cast_signed};
ghost use Rattle.wasm_execution.specs.Values.{type_of, width_of, IsOfType};
ghost use Rattle.wasm_execution.specs.Integer.{div_s, rem_s, unary_value, binary_value, holds, signed_into};
ghost use Rattle.wasm_execution.specs.Operation.{unary_of, binary_of, comparison_of, operator_of};
ghost use Rattle.wasm_execution.specs.Computed.{AreOfTypes, kept, computed};

use crate::integer::IntegerType;
use crate::operation::{Binary, Comparison, Operation, Unary};

impl Operation {
    /// What the operator gives on these numbers, which are of its operands' types, as the bits of its result's type; none
    /// where it traps, and for another number of operands (WebAssembly Core Specification 3.0, Execution, Numerics,
    /// Integer Operations and Conversions).
    pub fn value(self, numbers: &[u64]) -> Option<u64>
        requires { AreOfTypes (operator_of self).operands numbers.now }
        ensures { result ≡ computed (operator_of self) numbers.now }
    {
        match numbers {
            [n] => self.on_one(*n),
            [n, m] => self.on_two(*n, *m),
            _ => None,
        }
    }

    fn on_one(self, n: u64) -> Option<u64>
        requires { AreOfTypes (operator_of self).operands (n ∷ []) }
        ensures { result ≡ computed (operator_of self) (n ∷ []) }
    {
        match self {
            Operation::Eqz(_) => Some(truth(n == 0)),
            Operation::Compare(_, _) => None,
            Operation::Unary(t, u) => match t {
                IntegerType::I32 => Some(unary_32(u, n as u32) as u64),
                IntegerType::I64 => Some(unary_64(u, n)),
            },
            Operation::Binary(_, _) => None,
            Operation::WrapI64 => Some(n % 0x1_0000_0000),
            Operation::ExtendI32S => Some(extend_32_to_64(n)),
            Operation::ExtendI32U => Some(n),
            Operation::Extend8S(t) => match t {
                IntegerType::I32 => Some(extend_8_to_32(n)),
                IntegerType::I64 => Some(extend_8_to_64(n)),
            },
            Operation::Extend16S(t) => match t {
                IntegerType::I32 => Some(extend_16_to_32(n)),
                IntegerType::I64 => Some(extend_16_to_64(n)),
            },
            Operation::Extend32S => Some(extend_32_to_64(n)),
        }
    }

    fn on_two(self, n: u64, m: u64) -> Option<u64>
        requires { AreOfTypes (operator_of self).operands (n ∷ m ∷ []) }
        ensures { result ≡ computed (operator_of self) (n ∷ m ∷ []) }
    {
        match self {
            Operation::Compare(t, c) => Some(truth(holds(t, c, n, m))),
            Operation::Binary(t, b) => match t {
                IntegerType::I32 => Some(binary_32(b, n as u32, m as u32)? as u64),
                IntegerType::I64 => binary_64(b, n, m),
            },
            _ => None,
        }
    }
}

fn truth(b: bool) -> u64
    ensures { result ≡ (if b then 1 else 0) }
{
    if b { 1 } else { 0 }
}

fn unary_32(u: Unary, n: u32) -> u32
    ensures value { result ≡ unary_value w32 (unary_of u) n }
    ensures bound { result < 2 ^ 32 }
{
    match u {
        Unary::Clz => n.leading_zeros(),
        Unary::Ctz => n.trailing_zeros(),
        Unary::Popcnt => n.count_ones(),
    }
}

fn unary_64(u: Unary, n: u64) -> u64
    ensures value { result ≡ unary_value w64 (unary_of u) n }
    ensures bound { result < 2 ^ 64 }
{
    match u {
        Unary::Clz => n.leading_zeros() as u64,
        Unary::Ctz => n.trailing_zeros() as u64,
        Unary::Popcnt => n.count_ones() as u64,
    }
}

// A number of the type, read as signed.
fn signed(t: IntegerType, n: u64) -> i64
    requires { IsOfType (type_of t) n }
    ensures { result ≡ cast_signed (width_of t) n }
{
    match t {
        IntegerType::I32 => (n as u32).cast_signed() as i64,
        IntegerType::I64 => n.cast_signed(),
    }
}

fn holds(t: IntegerType, c: Comparison, n: u64, m: u64) -> bool
    requires first { IsOfType (type_of t) n }
    requires second { IsOfType (type_of t) m }
    ensures { result ≡ holds (width_of t) (comparison_of c) n m }
{
    let (x, y) = (signed(t, n), signed(t, m));
    match c {
        Comparison::Eq => n == m,
        Comparison::Ne => n != m,
        Comparison::LtS => x < y,
        Comparison::LtU => n < m,
        Comparison::GtS => x > y,
        Comparison::GtU => n > m,
        Comparison::LeS => x <= y,
        Comparison::LeU => n <= m,
        Comparison::GeS => x >= y,
        Comparison::GeU => n >= m,
    }
}

fn binary_32(b: Binary, n: u32, m: u32) -> Option<u32>
    ensures { result ≡ kept w32 (binary_value w32 (binary_of b) n m) }
{
    match b {
        Binary::Add => Some(n.wrapping_add(m)),
        Binary::Sub => Some(n.wrapping_sub(m)),
        Binary::Mul => Some(n.wrapping_mul(m)),
        Binary::DivS => divide_signed_32(n, m),
        Binary::DivU => n.checked_div(m),
        Binary::RemS => remainder_signed_32(n, m),
        Binary::RemU => n.checked_rem(m),
        Binary::And => Some(n & m),
        Binary::Or => Some(n | m),
        Binary::Xor => Some(n ^ m),
        Binary::Shl => Some(n.wrapping_shl(m)),
        Binary::ShrS => Some(n.cast_signed().wrapping_shr(m).cast_unsigned()),
        Binary::ShrU => Some(n.wrapping_shr(m)),
        Binary::Rotl => Some(n.rotate_left(m)),
        Binary::Rotr => Some(n.rotate_right(m)),
    }
}

fn divide_signed_32(n: u32, m: u32) -> Option<u32>
    ensures { result ≡ kept w32 (binary_value w32 div_s n m) }
{
    let quotient = n.cast_signed().checked_div(m.cast_signed())?;
    Some(quotient.cast_unsigned())
}

fn remainder_signed_32(n: u32, m: u32) -> Option<u32>
    ensures { result ≡ kept w32 (binary_value w32 rem_s n m) }
{
    if m == 0 {
        return None;
    }
    let remainder = n.cast_signed().wrapping_rem(m.cast_signed());
    Some(remainder.cast_unsigned())
}

fn binary_64(b: Binary, n: u64, m: u64) -> Option<u64>
    ensures { result ≡ kept w64 (binary_value w64 (binary_of b) n m) }
{
    match b {
        Binary::Add => Some(n.wrapping_add(m)),
        Binary::Sub => Some(n.wrapping_sub(m)),
        Binary::Mul => Some(n.wrapping_mul(m)),
        Binary::DivS => divide_signed_64(n, m),
        Binary::DivU => n.checked_div(m),
        Binary::RemS => remainder_signed_64(n, m),
        Binary::RemU => n.checked_rem(m),
        Binary::And => Some(n & m),
        Binary::Or => Some(n | m),
        Binary::Xor => Some(n ^ m),
        Binary::Shl => Some(n.wrapping_shl(count_64(m))),
        Binary::ShrS => Some(n.cast_signed().wrapping_shr(count_64(m)).cast_unsigned()),
        Binary::ShrU => Some(n.wrapping_shr(count_64(m))),
        Binary::Rotl => Some(n.rotate_left(count_64(m))),
        Binary::Rotr => Some(n.rotate_right(count_64(m))),
    }
}

// By how many places an i64 is shifted or turned.
fn count_64(m: u64) -> u32
    ensures { result ≡ m % 64 }
{
    (m % 64) as u32
}

fn divide_signed_64(n: u64, m: u64) -> Option<u64>
    ensures { result ≡ kept w64 (binary_value w64 div_s n m) }
{
    let quotient = n.cast_signed().checked_div(m.cast_signed())?;
    Some(quotient.cast_unsigned())
}

fn remainder_signed_64(n: u64, m: u64) -> Option<u64>
    ensures { result ≡ kept w64 (binary_value w64 rem_s n m) }
{
    if m == 0 {
        return None;
    }
    let remainder = n.cast_signed().wrapping_rem(m.cast_signed());
    Some(remainder.cast_unsigned())
}

fn extend_8_to_32(n: u64) -> u64
    ensures { result ≡ signed_into w8 w32 n % 2 ^ 32 }
{
    let low = ((n % 0x100) as u8).cast_signed();
    (low as i32).cast_unsigned() as u64
}

fn extend_16_to_32(n: u64) -> u64
    ensures { result ≡ signed_into w16 w32 n % 2 ^ 32 }
{
    let low = ((n % 0x1_0000) as u16).cast_signed();
    (low as i32).cast_unsigned() as u64
}

fn extend_8_to_64(n: u64) -> u64
    ensures { result ≡ signed_into w8 w64 n % 2 ^ 64 }
{
    let low = ((n % 0x100) as u8).cast_signed();
    (low as i64).cast_unsigned()
}

fn extend_16_to_64(n: u64) -> u64
    ensures { result ≡ signed_into w16 w64 n % 2 ^ 64 }
{
    let low = ((n % 0x1_0000) as u16).cast_signed();
    (low as i64).cast_unsigned()
}

fn extend_32_to_64(n: u64) -> u64
    ensures { result ≡ signed_into w32 w64 n % 2 ^ 64 }
{
    let low = ((n % 0x1_0000_0000) as u32).cast_signed();
    (low as i64).cast_unsigned()
}
