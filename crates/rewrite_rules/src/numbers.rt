//! What a number of a line is, by the numbers of the constants that stand on its left side.
ghost use Rattle.std.specs.Prelude.{◌≡◌, ◌<◌, ◌%◌, ◌^◌, ◌==◌};
ghost use mir.Val.{bits};
ghost use Rattle.wasm_execution.specs.Values.{width_of};
ghost use Rattle.rewrite_rules.specs.Numbers.{low, lowest_bit, number_of, constant_at};
ghost use Rattle.rewrite_rules.specs.Line.{holds};
ghost use Rattle.rewrite_rules.specs.Table.{condition_for};

use crate::pattern::Number;
use crate::table::Condition;
use wasm_execution::IntegerType;

// The number's low bits, for the width.
fn low(t: IntegerType, number: u64) -> u64
    ensures { result ≡ low t number }
{
    match t {
        IntegerType::I32 => number % 0x1_0000_0000,
        IntegerType::I64 => number,
    }
}

// The width in bits.
fn width(t: IntegerType) -> u64
    ensures { result ≡ bits (width_of t) }
{
    match t {
        IntegerType::I32 => 32,
        IntegerType::I64 => 64,
    }
}

// The place of a number's lowest bit that is set.
fn lowest_bit(t: IntegerType, number: u64) -> u64
    requires { number < 2 ^ bits (width_of t) }
    ensures { result ≡ lowest_bit t number }
{
    match t {
        IntegerType::I32 => (number as u32).trailing_zeros() as u64 % 32,
        IntegerType::I64 => number.trailing_zeros() as u64 % 64,
    }
}

// The low bits of two to the number's power.
fn power(number: u64) -> u64
    ensures { result ≡ 2 ^ number % 2 ^ 64 }
{
    if number < 64 { 1 << number } else { 0 }
}

// The number of the constant with that index, and 0 where there is none.
fn constant(constants: &[u64], index: u8) -> u64
    ensures { result ≡ constant_at constants.now index }
{
    constants.get(index as usize).copied().unwrap_or(0)
}

impl Number {
    /// The number's low bits, for the width; `constants` are the numbers of the constants on the left side.
    pub fn value(self, t: IntegerType, constants: &[u64]) -> u64
        ensures { result ≡ low t (number_of t (constant_at constants.now) self) }
    {
        let number = match self {
            Number::Literal(number) => number,
            Number::Ones => u64::MAX,
            Number::Bits => width(t),
            Number::Sign => power(width(t) - 1),
            Number::Slot(index) => constant(constants, index),
            Number::Turned(index) => width(t) - low(t, constant(constants, index)) % width(t),
            Number::Next(index) => low(t, constant(constants, index)).wrapping_add(1),
            Number::Previous(index) => low(t, constant(constants, index)).saturating_sub(1),
            Number::Negated(index) => 0u64.wrapping_sub(low(t, constant(constants, index))),
            Number::Power(index) => power(low(t, constant(constants, index))),
            Number::Place(index) => lowest_bit(t, low(t, constant(constants, index))),
            Number::Sum(index, other) => {
                constant(constants, index).wrapping_add(constant(constants, other))
            }
        };
        low(t, number)
    }
}

// Whether the number is a power of two.
fn is_power(t: IntegerType, number: u64) -> bool
    requires { number < 2 ^ bits (width_of t) }
    ensures { result ≡ (2 ^ lowest_bit t number == number) }
{
    power(lowest_bit(t, number)) == number
}

impl Condition {
    /// Whether it holds of the constants with these numbers, for the width.
    pub fn holds(self, t: IntegerType, constants: &[u64]) -> bool
        ensures { result ≡ holds (constant_at constants.now) (condition_for t self) }
    {
        match self {
            Condition::BelowWidth(index) => low(t, constant(constants, index)) < width(t),
            Condition::Power(index) => is_power(t, low(t, constant(constants, index))),
            Condition::Mask(index) => {
                let number = low(t, constant(constants, index));
                number < low(t, u64::MAX) && is_power(t, number + 1)
            }
            Condition::Turns(index, other) => {
                let first = low(t, constant(constants, index)) % width(t);
                let second = low(t, constant(constants, other)) % width(t);
                (first + second) % width(t) == 0
            }
        }
    }
}
