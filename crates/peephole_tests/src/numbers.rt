//! What numeric instructions compute, by their opcodes alone: WebAssembly Core Specification 3.0, Execution, Numerics. What is no
//! number has one pattern of bits where it is computed: the canonical one without a sign.

use std::num::{
    f32_from_bits_with_nan, f32_to_bits_with_nan, nearest_i64_to_f32, saturating_f32_to_i32,
};

// The number whose low bits these are, with the sign of the highest of them; `above` bits are above.
fn signed(bits: u64, above: u32) -> i64 {
    bits.wrapping_shl(above).cast_signed().wrapping_shr(above)
}

// Whether one of the ten comparisons holds, which are numbered in the order of their opcodes.
fn compared(comparison: u8, (x, y): (i64, i64), (a, b): (u64, u64)) -> bool {
    match comparison {
        0 => a == b, // eq
        1 => a != b, // ne
        2 => x < y, // lt_s
        3 => a < b, // lt_u
        4 => x > y, // gt_s
        5 => a > b, // gt_u
        6 => x <= y, // le_s
        7 => a <= b, // le_u
        8 => x >= y, // ge_s
        _ => a >= b, // ge_u
    }
}

// A quotient or a remainder.
fn divided(
    opcode: u8,
    wide: bool,
    (x, y): (i64, i64),
    (a, b): (u64, u64),
) -> Result<u64, &'static str> {
    let answer = match opcode {
        0x6d if !wide && y == -1 && a == 0x8000_0000 => None, // div_s
        0x6d => x.checked_div(y).map(|n| n.cast_unsigned()),
        0x6e => a.checked_div(b), // div_u
        0x6f if y == -1 => Some(0), // rem_s
        0x6f => x.checked_rem(y).map(|n| n.cast_unsigned()),
        _ => a.checked_rem(b), // rem_u
    };
    answer.ok_or(if b == 0 { "DivideByZero" } else { "Overflow" })
}

// What an instruction makes of two whole numbers. Its opcode is that of the instruction on i32.
fn combined(opcode: u8, wide: bool, a: u64, b: u64) -> Result<u64, &'static str> {
    let above = if wide { 0u32 } else { 32 };
    let numbers = (signed(a, above), signed(b, above));
    let low = (b & 63) as u32;
    let shift = if wide { low } else { low & 31 };
    let back = 64u32.saturating_sub(above).saturating_sub(shift);
    match opcode {
        0x46..=0x4f => Ok(u64::from(compared(opcode - 0x46, numbers, (a, b)))),
        0x6a => Ok(a.wrapping_add(b)), // add
        0x6b => Ok(a.wrapping_sub(b)), // sub
        0x6c => Ok(a.wrapping_mul(b)), // mul
        0x6d..=0x70 => divided(opcode, wide, numbers, (a, b)),
        0x71 => Ok(a & b), // and
        0x72 => Ok(a | b), // or
        0x73 => Ok(a ^ b), // xor
        0x74 => Ok(a.wrapping_shl(shift)), // shl
        0x75 => Ok(numbers.0.wrapping_shr(shift).cast_unsigned()), // shr_s
        0x76 => Ok(a.wrapping_shr(shift)), // shr_u
        0x77 => Ok(a.wrapping_shl(shift) | a.wrapping_shr(back)), // rotl
        0x78 => Ok(a.wrapping_shr(shift) | a.wrapping_shl(back)), // rotr
        _ => Err("Stuck"),
    }
}

// What an instruction makes of one number, where it can't trap.
fn of_one(opcode: u8, a: u64) -> Result<u64, &'static str> {
    match opcode {
        0x45 | 0x50 => Ok(u64::from(a == 0)), // eqz
        0x67 => Ok(u64::from(a.leading_zeros().saturating_sub(32))), // clz
        0x79 => Ok(u64::from(a.leading_zeros())),
        0x68 => Ok(u64::from(a.trailing_zeros().min(32))), // ctz
        0x7a => Ok(u64::from(a.trailing_zeros())),
        0x69 | 0x7b => Ok(u64::from(a.count_ones())), // popcnt
        0x8b => Ok(a & 0x7fff_ffff), // f32.abs
        0x8c => Ok(a ^ 0x8000_0000), // f32.neg
        0xa7 | 0xad | 0xbc..=0xbf => Ok(a), // wrap, extend_i32_u, reinterpret
        0xac | 0xc4 => Ok(signed(a, 32).cast_unsigned()), // extend_i32_s, extend32_s
        0xb2 => Ok(u64::from(f32_to_bits_with_nan(nearest_i64_to_f32(signed(a, 32))))), // f32.convert_i32_s
        0xc0 | 0xc2 => Ok(signed(a, 56).cast_unsigned()), // extend8_s
        0xc1 | 0xc3 => Ok(signed(a, 48).cast_unsigned()), // extend16_s
        _ => Err("Stuck"),
    }
}

// What an instruction makes of numbers of type f32.
fn of_floats(opcode: u8, a: u64, b: u64) -> Result<u64, &'static str> {
    let x = f32_from_bits_with_nan((a & 0xffff_ffff) as u32);
    let y = f32_from_bits_with_nan((b & 0xffff_ffff) as u32);
    match opcode {
        0x92 => Ok(u64::from(f32_to_bits_with_nan(x + y))), // f32.add
        0x94 => Ok(u64::from(f32_to_bits_with_nan(x * y))), // f32.mul
        _ if x.is_nan() => Err("InvalidConversion"),
        _ if -2147483648.0 <= x && x < 2147483648.0 => {
            Ok(u64::from(saturating_f32_to_i32(x).cast_unsigned()))
        }
        _ => Err("Overflow"),
    }
}

/// The bits of what a numeric instruction makes of the bits of its operands, or why it traps; `Stuck`
/// where the instruction isn't known. Of a result of 32 bits the low ones count.
pub fn computed(opcode: u8, a: u64, b: u64) -> Result<u64, &'static str> {
    match opcode {
        0x46..=0x4f | 0x6a..=0x78 => combined(opcode, false, a, b),
        0x51..=0x5a => combined(opcode - 0x0b, true, a, b),
        0x7c..=0x8a => combined(opcode - 0x12, true, a, b),
        0x92 | 0x94 | 0xa8 => of_floats(opcode, a, b),
        _ => of_one(opcode, a),
    }
}
