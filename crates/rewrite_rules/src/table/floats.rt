//! Rows on floats.

use crate::pattern::Number;
use crate::table::{Step, TableLine, Widths};
use wasm_execution::{Binary, IntegerType, Operation};
use wasm_types::PrimitiveTypeInfo;

/// Signs of floats twice, and bits read as a float and back.
pub const FLOATS: [TableLine; 20] = [
    row!("drop_double_float_negation" for (F32): [x (f32.neg) (f32.neg)] => [x]),
    row!(for (F64): [x (f64.neg) (f64.neg)] => [x]),
    row!("double_float_negation" for (F32): [x] => [x (f32.neg) (f32.neg)]),
    row!(for (F64): [x] => [x (f64.neg) (f64.neg)]),
    row!("drop_neg_in_abs" for (F32): [x (f32.neg) (f32.abs)] => [x (f32.abs)]),
    row!(for (F64): [x (f64.neg) (f64.abs)] => [x (f64.abs)]),
    row!("neg_in_abs" for (F32): [x (f32.abs)] => [x (f32.neg) (f32.abs)]),
    row!(for (F64): [x (f64.abs)] => [x (f64.neg) (f64.abs)]),
    row!("drop_abs_again" for (F32): [x (f32.abs) (f32.abs)] => [x (f32.abs)]),
    row!(for (F64): [x (f64.abs) (f64.abs)] => [x (f64.abs)]),
    row!("abs_again" for (F32): [x (f32.abs)] => [x (f32.abs) (f32.abs)]),
    row!(for (F64): [x (f64.abs)] => [x (f64.abs) (f64.abs)]),
    row!("drop_reinterpretations" for (F32): [x (i32.reinterpret_f32) (f32.reinterpret_i32)] => [x]),
    row!(for (I32): [x (f32.reinterpret_i32) (i32.reinterpret_f32)] => [x]),
    row!(for (F64): [x (i64.reinterpret_f64) (f64.reinterpret_i64)] => [x]),
    row!(for (I64): [x (f64.reinterpret_i64) (i64.reinterpret_f64)] => [x]),
    row!("reinterpret_and_back" for (F32): [x] => [x (i32.reinterpret_f32) (f32.reinterpret_i32)]),
    row!(for (I32): [x] => [x (f32.reinterpret_i32) (i32.reinterpret_f32)]),
    row!(for (F64): [x] => [x (i64.reinterpret_f64) (f64.reinterpret_i64)]),
    row!(for (I64): [x] => [x (f64.reinterpret_i64) (i64.reinterpret_f64)]),
];

/// The sign of a float by its bits.
pub const FLOAT_BITS: [TableLine; 20] = [
    row!("neg_to_bits" for (F32): [x (f32.neg)] => [x (i32.reinterpret_f32) sign xor (f32.reinterpret_i32)]),
    row!(for (F64): [x (f64.neg)] => [x (i64.reinterpret_f64) sign xor (f64.reinterpret_i64)]),
    row!("bits_to_neg" for (F32): [x (i32.reinterpret_f32) sign xor (f32.reinterpret_i32)] => [x (f32.neg)]),
    row!(for (F64): [x (i64.reinterpret_f64) sign xor (f64.reinterpret_i64)] => [x (f64.neg)]),
    row!("abs_to_bits" for (F32): [x (f32.abs)] => [x (i32.reinterpret_f32) 0x7fffffff and (f32.reinterpret_i32)]),
    row!(for (F64): [x (f64.abs)] => [x (i64.reinterpret_f64) 0x7fffffffffffffff and (f64.reinterpret_i64)]),
    row!("bits_to_abs" for (F32): [x (i32.reinterpret_f32) 0x7fffffff and (f32.reinterpret_i32)] => [x (f32.abs)]),
    row!(for (F64): [x (i64.reinterpret_f64) 0x7fffffffffffffff and (f64.reinterpret_i64)] => [x (f64.abs)]),
    row!("neg_abs_to_bits" for (F32): [x (f32.abs) (f32.neg)] => [x (i32.reinterpret_f32) sign or (f32.reinterpret_i32)]),
    row!(for (F64): [x (f64.abs) (f64.neg)] => [x (i64.reinterpret_f64) sign or (f64.reinterpret_i64)]),
    row!("bits_to_neg_abs" for (F32): [x (i32.reinterpret_f32) sign or (f32.reinterpret_i32)] => [x (f32.abs) (f32.neg)]),
    row!(for (F64): [x (i64.reinterpret_f64) sign or (f64.reinterpret_i64)] => [x (f64.abs) (f64.neg)]),
    row!("neg_behind_bits" for (F32): [x (f32.neg) (i32.reinterpret_f32)] => [x (i32.reinterpret_f32) sign xor]),
    row!(for (F64): [x (f64.neg) (i64.reinterpret_f64)] => [x (i64.reinterpret_f64) sign xor]),
    row!("neg_before_bits" for (F32): [x (i32.reinterpret_f32) sign xor] => [x (f32.neg) (i32.reinterpret_f32)]),
    row!(for (F64): [x (i64.reinterpret_f64) sign xor] => [x (f64.neg) (i64.reinterpret_f64)]),
    row!("abs_behind_bits" for (F32): [x (f32.abs) (i32.reinterpret_f32)] => [x (i32.reinterpret_f32) 0x7fffffff and]),
    row!(for (F64): [x (f64.abs) (i64.reinterpret_f64)] => [x (i64.reinterpret_f64) 0x7fffffffffffffff and]),
    row!("abs_before_bits" for (F32): [x (i32.reinterpret_f32) 0x7fffffff and] => [x (f32.abs) (i32.reinterpret_f32)]),
    row!(for (F64): [x (i64.reinterpret_f64) 0x7fffffffffffffff and] => [x (f64.abs) (i64.reinterpret_f64)]),
];

/// The sign of one float with the bits of another.
pub const FLOAT_SIGNS: [TableLine; 18] = [
    row!("drop_neg_in_copysign" for (F32): [x (f32.neg) y (f32.copysign)] => [x y (f32.copysign)]),
    row!(for (F64): [x (f64.neg) y (f64.copysign)] => [x y (f64.copysign)]),
    row!("neg_in_copysign" for (F32): [x y (f32.copysign)] => [x (f32.neg) y (f32.copysign)]),
    row!(for (F64): [x y (f64.copysign)] => [x (f64.neg) y (f64.copysign)]),
    row!("drop_abs_in_copysign" for (F32): [x (f32.abs) y (f32.copysign)] => [x y (f32.copysign)]),
    row!(for (F64): [x (f64.abs) y (f64.copysign)] => [x y (f64.copysign)]),
    row!("abs_in_copysign" for (F32): [x y (f32.copysign)] => [x (f32.abs) y (f32.copysign)]),
    row!(for (F64): [x y (f64.copysign)] => [x (f64.abs) y (f64.copysign)]),
    row!("drop_copysign_of_self" for (F32): [x x (f32.copysign)] => [x]),
    row!(for (F64): [x x (f64.copysign)] => [x]),
    row!("copysign_of_self" for (F32): [x] => [x x (f32.copysign)]),
    row!(for (F64): [x] => [x x (f64.copysign)]),
    row!("abs_of_copysign" for (F32): [x y (f32.copysign) (f32.abs)] => [x (f32.abs)]),
    row!(for (F64): [x y (f64.copysign) (f64.abs)] => [x (f64.abs)]),
    row!("drop_first_copysign" for (F32): [x y (f32.copysign) z (f32.copysign)] => [x z (f32.copysign)]),
    row!(for (F64): [x y (f64.copysign) z (f64.copysign)] => [x z (f64.copysign)]),
    row!("drop_inner_copysign" for (F32): [x y z (f32.copysign) (f32.copysign)] => [x z (f32.copysign)]),
    row!(for (F64): [x y z (f64.copysign) (f64.copysign)] => [x z (f64.copysign)]),
];

/// The sign of a float turned before it is copied, or behind that.
pub const FLOAT_COPIES: [TableLine; 12] = [
    row!("neg_out_of_copysign" for (F32): [x y (f32.neg) (f32.copysign)] => [x y (f32.copysign) (f32.neg)]),
    row!(for (F64): [x y (f64.neg) (f64.copysign)] => [x y (f64.copysign) (f64.neg)]),
    row!("neg_into_copysign" for (F32): [x y (f32.copysign) (f32.neg)] => [x y (f32.neg) (f32.copysign)]),
    row!(for (F64): [x y (f64.copysign) (f64.neg)] => [x y (f64.neg) (f64.copysign)]),
    row!("drop_copysign_of_neg" for (F32): [x x (f32.neg) (f32.copysign)] => [x (f32.neg)]),
    row!(for (F64): [x x (f64.neg) (f64.copysign)] => [x (f64.neg)]),
    row!("copysign_of_neg" for (F32): [x (f32.neg)] => [x x (f32.neg) (f32.copysign)]),
    row!(for (F64): [x (f64.neg)] => [x x (f64.neg) (f64.copysign)]),
    row!("drop_copysign_of_abs" for (F32): [x x (f32.abs) (f32.copysign)] => [x (f32.abs)]),
    row!(for (F64): [x x (f64.abs) (f64.copysign)] => [x (f64.abs)]),
    row!("copysign_of_abs" for (F32): [x (f32.abs)] => [x x (f32.abs) (f32.copysign)]),
    row!(for (F64): [x (f64.abs)] => [x x (f64.abs) (f64.copysign)]),
];

/// Comparisons of floats, turned around, or by the test of the opposite.
pub const FLOAT_TESTS: [TableLine; 20] = [
    row!("commute_floats" for (F32): [x y (f32.eq)] => [y x (f32.eq)]),
    row!(for (F32): [x y (f32.ne)] => [y x (f32.ne)]),
    row!(for (F64): [x y (f64.eq)] => [y x (f64.eq)]),
    row!(for (F64): [x y (f64.ne)] => [y x (f64.ne)]),
    row!("turn_floats" for (F32): [x y (f32.lt)] => [y x (f32.gt)]),
    row!(for (F32): [x y (f32.gt)] => [y x (f32.lt)]),
    row!(for (F32): [x y (f32.le)] => [y x (f32.ge)]),
    row!(for (F32): [x y (f32.ge)] => [y x (f32.le)]),
    row!(for (F64): [x y (f64.lt)] => [y x (f64.gt)]),
    row!(for (F64): [x y (f64.gt)] => [y x (f64.lt)]),
    row!(for (F64): [x y (f64.le)] => [y x (f64.ge)]),
    row!(for (F64): [x y (f64.ge)] => [y x (f64.le)]),
    row!("negate_float_equality" for (F32): [x y (f32.ne)] => [x y (f32.eq) (i32.eqz)]),
    row!(for (F32): [x y (f32.eq)] => [x y (f32.ne) (i32.eqz)]),
    row!(for (F64): [x y (f64.ne)] => [x y (f64.eq) (i32.eqz)]),
    row!(for (F64): [x y (f64.eq)] => [x y (f64.ne) (i32.eqz)]),
    row!("drop_float_negation" for (F32): [x y (f32.eq) (i32.eqz)] => [x y (f32.ne)]),
    row!(for (F32): [x y (f32.ne) (i32.eqz)] => [x y (f32.eq)]),
    row!(for (F64): [x y (f64.eq) (i32.eqz)] => [x y (f64.ne)]),
    row!(for (F64): [x y (f64.ne) (i32.eqz)] => [x y (f64.eq)]),
];

/// A float compared with itself.
pub const FLOAT_SELVES: [TableLine; 12] = [
    row!("cancel_float_comparison" for (F32): [x x (f32.lt)] => [0]),
    row!(for (F32): [x x (f32.gt)] => [0]),
    row!(for (I32 F64 F64): [y y (f64.lt)] => [0]),
    row!(for (I32 F64 F64): [y y (f64.gt)] => [0]),
    row!("self_equality_to_le" for (F32): [x x (f32.eq)] => [x x (f32.le)]),
    row!(for (F64): [x x (f64.eq)] => [x x (f64.le)]),
    row!("self_equality_to_ge" for (F32): [x x (f32.eq)] => [x x (f32.ge)]),
    row!(for (F64): [x x (f64.eq)] => [x x (f64.ge)]),
    row!("self_order_to_equality" for (F32): [x x (f32.le)] => [x x (f32.eq)]),
    row!(for (F32): [x x (f32.ge)] => [x x (f32.eq)]),
    row!(for (F64): [x x (f64.le)] => [x x (f64.eq)]),
    row!(for (F64): [x x (f64.ge)] => [x x (f64.eq)]),
];

/// Comparisons of floats whose signs are turned.
pub const FLOAT_TURNS: [TableLine; 24] = [
    row!("drop_compared_negations" for (F32): [x (f32.neg) y (f32.neg) (f32.eq)] => [y x (f32.eq)]),
    row!(for (F32): [x (f32.neg) y (f32.neg) (f32.ne)] => [y x (f32.ne)]),
    row!(for (F32): [x (f32.neg) y (f32.neg) (f32.lt)] => [y x (f32.lt)]),
    row!(for (F32): [x (f32.neg) y (f32.neg) (f32.gt)] => [y x (f32.gt)]),
    row!(for (F32): [x (f32.neg) y (f32.neg) (f32.le)] => [y x (f32.le)]),
    row!(for (F32): [x (f32.neg) y (f32.neg) (f32.ge)] => [y x (f32.ge)]),
    row!(for (F64): [x (f64.neg) y (f64.neg) (f64.eq)] => [y x (f64.eq)]),
    row!(for (F64): [x (f64.neg) y (f64.neg) (f64.ne)] => [y x (f64.ne)]),
    row!(for (F64): [x (f64.neg) y (f64.neg) (f64.lt)] => [y x (f64.lt)]),
    row!(for (F64): [x (f64.neg) y (f64.neg) (f64.gt)] => [y x (f64.gt)]),
    row!(for (F64): [x (f64.neg) y (f64.neg) (f64.le)] => [y x (f64.le)]),
    row!(for (F64): [x (f64.neg) y (f64.neg) (f64.ge)] => [y x (f64.ge)]),
    row!("negate_compared" for (F32): [y x (f32.eq)] => [x (f32.neg) y (f32.neg) (f32.eq)]),
    row!(for (F32): [y x (f32.ne)] => [x (f32.neg) y (f32.neg) (f32.ne)]),
    row!(for (F32): [y x (f32.lt)] => [x (f32.neg) y (f32.neg) (f32.lt)]),
    row!(for (F32): [y x (f32.gt)] => [x (f32.neg) y (f32.neg) (f32.gt)]),
    row!(for (F32): [y x (f32.le)] => [x (f32.neg) y (f32.neg) (f32.le)]),
    row!(for (F32): [y x (f32.ge)] => [x (f32.neg) y (f32.neg) (f32.ge)]),
    row!(for (F64): [y x (f64.eq)] => [x (f64.neg) y (f64.neg) (f64.eq)]),
    row!(for (F64): [y x (f64.ne)] => [x (f64.neg) y (f64.neg) (f64.ne)]),
    row!(for (F64): [y x (f64.lt)] => [x (f64.neg) y (f64.neg) (f64.lt)]),
    row!(for (F64): [y x (f64.gt)] => [x (f64.neg) y (f64.neg) (f64.gt)]),
    row!(for (F64): [y x (f64.le)] => [x (f64.neg) y (f64.neg) (f64.le)]),
    row!(for (F64): [y x (f64.ge)] => [x (f64.neg) y (f64.neg) (f64.ge)]),
];

/// Whether floats are equal, by both orders, and their order by both of its parts.
pub const FLOAT_ORDERS: [TableLine; 12] = [
    row!("equality_to_orders" for (F32): [x y (f32.eq)] => [x y (f32.le) x y (f32.ge) (i32.and)]),
    row!(for (F64): [x y (f64.eq)] => [x y (f64.le) x y (f64.ge) (i32.and)]),
    row!("orders_to_equality" for (F32): [x y (f32.le) x y (f32.ge) (i32.and)] => [x y (f32.eq)]),
    row!(for (F64): [x y (f64.le) x y (f64.ge) (i32.and)] => [x y (f64.eq)]),
    row!("order_to_parts" for (F32): [x y (f32.le)] => [x y (f32.lt) x y (f32.eq) (i32.or)]),
    row!(for (F32): [x y (f32.ge)] => [x y (f32.gt) x y (f32.eq) (i32.or)]),
    row!(for (F64): [x y (f64.le)] => [x y (f64.lt) x y (f64.eq) (i32.or)]),
    row!(for (F64): [x y (f64.ge)] => [x y (f64.gt) x y (f64.eq) (i32.or)]),
    row!("parts_to_order" for (F32): [x y (f32.lt) x y (f32.eq) (i32.or)] => [x y (f32.le)]),
    row!(for (F32): [x y (f32.gt) x y (f32.eq) (i32.or)] => [x y (f32.ge)]),
    row!(for (F64): [x y (f64.lt) x y (f64.eq) (i32.or)] => [x y (f64.le)]),
    row!(for (F64): [x y (f64.gt) x y (f64.eq) (i32.or)] => [x y (f64.ge)]),
];

/// Conversions of integers to floats by those of wider ones, and what is without a sign.
pub const CONVERSIONS: [TableLine; 20] = [
    row!("widen_converted" for (I32): [x (f32.convert_i32_s)] => [x (i64.extend_i32_s) (f32.convert_i64_s)]),
    row!(for (I32): [x (f32.convert_i32_u)] => [x (i64.extend_i32_u) (f32.convert_i64_s)]),
    row!(for (I32): [x (f32.convert_i32_u)] => [x (i64.extend_i32_u) (f32.convert_i64_u)]),
    row!(for (I32): [x (f64.convert_i32_s)] => [x (i64.extend_i32_s) (f64.convert_i64_s)]),
    row!(for (I32): [x (f64.convert_i32_u)] => [x (i64.extend_i32_u) (f64.convert_i64_s)]),
    row!(for (I32): [x (f64.convert_i32_u)] => [x (i64.extend_i32_u) (f64.convert_i64_u)]),
    row!("drop_widening_of_converted" for (I32): [x (i64.extend_i32_s) (f32.convert_i64_s)] => [x (f32.convert_i32_s)]),
    row!(for (I32): [x (i64.extend_i32_u) (f32.convert_i64_s)] => [x (f32.convert_i32_u)]),
    row!(for (I32): [x (i64.extend_i32_u) (f32.convert_i64_u)] => [x (f32.convert_i32_u)]),
    row!(for (I32): [x (i64.extend_i32_s) (f64.convert_i64_s)] => [x (f64.convert_i32_s)]),
    row!(for (I32): [x (i64.extend_i32_u) (f64.convert_i64_s)] => [x (f64.convert_i32_u)]),
    row!(for (I32): [x (i64.extend_i32_u) (f64.convert_i64_u)] => [x (f64.convert_i32_u)]),
    row!("magnitude_of_converted" for (I32): [x (f32.convert_i32_u)] => [x (f32.convert_i32_u) (f32.abs)]),
    row!(for (I64): [x (f32.convert_i64_u)] => [x (f32.convert_i64_u) (f32.abs)]),
    row!(for (I32): [x (f64.convert_i32_u)] => [x (f64.convert_i32_u) (f64.abs)]),
    row!(for (I64): [x (f64.convert_i64_u)] => [x (f64.convert_i64_u) (f64.abs)]),
    row!("drop_magnitude_of_converted" for (I32): [x (f32.convert_i32_u) (f32.abs)] => [x (f32.convert_i32_u)]),
    row!(for (I64): [x (f32.convert_i64_u) (f32.abs)] => [x (f32.convert_i64_u)]),
    row!(for (I32): [x (f64.convert_i32_u) (f64.abs)] => [x (f64.convert_i32_u)]),
    row!(for (I64): [x (f64.convert_i64_u) (f64.abs)] => [x (f64.convert_i64_u)]),
];
