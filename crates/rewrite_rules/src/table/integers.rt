//! Rows on integers.

use crate::pattern::Number;
use crate::table::{Condition, Own, Step, TableLine, Widths};
use wasm_execution::{Binary, Comparison, IntegerType, Operation, Unary};

/// Operands in another order.
pub const ORDERS: [TableLine; 15] = [
    row!("commute": [x y add] => [y x add]),
    row!([x y mul] => [y x mul]),
    row!([x y and] => [y x and]),
    row!([x y or] => [y x or]),
    row!([x y xor] => [y x xor]),
    row!([x y eq] => [y x eq]),
    row!([x y ne] => [y x ne]),
    row!("turn_comparison": [x y lt_s] => [y x gt_s]),
    row!([x y lt_u] => [y x gt_u]),
    row!([x y le_s] => [y x ge_s]),
    row!([x y le_u] => [y x ge_u]),
    row!([x y gt_s] => [y x lt_s]),
    row!([x y gt_u] => [y x lt_u]),
    row!([x y ge_s] => [y x le_s]),
    row!([x y ge_u] => [y x le_u]),
];

/// Operands grouped otherwise.
pub const GROUPS: [TableLine; 10] = [
    row!("associate_left": [x y z add add] => [x y add z add]),
    row!([x y z mul mul] => [x y mul z mul]),
    row!([x y z and and] => [x y and z and]),
    row!([x y z or or] => [x y or z or]),
    row!([x y z xor xor] => [x y xor z xor]),
    row!("associate_right": [x y add z add] => [x y z add add]),
    row!([x y mul z mul] => [x y z mul mul]),
    row!([x y and z and] => [x y z and and]),
    row!([x y or z or] => [x y z or or]),
    row!([x y xor z xor] => [x y z xor xor]),
];

/// An operation more that changes nothing.
pub const LONGER: [TableLine; 10] = [
    row!("add_zero": [x] => [x 0 add]),
    row!("sub_zero": [x] => [x 0 sub]),
    row!("mul_one": [x] => [x 1 mul]),
    row!("or_zero": [x] => [x 0 or]),
    row!("xor_zero": [x] => [x 0 xor]),
    row!("and_ones": [x] => [x ones and]),
    row!("shift_by_zero": [x] => [x 0 shl]),
    row!("or_self": [x] => [x x or]),
    row!("and_self": [x] => [x x and]),
    row!("double_complement": [x] => [x ones xor ones xor]),
];

/// Another form, with another constant or operator.
pub const FORMS: [TableLine; 11] = [
    row!("shift_to_product": [x c shl] => [x (2^c) mul] if c < N),
    row!("product_to_shift": [x c mul] => [x (log c) shl] if c is power),
    row!("difference_to_sum": [x c sub] => [x (-c) add]),
    row!("sum_to_difference": [x c add] => [x (-c) sub]),
    row!("test_to_comparison": [x eqz] => [x 0 eq]),
    row!("comparison_to_test": [x 0 eq] => [x eqz]),
    row!("turn_select" for any: [x y z select] => [y x z (i32.eqz) select]),
    own!("unfold": Unfold),
    own!("through_global": ThroughGlobal),
    own!("with_nop": WithNop),
    own!("fold": Fold),
];

/// A number that changes nothing, dropped or put.
pub const NEUTRAL: [TableLine; 16] = [
    row!("drop_add_zero": [x 0 add] => [x]),
    row!("drop_sub_zero": [x 0 sub] => [x]),
    row!("drop_mul_one": [x 1 mul] => [x]),
    row!("drop_or_zero": [x 0 or] => [x]),
    row!("drop_xor_zero": [x 0 xor] => [x]),
    row!("drop_and_ones": [x ones and] => [x]),
    row!("drop_shift_by_zero": [x 0 shl] => [x]),
    own!("forget": Forget),
    row!("shr_s_by_zero": [x] => [x 0 shr_s]),
    row!("shr_u_by_zero": [x] => [x 0 shr_u]),
    row!("rotl_by_zero": [x] => [x 0 rotl]),
    row!("rotr_by_zero": [x] => [x 0 rotr]),
    row!("drop_shr_s_by_zero": [x 0 shr_s] => [x]),
    row!("drop_shr_u_by_zero": [x 0 shr_u] => [x]),
    row!("drop_rotl_by_zero": [x 0 rotl] => [x]),
    row!("drop_rotr_by_zero": [x 0 rotr] => [x]),
];

/// Another operator with another constant.
pub const POWERS: [TableLine; 8] = [
    row!("quotient_to_shift": [x c div_u] => [x (log c) shr_u] if c is power),
    row!("shift_to_quotient": [x c shr_u] => [x (2^c) div_u] if c < N),
    row!("remainder_to_mask": [x c rem_u] => [x (c-1) and] if c is power),
    row!("mask_to_remainder": [x c and] => [x (c+1) rem_u] if c is mask),
    row!("rotl_to_rotr": [x c rotl] => [x (N-c) rotr]),
    row!("rotr_to_rotl": [x c rotr] => [x (N-c) rotl]),
    row!("product_to_double": [x 2 mul] => [x x add]),
    row!("shift_to_double": [x 1 shl] => [x x add]),
];

/// An operand that stands twice.
pub const TWICE: [TableLine; 7] = [
    row!("cancel_sub": [x x sub] => [0]),
    row!("cancel_xor": [x x xor] => [0]),
    row!("drop_or_self": [x x or] => [x]),
    row!("drop_and_self": [x x and] => [x]),
    row!("double_to_product": [x x add] => [x 2 mul]),
    row!("double_to_shift": [x x add] => [x 1 shl]),
    row!("drop_select" for any: [x x z select] => [x]),
];

/// A number that decides alone.
pub const ALONE: [TableLine; 6] = [
    row!("and_zero": [0] => [drawn 0 and]),
    row!("mul_zero": [0] => [drawn 0 mul]),
    row!("or_ones": [ones] => [drawn ones or]),
    row!("drop_and_zero": [x 0 and] => [0]),
    row!("drop_mul_zero": [x 0 mul] => [0]),
    row!("drop_or_ones": [x ones or] => [ones]),
];

/// A comparison as the test of its opposite, and something wider.
pub const TESTS: [TableLine; 12] = [
    row!("negate_comparison": [x y eq] => [x y ne (i32.eqz)]),
    row!([x y ne] => [x y eq (i32.eqz)]),
    row!([x y lt_s] => [x y ge_s (i32.eqz)]),
    row!([x y lt_u] => [x y ge_u (i32.eqz)]),
    row!([x y gt_s] => [x y le_s (i32.eqz)]),
    row!([x y gt_u] => [x y le_u (i32.eqz)]),
    row!([x y le_s] => [x y gt_s (i32.eqz)]),
    row!([x y le_u] => [x y gt_u (i32.eqz)]),
    row!([x y ge_s] => [x y lt_s (i32.eqz)]),
    row!([x y ge_u] => [x y lt_u (i32.eqz)]),
    row!("difference_to_tests": [x 0 ne] => [x eqz (i32.eqz)]),
    row!("wrap_extended" for I32: [x] => [x (i64.extend_i32_u) (i32.wrap_i64)]),
];

/// The test of a comparison as its opposite.
pub const OPPOSITES: [TableLine; 10] = [
    row!("drop_negation": [x y ne (i32.eqz)] => [x y eq]),
    row!([x y eq (i32.eqz)] => [x y ne]),
    row!([x y ge_s (i32.eqz)] => [x y lt_s]),
    row!([x y ge_u (i32.eqz)] => [x y lt_u]),
    row!([x y le_s (i32.eqz)] => [x y gt_s]),
    row!([x y le_u (i32.eqz)] => [x y gt_u]),
    row!([x y gt_s (i32.eqz)] => [x y le_s]),
    row!([x y gt_u (i32.eqz)] => [x y le_u]),
    row!([x y lt_s (i32.eqz)] => [x y ge_s]),
    row!([x y lt_u (i32.eqz)] => [x y ge_u]),
];

/// Over both parts of an operand, and something narrower.
pub const PARTS: [TableLine; 15] = [
    row!("distribute_product": [x y add c mul] => [x c mul y c mul add]),
    row!("distribute_mask": [x y or c and] => [x c and y c and or]),
    row!("complement_of_and": [x y and ones xor] => [x ones xor y ones xor or]),
    row!("complement_of_or": [x y or ones xor] => [x ones xor y ones xor and]),
    row!("extension_to_shifts" for I32: [x (i32.extend8_s)] => [x 24 shl 24 shr_s]),
    row!(for I32: [x (i32.extend16_s)] => [x 16 shl 16 shr_s]),
    row!(for I64: [x (i64.extend8_s)] => [x 56 shl 56 shr_s]),
    row!(for I64: [x (i64.extend16_s)] => [x 48 shl 48 shr_s]),
    row!(for I64: [x (i64.extend32_s)] => [x 32 shl 32 shr_s]),
    row!("tests_to_difference": [x eqz (i32.eqz)] => [x 0 ne]),
    row!("drop_wrap_extended" for I32: [x (i64.extend_i32_u) (i32.wrap_i64)] => [x]),
    row!(for I32: [x (i64.extend_i32_s) (i32.wrap_i64)] => [x]),
    row!("or_of_complements": [x ones xor y ones xor or] => [x y and ones xor]),
    row!("and_of_complements": [x ones xor y ones xor and] => [x y or ones xor]),
    own!("tee_to_set": TeeToSet),
];

/// Shorter at once.
pub const SHORTER: [TableLine; 6] = [
    row!("join_sums": [x c add d add] => [x (c+d) add]),
    row!("test_difference": [x y sub eqz] => [x y eq]),
    row!("or_again": [x x y or or] => [x y or]),
    row!("negate_by_difference": [x ones mul] => [0 x sub]),
    row!("below_one": [x 1 lt_u] => [x eqz]),
    row!("difference_back": [x y sub y add] => [x]),
];

/// What other rules made, turned back.
pub const BACK: [TableLine; 11] = [
    own!("drop_nop": DropNop),
    row!("drop_double_complement": [x ones xor ones xor] => [x]),
    row!("turn_select_back" for any: [y x z (i32.eqz) select] => [x y z select]),
    row!("gather_product": [x c mul y c mul add] => [x y add c mul]),
    row!("gather_mask": [x c and y c and or] => [x y or c and]),
    row!("shifts_to_extension" for I32: [x 24 shl 24 shr_s] => [x (i32.extend8_s)]),
    row!(for I32: [x 16 shl 16 shr_s] => [x (i32.extend16_s)]),
    row!(for I64: [x 56 shl 56 shr_s] => [x (i64.extend8_s)]),
    row!(for I64: [x 48 shl 48 shr_s] => [x (i64.extend16_s)]),
    row!(for I64: [x 32 shl 32 shr_s] => [x (i64.extend32_s)]),
    own!("set_to_tee": SetToTee),
];

/// A number in front of an operand that changes nothing there, or decides alone.
pub const FRONT: [TableLine; 11] = [
    row!("drop_zero_in_front": [0 x add] => [x]),
    row!([0 x or] => [x]),
    row!([0 x xor] => [x]),
    row!("drop_one_in_front": [1 x mul] => [x]),
    row!("drop_ones_in_front": [ones x and] => [x]),
    row!("decide_in_front": [0 x and] => [0]),
    row!([0 x mul] => [0]),
    row!([ones x or] => [ones]),
    row!("drop_complement_in_front": [ones x xor ones xor] => [x]),
    row!([ones x ones xor xor] => [x]),
    row!([ones ones x xor xor] => [x]),
];

/// What is done once more, by one, or all the way round.
pub const AGAIN: [TableLine; 17] = [
    row!("drop_quotient_by_one": [x 1 div_u] => [x]),
    row!([x 1 div_s] => [x]),
    row!("drop_remainder_by_one": [x 1 rem_u] => [0]),
    row!([x 1 rem_s] => [0]),
    row!([x ones rem_s] => [0]),
    row!("drop_whole_turn": [x N rotl] => [x]),
    row!([x N rotr] => [x]),
    row!([x N shl] => [x]),
    row!([x N shr_s] => [x]),
    row!([x N shr_u] => [x]),
    row!("and_again": [x x y and and] => [x y and]),
    row!([x y x and and] => [x y and]),
    row!([x y and x and] => [x y and]),
    row!([x y and y and] => [x y and]),
    row!("or_once_more": [x y x or or] => [x y or]),
    row!([x y or x or] => [x y or]),
    row!([x y or y or] => [x y or]),
];

/// A comparison as the one without sign, or with it, of numbers with their highest bit turned.
pub const SIGNS: [TableLine; 16] = [
    row!("turn_signs": [x y lt_s] => [x sign xor y sign xor lt_u]),
    row!([x y le_s] => [x sign xor y sign xor le_u]),
    row!([x y gt_s] => [x sign xor y sign xor gt_u]),
    row!([x y ge_s] => [x sign xor y sign xor ge_u]),
    row!([x y lt_u] => [x sign xor y sign xor lt_s]),
    row!([x y le_u] => [x sign xor y sign xor le_s]),
    row!([x y gt_u] => [x sign xor y sign xor gt_s]),
    row!([x y ge_u] => [x sign xor y sign xor ge_s]),
    row!("turn_signs_back": [x sign xor y sign xor lt_u] => [x y lt_s]),
    row!([x sign xor y sign xor le_u] => [x y le_s]),
    row!([x sign xor y sign xor gt_u] => [x y gt_s]),
    row!([x sign xor y sign xor ge_u] => [x y ge_s]),
    row!([x sign xor y sign xor lt_s] => [x y lt_u]),
    row!([x sign xor y sign xor le_s] => [x y le_u]),
    row!([x sign xor y sign xor gt_s] => [x y gt_u]),
    row!([x sign xor y sign xor ge_s] => [x y ge_u]),
];

/// Whether operands are equal, by their difference or by the bits in which they differ; and a number wrapped, extended or masked.
pub const EQUALS: [TableLine; 15] = [
    row!("equality_to_difference": [x y eq] => [x y sub eqz]),
    row!([x y ne] => [x y sub 0 ne]),
    row!("equality_to_xor": [x y eq] => [x y xor eqz]),
    row!([x y ne] => [x y xor 0 ne]),
    row!("equality_back": [x y sub 0 ne] => [x y ne]),
    row!([x y xor eqz] => [x y eq]),
    row!([x y xor 0 ne] => [x y ne]),
    row!("mask_to_wrap" for I64: [x 0xffffffff and] => [x (i32.wrap_i64) (i64.extend_i32_u)]),
    row!("wrap_to_mask" for I64: [x (i32.wrap_i64) (i64.extend_i32_u)] => [x 0xffffffff and]),
    row!("extend_by_wrap" for I64: [x (i64.extend32_s)] => [x (i32.wrap_i64) (i64.extend_i32_s)]),
    row!("wrap_to_extend" for I64: [x (i32.wrap_i64) (i64.extend_i32_s)] => [x (i64.extend32_s)]),
    row!("mask_wrapped" for I64: [x (i32.wrap_i64)] => [x 0xffffffff and (i32.wrap_i64)]),
    row!("extend_wrapped" for I64: [x (i32.wrap_i64)] => [x (i64.extend32_s) (i32.wrap_i64)]),
    row!("wrap_alone" for I64: [x 0xffffffff and (i32.wrap_i64)] => [x (i32.wrap_i64)]),
    row!(for I64: [x (i64.extend32_s) (i32.wrap_i64)] => [x (i32.wrap_i64)]),
];

/// A quotient by one, and bits that are counted.
pub const COUNTED: [TableLine; 16] = [
    row!("div_u_by_one": [x] => [x 1 div_u]),
    row!("div_s_by_one": [x] => [x 1 div_s]),
    row!("test_by_popcnt" for I32: [x eqz] => [x (i32.popcnt) eqz]),
    row!(for I64: [x eqz] => [x (i64.popcnt) eqz]),
    row!("test_by_ctz" for I32: [x eqz] => [x (i32.ctz) N eq]),
    row!(for I64: [x eqz] => [x (i64.ctz) N eq]),
    row!("drop_count_of_test" for I32: [x (i32.popcnt) eqz] => [x eqz]),
    row!(for I64: [x (i64.popcnt) eqz] => [x eqz]),
    row!(for I32: [x (i32.ctz) N eq] => [x eqz]),
    row!(for I64: [x (i64.ctz) N eq] => [x eqz]),
    row!(for I32: [x (i32.ctz) N ne] => [x eqz (i32.eqz)]),
    row!(for I64: [x (i64.ctz) N ne] => [x eqz (i32.eqz)]),
    row!("popcnt_of_complement" for I32: [x (i32.popcnt)] => [N x ones xor (i32.popcnt) sub]),
    row!(for I64: [x (i64.popcnt)] => [N x ones xor (i64.popcnt) sub]),
    row!("complement_of_popcnt" for I32: [N x ones xor (i32.popcnt) sub] => [x (i32.popcnt)]),
    row!(for I64: [N x ones xor (i64.popcnt) sub] => [x (i64.popcnt)]),
];

/// A turn as two shifts.
pub const TURNED: [TableLine; 4] = [
    row!("rotl_to_shifts": [x c rotl] => [x c shl x (N-c) shr_u or]),
    row!("rotr_to_shifts": [x c rotr] => [x c shr_u x (N-c) shl or]),
    row!("shifts_to_rotl": [x c shl x d shr_u or] => [x c rotl] if c + d is turns),
    row!("shifts_to_rotr": [x c shr_u x d shl or] => [x c rotr] if c + d is turns),
];

/// An operand that another one decides, or that another one undoes.
pub const ABSORBED: [TableLine; 14] = [
    row!("absorb": [x x y or and] => [x]),
    row!([x y x or and] => [x]),
    row!([x y or x and] => [x]),
    row!([x y or y and] => [y]),
    row!([x x y and or] => [x]),
    row!([x y x and or] => [x]),
    row!([x y and x or] => [x]),
    row!([x y and y or] => [y]),
    row!("difference_of_difference": [x x y sub sub] => [y]),
    row!("drop_double_negation": [x eqz (i32.eqz) (i32.eqz)] => [x eqz]),
    row!("remainder_to_wrap" for I64: [x 0x100000000 rem_u] => [x (i32.wrap_i64) (i64.extend_i32_u)]),
    row!("extend_extended" for I32: [x (i64.extend_i32_u) (i64.extend32_s)] => [x (i64.extend_i32_s)]),
    row!(for I32: [x (i64.extend_i32_s) (i64.extend32_s)] => [x (i64.extend_i32_s)]),
    row!(for I64: [x (i64.extend32_s) (i64.extend32_s)] => [x (i64.extend32_s)]),
];

/// A sign turned on the other side, and the bits of a test, which is one at most.
pub const SETTLED: [TableLine; 19] = [
    row!("sign_to_right": [x sign xor y lt_s] => [x sign y xor lt_u]),
    row!([x sign xor y le_s] => [x sign y xor le_u]),
    row!([x sign xor y gt_s] => [x sign y xor gt_u]),
    row!([x sign xor y ge_s] => [x sign y xor ge_u]),
    row!([x sign xor y lt_u] => [x sign y xor lt_s]),
    row!([x sign xor y le_u] => [x sign y xor le_s]),
    row!([x sign xor y gt_u] => [x sign y xor gt_s]),
    row!([x sign xor y ge_u] => [x sign y xor ge_s]),
    row!("drop_popcnt_of_test": [x eqz (i32.popcnt)] => [x eqz]),
    row!([x y eq (i32.popcnt)] => [x y eq]),
    row!([x y ne (i32.popcnt)] => [x y ne]),
    row!([x y lt_s (i32.popcnt)] => [x y lt_s]),
    row!([x y le_s (i32.popcnt)] => [x y le_s]),
    row!([x y gt_s (i32.popcnt)] => [x y gt_s]),
    row!([x y ge_s (i32.popcnt)] => [x y ge_s]),
    row!([x y lt_u (i32.popcnt)] => [x y lt_u]),
    row!([x y le_u (i32.popcnt)] => [x y le_u]),
    row!([x y gt_u (i32.popcnt)] => [x y gt_u]),
    row!([x y ge_u (i32.popcnt)] => [x y ge_u]),
];

/// Low bits read as signed twice.
pub const EXTENSIONS: [TableLine; 25] = [
    row!("drop_extension_again" for I32: [x (i32.extend8_s) (i32.extend8_s)] => [x (i32.extend8_s)]),
    row!(for I32: [x (i32.extend16_s) (i32.extend8_s)] => [x (i32.extend8_s)]),
    row!(for I32: [x (i32.extend8_s) (i32.extend16_s)] => [x (i32.extend8_s)]),
    row!(for I32: [x (i32.extend16_s) (i32.extend16_s)] => [x (i32.extend16_s)]),
    row!(for I64: [x (i64.extend8_s) (i64.extend8_s)] => [x (i64.extend8_s)]),
    row!(for I64: [x (i64.extend16_s) (i64.extend8_s)] => [x (i64.extend8_s)]),
    row!(for I64: [x (i64.extend32_s) (i64.extend8_s)] => [x (i64.extend8_s)]),
    row!(for I64: [x (i64.extend8_s) (i64.extend16_s)] => [x (i64.extend8_s)]),
    row!(for I64: [x (i64.extend16_s) (i64.extend16_s)] => [x (i64.extend16_s)]),
    row!(for I64: [x (i64.extend32_s) (i64.extend16_s)] => [x (i64.extend16_s)]),
    row!(for I64: [x (i64.extend8_s) (i64.extend32_s)] => [x (i64.extend8_s)]),
    row!(for I64: [x (i64.extend16_s) (i64.extend32_s)] => [x (i64.extend16_s)]),
    row!("extend_again" for I32: [x (i32.extend8_s)] => [x (i32.extend8_s) (i32.extend8_s)]),
    row!(for I32: [x (i32.extend8_s)] => [x (i32.extend16_s) (i32.extend8_s)]),
    row!(for I32: [x (i32.extend8_s)] => [x (i32.extend8_s) (i32.extend16_s)]),
    row!(for I32: [x (i32.extend16_s)] => [x (i32.extend16_s) (i32.extend16_s)]),
    row!(for I64: [x (i64.extend8_s)] => [x (i64.extend8_s) (i64.extend8_s)]),
    row!(for I64: [x (i64.extend8_s)] => [x (i64.extend16_s) (i64.extend8_s)]),
    row!(for I64: [x (i64.extend8_s)] => [x (i64.extend32_s) (i64.extend8_s)]),
    row!(for I64: [x (i64.extend8_s)] => [x (i64.extend8_s) (i64.extend16_s)]),
    row!(for I64: [x (i64.extend16_s)] => [x (i64.extend16_s) (i64.extend16_s)]),
    row!(for I64: [x (i64.extend16_s)] => [x (i64.extend32_s) (i64.extend16_s)]),
    row!(for I64: [x (i64.extend8_s)] => [x (i64.extend8_s) (i64.extend32_s)]),
    row!(for I64: [x (i64.extend16_s)] => [x (i64.extend16_s) (i64.extend32_s)]),
    row!(for I64: [x (i64.extend32_s)] => [x (i64.extend32_s) (i64.extend32_s)]),
];

/// Low bits read as signed, and masked.
pub const EXTENSION_MASKS: [TableLine; 20] = [
    row!("drop_mask_in_extension" for I32: [x 0xff and (i32.extend8_s)] => [x (i32.extend8_s)]),
    row!(for I32: [x 0xffff and (i32.extend16_s)] => [x (i32.extend16_s)]),
    row!(for I64: [x 0xff and (i64.extend8_s)] => [x (i64.extend8_s)]),
    row!(for I64: [x 0xffff and (i64.extend16_s)] => [x (i64.extend16_s)]),
    row!(for I64: [x 0xffffffff and (i64.extend32_s)] => [x (i64.extend32_s)]),
    row!("mask_in_extension" for I32: [x (i32.extend8_s)] => [x 0xff and (i32.extend8_s)]),
    row!(for I32: [x (i32.extend16_s)] => [x 0xffff and (i32.extend16_s)]),
    row!(for I64: [x (i64.extend8_s)] => [x 0xff and (i64.extend8_s)]),
    row!(for I64: [x (i64.extend16_s)] => [x 0xffff and (i64.extend16_s)]),
    row!(for I64: [x (i64.extend32_s)] => [x 0xffffffff and (i64.extend32_s)]),
    row!("drop_extension_in_mask" for I32: [x (i32.extend8_s) 0xff and] => [x 0xff and]),
    row!(for I32: [x (i32.extend16_s) 0xffff and] => [x 0xffff and]),
    row!(for I64: [x (i64.extend8_s) 0xff and] => [x 0xff and]),
    row!(for I64: [x (i64.extend16_s) 0xffff and] => [x 0xffff and]),
    row!(for I64: [x (i64.extend32_s) 0xffffffff and] => [x 0xffffffff and]),
    row!("extension_in_mask" for I32: [x 0xff and] => [x (i32.extend8_s) 0xff and]),
    row!(for I32: [x 0xffff and] => [x (i32.extend16_s) 0xffff and]),
    row!(for I64: [x 0xff and] => [x (i64.extend8_s) 0xff and]),
    row!(for I64: [x 0xffff and] => [x (i64.extend16_s) 0xffff and]),
    row!(for I64: [x 0xffffffff and] => [x (i64.extend32_s) 0xffffffff and]),
];

/// Low bits read as signed before a number is wrapped or extended, or behind that.
pub const EXTENSION_MOVES: [TableLine; 8] = [
    row!("wrap_before_extension" for I64: [x (i64.extend8_s) (i32.wrap_i64)] => [x (i32.wrap_i64) (i32.extend8_s)]),
    row!(for I64: [x (i64.extend16_s) (i32.wrap_i64)] => [x (i32.wrap_i64) (i32.extend16_s)]),
    row!("wrap_behind_extension" for I64: [x (i32.wrap_i64) (i32.extend8_s)] => [x (i64.extend8_s) (i32.wrap_i64)]),
    row!(for I64: [x (i32.wrap_i64) (i32.extend16_s)] => [x (i64.extend16_s) (i32.wrap_i64)]),
    row!("widen_before_extension" for I32: [x (i32.extend8_s) (i64.extend_i32_s)] => [x (i64.extend_i32_u) (i64.extend8_s)]),
    row!(for I32: [x (i32.extend16_s) (i64.extend_i32_s)] => [x (i64.extend_i32_u) (i64.extend16_s)]),
    row!("widen_behind_extension" for I32: [x (i64.extend_i32_u) (i64.extend8_s)] => [x (i32.extend8_s) (i64.extend_i32_s)]),
    row!(for I32: [x (i64.extend_i32_u) (i64.extend16_s)] => [x (i32.extend16_s) (i64.extend_i32_s)]),
];

/// The sign of a number, and whether it is 0.
pub const SIGN_TESTS: [TableLine; 10] = [
    row!("sign_test_to_shift" for I32: [x 0 lt_s] => [x 31 shr_u]),
    row!("shift_to_sign_test" for I32: [x 31 shr_u] => [x 0 lt_s]),
    row!("wide_sign_test_to_shift" for I64: [x 0 lt_s] => [x 63 shr_u (i32.wrap_i64)]),
    row!("shift_to_wide_sign_test" for I64: [x 63 shr_u (i32.wrap_i64)] => [x 0 lt_s]),
    row!("sign_to_difference" for I32: [x 31 shr_s] => [0 x 31 shr_u sub]),
    row!(for I64: [x 63 shr_s] => [0 x 63 shr_u sub]),
    row!("difference_to_sign" for I32: [0 x 31 shr_u sub] => [x 31 shr_s]),
    row!(for I64: [0 x 63 shr_u sub] => [x 63 shr_s]),
    row!("above_zero_to_unequal": [0 x lt_u] => [x 0 ne]),
    row!("unequal_to_above_zero": [x 0 ne] => [0 x lt_u]),
];

/// Comparisons with powers of two.
pub const POWER_TESTS: [TableLine; 4] = [
    row!("power_test_to_shift": [x c lt_u] => [x (log c) shr_u eqz] if c is power),
    row!([x c ge_u] => [x (log c) shr_u 0 ne] if c is power),
    row!("power_test_to_previous": [x c lt_u] => [x (c-1) le_u] if c is power),
    row!([x c ge_u] => [x (c-1) gt_u] if c is power),
];

/// Whether a number is 0, by how many zeros stand above its highest bit.
pub const ZERO_COUNTS: [TableLine; 6] = [
    row!("test_by_clz" for I32: [x eqz] => [x (i32.clz) N eq]),
    row!(for I64: [x eqz] => [x (i64.clz) N eq]),
    row!("drop_clz_of_test" for I32: [x (i32.clz) N eq] => [x eqz]),
    row!(for I64: [x (i64.clz) N eq] => [x eqz]),
    row!(for I32: [x (i32.clz) N ne] => [x eqz (i32.eqz)]),
    row!(for I64: [x (i64.clz) N ne] => [x eqz (i32.eqz)]),
];

/// Half a number with sign.
pub const HALVES: [TableLine; 4] = [
    row!("half_to_shift" for I32: [x 2 div_s] => [x x 31 shr_u add 1 shr_s]),
    row!(for I64: [x 2 div_s] => [x x 63 shr_u add 1 shr_s]),
    row!("shift_to_half" for I32: [x x 31 shr_u add 1 shr_s] => [x 2 div_s]),
    row!(for I64: [x x 63 shr_u add 1 shr_s] => [x 2 div_s]),
];

/// What rules on signs, powers of two and low bits made, in the forms that others gave it, turned back.
pub const UNDONE: [TableLine; 10] = [
    row!("shift_to_power_test": [x c shr_u eqz] => [x (2^c) lt_u] if c < N),
    row!([x c shr_u 0 ne] => [x (2^c) ge_u] if c < N),
    row!("previous_to_power_test": [x c le_u] => [x (c+1) lt_u] if c is mask),
    row!([x c gt_u] => [x (c+1) ge_u] if c is mask),
    row!("negated_sign_test_to_sign" for I32: [0 x 0 lt_s sub] => [x 31 shr_s]),
    row!("sign_test_to_half" for I32: [x x 0 lt_s add 1 shr_s] => [x 2 div_s]),
    row!("drop_extension_in_remainder" for I32: [x (i32.extend8_s) 0x100 rem_u] => [x 0x100 rem_u]),
    row!(for I32: [x (i32.extend16_s) 0x10000 rem_u] => [x 0x10000 rem_u]),
    row!(for I64: [x (i64.extend8_s) 0x100 rem_u] => [x 0x100 rem_u]),
    row!(for I64: [x (i64.extend16_s) 0x10000 rem_u] => [x 0x10000 rem_u]),
];
