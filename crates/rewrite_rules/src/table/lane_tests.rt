//! Rows on comparisons of lanes, and on the smaller and the greater of two.

use crate::table::{Step, TableLine, Widths};
use wasm_types::PrimitiveTypeInfo;

/// Tests of lanes of 8 and 16 bits, of operands in the other order.
pub const LANE_ORDERS: [TableLine; 20] = [
    row!("turn_lane_test" for (V128): [x y (i8x16.eq)] => [y x (i8x16.eq)]),
    row!(for (V128): [x y (i16x8.eq)] => [y x (i16x8.eq)]),
    row!(for (V128): [x y (i8x16.ne)] => [y x (i8x16.ne)]),
    row!(for (V128): [x y (i16x8.ne)] => [y x (i16x8.ne)]),
    row!(for (V128): [x y (i8x16.lt_s)] => [y x (i8x16.gt_s)]),
    row!(for (V128): [x y (i16x8.lt_s)] => [y x (i16x8.gt_s)]),
    row!(for (V128): [x y (i8x16.le_s)] => [y x (i8x16.ge_s)]),
    row!(for (V128): [x y (i16x8.le_s)] => [y x (i16x8.ge_s)]),
    row!(for (V128): [x y (i8x16.gt_s)] => [y x (i8x16.lt_s)]),
    row!(for (V128): [x y (i16x8.gt_s)] => [y x (i16x8.lt_s)]),
    row!(for (V128): [x y (i8x16.ge_s)] => [y x (i8x16.le_s)]),
    row!(for (V128): [x y (i16x8.ge_s)] => [y x (i16x8.le_s)]),
    row!(for (V128): [x y (i8x16.lt_u)] => [y x (i8x16.gt_u)]),
    row!(for (V128): [x y (i16x8.lt_u)] => [y x (i16x8.gt_u)]),
    row!(for (V128): [x y (i8x16.le_u)] => [y x (i8x16.ge_u)]),
    row!(for (V128): [x y (i16x8.le_u)] => [y x (i16x8.ge_u)]),
    row!(for (V128): [x y (i8x16.gt_u)] => [y x (i8x16.lt_u)]),
    row!(for (V128): [x y (i16x8.gt_u)] => [y x (i16x8.lt_u)]),
    row!(for (V128): [x y (i8x16.ge_u)] => [y x (i8x16.le_u)]),
    row!(for (V128): [x y (i16x8.ge_u)] => [y x (i16x8.le_u)]),
];

/// Tests of lanes of 32 and 64 bits, of operands in the other order.
pub const WIDE_ORDERS: [TableLine; 16] = [
    row!(for (V128): [x y (i32x4.eq)] => [y x (i32x4.eq)]),
    row!(for (V128): [x y (i64x2.eq)] => [y x (i64x2.eq)]),
    row!(for (V128): [x y (i32x4.ne)] => [y x (i32x4.ne)]),
    row!(for (V128): [x y (i64x2.ne)] => [y x (i64x2.ne)]),
    row!(for (V128): [x y (i32x4.lt_s)] => [y x (i32x4.gt_s)]),
    row!(for (V128): [x y (i64x2.lt_s)] => [y x (i64x2.gt_s)]),
    row!(for (V128): [x y (i32x4.le_s)] => [y x (i32x4.ge_s)]),
    row!(for (V128): [x y (i64x2.le_s)] => [y x (i64x2.ge_s)]),
    row!(for (V128): [x y (i32x4.gt_s)] => [y x (i32x4.lt_s)]),
    row!(for (V128): [x y (i64x2.gt_s)] => [y x (i64x2.lt_s)]),
    row!(for (V128): [x y (i32x4.ge_s)] => [y x (i32x4.le_s)]),
    row!(for (V128): [x y (i64x2.ge_s)] => [y x (i64x2.le_s)]),
    row!(for (V128): [x y (i32x4.lt_u)] => [y x (i32x4.gt_u)]),
    row!(for (V128): [x y (i32x4.le_u)] => [y x (i32x4.ge_u)]),
    row!(for (V128): [x y (i32x4.gt_u)] => [y x (i32x4.lt_u)]),
    row!(for (V128): [x y (i32x4.ge_u)] => [y x (i32x4.le_u)]),
];

/// Tests of lanes of 8 and 16 bits as the complements of their opposites.
pub const LANE_OPPOSITES: [TableLine; 20] = [
    row!("complement_lane_test" for (V128): [x y (i8x16.eq)] => [x y (i8x16.ne) (v128.not)]),
    row!(for (V128): [x y (i16x8.eq)] => [x y (i16x8.ne) (v128.not)]),
    row!(for (V128): [x y (i8x16.ne)] => [x y (i8x16.eq) (v128.not)]),
    row!(for (V128): [x y (i16x8.ne)] => [x y (i16x8.eq) (v128.not)]),
    row!(for (V128): [x y (i8x16.lt_s)] => [x y (i8x16.ge_s) (v128.not)]),
    row!(for (V128): [x y (i16x8.lt_s)] => [x y (i16x8.ge_s) (v128.not)]),
    row!(for (V128): [x y (i8x16.le_s)] => [x y (i8x16.gt_s) (v128.not)]),
    row!(for (V128): [x y (i16x8.le_s)] => [x y (i16x8.gt_s) (v128.not)]),
    row!(for (V128): [x y (i8x16.gt_s)] => [x y (i8x16.le_s) (v128.not)]),
    row!(for (V128): [x y (i16x8.gt_s)] => [x y (i16x8.le_s) (v128.not)]),
    row!(for (V128): [x y (i8x16.ge_s)] => [x y (i8x16.lt_s) (v128.not)]),
    row!(for (V128): [x y (i16x8.ge_s)] => [x y (i16x8.lt_s) (v128.not)]),
    row!(for (V128): [x y (i8x16.lt_u)] => [x y (i8x16.ge_u) (v128.not)]),
    row!(for (V128): [x y (i16x8.lt_u)] => [x y (i16x8.ge_u) (v128.not)]),
    row!(for (V128): [x y (i8x16.le_u)] => [x y (i8x16.gt_u) (v128.not)]),
    row!(for (V128): [x y (i16x8.le_u)] => [x y (i16x8.gt_u) (v128.not)]),
    row!(for (V128): [x y (i8x16.gt_u)] => [x y (i8x16.le_u) (v128.not)]),
    row!(for (V128): [x y (i16x8.gt_u)] => [x y (i16x8.le_u) (v128.not)]),
    row!(for (V128): [x y (i8x16.ge_u)] => [x y (i8x16.lt_u) (v128.not)]),
    row!(for (V128): [x y (i16x8.ge_u)] => [x y (i16x8.lt_u) (v128.not)]),
];

/// Tests of lanes of 32 and 64 bits as the complements of their opposites.
pub const WIDE_OPPOSITES: [TableLine; 16] = [
    row!(for (V128): [x y (i32x4.eq)] => [x y (i32x4.ne) (v128.not)]),
    row!(for (V128): [x y (i64x2.eq)] => [x y (i64x2.ne) (v128.not)]),
    row!(for (V128): [x y (i32x4.ne)] => [x y (i32x4.eq) (v128.not)]),
    row!(for (V128): [x y (i64x2.ne)] => [x y (i64x2.eq) (v128.not)]),
    row!(for (V128): [x y (i32x4.lt_s)] => [x y (i32x4.ge_s) (v128.not)]),
    row!(for (V128): [x y (i64x2.lt_s)] => [x y (i64x2.ge_s) (v128.not)]),
    row!(for (V128): [x y (i32x4.le_s)] => [x y (i32x4.gt_s) (v128.not)]),
    row!(for (V128): [x y (i64x2.le_s)] => [x y (i64x2.gt_s) (v128.not)]),
    row!(for (V128): [x y (i32x4.gt_s)] => [x y (i32x4.le_s) (v128.not)]),
    row!(for (V128): [x y (i64x2.gt_s)] => [x y (i64x2.le_s) (v128.not)]),
    row!(for (V128): [x y (i32x4.ge_s)] => [x y (i32x4.lt_s) (v128.not)]),
    row!(for (V128): [x y (i64x2.ge_s)] => [x y (i64x2.lt_s) (v128.not)]),
    row!(for (V128): [x y (i32x4.lt_u)] => [x y (i32x4.ge_u) (v128.not)]),
    row!(for (V128): [x y (i32x4.le_u)] => [x y (i32x4.gt_u) (v128.not)]),
    row!(for (V128): [x y (i32x4.gt_u)] => [x y (i32x4.le_u) (v128.not)]),
    row!(for (V128): [x y (i32x4.ge_u)] => [x y (i32x4.lt_u) (v128.not)]),
];

/// Complements of tests of lanes of 8 and 16 bits as their opposites.
pub const LANE_COMPLEMENTS: [TableLine; 20] = [
    row!("drop_complement_of_lane_test" for (V128): [x y (i8x16.ne) (v128.not)] => [x y (i8x16.eq)]),
    row!(for (V128): [x y (i16x8.ne) (v128.not)] => [x y (i16x8.eq)]),
    row!(for (V128): [x y (i8x16.eq) (v128.not)] => [x y (i8x16.ne)]),
    row!(for (V128): [x y (i16x8.eq) (v128.not)] => [x y (i16x8.ne)]),
    row!(for (V128): [x y (i8x16.ge_s) (v128.not)] => [x y (i8x16.lt_s)]),
    row!(for (V128): [x y (i16x8.ge_s) (v128.not)] => [x y (i16x8.lt_s)]),
    row!(for (V128): [x y (i8x16.gt_s) (v128.not)] => [x y (i8x16.le_s)]),
    row!(for (V128): [x y (i16x8.gt_s) (v128.not)] => [x y (i16x8.le_s)]),
    row!(for (V128): [x y (i8x16.le_s) (v128.not)] => [x y (i8x16.gt_s)]),
    row!(for (V128): [x y (i16x8.le_s) (v128.not)] => [x y (i16x8.gt_s)]),
    row!(for (V128): [x y (i8x16.lt_s) (v128.not)] => [x y (i8x16.ge_s)]),
    row!(for (V128): [x y (i16x8.lt_s) (v128.not)] => [x y (i16x8.ge_s)]),
    row!(for (V128): [x y (i8x16.ge_u) (v128.not)] => [x y (i8x16.lt_u)]),
    row!(for (V128): [x y (i16x8.ge_u) (v128.not)] => [x y (i16x8.lt_u)]),
    row!(for (V128): [x y (i8x16.gt_u) (v128.not)] => [x y (i8x16.le_u)]),
    row!(for (V128): [x y (i16x8.gt_u) (v128.not)] => [x y (i16x8.le_u)]),
    row!(for (V128): [x y (i8x16.le_u) (v128.not)] => [x y (i8x16.gt_u)]),
    row!(for (V128): [x y (i16x8.le_u) (v128.not)] => [x y (i16x8.gt_u)]),
    row!(for (V128): [x y (i8x16.lt_u) (v128.not)] => [x y (i8x16.ge_u)]),
    row!(for (V128): [x y (i16x8.lt_u) (v128.not)] => [x y (i16x8.ge_u)]),
];

/// Complements of tests of lanes of 32 and 64 bits as their opposites.
pub const WIDE_COMPLEMENTS: [TableLine; 16] = [
    row!(for (V128): [x y (i32x4.ne) (v128.not)] => [x y (i32x4.eq)]),
    row!(for (V128): [x y (i64x2.ne) (v128.not)] => [x y (i64x2.eq)]),
    row!(for (V128): [x y (i32x4.eq) (v128.not)] => [x y (i32x4.ne)]),
    row!(for (V128): [x y (i64x2.eq) (v128.not)] => [x y (i64x2.ne)]),
    row!(for (V128): [x y (i32x4.ge_s) (v128.not)] => [x y (i32x4.lt_s)]),
    row!(for (V128): [x y (i64x2.ge_s) (v128.not)] => [x y (i64x2.lt_s)]),
    row!(for (V128): [x y (i32x4.gt_s) (v128.not)] => [x y (i32x4.le_s)]),
    row!(for (V128): [x y (i64x2.gt_s) (v128.not)] => [x y (i64x2.le_s)]),
    row!(for (V128): [x y (i32x4.le_s) (v128.not)] => [x y (i32x4.gt_s)]),
    row!(for (V128): [x y (i64x2.le_s) (v128.not)] => [x y (i64x2.gt_s)]),
    row!(for (V128): [x y (i32x4.lt_s) (v128.not)] => [x y (i32x4.ge_s)]),
    row!(for (V128): [x y (i64x2.lt_s) (v128.not)] => [x y (i64x2.ge_s)]),
    row!(for (V128): [x y (i32x4.ge_u) (v128.not)] => [x y (i32x4.lt_u)]),
    row!(for (V128): [x y (i32x4.gt_u) (v128.not)] => [x y (i32x4.le_u)]),
    row!(for (V128): [x y (i32x4.le_u) (v128.not)] => [x y (i32x4.gt_u)]),
    row!(for (V128): [x y (i32x4.lt_u) (v128.not)] => [x y (i32x4.ge_u)]),
];

/// The smaller and the greater of two lanes in the other order.
pub const LANE_BOUNDS: [TableLine; 12] = [
    row!("turn_lane_bound" for (V128): [x y (i8x16.min_s)] => [y x (i8x16.min_s)]),
    row!(for (V128): [x y (i16x8.min_s)] => [y x (i16x8.min_s)]),
    row!(for (V128): [x y (i32x4.min_s)] => [y x (i32x4.min_s)]),
    row!(for (V128): [x y (i8x16.min_u)] => [y x (i8x16.min_u)]),
    row!(for (V128): [x y (i16x8.min_u)] => [y x (i16x8.min_u)]),
    row!(for (V128): [x y (i32x4.min_u)] => [y x (i32x4.min_u)]),
    row!(for (V128): [x y (i8x16.max_s)] => [y x (i8x16.max_s)]),
    row!(for (V128): [x y (i16x8.max_s)] => [y x (i16x8.max_s)]),
    row!(for (V128): [x y (i32x4.max_s)] => [y x (i32x4.max_s)]),
    row!(for (V128): [x y (i8x16.max_u)] => [y x (i8x16.max_u)]),
    row!(for (V128): [x y (i16x8.max_u)] => [y x (i16x8.max_u)]),
    row!(for (V128): [x y (i32x4.max_u)] => [y x (i32x4.max_u)]),
];

/// The smaller and the greater of a lane and itself.
pub const LANE_REPEATS: [TableLine; 24] = [
    row!("repeat_lane_bound" for (V128): [x] => [x x (i8x16.min_s)]),
    row!(for (V128): [x] => [x x (i16x8.min_s)]),
    row!(for (V128): [x] => [x x (i32x4.min_s)]),
    row!(for (V128): [x] => [x x (i8x16.min_u)]),
    row!(for (V128): [x] => [x x (i16x8.min_u)]),
    row!(for (V128): [x] => [x x (i32x4.min_u)]),
    row!(for (V128): [x] => [x x (i8x16.max_s)]),
    row!(for (V128): [x] => [x x (i16x8.max_s)]),
    row!(for (V128): [x] => [x x (i32x4.max_s)]),
    row!(for (V128): [x] => [x x (i8x16.max_u)]),
    row!(for (V128): [x] => [x x (i16x8.max_u)]),
    row!(for (V128): [x] => [x x (i32x4.max_u)]),
    row!("drop_lane_bound" for (V128): [x x (i8x16.min_s)] => [x]),
    row!(for (V128): [x x (i16x8.min_s)] => [x]),
    row!(for (V128): [x x (i32x4.min_s)] => [x]),
    row!(for (V128): [x x (i8x16.min_u)] => [x]),
    row!(for (V128): [x x (i16x8.min_u)] => [x]),
    row!(for (V128): [x x (i32x4.min_u)] => [x]),
    row!(for (V128): [x x (i8x16.max_s)] => [x]),
    row!(for (V128): [x x (i16x8.max_s)] => [x]),
    row!(for (V128): [x x (i32x4.max_s)] => [x]),
    row!(for (V128): [x x (i8x16.max_u)] => [x]),
    row!(for (V128): [x x (i16x8.max_u)] => [x]),
    row!(for (V128): [x x (i32x4.max_u)] => [x]),
];

/// The smaller and the greater of two lanes as a selection by a test.
pub const LANE_CHOICES: [TableLine; 24] = [
    row!("lane_bound_to_choice" for (V128): [x y (i8x16.min_s)] => [x y x y (i8x16.lt_s) (v128.bitselect)]),
    row!(for (V128): [x y (i16x8.min_s)] => [x y x y (i16x8.lt_s) (v128.bitselect)]),
    row!(for (V128): [x y (i32x4.min_s)] => [x y x y (i32x4.lt_s) (v128.bitselect)]),
    row!(for (V128): [x y (i8x16.min_u)] => [x y x y (i8x16.lt_u) (v128.bitselect)]),
    row!(for (V128): [x y (i16x8.min_u)] => [x y x y (i16x8.lt_u) (v128.bitselect)]),
    row!(for (V128): [x y (i32x4.min_u)] => [x y x y (i32x4.lt_u) (v128.bitselect)]),
    row!(for (V128): [x y (i8x16.max_s)] => [x y x y (i8x16.gt_s) (v128.bitselect)]),
    row!(for (V128): [x y (i16x8.max_s)] => [x y x y (i16x8.gt_s) (v128.bitselect)]),
    row!(for (V128): [x y (i32x4.max_s)] => [x y x y (i32x4.gt_s) (v128.bitselect)]),
    row!(for (V128): [x y (i8x16.max_u)] => [x y x y (i8x16.gt_u) (v128.bitselect)]),
    row!(for (V128): [x y (i16x8.max_u)] => [x y x y (i16x8.gt_u) (v128.bitselect)]),
    row!(for (V128): [x y (i32x4.max_u)] => [x y x y (i32x4.gt_u) (v128.bitselect)]),
    row!("lane_choice_to_bound" for (V128): [x y x y (i8x16.lt_s) (v128.bitselect)] => [x y (i8x16.min_s)]),
    row!(for (V128): [x y x y (i16x8.lt_s) (v128.bitselect)] => [x y (i16x8.min_s)]),
    row!(for (V128): [x y x y (i32x4.lt_s) (v128.bitselect)] => [x y (i32x4.min_s)]),
    row!(for (V128): [x y x y (i8x16.lt_u) (v128.bitselect)] => [x y (i8x16.min_u)]),
    row!(for (V128): [x y x y (i16x8.lt_u) (v128.bitselect)] => [x y (i16x8.min_u)]),
    row!(for (V128): [x y x y (i32x4.lt_u) (v128.bitselect)] => [x y (i32x4.min_u)]),
    row!(for (V128): [x y x y (i8x16.gt_s) (v128.bitselect)] => [x y (i8x16.max_s)]),
    row!(for (V128): [x y x y (i16x8.gt_s) (v128.bitselect)] => [x y (i16x8.max_s)]),
    row!(for (V128): [x y x y (i32x4.gt_s) (v128.bitselect)] => [x y (i32x4.max_s)]),
    row!(for (V128): [x y x y (i8x16.gt_u) (v128.bitselect)] => [x y (i8x16.max_u)]),
    row!(for (V128): [x y x y (i16x8.gt_u) (v128.bitselect)] => [x y (i16x8.max_u)]),
    row!(for (V128): [x y x y (i32x4.gt_u) (v128.bitselect)] => [x y (i32x4.max_u)]),
];

/// Tests of floats in lanes, of operands in the other order.
pub const FLOAT_LANE_ORDERS: [TableLine; 12] = [
    row!("turn_float_lane_test" for (V128): [x y (f32x4.eq)] => [y x (f32x4.eq)]),
    row!(for (V128): [x y (f32x4.ne)] => [y x (f32x4.ne)]),
    row!(for (V128): [x y (f32x4.lt)] => [y x (f32x4.gt)]),
    row!(for (V128): [x y (f32x4.gt)] => [y x (f32x4.lt)]),
    row!(for (V128): [x y (f32x4.le)] => [y x (f32x4.ge)]),
    row!(for (V128): [x y (f32x4.ge)] => [y x (f32x4.le)]),
    row!(for (V128): [x y (f64x2.eq)] => [y x (f64x2.eq)]),
    row!(for (V128): [x y (f64x2.ne)] => [y x (f64x2.ne)]),
    row!(for (V128): [x y (f64x2.lt)] => [y x (f64x2.gt)]),
    row!(for (V128): [x y (f64x2.gt)] => [y x (f64x2.lt)]),
    row!(for (V128): [x y (f64x2.le)] => [y x (f64x2.ge)]),
    row!(for (V128): [x y (f64x2.ge)] => [y x (f64x2.le)]),
];

/// Whether floats in lanes are equal as the complement of whether they are not.
pub const FLOAT_LANE_OPPOSITES: [TableLine; 8] = [
    row!("complement_float_lane_equality" for (V128): [x y (f32x4.eq)] => [x y (f32x4.ne) (v128.not)]),
    row!(for (V128): [x y (f32x4.ne)] => [x y (f32x4.eq) (v128.not)]),
    row!(for (V128): [x y (f64x2.eq)] => [x y (f64x2.ne) (v128.not)]),
    row!(for (V128): [x y (f64x2.ne)] => [x y (f64x2.eq) (v128.not)]),
    row!("drop_complement_of_float_lanes" for (V128): [x y (f32x4.ne) (v128.not)] => [x y (f32x4.eq)]),
    row!(for (V128): [x y (f32x4.eq) (v128.not)] => [x y (f32x4.ne)]),
    row!(for (V128): [x y (f64x2.ne) (v128.not)] => [x y (f64x2.eq)]),
    row!(for (V128): [x y (f64x2.eq) (v128.not)] => [x y (f64x2.ne)]),
];

/// The pseudo-minimum and the pseudo-maximum of floats in lanes as a selection by a test.
pub const FLOAT_LANE_CHOICES: [TableLine; 8] = [
    row!("pseudo_bound_to_choice" for (V128): [x y (f32x4.pmin)] => [y x y x (f32x4.lt) (v128.bitselect)]),
    row!(for (V128): [x y (f64x2.pmin)] => [y x y x (f64x2.lt) (v128.bitselect)]),
    row!(for (V128): [x y (f32x4.pmax)] => [y x x y (f32x4.lt) (v128.bitselect)]),
    row!(for (V128): [x y (f64x2.pmax)] => [y x x y (f64x2.lt) (v128.bitselect)]),
    row!("choice_to_pseudo_bound" for (V128): [y x y x (f32x4.lt) (v128.bitselect)] => [x y (f32x4.pmin)]),
    row!(for (V128): [y x y x (f64x2.lt) (v128.bitselect)] => [x y (f64x2.pmin)]),
    row!(for (V128): [y x x y (f32x4.lt) (v128.bitselect)] => [x y (f32x4.pmax)]),
    row!(for (V128): [y x x y (f64x2.lt) (v128.bitselect)] => [x y (f64x2.pmax)]),
];

/// The pseudo-minimum and the pseudo-maximum of floats in lanes, each as the other one of negatives.
pub const FLOAT_LANE_BOUNDS: [TableLine; 8] = [
    row!("pseudo_bound_by_negatives" for (V128): [x y (f32x4.pmin)] => [x (f32x4.neg) y (f32x4.neg) (f32x4.pmax) (f32x4.neg)]),
    row!(for (V128): [x y (f64x2.pmin)] => [x (f64x2.neg) y (f64x2.neg) (f64x2.pmax) (f64x2.neg)]),
    row!(for (V128): [x y (f32x4.pmax)] => [x (f32x4.neg) y (f32x4.neg) (f32x4.pmin) (f32x4.neg)]),
    row!(for (V128): [x y (f64x2.pmax)] => [x (f64x2.neg) y (f64x2.neg) (f64x2.pmin) (f64x2.neg)]),
    row!("drop_negatives_of_pseudo_bound" for (V128): [x (f32x4.neg) y (f32x4.neg) (f32x4.pmax) (f32x4.neg)] => [x y (f32x4.pmin)]),
    row!(for (V128): [x (f64x2.neg) y (f64x2.neg) (f64x2.pmax) (f64x2.neg)] => [x y (f64x2.pmin)]),
    row!(for (V128): [x (f32x4.neg) y (f32x4.neg) (f32x4.pmin) (f32x4.neg)] => [x y (f32x4.pmax)]),
    row!(for (V128): [x (f64x2.neg) y (f64x2.neg) (f64x2.pmin) (f64x2.neg)] => [x y (f64x2.pmax)]),
];
