//! The rows of the instruction table, by their numbers.
use crate::immediate::ValType;
use crate::table::{Kind, Opcode, ResultKind, Row, RowInfo};

const CALL: ResultKind = ResultKind::Call;

const ELEMENT: ResultKind = ResultKind::Element;

const F32: ResultKind = ResultKind::Fixed(ValType::F32);

const F64: ResultKind = ResultKind::Fixed(ValType::F64);

const FIRST: ResultKind = ResultKind::First;

const FUNCREF: ResultKind = ResultKind::Fixed(ValType::FuncRef);

const GLOBAL: ResultKind = ResultKind::Global;

const I32: ResultKind = ResultKind::Fixed(ValType::I32);

const I64: ResultKind = ResultKind::Fixed(ValType::I64);

const IMMEDIATE: ResultKind = ResultKind::Immediate;

const LOCAL: ResultKind = ResultKind::Local;

const MEMORY: ResultKind = ResultKind::Memory;

const NOTHING: ResultKind = ResultKind::Nothing;

const TABLE: ResultKind = ResultKind::Table;

const V128: ResultKind = ResultKind::Fixed(ValType::V128);

macro_rules! row {
    ($opcode:ident $number:literal, $kind:ident, $operands:expr, $result:expr, $change:literal) => {
        Row {
            opcode: Opcode::$opcode($number),
            kind: Kind::$kind,
            info: RowInfo {
                operands: $operands,
                result: $result,
                change: $change,
            },
        }
    };
}

/// The rows: a row's number is its place.
pub const ROWS: [Row; 446] = [
    row!(Byte 0x01, Nothing, Some(0), NOTHING, 1), // nop
    row!(Byte 0x10, Index, None, CALL, 0), // call
    row!(Byte 0x1a, Nothing, Some(1), NOTHING, 1), // drop
    row!(Byte 0x1b, Nothing, Some(3), FIRST, 0), // select
    row!(Byte 0x20, Index, Some(0), LOCAL, 0), // local.get
    row!(Byte 0x21, Index, Some(1), NOTHING, 1), // local.set
    row!(Byte 0x22, Index, Some(1), LOCAL, 1), // local.tee
    row!(Byte 0x23, Index, Some(0), GLOBAL, 0), // global.get
    row!(Byte 0x24, Index, Some(1), NOTHING, 1), // global.set
    row!(Byte 0x25, Index, Some(1), ELEMENT, 0), // table.get
    row!(Byte 0x26, Index, Some(2), NOTHING, 1), // table.set
    row!(Byte 0x28, Mem, Some(1), I32, 0), // i32.load
    row!(Byte 0x29, Mem, Some(1), I64, 0), // i64.load
    row!(Byte 0x2a, Mem, Some(1), F32, 0), // f32.load
    row!(Byte 0x2b, Mem, Some(1), F64, 0), // f64.load
    row!(Byte 0x2c, Mem, Some(1), I32, 0), // i32.load8_s
    row!(Byte 0x2d, Mem, Some(1), I32, 0), // i32.load8_u
    row!(Byte 0x2e, Mem, Some(1), I32, 0), // i32.load16_s
    row!(Byte 0x2f, Mem, Some(1), I32, 0), // i32.load16_u
    row!(Byte 0x30, Mem, Some(1), I64, 0), // i64.load8_s
    row!(Byte 0x31, Mem, Some(1), I64, 0), // i64.load8_u
    row!(Byte 0x32, Mem, Some(1), I64, 0), // i64.load16_s
    row!(Byte 0x33, Mem, Some(1), I64, 0), // i64.load16_u
    row!(Byte 0x34, Mem, Some(1), I64, 0), // i64.load32_s
    row!(Byte 0x35, Mem, Some(1), I64, 0), // i64.load32_u
    row!(Byte 0x36, Mem, Some(2), NOTHING, 1), // i32.store
    row!(Byte 0x37, Mem, Some(2), NOTHING, 1), // i64.store
    row!(Byte 0x38, Mem, Some(2), NOTHING, 1), // f32.store
    row!(Byte 0x39, Mem, Some(2), NOTHING, 1), // f64.store
    row!(Byte 0x3a, Mem, Some(2), NOTHING, 1), // i32.store8
    row!(Byte 0x3b, Mem, Some(2), NOTHING, 1), // i32.store16
    row!(Byte 0x3c, Mem, Some(2), NOTHING, 1), // i64.store8
    row!(Byte 0x3d, Mem, Some(2), NOTHING, 1), // i64.store16
    row!(Byte 0x3e, Mem, Some(2), NOTHING, 1), // i64.store32
    row!(Byte 0x3f, Index, Some(0), MEMORY, 0), // memory.size
    row!(Byte 0x40, Index, Some(1), MEMORY, 1), // memory.grow
    row!(Byte 0x41, I32, Some(0), I32, 0), // i32.const
    row!(Byte 0x42, I64, Some(0), I64, 0), // i64.const
    row!(Byte 0x43, F32, Some(0), F32, 0), // f32.const
    row!(Byte 0x44, F64, Some(0), F64, 0), // f64.const
    row!(Byte 0x45, Nothing, Some(1), I32, 0), // i32.eqz
    row!(Byte 0x46, Nothing, Some(2), I32, 0), // i32.eq
    row!(Byte 0x47, Nothing, Some(2), I32, 0), // i32.ne
    row!(Byte 0x48, Nothing, Some(2), I32, 0), // i32.lt_s
    row!(Byte 0x49, Nothing, Some(2), I32, 0), // i32.lt_u
    row!(Byte 0x4a, Nothing, Some(2), I32, 0), // i32.gt_s
    row!(Byte 0x4b, Nothing, Some(2), I32, 0), // i32.gt_u
    row!(Byte 0x4c, Nothing, Some(2), I32, 0), // i32.le_s
    row!(Byte 0x4d, Nothing, Some(2), I32, 0), // i32.le_u
    row!(Byte 0x4e, Nothing, Some(2), I32, 0), // i32.ge_s
    row!(Byte 0x4f, Nothing, Some(2), I32, 0), // i32.ge_u
    row!(Byte 0x50, Nothing, Some(1), I32, 0), // i64.eqz
    row!(Byte 0x51, Nothing, Some(2), I32, 0), // i64.eq
    row!(Byte 0x52, Nothing, Some(2), I32, 0), // i64.ne
    row!(Byte 0x53, Nothing, Some(2), I32, 0), // i64.lt_s
    row!(Byte 0x54, Nothing, Some(2), I32, 0), // i64.lt_u
    row!(Byte 0x55, Nothing, Some(2), I32, 0), // i64.gt_s
    row!(Byte 0x56, Nothing, Some(2), I32, 0), // i64.gt_u
    row!(Byte 0x57, Nothing, Some(2), I32, 0), // i64.le_s
    row!(Byte 0x58, Nothing, Some(2), I32, 0), // i64.le_u
    row!(Byte 0x59, Nothing, Some(2), I32, 0), // i64.ge_s
    row!(Byte 0x5a, Nothing, Some(2), I32, 0), // i64.ge_u
    row!(Byte 0x5b, Nothing, Some(2), I32, 0), // f32.eq
    row!(Byte 0x5c, Nothing, Some(2), I32, 0), // f32.ne
    row!(Byte 0x5d, Nothing, Some(2), I32, 0), // f32.lt
    row!(Byte 0x5e, Nothing, Some(2), I32, 0), // f32.gt
    row!(Byte 0x5f, Nothing, Some(2), I32, 0), // f32.le
    row!(Byte 0x60, Nothing, Some(2), I32, 0), // f32.ge
    row!(Byte 0x61, Nothing, Some(2), I32, 0), // f64.eq
    row!(Byte 0x62, Nothing, Some(2), I32, 0), // f64.ne
    row!(Byte 0x63, Nothing, Some(2), I32, 0), // f64.lt
    row!(Byte 0x64, Nothing, Some(2), I32, 0), // f64.gt
    row!(Byte 0x65, Nothing, Some(2), I32, 0), // f64.le
    row!(Byte 0x66, Nothing, Some(2), I32, 0), // f64.ge
    row!(Byte 0x67, Nothing, Some(1), I32, 0), // i32.clz
    row!(Byte 0x68, Nothing, Some(1), I32, 0), // i32.ctz
    row!(Byte 0x69, Nothing, Some(1), I32, 0), // i32.popcnt
    row!(Byte 0x6a, Nothing, Some(2), I32, 0), // i32.add
    row!(Byte 0x6b, Nothing, Some(2), I32, 0), // i32.sub
    row!(Byte 0x6c, Nothing, Some(2), I32, 0), // i32.mul
    row!(Byte 0x6d, Nothing, Some(2), I32, 0), // i32.div_s
    row!(Byte 0x6e, Nothing, Some(2), I32, 0), // i32.div_u
    row!(Byte 0x6f, Nothing, Some(2), I32, 0), // i32.rem_s
    row!(Byte 0x70, Nothing, Some(2), I32, 0), // i32.rem_u
    row!(Byte 0x71, Nothing, Some(2), I32, 0), // i32.and
    row!(Byte 0x72, Nothing, Some(2), I32, 0), // i32.or
    row!(Byte 0x73, Nothing, Some(2), I32, 0), // i32.xor
    row!(Byte 0x74, Nothing, Some(2), I32, 0), // i32.shl
    row!(Byte 0x75, Nothing, Some(2), I32, 0), // i32.shr_s
    row!(Byte 0x76, Nothing, Some(2), I32, 0), // i32.shr_u
    row!(Byte 0x77, Nothing, Some(2), I32, 0), // i32.rotl
    row!(Byte 0x78, Nothing, Some(2), I32, 0), // i32.rotr
    row!(Byte 0x79, Nothing, Some(1), I64, 0), // i64.clz
    row!(Byte 0x7a, Nothing, Some(1), I64, 0), // i64.ctz
    row!(Byte 0x7b, Nothing, Some(1), I64, 0), // i64.popcnt
    row!(Byte 0x7c, Nothing, Some(2), I64, 0), // i64.add
    row!(Byte 0x7d, Nothing, Some(2), I64, 0), // i64.sub
    row!(Byte 0x7e, Nothing, Some(2), I64, 0), // i64.mul
    row!(Byte 0x7f, Nothing, Some(2), I64, 0), // i64.div_s
    row!(Byte 0x80, Nothing, Some(2), I64, 0), // i64.div_u
    row!(Byte 0x81, Nothing, Some(2), I64, 0), // i64.rem_s
    row!(Byte 0x82, Nothing, Some(2), I64, 0), // i64.rem_u
    row!(Byte 0x83, Nothing, Some(2), I64, 0), // i64.and
    row!(Byte 0x84, Nothing, Some(2), I64, 0), // i64.or
    row!(Byte 0x85, Nothing, Some(2), I64, 0), // i64.xor
    row!(Byte 0x86, Nothing, Some(2), I64, 0), // i64.shl
    row!(Byte 0x87, Nothing, Some(2), I64, 0), // i64.shr_s
    row!(Byte 0x88, Nothing, Some(2), I64, 0), // i64.shr_u
    row!(Byte 0x89, Nothing, Some(2), I64, 0), // i64.rotl
    row!(Byte 0x8a, Nothing, Some(2), I64, 0), // i64.rotr
    row!(Byte 0x8b, Nothing, Some(1), F32, 0), // f32.abs
    row!(Byte 0x8c, Nothing, Some(1), F32, 0), // f32.neg
    row!(Byte 0x8d, Nothing, Some(1), F32, 0), // f32.ceil
    row!(Byte 0x8e, Nothing, Some(1), F32, 0), // f32.floor
    row!(Byte 0x8f, Nothing, Some(1), F32, 0), // f32.trunc
    row!(Byte 0x90, Nothing, Some(1), F32, 0), // f32.nearest
    row!(Byte 0x91, Nothing, Some(1), F32, 0), // f32.sqrt
    row!(Byte 0x92, Nothing, Some(2), F32, 0), // f32.add
    row!(Byte 0x93, Nothing, Some(2), F32, 0), // f32.sub
    row!(Byte 0x94, Nothing, Some(2), F32, 0), // f32.mul
    row!(Byte 0x95, Nothing, Some(2), F32, 0), // f32.div
    row!(Byte 0x96, Nothing, Some(2), F32, 0), // f32.min
    row!(Byte 0x97, Nothing, Some(2), F32, 0), // f32.max
    row!(Byte 0x98, Nothing, Some(2), F32, 0), // f32.copysign
    row!(Byte 0x99, Nothing, Some(1), F64, 0), // f64.abs
    row!(Byte 0x9a, Nothing, Some(1), F64, 0), // f64.neg
    row!(Byte 0x9b, Nothing, Some(1), F64, 0), // f64.ceil
    row!(Byte 0x9c, Nothing, Some(1), F64, 0), // f64.floor
    row!(Byte 0x9d, Nothing, Some(1), F64, 0), // f64.trunc
    row!(Byte 0x9e, Nothing, Some(1), F64, 0), // f64.nearest
    row!(Byte 0x9f, Nothing, Some(1), F64, 0), // f64.sqrt
    row!(Byte 0xa0, Nothing, Some(2), F64, 0), // f64.add
    row!(Byte 0xa1, Nothing, Some(2), F64, 0), // f64.sub
    row!(Byte 0xa2, Nothing, Some(2), F64, 0), // f64.mul
    row!(Byte 0xa3, Nothing, Some(2), F64, 0), // f64.div
    row!(Byte 0xa4, Nothing, Some(2), F64, 0), // f64.min
    row!(Byte 0xa5, Nothing, Some(2), F64, 0), // f64.max
    row!(Byte 0xa6, Nothing, Some(2), F64, 0), // f64.copysign
    row!(Byte 0xa7, Nothing, Some(1), I32, 0), // wrap
    row!(Byte 0xa8, Nothing, Some(1), I32, 0), // i32.trunc_f32_s
    row!(Byte 0xa9, Nothing, Some(1), I32, 0), // i32.trunc_f32_u
    row!(Byte 0xaa, Nothing, Some(1), I32, 0), // i32.trunc_f64_s
    row!(Byte 0xab, Nothing, Some(1), I32, 0), // i32.trunc_f64_u
    row!(Byte 0xac, Nothing, Some(1), I64, 0), // i64.extend_i32_s
    row!(Byte 0xad, Nothing, Some(1), I64, 0), // i64.extend_i32_u
    row!(Byte 0xae, Nothing, Some(1), I64, 0), // i64.trunc_f32_s
    row!(Byte 0xaf, Nothing, Some(1), I64, 0), // i64.trunc_f32_u
    row!(Byte 0xb0, Nothing, Some(1), I64, 0), // i64.trunc_f64_s
    row!(Byte 0xb1, Nothing, Some(1), I64, 0), // i64.trunc_f64_u
    row!(Byte 0xb2, Nothing, Some(1), F32, 0), // f32.convert_i32_s
    row!(Byte 0xb3, Nothing, Some(1), F32, 0), // f32.convert_i32_u
    row!(Byte 0xb4, Nothing, Some(1), F32, 0), // f32.convert_i64_s
    row!(Byte 0xb5, Nothing, Some(1), F32, 0), // f32.convert_i64_u
    row!(Byte 0xb6, Nothing, Some(1), F32, 0), // f32.demote_f64
    row!(Byte 0xb7, Nothing, Some(1), F64, 0), // f64.convert_i32_s
    row!(Byte 0xb8, Nothing, Some(1), F64, 0), // f64.convert_i32_u
    row!(Byte 0xb9, Nothing, Some(1), F64, 0), // f64.convert_i64_s
    row!(Byte 0xba, Nothing, Some(1), F64, 0), // f64.convert_i64_u
    row!(Byte 0xbb, Nothing, Some(1), F64, 0), // f64.promote_f32
    row!(Byte 0xbc, Nothing, Some(1), I32, 0), // i32.reinterpret_f32
    row!(Byte 0xbd, Nothing, Some(1), I64, 0), // i64.reinterpret_f64
    row!(Byte 0xbe, Nothing, Some(1), F32, 0), // f32.reinterpret_i32
    row!(Byte 0xbf, Nothing, Some(1), F64, 0), // f64.reinterpret_i64
    row!(Byte 0xc0, Nothing, Some(1), I32, 0), // i32.extend8_s
    row!(Byte 0xc1, Nothing, Some(1), I32, 0), // i32.extend16_s
    row!(Byte 0xc2, Nothing, Some(1), I64, 0), // i64.extend8_s
    row!(Byte 0xc3, Nothing, Some(1), I64, 0), // i64.extend16_s
    row!(Byte 0xc4, Nothing, Some(1), I64, 0), // i64.extend32_s
    row!(Byte 0xd0, Heap, Some(0), IMMEDIATE, 0), // ref.null
    row!(Byte 0xd1, Nothing, Some(1), I32, 0), // ref.is_null
    row!(Byte 0xd2, Index, Some(0), FUNCREF, 0), // ref.func
    row!(Fc 0, Nothing, Some(1), I32, 0), // i32.trunc_sat_f32_s
    row!(Fc 1, Nothing, Some(1), I32, 0), // i32.trunc_sat_f32_u
    row!(Fc 2, Nothing, Some(1), I32, 0), // i32.trunc_sat_f64_s
    row!(Fc 3, Nothing, Some(1), I32, 0), // i32.trunc_sat_f64_u
    row!(Fc 4, Nothing, Some(1), I64, 0), // i64.trunc_sat_f32_s
    row!(Fc 5, Nothing, Some(1), I64, 0), // i64.trunc_sat_f32_u
    row!(Fc 6, Nothing, Some(1), I64, 0), // i64.trunc_sat_f64_s
    row!(Fc 7, Nothing, Some(1), I64, 0), // i64.trunc_sat_f64_u
    row!(Fc 8, Pair, Some(3), NOTHING, 1), // memory.init
    row!(Fc 9, Index, Some(0), NOTHING, 1), // data.drop
    row!(Fc 10, Pair, Some(3), NOTHING, 1), // memory.copy
    row!(Fc 11, Index, Some(3), NOTHING, 1), // memory.fill
    row!(Fc 12, Pair, Some(3), NOTHING, 1), // table.init
    row!(Fc 13, Index, Some(0), NOTHING, 1), // elem.drop
    row!(Fc 14, Pair, Some(3), NOTHING, 1), // table.copy
    row!(Fc 15, Index, Some(2), TABLE, 1), // table.grow
    row!(Fc 16, Index, Some(0), TABLE, 0), // table.size
    row!(Fc 17, Index, Some(3), NOTHING, 1), // table.fill
    row!(Fd 0, Mem, Some(1), V128, 0), // v128.load
    row!(Fd 1, Mem, Some(1), V128, 0), // v128.load8x8_s
    row!(Fd 2, Mem, Some(1), V128, 0), // v128.load8x8_u
    row!(Fd 3, Mem, Some(1), V128, 0), // v128.load16x4_s
    row!(Fd 4, Mem, Some(1), V128, 0), // v128.load16x4_u
    row!(Fd 5, Mem, Some(1), V128, 0), // v128.load32x2_s
    row!(Fd 6, Mem, Some(1), V128, 0), // v128.load32x2_u
    row!(Fd 7, Mem, Some(1), V128, 0), // v128.load8_splat
    row!(Fd 8, Mem, Some(1), V128, 0), // v128.load16_splat
    row!(Fd 9, Mem, Some(1), V128, 0), // v128.load32_splat
    row!(Fd 10, Mem, Some(1), V128, 0), // v128.load64_splat
    row!(Fd 11, Mem, Some(2), NOTHING, 1), // v128.store
    row!(Fd 12, V128, Some(0), V128, 0), // v128.const
    row!(Fd 13, Shuffle, Some(2), V128, 0), // i8x16.shuffle
    row!(Fd 14, Nothing, Some(2), V128, 0), // i8x16.swizzle
    row!(Fd 15, Nothing, Some(1), V128, 0), // i8x16.splat
    row!(Fd 16, Nothing, Some(1), V128, 0), // i16x8.splat
    row!(Fd 17, Nothing, Some(1), V128, 0), // i32x4.splat
    row!(Fd 18, Nothing, Some(1), V128, 0), // i64x2.splat
    row!(Fd 19, Nothing, Some(1), V128, 0), // f32x4.splat
    row!(Fd 20, Nothing, Some(1), V128, 0), // f64x2.splat
    row!(Fd 21, Lane, Some(1), I32, 0), // i8x16.extract_lane_s
    row!(Fd 22, Lane, Some(1), I32, 0), // i8x16.extract_lane_u
    row!(Fd 23, Lane, Some(2), V128, 0), // i8x16.replace_lane
    row!(Fd 24, Lane, Some(1), I32, 0), // i16x8.extract_lane_s
    row!(Fd 25, Lane, Some(1), I32, 0), // i16x8.extract_lane_u
    row!(Fd 26, Lane, Some(2), V128, 0), // i16x8.replace_lane
    row!(Fd 27, Lane, Some(1), I32, 0), // i32x4.extract_lane
    row!(Fd 28, Lane, Some(2), V128, 0), // i32x4.replace_lane
    row!(Fd 29, Lane, Some(1), I64, 0), // i64x2.extract_lane
    row!(Fd 30, Lane, Some(2), V128, 0), // i64x2.replace_lane
    row!(Fd 31, Lane, Some(1), F32, 0), // f32x4.extract_lane
    row!(Fd 32, Lane, Some(2), V128, 0), // f32x4.replace_lane
    row!(Fd 33, Lane, Some(1), F64, 0), // f64x2.extract_lane
    row!(Fd 34, Lane, Some(2), V128, 0), // f64x2.replace_lane
    row!(Fd 35, Nothing, Some(2), V128, 0), // i8x16.eq
    row!(Fd 36, Nothing, Some(2), V128, 0), // i8x16.ne
    row!(Fd 37, Nothing, Some(2), V128, 0), // i8x16.lt_s
    row!(Fd 38, Nothing, Some(2), V128, 0), // i8x16.lt_u
    row!(Fd 39, Nothing, Some(2), V128, 0), // i8x16.gt_s
    row!(Fd 40, Nothing, Some(2), V128, 0), // i8x16.gt_u
    row!(Fd 41, Nothing, Some(2), V128, 0), // i8x16.le_s
    row!(Fd 42, Nothing, Some(2), V128, 0), // i8x16.le_u
    row!(Fd 43, Nothing, Some(2), V128, 0), // i8x16.ge_s
    row!(Fd 44, Nothing, Some(2), V128, 0), // i8x16.ge_u
    row!(Fd 45, Nothing, Some(2), V128, 0), // i16x8.eq
    row!(Fd 46, Nothing, Some(2), V128, 0), // i16x8.ne
    row!(Fd 47, Nothing, Some(2), V128, 0), // i16x8.lt_s
    row!(Fd 48, Nothing, Some(2), V128, 0), // i16x8.lt_u
    row!(Fd 49, Nothing, Some(2), V128, 0), // i16x8.gt_s
    row!(Fd 50, Nothing, Some(2), V128, 0), // i16x8.gt_u
    row!(Fd 51, Nothing, Some(2), V128, 0), // i16x8.le_s
    row!(Fd 52, Nothing, Some(2), V128, 0), // i16x8.le_u
    row!(Fd 53, Nothing, Some(2), V128, 0), // i16x8.ge_s
    row!(Fd 54, Nothing, Some(2), V128, 0), // i16x8.ge_u
    row!(Fd 55, Nothing, Some(2), V128, 0), // i32x4.eq
    row!(Fd 56, Nothing, Some(2), V128, 0), // i32x4.ne
    row!(Fd 57, Nothing, Some(2), V128, 0), // i32x4.lt_s
    row!(Fd 58, Nothing, Some(2), V128, 0), // i32x4.lt_u
    row!(Fd 59, Nothing, Some(2), V128, 0), // i32x4.gt_s
    row!(Fd 60, Nothing, Some(2), V128, 0), // i32x4.gt_u
    row!(Fd 61, Nothing, Some(2), V128, 0), // i32x4.le_s
    row!(Fd 62, Nothing, Some(2), V128, 0), // i32x4.le_u
    row!(Fd 63, Nothing, Some(2), V128, 0), // i32x4.ge_s
    row!(Fd 64, Nothing, Some(2), V128, 0), // i32x4.ge_u
    row!(Fd 65, Nothing, Some(2), V128, 0), // f32x4.eq
    row!(Fd 66, Nothing, Some(2), V128, 0), // f32x4.ne
    row!(Fd 67, Nothing, Some(2), V128, 0), // f32x4.lt
    row!(Fd 68, Nothing, Some(2), V128, 0), // f32x4.gt
    row!(Fd 69, Nothing, Some(2), V128, 0), // f32x4.le
    row!(Fd 70, Nothing, Some(2), V128, 0), // f32x4.ge
    row!(Fd 71, Nothing, Some(2), V128, 0), // f64x2.eq
    row!(Fd 72, Nothing, Some(2), V128, 0), // f64x2.ne
    row!(Fd 73, Nothing, Some(2), V128, 0), // f64x2.lt
    row!(Fd 74, Nothing, Some(2), V128, 0), // f64x2.gt
    row!(Fd 75, Nothing, Some(2), V128, 0), // f64x2.le
    row!(Fd 76, Nothing, Some(2), V128, 0), // f64x2.ge
    row!(Fd 77, Nothing, Some(1), V128, 0), // v128.not
    row!(Fd 78, Nothing, Some(2), V128, 0), // v128.and
    row!(Fd 79, Nothing, Some(2), V128, 0), // v128.and_not
    row!(Fd 80, Nothing, Some(2), V128, 0), // v128.or
    row!(Fd 81, Nothing, Some(2), V128, 0), // v128.xor
    row!(Fd 82, Nothing, Some(3), V128, 0), // v128.bitselect
    row!(Fd 83, Nothing, Some(1), I32, 0), // v128.any_true
    row!(Fd 84, MemLane, Some(2), V128, 0), // v128.load8_lane
    row!(Fd 85, MemLane, Some(2), V128, 0), // v128.load16_lane
    row!(Fd 86, MemLane, Some(2), V128, 0), // v128.load32_lane
    row!(Fd 87, MemLane, Some(2), V128, 0), // v128.load64_lane
    row!(Fd 88, MemLane, Some(2), NOTHING, 1), // v128.store8_lane
    row!(Fd 89, MemLane, Some(2), NOTHING, 1), // v128.store16_lane
    row!(Fd 90, MemLane, Some(2), NOTHING, 1), // v128.store32_lane
    row!(Fd 91, MemLane, Some(2), NOTHING, 1), // v128.store64_lane
    row!(Fd 92, Mem, Some(1), V128, 0), // v128.load32_zero
    row!(Fd 93, Mem, Some(1), V128, 0), // v128.load64_zero
    row!(Fd 94, Nothing, Some(1), V128, 0), // f32x4.demote_f64x2_zero
    row!(Fd 95, Nothing, Some(1), V128, 0), // f64x2.promote_low_f32x4
    row!(Fd 96, Nothing, Some(1), V128, 0), // i8x16.abs
    row!(Fd 97, Nothing, Some(1), V128, 0), // i8x16.neg
    row!(Fd 98, Nothing, Some(1), V128, 0), // i8x16.popcnt
    row!(Fd 99, Nothing, Some(1), I32, 0), // i8x16.all_true
    row!(Fd 100, Nothing, Some(1), I32, 0), // i8x16.bitmask
    row!(Fd 101, Nothing, Some(2), V128, 0), // i8x16.narrow_i16x8_s
    row!(Fd 102, Nothing, Some(2), V128, 0), // i8x16.narrow_i16x8_u
    row!(Fd 103, Nothing, Some(1), V128, 0), // f32x4.ceil
    row!(Fd 104, Nothing, Some(1), V128, 0), // f32x4.floor
    row!(Fd 105, Nothing, Some(1), V128, 0), // f32x4.trunc
    row!(Fd 106, Nothing, Some(1), V128, 0), // f32x4.nearest
    row!(Fd 107, Nothing, Some(2), V128, 0), // i8x16.shl
    row!(Fd 108, Nothing, Some(2), V128, 0), // i8x16.shr_s
    row!(Fd 109, Nothing, Some(2), V128, 0), // i8x16.shr_u
    row!(Fd 110, Nothing, Some(2), V128, 0), // i8x16.add
    row!(Fd 111, Nothing, Some(2), V128, 0), // i8x16.add_sat_s
    row!(Fd 112, Nothing, Some(2), V128, 0), // i8x16.add_sat_u
    row!(Fd 113, Nothing, Some(2), V128, 0), // i8x16.sub
    row!(Fd 114, Nothing, Some(2), V128, 0), // i8x16.sub_sat_s
    row!(Fd 115, Nothing, Some(2), V128, 0), // i8x16.sub_sat_u
    row!(Fd 116, Nothing, Some(1), V128, 0), // f64x2.ceil
    row!(Fd 117, Nothing, Some(1), V128, 0), // f64x2.floor
    row!(Fd 118, Nothing, Some(2), V128, 0), // i8x16.min_s
    row!(Fd 119, Nothing, Some(2), V128, 0), // i8x16.min_u
    row!(Fd 120, Nothing, Some(2), V128, 0), // i8x16.max_s
    row!(Fd 121, Nothing, Some(2), V128, 0), // i8x16.max_u
    row!(Fd 122, Nothing, Some(1), V128, 0), // f64x2.trunc
    row!(Fd 123, Nothing, Some(2), V128, 0), // i8x16.avgr_u
    row!(Fd 124, Nothing, Some(1), V128, 0), // i16x8.extadd_pairwise_i8x16_s
    row!(Fd 125, Nothing, Some(1), V128, 0), // i16x8.extadd_pairwise_i8x16_u
    row!(Fd 126, Nothing, Some(1), V128, 0), // i32x4.extadd_pairwise_i16x8_s
    row!(Fd 127, Nothing, Some(1), V128, 0), // i32x4.extadd_pairwise_i16x8_u
    row!(Fd 128, Nothing, Some(1), V128, 0), // i16x8.abs
    row!(Fd 129, Nothing, Some(1), V128, 0), // i16x8.neg
    row!(Fd 130, Nothing, Some(2), V128, 0), // i16x8.q15mulr_sat_s
    row!(Fd 131, Nothing, Some(1), I32, 0), // i16x8.all_true
    row!(Fd 132, Nothing, Some(1), I32, 0), // i16x8.bitmask
    row!(Fd 133, Nothing, Some(2), V128, 0), // i16x8.narrow_i32x4_s
    row!(Fd 134, Nothing, Some(2), V128, 0), // i16x8.narrow_i32x4_u
    row!(Fd 135, Nothing, Some(1), V128, 0), // i16x8.extend_low_i8x16_s
    row!(Fd 136, Nothing, Some(1), V128, 0), // i16x8.extend_high_i8x16_s
    row!(Fd 137, Nothing, Some(1), V128, 0), // i16x8.extend_low_i8x16_u
    row!(Fd 138, Nothing, Some(1), V128, 0), // i16x8.extend_high_i8x16_u
    row!(Fd 139, Nothing, Some(2), V128, 0), // i16x8.shl
    row!(Fd 140, Nothing, Some(2), V128, 0), // i16x8.shr_s
    row!(Fd 141, Nothing, Some(2), V128, 0), // i16x8.shr_u
    row!(Fd 142, Nothing, Some(2), V128, 0), // i16x8.add
    row!(Fd 143, Nothing, Some(2), V128, 0), // i16x8.add_sat_s
    row!(Fd 144, Nothing, Some(2), V128, 0), // i16x8.add_sat_u
    row!(Fd 145, Nothing, Some(2), V128, 0), // i16x8.sub
    row!(Fd 146, Nothing, Some(2), V128, 0), // i16x8.sub_sat_s
    row!(Fd 147, Nothing, Some(2), V128, 0), // i16x8.sub_sat_u
    row!(Fd 148, Nothing, Some(1), V128, 0), // f64x2.nearest
    row!(Fd 149, Nothing, Some(2), V128, 0), // i16x8.mul
    row!(Fd 150, Nothing, Some(2), V128, 0), // i16x8.min_s
    row!(Fd 151, Nothing, Some(2), V128, 0), // i16x8.min_u
    row!(Fd 152, Nothing, Some(2), V128, 0), // i16x8.max_s
    row!(Fd 153, Nothing, Some(2), V128, 0), // i16x8.max_u
    row!(Fd 155, Nothing, Some(2), V128, 0), // i16x8.avgr_u
    row!(Fd 156, Nothing, Some(2), V128, 0), // i16x8.extmul_low_i8x16_s
    row!(Fd 157, Nothing, Some(2), V128, 0), // i16x8.extmul_high_i8x16_s
    row!(Fd 158, Nothing, Some(2), V128, 0), // i16x8.extmul_low_i8x16_u
    row!(Fd 159, Nothing, Some(2), V128, 0), // i16x8.extmul_high_i8x16_u
    row!(Fd 160, Nothing, Some(1), V128, 0), // i32x4.abs
    row!(Fd 161, Nothing, Some(1), V128, 0), // i32x4.neg
    row!(Fd 163, Nothing, Some(1), I32, 0), // i32x4.all_true
    row!(Fd 164, Nothing, Some(1), I32, 0), // i32x4.bitmask
    row!(Fd 167, Nothing, Some(1), V128, 0), // i32x4.extend_low_i16x8_s
    row!(Fd 168, Nothing, Some(1), V128, 0), // i32x4.extend_high_i16x8_s
    row!(Fd 169, Nothing, Some(1), V128, 0), // i32x4.extend_low_i16x8_u
    row!(Fd 170, Nothing, Some(1), V128, 0), // i32x4.extend_high_i16x8_u
    row!(Fd 171, Nothing, Some(2), V128, 0), // i32x4.shl
    row!(Fd 172, Nothing, Some(2), V128, 0), // i32x4.shr_s
    row!(Fd 173, Nothing, Some(2), V128, 0), // i32x4.shr_u
    row!(Fd 174, Nothing, Some(2), V128, 0), // i32x4.add
    row!(Fd 177, Nothing, Some(2), V128, 0), // i32x4.sub
    row!(Fd 181, Nothing, Some(2), V128, 0), // i32x4.mul
    row!(Fd 182, Nothing, Some(2), V128, 0), // i32x4.min_s
    row!(Fd 183, Nothing, Some(2), V128, 0), // i32x4.min_u
    row!(Fd 184, Nothing, Some(2), V128, 0), // i32x4.max_s
    row!(Fd 185, Nothing, Some(2), V128, 0), // i32x4.max_u
    row!(Fd 186, Nothing, Some(2), V128, 0), // i32x4.dot_i16x8_s
    row!(Fd 188, Nothing, Some(2), V128, 0), // i32x4.extmul_low_i16x8_s
    row!(Fd 189, Nothing, Some(2), V128, 0), // i32x4.extmul_high_i16x8_s
    row!(Fd 190, Nothing, Some(2), V128, 0), // i32x4.extmul_low_i16x8_u
    row!(Fd 191, Nothing, Some(2), V128, 0), // i32x4.extmul_high_i16x8_u
    row!(Fd 192, Nothing, Some(1), V128, 0), // i64x2.abs
    row!(Fd 193, Nothing, Some(1), V128, 0), // i64x2.neg
    row!(Fd 195, Nothing, Some(1), I32, 0), // i64x2.all_true
    row!(Fd 196, Nothing, Some(1), I32, 0), // i64x2.bitmask
    row!(Fd 199, Nothing, Some(1), V128, 0), // i64x2.extend_low_i32x4_s
    row!(Fd 200, Nothing, Some(1), V128, 0), // i64x2.extend_high_i32x4_s
    row!(Fd 201, Nothing, Some(1), V128, 0), // i64x2.extend_low_i32x4_u
    row!(Fd 202, Nothing, Some(1), V128, 0), // i64x2.extend_high_i32x4_u
    row!(Fd 203, Nothing, Some(2), V128, 0), // i64x2.shl
    row!(Fd 204, Nothing, Some(2), V128, 0), // i64x2.shr_s
    row!(Fd 205, Nothing, Some(2), V128, 0), // i64x2.shr_u
    row!(Fd 206, Nothing, Some(2), V128, 0), // i64x2.add
    row!(Fd 209, Nothing, Some(2), V128, 0), // i64x2.sub
    row!(Fd 213, Nothing, Some(2), V128, 0), // i64x2.mul
    row!(Fd 214, Nothing, Some(2), V128, 0), // i64x2.eq
    row!(Fd 215, Nothing, Some(2), V128, 0), // i64x2.ne
    row!(Fd 216, Nothing, Some(2), V128, 0), // i64x2.lt_s
    row!(Fd 217, Nothing, Some(2), V128, 0), // i64x2.gt_s
    row!(Fd 218, Nothing, Some(2), V128, 0), // i64x2.le_s
    row!(Fd 219, Nothing, Some(2), V128, 0), // i64x2.ge_s
    row!(Fd 220, Nothing, Some(2), V128, 0), // i64x2.extmul_low_i32x4_s
    row!(Fd 221, Nothing, Some(2), V128, 0), // i64x2.extmul_high_i32x4_s
    row!(Fd 222, Nothing, Some(2), V128, 0), // i64x2.extmul_low_i32x4_u
    row!(Fd 223, Nothing, Some(2), V128, 0), // i64x2.extmul_high_i32x4_u
    row!(Fd 224, Nothing, Some(1), V128, 0), // f32x4.abs
    row!(Fd 225, Nothing, Some(1), V128, 0), // f32x4.neg
    row!(Fd 227, Nothing, Some(1), V128, 0), // f32x4.sqrt
    row!(Fd 228, Nothing, Some(2), V128, 0), // f32x4.add
    row!(Fd 229, Nothing, Some(2), V128, 0), // f32x4.sub
    row!(Fd 230, Nothing, Some(2), V128, 0), // f32x4.mul
    row!(Fd 231, Nothing, Some(2), V128, 0), // f32x4.div
    row!(Fd 232, Nothing, Some(2), V128, 0), // f32x4.min
    row!(Fd 233, Nothing, Some(2), V128, 0), // f32x4.max
    row!(Fd 234, Nothing, Some(2), V128, 0), // f32x4.pmin
    row!(Fd 235, Nothing, Some(2), V128, 0), // f32x4.pmax
    row!(Fd 236, Nothing, Some(1), V128, 0), // f64x2.abs
    row!(Fd 237, Nothing, Some(1), V128, 0), // f64x2.neg
    row!(Fd 239, Nothing, Some(1), V128, 0), // f64x2.sqrt
    row!(Fd 240, Nothing, Some(2), V128, 0), // f64x2.add
    row!(Fd 241, Nothing, Some(2), V128, 0), // f64x2.sub
    row!(Fd 242, Nothing, Some(2), V128, 0), // f64x2.mul
    row!(Fd 243, Nothing, Some(2), V128, 0), // f64x2.div
    row!(Fd 244, Nothing, Some(2), V128, 0), // f64x2.min
    row!(Fd 245, Nothing, Some(2), V128, 0), // f64x2.max
    row!(Fd 246, Nothing, Some(2), V128, 0), // f64x2.pmin
    row!(Fd 247, Nothing, Some(2), V128, 0), // f64x2.pmax
    row!(Fd 248, Nothing, Some(1), V128, 0), // i32x4.trunc_sat_f32x4_s
    row!(Fd 249, Nothing, Some(1), V128, 0), // i32x4.trunc_sat_f32x4_u
    row!(Fd 250, Nothing, Some(1), V128, 0), // f32x4.convert_i32x4_s
    row!(Fd 251, Nothing, Some(1), V128, 0), // f32x4.convert_i32x4_u
    row!(Fd 252, Nothing, Some(1), V128, 0), // i32x4.trunc_sat_f64x2_s_zero
    row!(Fd 253, Nothing, Some(1), V128, 0), // i32x4.trunc_sat_f64x2_u_zero
    row!(Fd 254, Nothing, Some(1), V128, 0), // f64x2.convert_low_i32x4_s
    row!(Fd 255, Nothing, Some(1), V128, 0), // f64x2.convert_low_i32x4_u
    row!(Fd 256, Nothing, Some(2), V128, 0), // i8x16.relaxed_swizzle
    row!(Fd 257, Nothing, Some(1), V128, 0), // i32x4.relaxed_trunc_f32x4_s
    row!(Fd 258, Nothing, Some(1), V128, 0), // i32x4.relaxed_trunc_f32x4_u
    row!(Fd 259, Nothing, Some(1), V128, 0), // i32x4.relaxed_trunc_f64x2_s_zero
    row!(Fd 260, Nothing, Some(1), V128, 0), // i32x4.relaxed_trunc_f64x2_u_zero
    row!(Fd 261, Nothing, Some(3), V128, 0), // f32x4.relaxed_madd
    row!(Fd 262, Nothing, Some(3), V128, 0), // f32x4.relaxed_nmadd
    row!(Fd 263, Nothing, Some(3), V128, 0), // f64x2.relaxed_madd
    row!(Fd 264, Nothing, Some(3), V128, 0), // f64x2.relaxed_nmadd
    row!(Fd 265, Nothing, Some(3), V128, 0), // i8x16.relaxed_laneselect
    row!(Fd 266, Nothing, Some(3), V128, 0), // i16x8.relaxed_laneselect
    row!(Fd 267, Nothing, Some(3), V128, 0), // i32x4.relaxed_laneselect
    row!(Fd 268, Nothing, Some(3), V128, 0), // i64x2.relaxed_laneselect
    row!(Fd 269, Nothing, Some(2), V128, 0), // f32x4.relaxed_min
    row!(Fd 270, Nothing, Some(2), V128, 0), // f32x4.relaxed_max
    row!(Fd 271, Nothing, Some(2), V128, 0), // f64x2.relaxed_min
    row!(Fd 272, Nothing, Some(2), V128, 0), // f64x2.relaxed_max
    row!(Fd 273, Nothing, Some(2), V128, 0), // i16x8.relaxed_q15_mulr_s
    row!(Fd 274, Nothing, Some(2), V128, 0), // i16x8.relaxed_dot_i8x16_i7x16_s
    row!(Fd 275, Nothing, Some(3), V128, 0), // i32x4.relaxed_dot_i8x16_i7x16_add_s
    row!(Byte 0x1c, Val, Some(3), IMMEDIATE, 0), // select with a type
];
