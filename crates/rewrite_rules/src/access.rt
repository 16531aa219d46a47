//! Instructions with an immediate as other ones: loads and stores as those of as many bytes, with an operator behind the load or before
//! the store, constants of floats by their bits, and of vectors by their complements.
//!
//! Loads and stores keep their memory and their offset; the alignment may be another one.

ghost use Rattle.std.specs.Prelude.{◌≡◌, option_map, slice_get};
ghost use Rattle.rewrite_rules.specs.Access.{access_in, access_at, conversion_size, access_growth, realigned, other_bits, written_imm, own_needs_exact};

use crate::growth::Growth;
use crate::pattern::Operator;
use crate::table::Own;
use wasm_code::{Imm, MemArg};
use wasm_execution::{Binary, IntegerType, Operation};

/// What is done with a value behind its load, or before its store.
#[derive(Clone, Copy, Debug, PartialEq, Eq)]
pub enum Conversion {
    /// Nothing.
    Nothing,
    /// An operator of one operand.
    By(Operator),
    /// An operator of two operands, the second of which is a constant of that type, with that number.
    With(IntegerType, u64, Operator),
}

/// What both sides are.
#[derive(Clone, Copy, Debug, PartialEq, Eq)]
pub enum AccessKind {
    /// A load, with the conversion behind it.
    Load,
    /// A store, with the conversion before it.
    Store,
    /// A constant, with the conversion behind it.
    Constant,
}

/// One side: an instruction with an immediate, by the number of its row in the instruction table, and the conversion of the value.
#[derive(Clone, Copy, Debug, PartialEq, Eq)]
pub struct AccessSide {
    /// The row.
    pub row: u16,
    /// The conversion.
    pub conversion: Conversion,
}

/// One instruction with an immediate as another one.
#[derive(Clone, Copy, Debug, PartialEq, Eq)]
pub struct Access {
    /// What both sides are.
    pub kind: AccessKind,
    /// What is rewritten.
    pub left: AccessSide,
    /// What it is rewritten as.
    pub right: AccessSide,
    /// The exponent of the alignment that is written, where it isn't the one that stands there.
    pub align: Option<u8>,
}

/// A line of the list: the kind, for each side the row and the conversion, and the alignment that is written.
pub type AccessLine = (AccessKind, (u16, Conversion), (u16, Conversion), Option<u8>);

// A load, a store or a constant by its name, as the number of its row.
macro_rules! row {
    ((i32.load)) => { 11 };
    ((i64.load)) => { 12 };
    ((f32.load)) => { 13 };
    ((f64.load)) => { 14 };
    ((i32.load8_s)) => { 15 };
    ((i32.load8_u)) => { 16 };
    ((i32.load16_s)) => { 17 };
    ((i32.load16_u)) => { 18 };
    ((i64.load8_s)) => { 19 };
    ((i64.load8_u)) => { 20 };
    ((i64.load16_s)) => { 21 };
    ((i64.load16_u)) => { 22 };
    ((i64.load32_s)) => { 23 };
    ((i64.load32_u)) => { 24 };
    ((i32.store)) => { 25 };
    ((i64.store)) => { 26 };
    ((f32.store)) => { 27 };
    ((f64.store)) => { 28 };
    ((i32.store8)) => { 29 };
    ((i32.store16)) => { 30 };
    ((i64.store8)) => { 31 };
    ((i64.store16)) => { 32 };
    ((i64.store32)) => { 33 };
    ((i32.const)) => { 36 };
    ((i64.const)) => { 37 };
    ((f32.const)) => { 38 };
    ((f64.const)) => { 39 };
    ((v128.load)) => { 189 };
    ((v128.load8_splat)) => { 196 };
    ((v128.load16_splat)) => { 197 };
    ((v128.load32_splat)) => { 198 };
    ((v128.load64_splat)) => { 199 };
    ((v128.store)) => { 200 };
    ((v128.const)) => { 201 };
    ((v128.load32_zero)) => { 281 };
    ((v128.load64_zero)) => { 282 };
}

// A conversion: an operator by its name, or a constant and an operator.
macro_rules! conversion {
    ((i32.reinterpret_f32)) => { Conversion::By(Operator::Exact(159, None)) };
    ((i64.reinterpret_f64)) => { Conversion::By(Operator::Exact(160, None)) };
    ((f32.reinterpret_i32)) => { Conversion::By(Operator::Exact(161, None)) };
    ((f64.reinterpret_i64)) => { Conversion::By(Operator::Exact(162, None)) };
    ((i8x16.splat)) => { Conversion::By(Operator::Exact(204, None)) };
    ((i16x8.splat)) => { Conversion::By(Operator::Exact(205, None)) };
    ((i32x4.splat)) => { Conversion::By(Operator::Exact(206, None)) };
    ((i64x2.splat)) => { Conversion::By(Operator::Exact(207, None)) };
    ((f32x4.splat)) => { Conversion::By(Operator::Exact(208, None)) };
    ((f64x2.splat)) => { Conversion::By(Operator::Exact(209, None)) };
    ((v128.not)) => { Conversion::By(Operator::Exact(266, None)) };
    (($n:literal i64x2.replace_lane 1)) => { Conversion::With(IntegerType::I64, $n, Operator::Exact(219, Some(1))) };
    ((i32.wrap_i64)) => { Conversion::By(Operator::Whole(Operation::WrapI64)) };
    ((i64.extend_i32_s)) => { Conversion::By(Operator::Whole(Operation::ExtendI32S)) };
    ((i64.extend_i32_u)) => { Conversion::By(Operator::Whole(Operation::ExtendI32U)) };
    ((i32.extend8_s)) => { Conversion::By(Operator::Whole(Operation::Extend8S(IntegerType::I32))) };
    ((i32.extend16_s)) => { Conversion::By(Operator::Whole(Operation::Extend16S(IntegerType::I32))) };
    ((i64.extend8_s)) => { Conversion::By(Operator::Whole(Operation::Extend8S(IntegerType::I64))) };
    ((i64.extend16_s)) => { Conversion::By(Operator::Whole(Operation::Extend16S(IntegerType::I64))) };
    ((i64.extend32_s)) => { Conversion::By(Operator::Whole(Operation::Extend32S)) };
    (($n:literal i32.and)) => {
        Conversion::With(IntegerType::I32, $n, Operator::Whole(Operation::Binary(IntegerType::I32, Binary::And)))
    };
    (($n:literal i64.and)) => {
        Conversion::With(IntegerType::I64, $n, Operator::Whole(Operation::Binary(IntegerType::I64, Binary::And)))
    };
}

// A load as another one and a conversion behind it, or the other way round.
macro_rules! load {
    ($l:tt => $r:tt $c:tt) => {
        (AccessKind::Load, (row!($l), Conversion::Nothing), (row!($r), conversion!($c)), None)
    };
    ($l:tt $c:tt => $r:tt) => {
        (AccessKind::Load, (row!($l), conversion!($c)), (row!($r), Conversion::Nothing), None)
    };
}

// A store as a conversion and another one behind it, or the other way round.
macro_rules! store {
    ($l:tt => $c:tt $r:tt) => {
        (AccessKind::Store, (row!($l), Conversion::Nothing), (row!($r), conversion!($c)), None)
    };
    ($c:tt $l:tt => $r:tt) => {
        (AccessKind::Store, (row!($l), conversion!($c)), (row!($r), Conversion::Nothing), None)
    };
}

// A constant as another one and a conversion behind it, or the other way round; or both with one.
macro_rules! constant {
    ($l:tt $c:tt => $r:tt $d:tt) => {
        (AccessKind::Constant, (row!($l), conversion!($c)), (row!($r), conversion!($d)), None)
    };
    ($l:tt => $r:tt $c:tt) => {
        (AccessKind::Constant, (row!($l), Conversion::Nothing), (row!($r), conversion!($c)), None)
    };
    ($l:tt $c:tt => $r:tt) => {
        (AccessKind::Constant, (row!($l), conversion!($c)), (row!($r), Conversion::Nothing), None)
    };
}

// An access with another alignment, by its exponent.
macro_rules! align {
    ($kind:ident $row:tt $align:literal) => {
        (
            AccessKind::$kind,
            (row!($row), Conversion::Nothing),
            (row!($row), Conversion::Nothing),
            Some($align),
        )
    };
}

/// All of them; rules name them by their numbers.
pub const ACCESSES: [AccessLine; 148] = [
    // Floats by their bits.
    load!((f32.load) => (i32.load) (f32.reinterpret_i32)),
    load!((f64.load) => (i64.load) (f64.reinterpret_i64)),
    load!((i32.load) (f32.reinterpret_i32) => (f32.load)),
    load!((i64.load) (f64.reinterpret_i64) => (f64.load)),
    load!((i32.load) => (f32.load) (i32.reinterpret_f32)),
    load!((i64.load) => (f64.load) (i64.reinterpret_f64)),
    load!((f32.load) (i32.reinterpret_f32) => (i32.load)),
    load!((f64.load) (i64.reinterpret_f64) => (i64.load)),
    store!((f32.store) => (i32.reinterpret_f32) (i32.store)),
    store!((f64.store) => (i64.reinterpret_f64) (i64.store)),
    store!((i32.reinterpret_f32) (i32.store) => (f32.store)),
    store!((i64.reinterpret_f64) (i64.store) => (f64.store)),
    store!((i32.store) => (f32.reinterpret_i32) (f32.store)),
    store!((i64.store) => (f64.reinterpret_i64) (f64.store)),
    store!((f32.reinterpret_i32) (f32.store) => (i32.store)),
    store!((f64.reinterpret_i64) (f64.store) => (i64.store)),
    // Loads and stores of i64 by those of i32, and loads of vectors by those of integers.
    load!((i64.load8_u) => (i32.load8_u) (i64.extend_i32_u)),
    load!((i64.load16_u) => (i32.load16_u) (i64.extend_i32_u)),
    load!((i64.load32_u) => (i32.load) (i64.extend_i32_u)),
    load!((i64.load8_s) => (i32.load8_s) (i64.extend_i32_s)),
    load!((i64.load16_s) => (i32.load16_s) (i64.extend_i32_s)),
    load!((i64.load32_s) => (i32.load) (i64.extend_i32_s)),
    load!((i32.load8_u) (i64.extend_i32_u) => (i64.load8_u)),
    load!((i32.load16_u) (i64.extend_i32_u) => (i64.load16_u)),
    load!((i32.load) (i64.extend_i32_u) => (i64.load32_u)),
    load!((i32.load8_s) (i64.extend_i32_s) => (i64.load8_s)),
    load!((i32.load16_s) (i64.extend_i32_s) => (i64.load16_s)),
    load!((i32.load) (i64.extend_i32_s) => (i64.load32_s)),
    store!((i64.store8) => (i32.wrap_i64) (i32.store8)),
    store!((i64.store16) => (i32.wrap_i64) (i32.store16)),
    store!((i64.store32) => (i32.wrap_i64) (i32.store)),
    store!((i32.wrap_i64) (i32.store8) => (i64.store8)),
    store!((i32.wrap_i64) (i32.store16) => (i64.store16)),
    store!((i32.wrap_i64) (i32.store) => (i64.store32)),
    load!((v128.load8_splat) => (i32.load8_u) (i8x16.splat)),
    load!((v128.load16_splat) => (i32.load16_u) (i16x8.splat)),
    load!((v128.load32_splat) => (i32.load) (i32x4.splat)),
    load!((v128.load64_splat) => (i64.load) (i64x2.splat)),
    load!((i32.load8_u) (i8x16.splat) => (v128.load8_splat)),
    load!((i32.load16_u) (i16x8.splat) => (v128.load16_splat)),
    load!((i32.load) (i32x4.splat) => (v128.load32_splat)),
    load!((i64.load) (i64x2.splat) => (v128.load64_splat)),
    // Loads with a sign by those without one, and masks of what is loaded.
    load!((i32.load8_s) => (i32.load8_u) (i32.extend8_s)),
    load!((i32.load16_s) => (i32.load16_u) (i32.extend16_s)),
    load!((i64.load8_s) => (i64.load8_u) (i64.extend8_s)),
    load!((i64.load16_s) => (i64.load16_u) (i64.extend16_s)),
    load!((i64.load32_s) => (i64.load32_u) (i64.extend32_s)),
    load!((i32.load8_u) (i32.extend8_s) => (i32.load8_s)),
    load!((i32.load16_u) (i32.extend16_s) => (i32.load16_s)),
    load!((i64.load8_u) (i64.extend8_s) => (i64.load8_s)),
    load!((i64.load16_u) (i64.extend16_s) => (i64.load16_s)),
    load!((i64.load32_u) (i64.extend32_s) => (i64.load32_s)),
    load!((i32.load8_u) => (i32.load8_u) (255 i32.and)),
    load!((i32.load16_u) => (i32.load16_u) (65535 i32.and)),
    load!((i64.load8_u) => (i64.load8_u) (255 i64.and)),
    load!((i64.load16_u) => (i64.load16_u) (65535 i64.and)),
    load!((i64.load32_u) => (i64.load32_u) (4294967295 i64.and)),
    load!((i32.load8_u) (255 i32.and) => (i32.load8_u)),
    load!((i32.load16_u) (65535 i32.and) => (i32.load16_u)),
    load!((i64.load8_u) (255 i64.and) => (i64.load8_u)),
    load!((i64.load16_u) (65535 i64.and) => (i64.load16_u)),
    load!((i64.load32_u) (4294967295 i64.and) => (i64.load32_u)),
    // Bits that a store doesn't write.
    store!((i32.store8) => (i32.extend8_s) (i32.store8)),
    store!((i32.store16) => (i32.extend16_s) (i32.store16)),
    store!((i64.store8) => (i64.extend8_s) (i64.store8)),
    store!((i64.store16) => (i64.extend16_s) (i64.store16)),
    store!((i64.store32) => (i64.extend32_s) (i64.store32)),
    store!((i32.extend8_s) (i32.store8) => (i32.store8)),
    store!((i32.extend16_s) (i32.store16) => (i32.store16)),
    store!((i64.extend8_s) (i64.store8) => (i64.store8)),
    store!((i64.extend16_s) (i64.store16) => (i64.store16)),
    store!((i64.extend32_s) (i64.store32) => (i64.store32)),
    store!((i32.store8) => (255 i32.and) (i32.store8)),
    store!((i32.store16) => (65535 i32.and) (i32.store16)),
    store!((i64.store8) => (255 i64.and) (i64.store8)),
    store!((i64.store16) => (65535 i64.and) (i64.store16)),
    store!((i64.store32) => (4294967295 i64.and) (i64.store32)),
    store!((255 i32.and) (i32.store8) => (i32.store8)),
    store!((65535 i32.and) (i32.store16) => (i32.store16)),
    store!((255 i64.and) (i64.store8) => (i64.store8)),
    store!((65535 i64.and) (i64.store16) => (i64.store16)),
    store!((4294967295 i64.and) (i64.store32) => (i64.store32)),
    // The least alignment, and the natural one.
    align!(Load (i32.load) 0),
    align!(Load (i64.load) 0),
    align!(Load (f32.load) 0),
    align!(Load (f64.load) 0),
    align!(Load (i32.load16_s) 0),
    align!(Load (i32.load16_u) 0),
    align!(Load (i64.load16_s) 0),
    align!(Load (i64.load16_u) 0),
    align!(Load (i64.load32_s) 0),
    align!(Load (i64.load32_u) 0),
    align!(Load (v128.load) 0),
    align!(Load (v128.load16_splat) 0),
    align!(Load (v128.load32_splat) 0),
    align!(Load (v128.load64_splat) 0),
    align!(Load (v128.load32_zero) 0),
    align!(Load (v128.load64_zero) 0),
    align!(Store (i32.store) 0),
    align!(Store (i64.store) 0),
    align!(Store (f32.store) 0),
    align!(Store (f64.store) 0),
    align!(Store (i32.store16) 0),
    align!(Store (i64.store16) 0),
    align!(Store (i64.store32) 0),
    align!(Store (v128.store) 0),
    align!(Load (i32.load) 2),
    align!(Load (i64.load) 3),
    align!(Load (f32.load) 2),
    align!(Load (f64.load) 3),
    align!(Load (i32.load16_s) 1),
    align!(Load (i32.load16_u) 1),
    align!(Load (i64.load16_s) 1),
    align!(Load (i64.load16_u) 1),
    align!(Load (i64.load32_s) 2),
    align!(Load (i64.load32_u) 2),
    align!(Load (v128.load) 4),
    align!(Load (v128.load16_splat) 1),
    align!(Load (v128.load32_splat) 2),
    align!(Load (v128.load64_splat) 3),
    align!(Load (v128.load32_zero) 2),
    align!(Load (v128.load64_zero) 3),
    align!(Store (i32.store) 2),
    align!(Store (i64.store) 3),
    align!(Store (f32.store) 2),
    align!(Store (f64.store) 3),
    align!(Store (i32.store16) 1),
    align!(Store (i64.store16) 1),
    align!(Store (i64.store32) 2),
    align!(Store (v128.store) 4),
    // Constants of floats by their bits, and of vectors by their complements.
    constant!((f32.const) => (i32.const) (f32.reinterpret_i32)),
    constant!((f64.const) => (i64.const) (f64.reinterpret_i64)),
    constant!((i32.const) (f32.reinterpret_i32) => (f32.const)),
    constant!((i64.const) (f64.reinterpret_i64) => (f64.const)),
    constant!((v128.const) => (v128.const) (v128.not)),
    constant!((v128.const) (v128.not) => (v128.const)),
    // Stores of i32 by those of i64, and loads with zeros by those into each lane.
    store!((i32.store8) => (i64.extend_i32_u) (i64.store8)),
    store!((i32.store16) => (i64.extend_i32_u) (i64.store16)),
    store!((i32.store) => (i64.extend_i32_u) (i64.store32)),
    store!((i64.extend_i32_u) (i64.store8) => (i32.store8)),
    store!((i64.extend_i32_u) (i64.store16) => (i32.store16)),
    store!((i64.extend_i32_u) (i64.store32) => (i32.store)),
    load!((v128.load64_zero) => (v128.load64_splat) (0 i64x2.replace_lane 1)),
    load!((v128.load64_splat) (0 i64x2.replace_lane 1) => (v128.load64_zero)),
    // Constants of floats that are read as bits, as constants of integers.
    constant!((f32.const) (i32.reinterpret_f32) => (i32.const)),
    constant!((f64.const) (i64.reinterpret_f64) => (i64.const)),
    constant!((f32.const) (f32x4.splat) => (i32.const) (i32x4.splat)),
    constant!((f64.const) (f64x2.splat) => (i64.const) (i64x2.splat)),
];

// They stand once in memory.
static ACCESS_LINES: [AccessLine; 148] = ACCESSES;

// The access with that number among these.
fn access_among(lines: &[AccessLine], number: usize) -> Option<Access>
    ensures { result ≡ option_map access_in (slice_get lines.now number) }
{
    if number >= lines.len() {
        return None;
    }
    let (kind, left, right, align) = lines[number];
    Some(Access {
        kind,
        left: AccessSide {
            row: left.0,
            conversion: left.1,
        },
        right: AccessSide {
            row: right.0,
            conversion: right.1,
        },
        align,
    })
}

/// The access with that number, from 0 on; none where there are fewer.
pub fn access_at(number: u8) -> Option<Access>
    ensures { result ≡ access_at number }
{
    access_among(&ACCESS_LINES, number as usize)
}

impl Conversion {
    /// How many instructions it is.
    pub fn size(self) -> usize
        ensures { result ≡ conversion_size self }
    {
        match self {
            Conversion::Nothing => 0,
            Conversion::By(_) => 1,
            Conversion::With(_, _, _) => 2,
        }
    }
}

// The memory argument with that alignment, or the same where none is told; none where the same alignment stands there.
fn realigned(align: Option<u8>, immediate: Imm) -> Option<Imm>
    ensures { result ≡ realigned align immediate }
{
    let Imm::Mem(argument) = immediate else {
        return None;
    };
    match align {
        None => Some(Imm::Mem(argument)),
        Some(align) => {
            if align == argument.align {
                None
            } else {
                Some(Imm::Mem(MemArg { align, ..argument }))
            }
        }
    }
}

// The constant of the other type with the same bits; of a vector, the one with the other bits.
fn other_bits(immediate: Imm) -> Option<Imm>
    ensures { result ≡ other_bits immediate }
{
    match immediate {
        Imm::F32(bits) => Some(Imm::I32(bits.cast_signed())),
        Imm::F64(bits) => Some(Imm::I64(bits.cast_signed())),
        Imm::I32(number) => Some(Imm::F32(number.cast_unsigned())),
        Imm::I64(number) => Some(Imm::F64(number.cast_unsigned())),
        Imm::V128(bits) => Some(Imm::V128((bits.cast_unsigned() ^ u128::MAX).cast_signed())),
        _ => None,
    }
}

impl Access {
    /// What it does to the number of instructions.
    pub fn growth(self) -> Growth
        ensures { result ≡ access_growth self }
    {
        let left = self.left.conversion.size();
        let right = self.right.conversion.size();
        if right < left {
            Growth::Shrinks
        } else if right == left {
            Growth::Keeps
        } else {
            Growth::Grows
        }
    }

    /// The immediate that is written where this one stands: a memory argument, the same or with another alignment; or the same bits as a
    /// constant of the other type, and of a vector the other bits. None where the same alignment would be written again, and where an
    /// immediate of another kind stands there.
    pub fn written(self, immediate: Imm) -> Option<Imm>
        ensures { result ≡ written_imm self immediate }
    {
        match self.kind {
            AccessKind::Load => realigned(self.align, immediate),
            AccessKind::Store => realigned(self.align, immediate),
            AccessKind::Constant => other_bits(immediate),
        }
    }
}

impl Own {
    /// Whether the rule does as before only where what runs the module is exact.
    pub fn needs_exact(self) -> bool
        ensures { result ≡ own_needs_exact self }
    {
        match self {
            Own::Access(_) => true,
            _ => false,
        }
    }
}
