//! The rules as data: a row says how code is rewritten, its sides in postfix, operands before their operator.
//!
//! A rule has the lines from the one that has its name up to the next name. The lines stand in `table/`, by families; their order is that
//! of `lines.rt`. A new rule is lines there and, in `proofs/identities/`, a lemma on numbers for each. An access is a line there too, and
//! what it writes stands in `access.rt`; a way to wrap a value is one, and its operators stand in `wrap.rt`.

ghost use Rattle.std.specs.Prelude.{◌≡◌};
ghost use Rattle.rewrite_rules.specs.Table.{part_for, width_by};

use crate::pattern::{Number, Operator, Part};
use crate::wrap::Wrap;
use wasm_execution::{Binary, Comparison, IntegerType, Operation};
use wasm_types::PrimitiveTypeInfo;

/// A step of a side.
#[derive(Clone, Copy, Debug, PartialEq, Eq)]
pub enum Step {
    /// Any operand that leaves one value; the same index stands for the same code.
    Operand(u8),
    /// A constant of the width.
    Constant(Number),
    /// A drawn constant of the width.
    Drawn,
    /// An operator on two operands of the width.
    Binary(Binary),
    /// A comparison of two operands of the width.
    Compare(Comparison),
    /// Whether an operand of the width is 0.
    Eqz,
    /// The select whose type isn't written.
    Select,
    /// An operator with types of its own.
    Whole(Operation),
    /// One on floats or vectors that is exact on bits: a row of the instruction table, by its number, and its lane, where it has one.
    Exact(u16, Option<u8>),
    /// No more steps.
    End,
}

impl Step {
    /// The part of a pattern that the step is, for a width; none where it ends the side.
    pub fn part(self, width: IntegerType) -> Option<Part>
        ensures { result ≡ part_for width self }
    {
        let operation = match self {
            Step::Operand(index) => return Some(Part::Hole(index)),
            Step::Constant(number) => return Some(Part::Constant(width, number)),
            Step::Drawn => return Some(Part::Drawn(width)),
            Step::Binary(operator) => Operation::Binary(width, operator),
            Step::Compare(comparison) => Operation::Compare(width, comparison),
            Step::Eqz => Operation::Eqz(width),
            Step::Whole(operation) => operation,
            Step::Select => return Some(Part::Apply(Operator::Select)),
            Step::Exact(row, lane) => return Some(Part::Apply(Operator::Exact(row, lane))),
            Step::End => return None,
        };
        Some(Part::Apply(Operator::Whole(operation)))
    }
}

/// A side: its steps, and `End` behind them.
pub type Side = [Step; 7];

/// For which widths a row is.
#[derive(Clone, Copy, Debug, PartialEq, Eq)]
pub enum Widths {
    /// For both; its operands are of the width.
    Both,
    /// For one; its operands are of it.
    Only(IntegerType),
    /// For none: it has no step of the width, and operands of any type, but for the third one, which is an `i32`.
    Any,
    /// For none: its operands are of these types, and its constants are integers of as many bits as the first operand, or of 32.
    Operands(PrimitiveTypeInfo, PrimitiveTypeInfo, PrimitiveTypeInfo),
    /// For none: it is no row, but a rule that stands beside the table.
    Own(Own),
}

/// The type of the integers with as many bits as a number of the type, or with 32 where there are none.
pub fn width_by(t: PrimitiveTypeInfo) -> IntegerType
    ensures { result ≡ width_by t }
{
    match t {
        PrimitiveTypeInfo::I64 | PrimitiveTypeInfo::F64 => IntegerType::I64,
        _ => IntegerType::I32,
    }
}

/// A rule that stands beside the table, or a line of one: it is no row, since what it asks of numbers, or what it writes, is none of a row's.
#[derive(Clone, Copy, Debug, PartialEq, Eq)]
pub enum Own {
    /// A constant as the sum of a drawn number and of what is left.
    Unfold,
    /// A value through a further global.
    ThroughGlobal,
    /// A `nop` before an operand.
    WithNop,
    /// An operator on constants as the constant of its value.
    Fold,
    /// An operand that is dropped, left out with its `drop`.
    Forget,
    /// `local.tee` as `local.set` and `local.get`.
    TeeToSet,
    /// A `nop` left out.
    DropNop,
    /// `local.set` and `local.get` of one local as `local.tee`.
    SetToTee,
    /// An instruction with an immediate as another one: the access with that number.
    Access(u8),
    /// A value in control flow of its own.
    Wrap(Wrap),
    /// The same taken away again.
    Unwrap(Wrap),
    /// A `select` as a conditional.
    SelectToIf,
    /// A conditional as a `select`.
    IfToSelect,
    /// The condition of a branch or of a conditional, and whether it isn't zero.
    TestCondition,
    /// That test left out.
    DropConditionTest,
    /// The condition of a branch or of a conditional, and twice whether it is zero.
    DoubleCondition,
    /// Both tests left out.
    DropDoubleCondition,
    /// A constant that is dropped, where it is never reached.
    PutDead,
    /// The same left out.
    DropDead,
    /// The index of a branch by a table, and the number of labels where it isn't below that.
    BoundIndex,
    /// That bound left out.
    DropIndexBound,
    /// A branch under a condition, as a conditional with a branch in it.
    BrIfToIf,
    /// The other way round.
    IfToBrIf,
}

/// What is asked of the number of a constant, by its index.
#[derive(Clone, Copy, Debug, PartialEq, Eq)]
pub enum Condition {
    /// It is below the width in bits.
    BelowWidth(u8),
    /// It is a power of two.
    Power(u8),
    /// It is a power of two less one, and not all ones.
    Mask(u8),
    /// The sum of two is a multiple of the width in bits.
    Turns(u8, u8),
}

/// A row of the table.
#[derive(Clone, Copy, Debug, PartialEq, Eq)]
pub struct Row {
    /// Its widths.
    pub widths: Widths,
    /// What is asked of its constants.
    pub condition: Option<Condition>,
    /// What is rewritten.
    pub left: Side,
    /// What it is rewritten as.
    pub right: Side,
}

/// A line of the table: the name of the rule that begins with it, or none where it is a further line of the rule above, and what its row
/// is: its widths, what is asked of its constants, and its sides.
pub type TableLine = (Option<&'static str>, Widths, Option<Condition>, Side, Side);

// A step as rows write it: `c` and `d` are the numbers of the constants on the left side, `N` is the width in bits, and `log c` the place
// of the lowest bit of `c`, and `sign` the highest bit alone. An operator has its instruction's name; where its types are its own, as on
// floats and vectors, the whole one, in parentheses, with its lane, where it has one.
macro_rules! step {
    (x) => { Step::Operand(0) };
    (y) => { Step::Operand(1) };
    (z) => { Step::Operand(2) };
    ($n:literal) => { Step::Constant(Number::Literal($n)) };
    (ones) => { Step::Constant(Number::Ones) };
    (N) => { Step::Constant(Number::Bits) };
    (sign) => { Step::Constant(Number::Sign) };
    (c) => { Step::Constant(Number::Slot(0)) };
    (d) => { Step::Constant(Number::Slot(1)) };
    ((N-c)) => { Step::Constant(Number::Turned(0)) };
    ((c+1)) => { Step::Constant(Number::Next(0)) };
    ((c-1)) => { Step::Constant(Number::Previous(0)) };
    ((-c)) => { Step::Constant(Number::Negated(0)) };
    ((2^c)) => { Step::Constant(Number::Power(0)) };
    ((log c)) => { Step::Constant(Number::Place(0)) };
    ((c+d)) => { Step::Constant(Number::Sum(0, 1)) };
    (drawn) => { Step::Drawn };
    (eqz) => { Step::Eqz };
    (select) => { Step::Select };
    (end) => { Step::End };
    (add) => { Step::Binary(Binary::Add) };
    (sub) => { Step::Binary(Binary::Sub) };
    (mul) => { Step::Binary(Binary::Mul) };
    (div_s) => { Step::Binary(Binary::DivS) };
    (div_u) => { Step::Binary(Binary::DivU) };
    (rem_s) => { Step::Binary(Binary::RemS) };
    (rem_u) => { Step::Binary(Binary::RemU) };
    (and) => { Step::Binary(Binary::And) };
    (or) => { Step::Binary(Binary::Or) };
    (xor) => { Step::Binary(Binary::Xor) };
    (shl) => { Step::Binary(Binary::Shl) };
    (shr_s) => { Step::Binary(Binary::ShrS) };
    (shr_u) => { Step::Binary(Binary::ShrU) };
    (rotl) => { Step::Binary(Binary::Rotl) };
    (rotr) => { Step::Binary(Binary::Rotr) };
    (eq) => { Step::Compare(Comparison::Eq) };
    (ne) => { Step::Compare(Comparison::Ne) };
    (lt_s) => { Step::Compare(Comparison::LtS) };
    (lt_u) => { Step::Compare(Comparison::LtU) };
    (gt_s) => { Step::Compare(Comparison::GtS) };
    (gt_u) => { Step::Compare(Comparison::GtU) };
    (le_s) => { Step::Compare(Comparison::LeS) };
    (le_u) => { Step::Compare(Comparison::LeU) };
    (ge_s) => { Step::Compare(Comparison::GeS) };
    (ge_u) => { Step::Compare(Comparison::GeU) };
    ((i32.eqz)) => { Step::Whole(Operation::Eqz(IntegerType::I32)) };
    ((i32.clz)) => { Step::Whole(Operation::Unary(IntegerType::I32, Unary::Clz)) };
    ((i64.clz)) => { Step::Whole(Operation::Unary(IntegerType::I64, Unary::Clz)) };
    ((i32.ctz)) => { Step::Whole(Operation::Unary(IntegerType::I32, Unary::Ctz)) };
    ((i64.ctz)) => { Step::Whole(Operation::Unary(IntegerType::I64, Unary::Ctz)) };
    ((i32.popcnt)) => { Step::Whole(Operation::Unary(IntegerType::I32, Unary::Popcnt)) };
    ((i64.popcnt)) => { Step::Whole(Operation::Unary(IntegerType::I64, Unary::Popcnt)) };
    ((i32.wrap_i64)) => { Step::Whole(Operation::WrapI64) };
    ((i64.extend_i32_s)) => { Step::Whole(Operation::ExtendI32S) };
    ((i64.extend_i32_u)) => { Step::Whole(Operation::ExtendI32U) };
    ((i32.extend8_s)) => { Step::Whole(Operation::Extend8S(IntegerType::I32)) };
    ((i32.extend16_s)) => { Step::Whole(Operation::Extend16S(IntegerType::I32)) };
    ((i64.extend8_s)) => { Step::Whole(Operation::Extend8S(IntegerType::I64)) };
    ((i64.extend16_s)) => { Step::Whole(Operation::Extend16S(IntegerType::I64)) };
    ((i64.extend32_s)) => { Step::Whole(Operation::Extend32S) };
    ((i32.and)) => { Step::Whole(Operation::Binary(IntegerType::I32, Binary::And)) };
    ((i32.or)) => { Step::Whole(Operation::Binary(IntegerType::I32, Binary::Or)) };
    ((f32.eq)) => { Step::Exact(62, None) };
    ((f32.ne)) => { Step::Exact(63, None) };
    ((f32.lt)) => { Step::Exact(64, None) };
    ((f32.gt)) => { Step::Exact(65, None) };
    ((f32.le)) => { Step::Exact(66, None) };
    ((f32.ge)) => { Step::Exact(67, None) };
    ((f64.eq)) => { Step::Exact(68, None) };
    ((f64.ne)) => { Step::Exact(69, None) };
    ((f64.lt)) => { Step::Exact(70, None) };
    ((f64.gt)) => { Step::Exact(71, None) };
    ((f64.le)) => { Step::Exact(72, None) };
    ((f64.ge)) => { Step::Exact(73, None) };
    ((f32.abs)) => { Step::Exact(110, None) };
    ((f32.neg)) => { Step::Exact(111, None) };
    ((f32.copysign)) => { Step::Exact(123, None) };
    ((f64.abs)) => { Step::Exact(124, None) };
    ((f64.neg)) => { Step::Exact(125, None) };
    ((f64.copysign)) => { Step::Exact(137, None) };
    ((f32.convert_i32_s)) => { Step::Exact(149, None) };
    ((f32.convert_i32_u)) => { Step::Exact(150, None) };
    ((f32.convert_i64_s)) => { Step::Exact(151, None) };
    ((f32.convert_i64_u)) => { Step::Exact(152, None) };
    ((f64.convert_i32_s)) => { Step::Exact(154, None) };
    ((f64.convert_i32_u)) => { Step::Exact(155, None) };
    ((f64.convert_i64_s)) => { Step::Exact(156, None) };
    ((f64.convert_i64_u)) => { Step::Exact(157, None) };
    ((i32.reinterpret_f32)) => { Step::Exact(159, None) };
    ((i64.reinterpret_f64)) => { Step::Exact(160, None) };
    ((f32.reinterpret_i32)) => { Step::Exact(161, None) };
    ((f64.reinterpret_i64)) => { Step::Exact(162, None) };
    ((i32.trunc_sat_f32_s)) => { Step::Exact(171, None) };
    ((i32.trunc_sat_f32_u)) => { Step::Exact(172, None) };
    ((i32.trunc_sat_f64_s)) => { Step::Exact(173, None) };
    ((i32.trunc_sat_f64_u)) => { Step::Exact(174, None) };
    ((i8x16.swizzle)) => { Step::Exact(203, None) };
    ((i8x16.splat)) => { Step::Exact(204, None) };
    ((i16x8.splat)) => { Step::Exact(205, None) };
    ((i32x4.splat)) => { Step::Exact(206, None) };
    ((i64x2.splat)) => { Step::Exact(207, None) };
    ((f32x4.splat)) => { Step::Exact(208, None) };
    ((f64x2.splat)) => { Step::Exact(209, None) };
    ((i8x16.extract_lane_s $lane:literal)) => { Step::Exact(210, Some($lane)) };
    ((i8x16.extract_lane_u $lane:literal)) => { Step::Exact(211, Some($lane)) };
    ((i8x16.replace_lane $lane:literal)) => { Step::Exact(212, Some($lane)) };
    ((i16x8.extract_lane_s $lane:literal)) => { Step::Exact(213, Some($lane)) };
    ((i16x8.extract_lane_u $lane:literal)) => { Step::Exact(214, Some($lane)) };
    ((i16x8.replace_lane $lane:literal)) => { Step::Exact(215, Some($lane)) };
    ((i32x4.extract_lane $lane:literal)) => { Step::Exact(216, Some($lane)) };
    ((i32x4.replace_lane $lane:literal)) => { Step::Exact(217, Some($lane)) };
    ((i64x2.extract_lane $lane:literal)) => { Step::Exact(218, Some($lane)) };
    ((i64x2.replace_lane $lane:literal)) => { Step::Exact(219, Some($lane)) };
    ((f32x4.extract_lane $lane:literal)) => { Step::Exact(220, Some($lane)) };
    ((f32x4.replace_lane $lane:literal)) => { Step::Exact(221, Some($lane)) };
    ((f64x2.extract_lane $lane:literal)) => { Step::Exact(222, Some($lane)) };
    ((f64x2.replace_lane $lane:literal)) => { Step::Exact(223, Some($lane)) };
    ((i8x16.eq)) => { Step::Exact(224, None) };
    ((i8x16.ne)) => { Step::Exact(225, None) };
    ((i8x16.lt_s)) => { Step::Exact(226, None) };
    ((i8x16.lt_u)) => { Step::Exact(227, None) };
    ((i8x16.gt_s)) => { Step::Exact(228, None) };
    ((i8x16.gt_u)) => { Step::Exact(229, None) };
    ((i8x16.le_s)) => { Step::Exact(230, None) };
    ((i8x16.le_u)) => { Step::Exact(231, None) };
    ((i8x16.ge_s)) => { Step::Exact(232, None) };
    ((i8x16.ge_u)) => { Step::Exact(233, None) };
    ((i16x8.eq)) => { Step::Exact(234, None) };
    ((i16x8.ne)) => { Step::Exact(235, None) };
    ((i16x8.lt_s)) => { Step::Exact(236, None) };
    ((i16x8.lt_u)) => { Step::Exact(237, None) };
    ((i16x8.gt_s)) => { Step::Exact(238, None) };
    ((i16x8.gt_u)) => { Step::Exact(239, None) };
    ((i16x8.le_s)) => { Step::Exact(240, None) };
    ((i16x8.le_u)) => { Step::Exact(241, None) };
    ((i16x8.ge_s)) => { Step::Exact(242, None) };
    ((i16x8.ge_u)) => { Step::Exact(243, None) };
    ((i32x4.eq)) => { Step::Exact(244, None) };
    ((i32x4.ne)) => { Step::Exact(245, None) };
    ((i32x4.lt_s)) => { Step::Exact(246, None) };
    ((i32x4.lt_u)) => { Step::Exact(247, None) };
    ((i32x4.gt_s)) => { Step::Exact(248, None) };
    ((i32x4.gt_u)) => { Step::Exact(249, None) };
    ((i32x4.le_s)) => { Step::Exact(250, None) };
    ((i32x4.le_u)) => { Step::Exact(251, None) };
    ((i32x4.ge_s)) => { Step::Exact(252, None) };
    ((i32x4.ge_u)) => { Step::Exact(253, None) };
    ((f32x4.eq)) => { Step::Exact(254, None) };
    ((f32x4.ne)) => { Step::Exact(255, None) };
    ((f32x4.lt)) => { Step::Exact(256, None) };
    ((f32x4.gt)) => { Step::Exact(257, None) };
    ((f32x4.le)) => { Step::Exact(258, None) };
    ((f32x4.ge)) => { Step::Exact(259, None) };
    ((f64x2.eq)) => { Step::Exact(260, None) };
    ((f64x2.ne)) => { Step::Exact(261, None) };
    ((f64x2.lt)) => { Step::Exact(262, None) };
    ((f64x2.gt)) => { Step::Exact(263, None) };
    ((f64x2.le)) => { Step::Exact(264, None) };
    ((f64x2.ge)) => { Step::Exact(265, None) };
    ((v128.not)) => { Step::Exact(266, None) };
    ((v128.and)) => { Step::Exact(267, None) };
    ((v128.andnot)) => { Step::Exact(268, None) };
    ((v128.or)) => { Step::Exact(269, None) };
    ((v128.xor)) => { Step::Exact(270, None) };
    ((v128.bitselect)) => { Step::Exact(271, None) };
    ((i8x16.abs)) => { Step::Exact(285, None) };
    ((i8x16.neg)) => { Step::Exact(286, None) };
    ((i8x16.narrow_i16x8_s)) => { Step::Exact(290, None) };
    ((i8x16.narrow_i16x8_u)) => { Step::Exact(291, None) };
    ((i8x16.shl)) => { Step::Exact(296, None) };
    ((i8x16.shr_s)) => { Step::Exact(297, None) };
    ((i8x16.shr_u)) => { Step::Exact(298, None) };
    ((i8x16.add)) => { Step::Exact(299, None) };
    ((i8x16.add_sat_s)) => { Step::Exact(300, None) };
    ((i8x16.add_sat_u)) => { Step::Exact(301, None) };
    ((i8x16.sub)) => { Step::Exact(302, None) };
    ((i8x16.sub_sat_u)) => { Step::Exact(304, None) };
    ((i8x16.min_s)) => { Step::Exact(307, None) };
    ((i8x16.min_u)) => { Step::Exact(308, None) };
    ((i8x16.max_s)) => { Step::Exact(309, None) };
    ((i8x16.max_u)) => { Step::Exact(310, None) };
    ((i8x16.avgr_u)) => { Step::Exact(312, None) };
    ((i16x8.abs)) => { Step::Exact(317, None) };
    ((i16x8.neg)) => { Step::Exact(318, None) };
    ((i16x8.q15mulr_sat_s)) => { Step::Exact(319, None) };
    ((i16x8.narrow_i32x4_s)) => { Step::Exact(322, None) };
    ((i16x8.narrow_i32x4_u)) => { Step::Exact(323, None) };
    ((i16x8.shl)) => { Step::Exact(328, None) };
    ((i16x8.shr_s)) => { Step::Exact(329, None) };
    ((i16x8.shr_u)) => { Step::Exact(330, None) };
    ((i16x8.add)) => { Step::Exact(331, None) };
    ((i16x8.add_sat_s)) => { Step::Exact(332, None) };
    ((i16x8.add_sat_u)) => { Step::Exact(333, None) };
    ((i16x8.sub)) => { Step::Exact(334, None) };
    ((i16x8.sub_sat_u)) => { Step::Exact(336, None) };
    ((i16x8.mul)) => { Step::Exact(338, None) };
    ((i16x8.min_s)) => { Step::Exact(339, None) };
    ((i16x8.min_u)) => { Step::Exact(340, None) };
    ((i16x8.max_s)) => { Step::Exact(341, None) };
    ((i16x8.max_u)) => { Step::Exact(342, None) };
    ((i16x8.avgr_u)) => { Step::Exact(343, None) };
    ((i32x4.abs)) => { Step::Exact(348, None) };
    ((i32x4.neg)) => { Step::Exact(349, None) };
    ((i32x4.shl)) => { Step::Exact(356, None) };
    ((i32x4.shr_s)) => { Step::Exact(357, None) };
    ((i32x4.shr_u)) => { Step::Exact(358, None) };
    ((i32x4.add)) => { Step::Exact(359, None) };
    ((i32x4.sub)) => { Step::Exact(360, None) };
    ((i32x4.mul)) => { Step::Exact(361, None) };
    ((i32x4.min_s)) => { Step::Exact(362, None) };
    ((i32x4.min_u)) => { Step::Exact(363, None) };
    ((i32x4.max_s)) => { Step::Exact(364, None) };
    ((i32x4.max_u)) => { Step::Exact(365, None) };
    ((i32x4.dot_i16x8_s)) => { Step::Exact(366, None) };
    ((i64x2.abs)) => { Step::Exact(371, None) };
    ((i64x2.neg)) => { Step::Exact(372, None) };
    ((i64x2.shl)) => { Step::Exact(379, None) };
    ((i64x2.shr_s)) => { Step::Exact(380, None) };
    ((i64x2.shr_u)) => { Step::Exact(381, None) };
    ((i64x2.add)) => { Step::Exact(382, None) };
    ((i64x2.sub)) => { Step::Exact(383, None) };
    ((i64x2.mul)) => { Step::Exact(384, None) };
    ((i64x2.eq)) => { Step::Exact(385, None) };
    ((i64x2.ne)) => { Step::Exact(386, None) };
    ((i64x2.lt_s)) => { Step::Exact(387, None) };
    ((i64x2.gt_s)) => { Step::Exact(388, None) };
    ((i64x2.le_s)) => { Step::Exact(389, None) };
    ((i64x2.ge_s)) => { Step::Exact(390, None) };
    ((f32x4.abs)) => { Step::Exact(395, None) };
    ((f32x4.neg)) => { Step::Exact(396, None) };
    ((f32x4.pmin)) => { Step::Exact(404, None) };
    ((f32x4.pmax)) => { Step::Exact(405, None) };
    ((f64x2.abs)) => { Step::Exact(406, None) };
    ((f64x2.neg)) => { Step::Exact(407, None) };
    ((f64x2.pmin)) => { Step::Exact(415, None) };
    ((f64x2.pmax)) => { Step::Exact(416, None) };
    ((i32x4.trunc_sat_f32x4_s)) => { Step::Exact(417, None) };
    ((i32x4.trunc_sat_f32x4_u)) => { Step::Exact(418, None) };
    ((f32x4.convert_i32x4_s)) => { Step::Exact(419, None) };
    ((f32x4.convert_i32x4_u)) => { Step::Exact(420, None) };
    ((i32x4.trunc_sat_f64x2_s_zero)) => { Step::Exact(421, None) };
    ((i32x4.trunc_sat_f64x2_u_zero)) => { Step::Exact(422, None) };
    ((f64x2.convert_low_i32x4_s)) => { Step::Exact(423, None) };
    ((f64x2.convert_low_i32x4_u)) => { Step::Exact(424, None) };
}

// A side of seven steps, behind which is nothing but `end`.
macro_rules! side {
    ($a:tt $b:tt $c:tt $d:tt $e:tt $f:tt $g:tt $(end)*) => {
        [step!($a), step!($b), step!($c), step!($d), step!($e), step!($f), step!($g)]
    };
}

// The widths, by what stands behind `for`: in parentheses the types of the operands, of which the last one is that of all further ones.
macro_rules! widths {
    () => { Widths::Both };
    (any) => { Widths::Any };
    (($a:ident)) => { Widths::Operands(PrimitiveTypeInfo::$a, PrimitiveTypeInfo::$a, PrimitiveTypeInfo::$a) };
    (($a:ident $b:ident)) => { Widths::Operands(PrimitiveTypeInfo::$a, PrimitiveTypeInfo::$b, PrimitiveTypeInfo::$b) };
    (($a:ident $b:ident $c:ident)) => { Widths::Operands(PrimitiveTypeInfo::$a, PrimitiveTypeInfo::$b, PrimitiveTypeInfo::$c) };
    ($t:ident) => { Widths::Only(IntegerType::$t) };
}

// What is asked of the constant, by what stands behind `if`.
macro_rules! condition {
    () => { None };
    (c < N) => { Some(Condition::BelowWidth(0)) };
    (c is power) => { Some(Condition::Power(0)) };
    (c is mask) => { Some(Condition::Mask(0)) };
    (c + d is turns) => { Some(Condition::Turns(0, 1)) };
}

// The name of the rule that begins with a line, if one does.
macro_rules! name {
    () => { None };
    ($name:literal) => { Some($name) };
}

// A line: the name of the rule that begins with it, if one does, the widths if they are not both, the sides, and what is asked of the
// constant, if anything.
macro_rules! row {
    ([$($l:tt)+] => [$($r:tt)+] $(if $($k:tt)+)?) => {
        row!(: [$($l)+] => [$($r)+] $(if $($k)+)?)
    };
    ($($name:literal)? $(for $widths:tt)?: [$($l:tt)+] => [$($r:tt)+] $(if $($k:tt)+)?) => {
        (
            name!($($name)?),
            widths!($($widths)?),
            condition!($($($k)+)?),
            side!($($l)+ end end end end end end),
            side!($($r)+ end end end end end end),
        )
    };
}

// A rule that is no row: its name, and which one it is; of accesses, each of which is a line, the number, and the name where a rule begins.
macro_rules! own {
    ($name:literal: $own:ident) => {
        (
            Some($name),
            Widths::Own(Own::$own),
            None,
            [Step::End; 7],
            [Step::End; 7],
        )
    };
    ($($name:literal:)? Access $number:literal) => {
        (
            name!($($name)?),
            Widths::Own(Own::Access($number)),
            None,
            [Step::End; 7],
            [Step::End; 7],
        )
    };
    ($name:literal: Wrap $wrap:ident) => {
        (
            Some($name),
            Widths::Own(Own::Wrap(Wrap::$wrap)),
            None,
            [Step::End; 7],
            [Step::End; 7],
        )
    };
    ($name:literal: Unwrap $wrap:ident) => {
        (
            Some($name),
            Widths::Own(Own::Unwrap(Wrap::$wrap)),
            None,
            [Step::End; 7],
            [Step::End; 7],
        )
    };
}

// Behind the macros, which they use.
pub(crate) mod accesses;
pub(crate) mod control;
pub(crate) mod floats;
pub(crate) mod further;
pub(crate) mod integers;
pub(crate) mod lane_moves;
pub(crate) mod lane_tests;
pub(crate) mod vectors;
