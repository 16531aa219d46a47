//! What rules are written in: operators, and numbers of constants.

use wasm_code::Imm;
use wasm_execution::{IntegerType, Operation};

/// An operator that patterns name.
#[derive(Clone, Copy, Debug, PartialEq, Eq)]
pub enum Operator {
    /// One on whole numbers.
    Whole(Operation),
    /// The select whose type isn't written.
    Select,
    /// One on floats or vectors that is exact on bits: a row of the instruction table, by its number, and its lane, where it has one.
    Exact(u16, Option<u8>),
}

/// A number that goes by a pattern's constants and by the width, N bits; its low bits count.
#[derive(Clone, Copy, Debug, PartialEq, Eq)]
pub enum Number {
    /// Itself.
    Literal(u64),
    /// 2^N - 1.
    Ones,
    /// N.
    Bits,
    /// 2^(N - 1).
    Sign,
    /// The constant with that index, c.
    Slot(u8),
    /// N less c, of which only what is left behind whole times N counts.
    Turned(u8),
    /// c + 1.
    Next(u8),
    /// c - 1, and 0 of 0.
    Previous(u8),
    /// 2^N - c.
    Negated(u8),
    /// 2^c.
    Power(u8),
    /// The place of the lowest bit of c that is set, and 0 of 0.
    Place(u8),
    /// The sum of two constants.
    Sum(u8, u8),
}

/// A part of a pattern, of which a pattern is a list in postfix: operands before their operator.
#[derive(Clone, Copy, Debug, PartialEq, Eq)]
pub enum Part {
    /// Any operand that leaves one value; the same number stands for the same code.
    Hole(u8),
    /// A constant.
    Constant(IntegerType, Number),
    /// A drawn constant.
    Drawn(IntegerType),
    /// An operator behind its operands.
    Apply(Operator),
}

impl Operator {
    ghost use Rattle.std.specs.Prelude.{◌≡◌};
    ghost use Rattle.rewrite_rules.specs.Instance.{row_number, immediate_of};

    /// The number of the operator's row in the instruction table.
    pub fn row(self) -> u16
        ensures { result ≡ row_number self }
    {
        match self {
            Operator::Whole(operation) => operation.opcode() as u16 - 29,
            Operator::Select => 3,
            Operator::Exact(row, _) => row,
        }
    }

    /// The immediate of the operator's instruction.
    pub fn immediate(self) -> Imm
        ensures { result ≡ immediate_of self }
    {
        match self {
            Operator::Whole(_) => Imm::Nothing,
            Operator::Select => Imm::Nothing,
            Operator::Exact(_, Some(lane)) => Imm::Lane(lane),
            Operator::Exact(_, None) => Imm::Nothing,
        }
    }
}
