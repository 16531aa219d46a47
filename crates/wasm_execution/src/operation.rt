//! The operators on whole numbers without an immediate, their opcodes and their types.
ghost use Rattle.std.specs.Prelude.{◌≡◌, [], ◌∷◌, map, option_map};
ghost use Rattle.wasm_execution.specs.Values.{type_of};
ghost use Rattle.wasm_execution.specs.IntegerRow.{bare_operator, from_byte};
ghost use Rattle.wasm_execution.specs.Operation.{operator_of};
ghost use Rattle.wasm_execution.specs.Opcode.{by_type, unary_opcodes, binary_opcodes, comparison_opcodes, opcode, at_opcode, operation_of};

use crate::integer::IntegerType;
use wasm_types::PrimitiveTypeInfo;

/// An operator on one number that counts bits.
#[derive(Clone, Copy, Debug, PartialEq, Eq)]
pub enum Unary {
    /// The leading zeros.
    Clz,
    /// The trailing zeros.
    Ctz,
    /// The ones.
    Popcnt,
}

/// An operator on two numbers of one type that gives a third.
#[derive(Clone, Copy, Debug, PartialEq, Eq)]
pub enum Binary {
    /// The sum.
    Add,
    /// The difference.
    Sub,
    /// The product.
    Mul,
    /// The quotient, signed.
    DivS,
    /// The quotient, unsigned.
    DivU,
    /// The remainder, signed.
    RemS,
    /// The remainder, unsigned.
    RemU,
    /// The bits that both have.
    And,
    /// The bits that one of both has, or both.
    Or,
    /// The bits that just one of both has.
    Xor,
    /// A shift to the left.
    Shl,
    /// A shift to the right that keeps the sign.
    ShrS,
    /// A shift to the right.
    ShrU,
    /// A rotation to the left.
    Rotl,
    /// A rotation to the right.
    Rotr,
}

/// A comparison of two numbers of one type.
#[derive(Clone, Copy, Debug, PartialEq, Eq)]
pub enum Comparison {
    /// Equal.
    Eq,
    /// Not equal.
    Ne,
    /// Below, signed.
    LtS,
    /// Below, unsigned.
    LtU,
    /// Above, signed.
    GtS,
    /// Above, unsigned.
    GtU,
    /// At most, signed.
    LeS,
    /// At most, unsigned.
    LeU,
    /// At least, signed.
    GeS,
    /// At least, unsigned.
    GeU,
}

/// An operator on whole numbers that has no immediate (WebAssembly Core Specification 3.0, Structure, Instructions,
/// Numeric Instructions).
#[derive(Clone, Copy, Debug, PartialEq, Eq)]
pub enum Operation {
    /// `eqz`: whether the number is 0.
    Eqz(IntegerType),
    /// A comparison.
    Compare(IntegerType, Comparison),
    /// `clz`, `ctz` or `popcnt`.
    Unary(IntegerType, Unary),
    /// An operator on two numbers.
    Binary(IntegerType, Binary),
    /// `i32.wrap_i64`: the low 32 bits.
    WrapI64,
    /// `i64.extend_i32_s`: the number, signed.
    ExtendI32S,
    /// `i64.extend_i32_u`: the number, unsigned.
    ExtendI32U,
    /// `extend8_s`: the low 8 bits, signed.
    Extend8S(IntegerType),
    /// `extend16_s`: the low 16 bits, signed.
    Extend16S(IntegerType),
    /// `i64.extend32_s`: the low 32 bits, signed.
    Extend32S,
}

// From opcode 45 on.
const TESTS: [Operation; 22] = [
    Operation::Eqz(IntegerType::I32),
    Operation::Compare(IntegerType::I32, Comparison::Eq),
    Operation::Compare(IntegerType::I32, Comparison::Ne),
    Operation::Compare(IntegerType::I32, Comparison::LtS),
    Operation::Compare(IntegerType::I32, Comparison::LtU),
    Operation::Compare(IntegerType::I32, Comparison::GtS),
    Operation::Compare(IntegerType::I32, Comparison::GtU),
    Operation::Compare(IntegerType::I32, Comparison::LeS),
    Operation::Compare(IntegerType::I32, Comparison::LeU),
    Operation::Compare(IntegerType::I32, Comparison::GeS),
    Operation::Compare(IntegerType::I32, Comparison::GeU),
    Operation::Eqz(IntegerType::I64),
    Operation::Compare(IntegerType::I64, Comparison::Eq),
    Operation::Compare(IntegerType::I64, Comparison::Ne),
    Operation::Compare(IntegerType::I64, Comparison::LtS),
    Operation::Compare(IntegerType::I64, Comparison::LtU),
    Operation::Compare(IntegerType::I64, Comparison::GtS),
    Operation::Compare(IntegerType::I64, Comparison::GtU),
    Operation::Compare(IntegerType::I64, Comparison::LeS),
    Operation::Compare(IntegerType::I64, Comparison::LeU),
    Operation::Compare(IntegerType::I64, Comparison::GeS),
    Operation::Compare(IntegerType::I64, Comparison::GeU),
];

// From opcode 67 on.
const ARITHMETIC: [Operation; 36] = [
    Operation::Unary(IntegerType::I32, Unary::Clz),
    Operation::Unary(IntegerType::I32, Unary::Ctz),
    Operation::Unary(IntegerType::I32, Unary::Popcnt),
    Operation::Binary(IntegerType::I32, Binary::Add),
    Operation::Binary(IntegerType::I32, Binary::Sub),
    Operation::Binary(IntegerType::I32, Binary::Mul),
    Operation::Binary(IntegerType::I32, Binary::DivS),
    Operation::Binary(IntegerType::I32, Binary::DivU),
    Operation::Binary(IntegerType::I32, Binary::RemS),
    Operation::Binary(IntegerType::I32, Binary::RemU),
    Operation::Binary(IntegerType::I32, Binary::And),
    Operation::Binary(IntegerType::I32, Binary::Or),
    Operation::Binary(IntegerType::I32, Binary::Xor),
    Operation::Binary(IntegerType::I32, Binary::Shl),
    Operation::Binary(IntegerType::I32, Binary::ShrS),
    Operation::Binary(IntegerType::I32, Binary::ShrU),
    Operation::Binary(IntegerType::I32, Binary::Rotl),
    Operation::Binary(IntegerType::I32, Binary::Rotr),
    Operation::Unary(IntegerType::I64, Unary::Clz),
    Operation::Unary(IntegerType::I64, Unary::Ctz),
    Operation::Unary(IntegerType::I64, Unary::Popcnt),
    Operation::Binary(IntegerType::I64, Binary::Add),
    Operation::Binary(IntegerType::I64, Binary::Sub),
    Operation::Binary(IntegerType::I64, Binary::Mul),
    Operation::Binary(IntegerType::I64, Binary::DivS),
    Operation::Binary(IntegerType::I64, Binary::DivU),
    Operation::Binary(IntegerType::I64, Binary::RemS),
    Operation::Binary(IntegerType::I64, Binary::RemU),
    Operation::Binary(IntegerType::I64, Binary::And),
    Operation::Binary(IntegerType::I64, Binary::Or),
    Operation::Binary(IntegerType::I64, Binary::Xor),
    Operation::Binary(IntegerType::I64, Binary::Shl),
    Operation::Binary(IntegerType::I64, Binary::ShrS),
    Operation::Binary(IntegerType::I64, Binary::ShrU),
    Operation::Binary(IntegerType::I64, Binary::Rotl),
    Operation::Binary(IntegerType::I64, Binary::Rotr),
];

// From opcode AC on.
const CONVERSIONS: [Operation; 2] = [Operation::ExtendI32S, Operation::ExtendI32U];

// From opcode C0 on.
const EXTENSIONS: [Operation; 5] = [
    Operation::Extend8S(IntegerType::I32),
    Operation::Extend16S(IntegerType::I32),
    Operation::Extend8S(IntegerType::I64),
    Operation::Extend16S(IntegerType::I64),
    Operation::Extend32S,
];

// The operator of an opcode, where the operators have consecutive opcodes from the first on.
fn operation_at(first: u8, operations: &[Operation], byte: u8) -> Option<Operation>
    ensures operator { option_map operator_of result
        ≡ from_byte first (map operator_of operations.now) byte }
    ensures place { result ≡ at_opcode first operations.now byte }
{
    if byte < first {
        None
    } else {
        operations.get((byte - first) as usize).copied()
    }
}

// One of the two opcodes, by the type.
fn by_type(t: IntegerType, opcodes: (u8, u8)) -> u8
    ensures { result ≡ by_type t opcodes.0 opcodes.1 }
{
    match t {
        IntegerType::I32 => opcodes.0,
        IntegerType::I64 => opcodes.1,
    }
}

// Of i32 and of i64.
fn unary_opcodes(f: Unary) -> (u8, u8)
    ensures { result ≡ unary_opcodes f }
{
    match f {
        Unary::Clz => (0x67, 0x79),
        Unary::Ctz => (0x68, 0x7A),
        Unary::Popcnt => (0x69, 0x7B),
    }
}

// Of i32 and of i64.
fn binary_opcodes(f: Binary) -> (u8, u8)
    ensures { result ≡ binary_opcodes f }
{
    match f {
        Binary::Add => (0x6A, 0x7C),
        Binary::Sub => (0x6B, 0x7D),
        Binary::Mul => (0x6C, 0x7E),
        Binary::DivS => (0x6D, 0x7F),
        Binary::DivU => (0x6E, 0x80),
        Binary::RemS => (0x6F, 0x81),
        Binary::RemU => (0x70, 0x82),
        Binary::And => (0x71, 0x83),
        Binary::Or => (0x72, 0x84),
        Binary::Xor => (0x73, 0x85),
        Binary::Shl => (0x74, 0x86),
        Binary::ShrS => (0x75, 0x87),
        Binary::ShrU => (0x76, 0x88),
        Binary::Rotl => (0x77, 0x89),
        Binary::Rotr => (0x78, 0x8A),
    }
}

// Of i32 and of i64.
fn comparison_opcodes(f: Comparison) -> (u8, u8)
    ensures { result ≡ comparison_opcodes f }
{
    match f {
        Comparison::Eq => (0x46, 0x51),
        Comparison::Ne => (0x47, 0x52),
        Comparison::LtS => (0x48, 0x53),
        Comparison::LtU => (0x49, 0x54),
        Comparison::GtS => (0x4A, 0x55),
        Comparison::GtU => (0x4B, 0x56),
        Comparison::LeS => (0x4C, 0x57),
        Comparison::LeU => (0x4D, 0x58),
        Comparison::GeS => (0x4E, 0x59),
        Comparison::GeU => (0x4F, 0x5A),
    }
}

fn one_of(t: IntegerType) -> &'static [PrimitiveTypeInfo]
    ensures { result.now ≡ type_of t ∷ [] }
{
    match t {
        IntegerType::I32 => &[PrimitiveTypeInfo::I32],
        IntegerType::I64 => &[PrimitiveTypeInfo::I64],
    }
}

fn two_of(t: IntegerType) -> &'static [PrimitiveTypeInfo]
    ensures { result.now ≡ type_of t ∷ type_of t ∷ [] }
{
    match t {
        IntegerType::I32 => &[PrimitiveTypeInfo::I32, PrimitiveTypeInfo::I32],
        IntegerType::I64 => &[PrimitiveTypeInfo::I64, PrimitiveTypeInfo::I64],
    }
}

impl Operation {
    /// The operator of an opcode of one byte, or none where no operator on whole numbers without an immediate has it
    /// (WebAssembly Core Specification 3.0, Binary Format, Instructions): 45 to 5A, 67 to 8A, A7, AC, AD, C0 to C4.
    pub fn from_byte(byte: u8) -> Option<Operation>
        ensures operator { option_map operator_of result ≡ bare_operator byte }
        ensures opcode { result ≡ operation_of byte }
    {
        operation_at(0x45, &TESTS, byte)
            .or(operation_at(0x67, &ARITHMETIC, byte))
            .or(operation_at(0xA7, &[Operation::WrapI64], byte))
            .or(operation_at(0xAC, &CONVERSIONS, byte))
            .or(operation_at(0xC0, &EXTENSIONS, byte))
    }

    /// Its opcode, which is one byte (WebAssembly Core Specification 3.0, Binary Format, Instructions).
    pub fn opcode(self) -> u8
        ensures { result ≡ opcode self }
    {
        match self {
            Operation::Eqz(t) => by_type(t, (0x45, 0x50)),
            Operation::Compare(t, f) => by_type(t, comparison_opcodes(f)),
            Operation::Unary(t, f) => by_type(t, unary_opcodes(f)),
            Operation::Binary(t, f) => by_type(t, binary_opcodes(f)),
            Operation::WrapI64 => 0xA7,
            Operation::ExtendI32S => 0xAC,
            Operation::ExtendI32U => 0xAD,
            Operation::Extend8S(t) => by_type(t, (0xC0, 0xC2)),
            Operation::Extend16S(t) => by_type(t, (0xC1, 0xC3)),
            Operation::Extend32S => 0xC4,
        }
    }

    /// The types of its operands, the first one first (WebAssembly Core Specification 3.0, Validation, Instructions).
    pub fn operands(self) -> &'static [PrimitiveTypeInfo]
        ensures { result.now ≡ (operator_of self).operands }
    {
        match self {
            Operation::Eqz(t) => one_of(t),
            Operation::Compare(t, _) => two_of(t),
            Operation::Unary(t, _) => one_of(t),
            Operation::Binary(t, _) => two_of(t),
            Operation::WrapI64 => one_of(IntegerType::I64),
            Operation::ExtendI32S => one_of(IntegerType::I32),
            Operation::ExtendI32U => one_of(IntegerType::I32),
            Operation::Extend8S(t) => one_of(t),
            Operation::Extend16S(t) => one_of(t),
            Operation::Extend32S => one_of(IntegerType::I64),
        }
    }

    /// The type of its result.
    pub fn result(self) -> IntegerType
        ensures { result ≡ (operator_of self).result }
    {
        match self {
            Operation::Eqz(_) => IntegerType::I32,
            Operation::Compare(_, _) => IntegerType::I32,
            Operation::Unary(t, _) => t,
            Operation::Binary(t, _) => t,
            Operation::WrapI64 => IntegerType::I32,
            Operation::ExtendI32S => IntegerType::I64,
            Operation::ExtendI32U => IntegerType::I64,
            Operation::Extend8S(t) => t,
            Operation::Extend16S(t) => t,
            Operation::Extend32S => IntegerType::I64,
        }
    }
}
