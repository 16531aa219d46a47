//! The families of instructions by which the reach of rules is told.
ghost use Rattle.std.specs.Prelude.{◌≡◌, ◌↔◌, Some, IsTrue, is_some};
ghost use Rattle.wasm_execution.specs.IntegerRow.{bare_operator};
ghost use Rattle.module_commands.specs.Families.{byte_family, family_of, has_place, instruction_family, is_float_byte, is_integer_byte, is_within, row_family};

use wasm_code::{Imm, Instr, Operator};
use wasm_execution::{Operation, opcode_byte};

/// A family of instructions.
#[derive(Clone, Copy)]
pub enum Family {
    /// Those whose operands and results are i32 or i64 alone: constants, operators, comparisons and conversions.
    Integers,
    /// Those with an f32 or f64 among their operands and results: constants, operators, comparisons and conversions.
    Floats,
    /// Those on vectors that neither load nor store.
    Vectors,
    /// Loads and stores, of any type.
    Accesses,
}

// Whether the number is one from the first to the last.
fn is_within(number: u16, first: u16, last: u16) -> bool
    ensures { result ≡ is_within first last number }
{
    first <= number && number <= last
}

// Whether the opcode is that of an operator on whole numbers.
fn operates(byte: u8) -> bool
    ensures { result ≡ is_some (bare_operator byte) }
{
    Operation::from_byte(byte).is_some()
}

// Whether the opcode is that of an integer instruction.
fn is_integer_byte(byte: u8) -> bool
    ensures { result ≡ is_integer_byte byte }
{
    match byte {
        0x41 => true,
        0x42 => true,
        _ => operates(byte),
    }
}

// Whether the opcode is one of floats, where it is none of an integer instruction.
fn is_float_byte(byte: u8) -> bool
    ensures { result ≡ is_float_byte byte }
{
    let byte = byte as u16;
    let constant = is_within(byte, 0x43, 0x44);
    let compares = is_within(byte, 0x5B, 0x66);
    let operates = is_within(byte, 0x8B, 0xA6);
    let converts = is_within(byte, 0xA8, 0xBF);
    constant || compares || operates || converts
}

// The family of an instruction whose opcode is this byte.
fn byte_family(byte: u8) -> Option<Family>
    ensures { result ≡ byte_family byte }
{
    if is_integer_byte(byte) {
        return Some(Family::Integers);
    }
    if is_float_byte(byte) {
        return Some(Family::Floats);
    }
    None
}

// The family of an instruction of the row, where its opcode is more than one byte.
fn row_family(row: u16) -> Option<Family>
    ensures { result ≡ row_family row }
{
    if is_within(row, 171, 178) {
        return Some(Family::Floats);
    }
    if is_within(row, 189, 444) {
        return Some(Family::Vectors);
    }
    None
}

// Whether the immediate has a place in a memory.
fn has_place(imm: Imm) -> bool
    ensures { result ≡ has_place imm }
{
    match imm {
        Imm::Mem(_) => true,
        Imm::MemLane(_, _) => true,
        _ => false,
    }
}

// The family of the instruction.
fn instruction_family(instr: &Instr) -> Option<Family>
    ensures { result ≡ instruction_family instr.now }
{
    if has_place(instr.imm()) {
        return Some(Family::Accesses);
    }
    match opcode_byte(instr) {
        Some(byte) => byte_family(byte),
        None => row_family(instr.row()),
    }
}

/// The family of the operator; none where it is of none of them.
pub(crate) fn family_of(operator: &Operator) -> Option<Family>
    ensures { result ≡ family_of operator.now }
{
    match operator {
        Operator::Instr(instr) => instruction_family(instr),
        _ => None,
    }
}

/// Whether there is a family, and it is this one.
pub(crate) fn same_family(found: Option<Family>, family: Family) -> bool
    ensures { IsTrue result ↔ (found ≡ Some family) }
{
    match (found, family) {
        (Some(Family::Integers), Family::Integers) => true,
        (Some(Family::Floats), Family::Floats) => true,
        (Some(Family::Vectors), Family::Vectors) => true,
        (Some(Family::Accesses), Family::Accesses) => true,
        _ => false,
    }
}
