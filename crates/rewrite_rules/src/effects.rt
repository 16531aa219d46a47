//! What an instruction may do besides leaving values.
ghost use Rattle.std.specs.Prelude.{◌≡◌};
ghost use Rattle.wasm_execution.specs.Row.{instruction_byte};
ghost use Rattle.wasm_execution.specs.IntegerRow.{integer_row};
ghost use Rattle.rewrite_rules.specs.Code.{row_writes, row_traps, operation_traps, operation_by, any_traps, instruction_traps};

use wasm_code::{Imm, Instr};
use wasm_execution::{Binary, Operation, Row, changes, integer_row, may_trap, opcode_byte};

/// Whether an instruction may write a local or a global, or change anything else.
pub fn writes(instr: &Instr) -> bool
    ensures { result ≡ row_writes (integer_row instr.now) }
{
    match integer_row(instr) {
        Row::Set(_) | Row::Tee(_) => true,
        Row::Other => changes(instr),
        _ => false,
    }
}

// Whether the operator has no value on some numbers.
fn operation_traps(operation: Operation) -> bool
    ensures { result ≡ operation_traps operation }
{
    match operation {
        Operation::Binary(_, Binary::DivS | Binary::DivU | Binary::RemS | Binary::RemU) => true,
        _ => false,
    }
}

// The operator on whole numbers that the instruction is, where it is one without an immediate.
fn operation_of(instr: &Instr) -> Option<Operation>
    ensures { result ≡ operation_by instr.now.imm (instruction_byte instr.now) }
{
    match instr.imm() {
        Imm::Nothing => Operation::from_byte(opcode_byte(instr)?),
        _ => None,
    }
}

// Whether an instruction that is no integer row may trap.
fn other_traps(instr: &Instr) -> bool
    ensures { result ≡ row_traps (integer_row instr.now) }
{
    match integer_row(instr) {
        Row::Other => may_trap(instr),
        _ => false,
    }
}

/// Whether an instruction may trap.
pub fn traps(instr: &Instr) -> bool
    ensures { result ≡ instruction_traps instr.now }
{
    let divides = match operation_of(instr) {
        Some(operation) => operation_traps(operation),
        None => false,
    };
    divides || other_traps(instr)
}
