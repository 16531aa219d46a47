//! The operands of operators without an immediate. What is said here is only tried: `choose` asks the instruction's own types.

use crate::goal::Operands;
use wasm_code::Instr;
use wasm_execution::{OperandColumn, OperandKind, Row, integer_row, operand_column};
use wasm_types::PrimitiveTypeInfo;

fn operands_from(types: &[PrimitiveTypeInfo]) -> Option<Operands> {
    match types {
        [] => Some(Operands::Zero),
        [a] => Some(Operands::One(*a)),
        [a, b] => Some(Operands::Two(*a, *b)),
        [a, b, c] => Some(Operands::Three(*a, *b, *c)),
        _ => None,
    }
}

fn type_by(kind: OperandKind) -> Option<PrimitiveTypeInfo> {
    match kind {
        OperandKind::Of(t) => Some(t),
        _ => None,
    }
}

fn two_by(a: OperandKind, b: OperandKind) -> Option<Operands> {
    let first = type_by(a)?;
    let second = type_by(b)?;
    Some(Operands::Two(first, second))
}

fn three_by(a: OperandKind, b: OperandKind, c: OperandKind) -> Option<Operands> {
    let first = type_by(a)?;
    let second = type_by(b)?;
    let third = type_by(c)?;
    Some(Operands::Three(first, second, third))
}

fn operands_by(column: OperandColumn) -> Option<Operands> {
    match column {
        OperandColumn::One(a) => Some(Operands::One(type_by(a)?)),
        OperandColumn::Two(a, b) => two_by(a, b),
        OperandColumn::Three(a, b, c) => three_by(a, b, c),
        _ => None,
    }
}

/// The types of its operands for a value of that type, where the instruction's row alone decides them, or it is a select.
pub(crate) fn operands_of(instr: &Instr, wanted: PrimitiveTypeInfo) -> Option<Operands> {
    match integer_row(instr) {
        Row::Operation(operation) => operands_from(operation.operands()),
        Row::Select => Some(Operands::Three(wanted, wanted, PrimitiveTypeInfo::I32)),
        Row::Other => operands_by(operand_column(instr.row())),
        _ => None,
    }
}
