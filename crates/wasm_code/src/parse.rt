//! Operators from the front of bytes.
ghost use Rattle.std.specs.Prelude.{◌≡◌, Some, IfSome};
ghost use Rattle.wasm_code.specs.Finding.{row_with};
ghost use Rattle.wasm_code.specs.Operator.{other_operator, cause_of};
ghost use Rattle.wasm_code.specs.declared.other.Other.TheVariants as others;
ghost use Rattle.wasm_code.specs.Reader.{Gives, any_at, next_at, opcode_at, row_form, byte_form, form_of, behind_at, operator_at, IsForm, times_at, unsigned_at, val_type_at, labels_at, first_at, types_at, select_of};

use crate::fault::Cause;
use crate::immediate::{BlockType, Imm, ValType};
use crate::number::u32_of;
use crate::operator::{Instr, Operator};
use crate::other::{Other, other_from};
use crate::reading::{block_type_from, byte_of, instr_of, pair_of, val_type_from};
use crate::table::{Opcode, Row, row_by_opcode};

/// What an opcode begins.
#[derive(Clone, Copy, Debug, PartialEq, Eq)]
pub enum Form {
    /// An instruction of the table: the row's number, and the row.
    Row(u16, Row),
    /// The operator `unreachable`.
    Unreachable,
    /// The operator `block`.
    Block,
    /// The operator `loop`.
    Loop,
    /// The operator `if`.
    If,
    /// The operator `else`.
    Else,
    /// The operator `end`.
    End,
    /// The operator `br`.
    Br,
    /// The operator `br_if`.
    BrIf,
    /// The operator `br_table`.
    BrTable,
    /// The operator `return`.
    Return,
    /// The operator `call_indirect`.
    CallIndirect,
    /// The operator `select` with value types: an instruction where there is one.
    TypedSelect,
}

#[tactic(auto, unfolding(crate::specs::Reader::opcode_at))]
fn opcode_from(bytes: &[u8]) -> Result<(Opcode, &[u8]), Cause>
    ensures { Gives (λ x. (x.0, x.1.now)) result (opcode_at bytes.now) }
{
    let (b, rest) = byte_of(bytes)?;
    if b == 0xfc {
        let (n, rest) = u32_of(rest)?;
        Ok((Opcode::Fc(n), rest))
    } else if b == 0xfd {
        let (n, rest) = u32_of(rest)?;
        Ok((Opcode::Fd(n), rest))
    } else {
        Ok((Opcode::Byte(b), rest))
    }
}

fn row_form_of(op: Opcode) -> Option<Form>
    ensures { result ≡ row_form (row_with op) }
{
    match row_by_opcode(op) {
        Some((number, row)) => Some(Form::Row(number, row)),
        None => None,
    }
}

fn byte_form_of(b: u8) -> Option<Form>
    ensures { result ≡ byte_form b }
{
    match b {
        0x00 => Some(Form::Unreachable),
        0x02 => Some(Form::Block),
        0x03 => Some(Form::Loop),
        0x04 => Some(Form::If),
        0x05 => Some(Form::Else),
        0x0b => Some(Form::End),
        0x0c => Some(Form::Br),
        0x0d => Some(Form::BrIf),
        0x0e => Some(Form::BrTable),
        0x0f => Some(Form::Return),
        0x11 => Some(Form::CallIndirect),
        0x1c => Some(Form::TypedSelect),
        _ => row_form_of(Opcode::Byte(b)),
    }
}

#[tactic(auto, unfolding(crate::specs::Reader::form_of))]
fn form_of(op: Opcode) -> Option<Form>
    ensures gives { result ≡ form_of op }
    ensures in_table { IfSome result IsForm }
{
    match op {
        Opcode::Byte(b) => byte_form_of(b),
        Opcode::Fc(_) => row_form_of(op),
        Opcode::Fd(_) => row_form_of(op),
    }
}

/// What follows so many labels.
fn past_labels(count: u64, bytes: &[u8]) -> Result<&[u8], Cause>
    ensures { Gives (λ x. (tt, x.now)) result (times_at count (unsigned_at 32) bytes.now) }
{
    let mut rest = bytes;
    for _ in 0..count {
        match u32_of(rest) {
            Ok((_, after)) => rest = after,
            Err(e) => return Err(e),
        }
    }
    Ok(rest)
}

/// What follows so many value types.
fn past_types(count: u32, bytes: &[u8]) -> Result<&[u8], Cause>
    ensures { Gives (λ x. (tt, x.now)) result (times_at count val_type_at bytes.now) }
{
    let mut rest = bytes;
    for _ in 0..count {
        match val_type_from(rest) {
            Ok((_, after)) => rest = after,
            Err(e) => return Err(e),
        }
    }
    Ok(rest)
}

/// How many labels stand there besides the last one, and what follows them.
#[tactic(auto, unfolding(crate::specs::Reader::labels_at))]
fn labels_of(bytes: &[u8]) -> Result<(u32, &[u8]), Cause>
    ensures { Gives (λ x. (x.0, x.1.now)) result (labels_at bytes.now) }
{
    let (count, rest) = u32_of(bytes)?;
    let rest = past_labels(count as u64 + 1, rest)?;
    Ok((count, rest))
}

/// The first of so many value types, and what follows them all.
#[tactic(auto, unfolding(crate::specs::Reader::first_at))]
fn first_of(count: u32, bytes: &[u8]) -> Result<(Option<ValType>, &[u8]), Cause>
    ensures { Gives (λ x. (x.0, x.1.now)) result (first_at count bytes.now) }
{
    if count == 0 {
        return Ok((None, bytes));
    }
    let (first, rest) = val_type_from(bytes)?;
    let rest = past_types(count - 1, rest)?;
    Ok((Some(first), rest))
}

/// How many value types stand there, the first of them, and what follows them.
#[tactic(auto, unfolding(crate::specs::Reader::types_at))]
fn types_of(bytes: &[u8]) -> Result<((u32, Option<ValType>), &[u8]), Cause>
    ensures { Gives (λ x. (x.0, x.1.now)) result (types_at bytes.now) }
{
    let (count, rest) = u32_of(bytes)?;
    let (first, rest) = first_of(count, rest)?;
    Ok(((count, first), rest))
}

fn select(count: u32, first: Option<ValType>) -> Operator
    ensures { result ≡ select_of count first }
{
    match first {
        Some(t) if count == 1 => Operator::Instr(Instr::of_row(445, Imm::Val(t))),
        _ => Operator::TypedSelect { count, first },
    }
}

#[tactic(auto, unfolding(crate::specs::Reader::behind_at))]
fn behind(form: Form, bytes: &[u8]) -> Result<(Operator, &[u8]), Cause>
    requires { IsForm form }
    ensures { Gives (λ x. (x.0, x.1.now)) result (behind_at form bytes.now) }
{
    match form {
        Form::Row(number, row) => instr_of(number, row, bytes),
        Form::Unreachable => Ok((Operator::Unreachable, bytes)),
        Form::Block => {
            let (t, rest) = block_type_from(bytes)?;
            Ok((Operator::Block(t), rest))
        }
        Form::Loop => {
            let (t, rest) = block_type_from(bytes)?;
            Ok((Operator::Loop(t), rest))
        }
        Form::If => {
            let (t, rest) = block_type_from(bytes)?;
            Ok((Operator::If(t), rest))
        }
        Form::Else => Ok((Operator::Else, bytes)),
        Form::End => Ok((Operator::End, bytes)),
        Form::Br => {
            let (label, rest) = u32_of(bytes)?;
            Ok((Operator::Br(label), rest))
        }
        Form::BrIf => {
            let (label, rest) = u32_of(bytes)?;
            Ok((Operator::BrIf(label), rest))
        }
        Form::BrTable => {
            let (count, rest) = labels_of(bytes)?;
            Ok((Operator::BrTable(count), rest))
        }
        Form::Return => Ok((Operator::Return, bytes)),
        Form::CallIndirect => {
            let ((type_index, table_index), rest) = pair_of(bytes)?;
            Ok((
                Operator::CallIndirect {
                    type_index,
                    table_index,
                },
                rest,
            ))
        }
        Form::TypedSelect => {
            let ((count, first), rest) = types_of(bytes)?;
            Ok((select(count, first), rest))
        }
    }
}

/// The first operator, and what follows it. Refused as `read_body` refuses at an operator.
#[tactic(auto, unfolding(crate::specs::Reader::operator_at))]
pub fn operator_from(bytes: &[u8]) -> Result<(Operator, &[u8]), Cause>
    ensures { Gives (λ x. (x.0, x.1.now)) result (operator_at bytes.now) }
{
    let (opcode, rest) = opcode_from(bytes)?;
    match form_of(opcode) {
        Some(form) => behind(form, rest),
        None => Err(Cause::UnknownOpcode),
    }
}

fn told(known: Cause, other: Cause) -> Cause
    ensures { result ≡ cause_of known other }
{
    match other {
        Cause::UnknownOpcode => known,
        Cause::Truncated => Cause::Truncated,
        Cause::BadInteger => Cause::BadInteger,
        Cause::BadImmediate => Cause::BadImmediate,
    }
}

fn byte_operator_of(b: u8) -> Operator
    ensures { result ≡ other_operator (others.Byte b) }
{
    match b {
        0x02 => Operator::Block(BlockType::Reference),
        0x03 => Operator::Loop(BlockType::Reference),
        0x04 => Operator::If(BlockType::Reference),
        _ => Operator::Other(Other::Byte(b)),
    }
}

fn operator_of(opcode: Other) -> Operator
    ensures { result ≡ other_operator opcode }
{
    match opcode {
        Other::Byte(b) => byte_operator_of(b),
        Other::Fb(_) => Operator::Other(opcode),
        Other::Fe(_) => Operator::Other(opcode),
    }
}

/// The first operator, known or not, and what follows it.
#[tactic(auto, unfolding(crate::specs::Reader::any_at))]
fn any_operator_from(bytes: &[u8]) -> Result<(Operator, &[u8]), Cause>
    ensures { Gives (λ x. (x.0, x.1.now)) result (any_at bytes.now) }
{
    match operator_from(bytes) {
        Ok((operator, rest)) => Ok((operator, rest)),
        Err(known) => match other_from(bytes) {
            Ok((opcode, rest)) => Ok((operator_of(opcode), rest)),
            Err(cause) => Err(told(known, cause)),
        },
    }
}

/// The first operator, and what follows it: of any operators, or of known ones alone.
pub(crate) fn next_operator(any: bool, bytes: &[u8]) -> Result<(Operator, &[u8]), Cause>
    ensures { Gives (λ x. (x.0, x.1.now)) result (next_at any bytes.now) }
{
    if any {
        any_operator_from(bytes)
    } else {
        operator_from(bytes)
    }
}
