//! Bytes and operators, and the rows of the table.

use crate::inputs::{Text, field, unreadable};
use case_files::bytes_of;
use hex::encode;
use std::alloc::Global;
use wasm_code::{Function, Instr, Opcode, Operator, read_body, read_code, row_info, row_of};

/// Answers calls on bytes from an offset on, on an opcode and on a row.
pub fn answer(alloc: Global, fields: &[&str]) -> Text {
    let (call, first, second) = (field(fields, 0), field(fields, 1), field(fields, 2));
    match call {
        "row_of" => row(alloc, first, second),
        "row_info" => match first.parse::<u16>() {
            Ok(row) => format!(in alloc; "{:?}", row_info(row)),
            Err(_) => unreadable(alloc),
        },
        "written" => written(alloc, &bytes_of(alloc, first)?, second.parse().ok()),
        _ => match second.parse::<usize>() {
            Ok(from) => read(alloc, call, &bytes_of(alloc, first)?, from),
            Err(_) => unreadable(alloc),
        },
    }
}

/// The row of an opcode: its one byte, or the number after its first byte.
fn row(alloc: Global, first: &str, number: &str) -> Text {
    let Ok(number) = number.parse::<u32>() else {
        return unreadable(alloc);
    };
    let opcode = match first {
        "fc" => Opcode::Fc(number),
        "fd" => Opcode::Fd(number),
        _ => Opcode::Byte(u8::try_from(number).unwrap_or(0)),
    };
    format!(in alloc; "{:?}", row_of(opcode))
}

/// The operators from there on, or their fault.
fn read(alloc: Global, call: &str, bytes: &[u8], from: usize) -> Text {
    let to = bytes.len();
    if from > to {
        return unreadable(alloc);
    }
    let found = match call {
        "read_body" => read_body(alloc, bytes, from, to),
        "read_code" => read_code(alloc, bytes, from, to),
        _ => return unreadable(alloc),
    };
    match found {
        Ok(operators) => format!(in alloc; "{operators:?}"),
        Err(error) => format!(in alloc; "{error} at {}", error.offset),
    }
}

/// The instructions of a body, made anew of their rows and immediates and written, and `end`; of these bytes so many, where that is
/// said; and how many delimiters were read.
fn written(alloc: Global, bytes: &[u8], kept: Option<usize>) -> Text {
    let operators = match read_body(alloc, bytes, 0, bytes.len()) {
        Ok(operators) => operators,
        Err(error) => return format!(in alloc; "{error}"),
    };
    let mut sink = Function::new(alloc);
    let mut delimiters = 0usize;
    for (operator, _) in operators.iter() {
        if operator.is_delimiter() {
            delimiters = delimiters.saturating_add(1);
        }
        if let Operator::Instr(read) = operator {
            let Some(instr) = Instr::new(read.row(), read.imm()) else {
                return format!(in alloc; "no instruction");
            };
            if sink.instruction(&instr).is_err() {
                return format!(in alloc; "Memory");
            }
        }
    }
    if sink.raw(&[0x0b]).is_err() {
        return format!(in alloc; "Memory");
    }
    if let Some(kept) = kept {
        sink.truncate(kept.min(sink.len()));
    }
    let digits = encode(alloc, sink.bytes())?;
    format!(in alloc; "{digits} ({} bytes, {delimiters} delimiter)", sink.len())
}
