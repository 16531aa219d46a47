//! Bodies and instructions as texts.

use super::unreadable::Unreadable;
use body_notation::body_of;
use instruction_names::instruction_name;
use std::alloc::{AllocError, Global};
use wasm_code::{Imm, Instr, MemArg, Operator, read_body};

/// Adds an item after those that the text has, and what separates them.
pub fn add_item(text: &mut String, between: &str, item: &str) -> Result<(), AllocError> {
    if !text.is_empty() {
        text.push_str(between)?;
    }
    text.push_str(item)
}

// The number that an immediate is, where it is one.
fn number_of(imm: Imm) -> Option<i128> {
    match imm {
        Imm::Index(index) => Some(index as i128),
        Imm::Lane(lane) => Some(lane as i128),
        Imm::I32(number) => Some(number as i128),
        Imm::I64(number) => Some(number as i128),
        Imm::F32(bits) => Some(bits as i128),
        Imm::F64(bits) => Some(bits as i128),
        Imm::V128(bits) => Some(bits),
        _ => None,
    }
}

// The text of a memory argument: the memory and the offset, where they aren't 0, and the alignment in bytes.
fn argument_text(alloc: Global, argument: MemArg) -> Result<String, AllocError> {
    let mut text = String::new(alloc);
    if argument.memory != 0 {
        write!(text, " {}", argument.memory)?;
    }
    if argument.offset != 0 {
        write!(text, " offset={}", argument.offset)?;
    }
    let alignment = 1u64.checked_shl(argument.align as u32).unwrap_or(0);
    write!(text, " align={alignment}")?;
    Ok(text)
}

/// The text of an instruction, as `body_notation` reads it. The alignment of an access is always written.
pub fn instruction_text(alloc: Global, instr: &Instr) -> Result<String, AllocError> {
    let mut text = String::from_str(alloc, instruction_name(instr.row()))?;
    let imm = instr.imm();
    if let Imm::Mem(argument) = imm {
        text.push_str(&argument_text(alloc, argument)?)?;
    } else if let Some(number) = number_of(imm) {
        write!(text, " {number}")?;
    }
    Ok(text)
}

// The bytes as hexadecimal digits after `0x`.
fn bytes_text(alloc: Global, bytes: &[u8]) -> Result<String, AllocError> {
    let mut text = String::from_str(alloc, "0x")?;
    for byte in bytes {
        write!(text, "{byte:02x}")?;
    }
    Ok(text)
}

// The text of the instructions among the body's operators.
fn instructions_text(alloc: Global, bytes: &[u8]) -> Result<String, Unreadable> {
    let Ok(operators) = read_body(alloc, bytes, 0, bytes.len()) else {
        return Err(Unreadable);
    };
    let mut text = String::new(alloc);
    for (operator, _) in &operators {
        if let Operator::Instr(instr) = operator {
            add_item(&mut text, "; ", &instruction_text(alloc, instr)?)?;
        }
    }
    Ok(text)
}

/// The body without its `end`, as a text; or its bytes, if no text is asked for, or none has these bytes.
pub fn body_text(alloc: Global, bytes: &[u8], is_text: bool) -> Result<String, Unreadable> {
    let text = instructions_text(alloc, bytes)?;
    let stands = match body_of(alloc, &text) {
        Ok(body) => body.bytes() == bytes,
        Err(_) => false,
    };
    if !is_text || !stands {
        return Ok(bytes_text(alloc, bytes)?);
    }
    if text.is_empty() {
        return Ok(String::from_str(alloc, "no code")?);
    }
    Ok(text)
}
