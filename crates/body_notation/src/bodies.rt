//! Code and bodies as texts.

use crate::error::NotationError;
use crate::instructions::instr_of;
use std::alloc::Global;
use wasm_code::{Function, Instr};

/// The instructions that the text is; `Unknown` where there isn't one of them.
pub fn code_of(alloc: Global, text: &str) -> Result<Vec<Instr>, NotationError> {
    let mut code = Vec::new(alloc);
    for part in text.split(';') {
        if !part.trim().is_empty() {
            let instr = instr_of(part.trim()).ok_or(NotationError::Unknown)?;
            code.push(instr)?;
        }
    }
    Ok(code)
}

/// The bytes of the body that the text is, with its `end`; `Unknown` where there isn't one of its operators. A block has no type.
pub fn body_of(alloc: Global, text: &str) -> Result<Function, NotationError> {
    let mut body = Function::new(alloc);
    for part in text.split(';') {
        match part.trim() {
            "" => {}
            "block" => body.raw(b"\x02\x40")?,
            "return" => body.raw(b"\x0f")?,
            "end" => body.raw(b"\x0b")?,
            "ref.null func" => body.raw(b"\xd0\x70")?,
            part => {
                let instr = instr_of(part).ok_or(NotationError::Unknown)?;
                body.instruction(&instr)?;
            }
        }
    }
    body.raw(b"\x0b")?;
    Ok(body)
}
