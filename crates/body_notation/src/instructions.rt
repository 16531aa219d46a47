//! Instructions as texts.

use instruction_names::instruction_name;
use wasm_code::{Imm, Instr, MemArg, Opcode, ValType, row_of};

// The row of the instruction table that has the name.
fn row_named(name: &str) -> Option<u16> {
    if name == "select.i32" {
        return row_of(Opcode::Byte(0x1c));
    }
    for row in 0..446 {
        if instruction_name(row) == name {
            return Some(row);
        }
    }
    None
}

// Whether it is the name of a load or a store.
fn is_memory(name: &str) -> bool {
    name.contains("load") || name.contains("store")
}

// How many bytes of memory a load or a store of that name touches, as an exponent of two.
fn natural_alignment(name: &str) -> u8 {
    let widths = [
        ("8x8", 3),
        ("16x4", 3),
        ("32x2", 3),
        ("load8", 0),
        ("store8", 0),
        ("load16", 1),
        ("store16", 1),
        ("load32", 2),
        ("store32", 2),
        ("load64", 3),
        ("store64", 3),
        ("v128", 4),
        ("64", 3),
    ];
    for (part, exponent) in widths {
        if name.contains(part) {
            return exponent;
        }
    }
    2
}

// The exponent of two that the number is.
fn exponent_of(number: u64) -> Option<u8> {
    (0..64).find(|exponent| 1 << exponent == number)
}

// The memory argument that the text is: the number of the memory, `offset=` and `align=`, each of which may be left out.
fn argument_of(name: &str, text: &str) -> Option<MemArg> {
    let mut argument = MemArg {
        offset: 0,
        align: natural_alignment(name),
        memory: 0,
    };
    for word in text.split_whitespace() {
        match word.split_once('=') {
            Some(("offset", number)) => argument.offset = number.parse().ok()?,
            Some(("align", number)) => argument.align = exponent_of(number.parse().ok()?)?,
            _ => argument.memory = word.parse().ok()?,
        }
    }
    Some(argument)
}

// The immediate of an access to a lane: the memory argument, and behind it the number of the lane.
fn lane_argument_of(name: &str, text: &str) -> Option<Imm> {
    let (argument, lane) = text.rsplit_once(' ').unwrap_or(("", text));
    Some(Imm::MemLane(argument_of(name, argument)?, lane.parse().ok()?))
}

// The immediate that the text is behind the name.
fn imm_of(name: &str, text: &str) -> Option<Imm> {
    Some(match name {
        "i32.const" => Imm::I32(text.parse().ok()?),
        "i64.const" => Imm::I64(text.parse().ok()?),
        "f32.const" => Imm::F32(text.parse().ok()?),
        "f64.const" => Imm::F64(text.parse().ok()?),
        "v128.const" => Imm::V128(text.parse().ok()?),
        "select.i32" => Imm::Val(ValType::I32),
        _ if is_memory(name) && name.contains("_lane") => lane_argument_of(name, text)?,
        _ if is_memory(name) => Imm::Mem(argument_of(name, text)?),
        _ if name.contains("_lane") => Imm::Lane(text.parse().ok()?),
        _ if text.is_empty() => Imm::Nothing,
        _ => Imm::Index(text.parse().ok()?),
    })
}

/// The instruction that the text is: its name, and its immediate, if it has one.
pub fn instr_of(text: &str) -> Option<Instr> {
    let (name, imm) = text.split_once(' ').unwrap_or((text, ""));
    Instr::new(row_named(name)?, imm_of(name, imm)?)
}
