//! A plain machine: it runs instructions on i32 and i64, some of those on floats and on a memory, and calls of one function outside.
//! Operands and results have the types that `instruction_types` gives; what is computed is here and in `numbers`, by opcodes
//! alone, as in the WebAssembly Core Specification 3.0, Execution, Instructions.

use crate::graphs::operators_of;
use crate::numbers::computed;
use crate::parts::{Refusal, bytes_in, field_of, info_with, number_in};
use peephole_terms::wasm_execution::{instruction_types, opcode_byte, operand_count};
use peephole_terms::{Imm, Instr, ModuleInfo, Operator, PrimitiveTypeInfo};
use std::alloc::Global;
use std::fmt::Write;

// A value: its type and its bits.
#[derive(Clone, Copy)]
struct Value {
    tpe: PrimitiveTypeInfo,
    bits: u64,
}

// The module, the stack, whose top is last, the types and values of variables, a memory, and the sum of what the function
// outside was called on.
#[derive(Drop)]
struct Machine<'a> {
    info: ModuleInfo<'a>,
    stack: Vec<Value>,
    local_types: Vec<PrimitiveTypeInfo>,
    locals: Vec<u64>,
    globals: Vec<u64>,
    memory: Vec<u8>,
    sum: u64,
}

// The variable of this number, after it is set to a number if there is one.
fn variable(variables: &mut [u64], imm: Imm, set: Option<u64>) -> Result<u64, &'static str> {
    let Imm::Index(index) = imm else {
        return Err("Stuck");
    };
    match variables.get_mut(index as usize) {
        Some(variable) => {
            *variable = set.unwrap_or(*variable);
            Ok(*variable)
        }
        None => Err("Stuck"),
    }
}

// The bits of a constant.
fn constant(imm: Imm) -> Result<u64, &'static str> {
    match imm {
        Imm::I32(number) => Ok(u64::from(number.cast_unsigned())),
        Imm::I64(number) => Ok(number.cast_unsigned()),
        Imm::F32(bits) => Ok(u64::from(bits)),
        _ => Err("Stuck"),
    }
}

// The number that so many bytes of a memory are, the lowest one first, after they are set to those of a number if there is one.
fn access(
    memory: &mut [u8],
    place: u64,
    count: u64,
    set: Option<u64>,
) -> Result<u64, &'static str> {
    if (memory.len() as u64) < place.saturating_add(count) {
        return Err("OutOfBounds");
    }
    let mut number = 0u64;
    for at in 0..count {
        let shift = (at % 8) as u32 * 8;
        let Some(byte) = memory.get_mut(place.saturating_add(at) as usize) else {
            return Err("OutOfBounds");
        };
        if let Some(value) = set {
            *byte = (value.wrapping_shr(shift) & 0xff) as u8;
        }
        number |= u64::from(*byte).wrapping_shl(shift);
    }
    Ok(number)
}

// How many bytes an instruction loads or stores, or none that the machine knows.
fn byte_count(opcode: u8) -> Option<u64> {
    match opcode {
        0x28 | 0x2a | 0x36 | 0x38 => Some(4), // i32.load, f32.load, i32.store, f32.store
        0x29 | 0x37 => Some(8), // i64.load, i64.store
        0x2d | 0x3a => Some(1), // i32.load8_u, i32.store8
        _ => None,
    }
}

impl Machine<'_> {
    // Runs the instructions one after another, up to one that traps or that the machine doesn't know.
    fn run(&mut self, code: &[Instr]) -> Result<(), &'static str> {
        for instr in code {
            self.step(instr)?;
        }
        Ok(())
    }

    fn step(&mut self, instr: &Instr) -> Result<(), &'static str> {
        let count = operand_count(&self.info, instr);
        let mut types = [PrimitiveTypeInfo::Empty; 3];
        let mut bits = [0u64; 3];
        if count > 3 {
            return Err("Stuck");
        }
        for above in 0..count {
            let Some(value) = self.stack.pop() else {
                return Err("Stuck");
            };
            types[count - 1 - above] = value.tpe;
            bits[count - 1 - above] = value.bits;
        }
        let Some(given) = instruction_types(&self.info, &self.local_types, instr, &types[..count])
        else {
            return Err("Stuck");
        };
        let number = self.effect(instr, bits)?;
        match given {
            _ if types[0] == PrimitiveTypeInfo::V128 => Err("Stuck"),
            None => Ok(()),
            Some(tpe) => self.push(tpe, number),
        }
    }

    // Pushes a value of a type that the machine knows.
    fn push(&mut self, tpe: PrimitiveTypeInfo, number: u64) -> Result<(), &'static str> {
        let bits = match tpe {
            PrimitiveTypeInfo::I32 | PrimitiveTypeInfo::F32 => number & 0xffff_ffff,
            PrimitiveTypeInfo::I64 | PrimitiveTypeInfo::F64 => number,
            _ => return Err("Stuck"),
        };
        match self.stack.push(Value { tpe, bits }) {
            Ok(()) => Ok(()),
            Err(_) => Err("Memory"),
        }
    }

    // What an instruction does to variables and memory, and the number that it gives, or any where it gives none.
    fn effect(&mut self, instr: &Instr, [a, b, c]: [u64; 3]) -> Result<u64, &'static str> {
        let Some(opcode) = opcode_byte(instr) else {
            return Err("Stuck");
        };
        match opcode {
            0x01 | 0x1a => Ok(0), // nop, drop
            0x10 => {
                // call
                self.sum = self.sum.wrapping_add(a);
                Ok(self.sum)
            }
            0x1b | 0x1c => Ok(if c == 0 { b } else { a }), // select
            0x20 => variable(&mut self.locals, instr.imm(), None), // local.get
            0x21 | 0x22 => variable(&mut self.locals, instr.imm(), Some(a)), // local.set, local.tee
            0x23 => variable(&mut self.globals, instr.imm(), None), // global.get
            0x24 => variable(&mut self.globals, instr.imm(), Some(a)), // global.set
            0x3f => Ok(1), // memory.size, in pages: it has one
            0x41..=0x43 => constant(instr.imm()), // i32.const, i64.const, f32.const
            _ => match (byte_count(opcode), instr.imm()) {
                (Some(count), Imm::Mem(arg)) => {
                    let stored = (opcode >= 0x36).then_some(b);
                    access(
                        &mut self.memory,
                        a.saturating_add(arg.offset),
                        count,
                        stored,
                    )
                }
                _ => computed(opcode, a, b),
            },
        }
    }
}

// The values in the field of this name, `i32:7 i64:ff`: their types, and their bits in hexadecimal digits.
fn values_in(alloc: Global, case: &str, name: &str) -> Result<Vec<Value>, Refusal> {
    let mut values = Vec::new(alloc);
    for word in field_of(case, name).split_whitespace() {
        let (name, digits) = word.split_once(':').ok_or(Refusal::Unreadable)?;
        let tpe = PrimitiveTypeInfo::from_name(name).ok_or(Refusal::Unreadable)?;
        let bits = u64::from_str_radix(digits, 16)
            .ok()
            .ok_or(Refusal::Unreadable)?;
        values.push(Value { tpe, bits })?;
    }
    Ok(values)
}

// A machine with the stack and the variables of a case. Each of the 64 bytes of its memory is its place.
fn machine_of(alloc: Global, case: &str) -> Result<Machine<'static>, Refusal> {
    let locals = values_in(alloc, case, "locals")?;
    let globals = values_in(alloc, case, "globals")?;
    let one = [PrimitiveTypeInfo::I32];
    let mut info = info_with(alloc, &one, &one, false)?;
    info.global_types = globals.iter().map(|value| value.tpe).collect(alloc)?;
    Ok(Machine {
        info,
        stack: values_in(alloc, case, "stack")?,
        local_types: locals.iter().map(|value| value.tpe).collect(alloc)?,
        locals: locals.iter().map(|value| value.bits).collect(alloc)?,
        globals: globals.iter().map(|value| value.bits).collect(alloc)?,
        memory: (0..64u8).collect(alloc)?,
        sum: 0,
    })
}

// The instructions of a body, up to the operator `end` where the case names one.
fn code_of(alloc: Global, case: &str) -> Result<Vec<Instr>, Refusal> {
    let bytes = bytes_in(alloc, case, "body")?;
    let end = number_in(case, "end").unwrap_or(u32::MAX) as usize;
    let mut code = Vec::new(alloc);
    for (number, (operator, _)) in operators_of(alloc, &bytes)?.iter().enumerate() {
        match operator {
            Operator::Instr(instr) if number <= end => code.push(*instr)?,
            _ => {}
        }
    }
    Ok(code)
}

/// What a run leaves on the stack, or why it stops before its end, and where the call is `change` then the variables.
pub fn answered(alloc: Global, call: &str, case: &str) -> Result<String, Refusal> {
    let mut machine = machine_of(alloc, case)?;
    let code = code_of(alloc, case)?;
    let mut text = String::new(alloc);
    match machine.run(&code) {
        Ok(()) => {
            text.push_str("leaves")?;
            for value in &machine.stack {
                let (name, bits) = (value.tpe.name(), value.bits);
                write!(text, " {name}:{bits:x}")?;
            }
        }
        Err(stop) => text.push_str(stop)?,
    }
    if call == "change" {
        let (locals, globals) = (machine.locals.as_slice(), machine.globals.as_slice());
        write!(text, ", locals {locals:?}, globals {globals:?}")?;
    }
    Ok(text)
}
