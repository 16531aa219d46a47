//! What each instruction takes and gives.

use crate::inputs::{Text, field, types_of, unreadable};
use case_files::bytes_of;
use std::alloc::{AllocError, Global};
use wasm_code::{Instr, Operator, read_body};
use wasm_execution::instruction_types;
use wasm_types::{
    ElementType, FuncInfo, MemoryType, ModuleInfo, PrimitiveTypeInfo, TableType, TypeInfo,
};

/// The types of values, and of the locals.
const VALUES: [PrimitiveTypeInfo; 7] = [
    PrimitiveTypeInfo::I32,
    PrimitiveTypeInfo::I64,
    PrimitiveTypeInfo::F32,
    PrimitiveTypeInfo::F64,
    PrimitiveTypeInfo::V128,
    PrimitiveTypeInfo::FuncRef,
    PrimitiveTypeInfo::ExternRef,
];

/// The parameters of each function of the module, and what it returns.
const FUNCTIONS: [(&str, &str); 3] = [("i32 f64 externref", "v128"), ("", ""), ("", "i32 i32")];

/// Answers what the instruction of a body gives on operands of these types; in brackets, on those with each type in turn at one of
/// the places, and without that operand; then with one operand more.
pub fn answer(alloc: Global, fields: &[&str]) -> Text {
    let bytes = bytes_of(alloc, field(fields, 2))?;
    let operands = types_of(alloc, field(fields, 3))?;
    let info = module_of(alloc)?;
    let mut text = String::new(alloc);
    let Ok(operators) = read_body(alloc, &bytes, 0, bytes.len()) else {
        return unreadable(alloc);
    };
    for (operator, _) in operators.iter() {
        if let Operator::Instr(instr) = operator {
            text.push_str(given(&info, instr, &operands))?;
            for place in 0..operands.len() {
                add_others(alloc, &info, instr, &operands, place, &mut text)?;
            }
            let mut more = operands.clone()?;
            more.push(PrimitiveTypeInfo::I32)?;
            text.push(' ')?;
            text.push_str(given(&info, instr, &more))?;
        }
    }
    Ok(text)
}

/// A module with a global of each type, memories and tables that 32 bits index and that 64 bits do, the first table of functions and
/// the second of what lies outside, and functions.
pub fn module_of(alloc: Global) -> Result<ModuleInfo<'static>, AllocError> {
    let mut info = ModuleInfo::new(alloc, b"\0asm");
    info.global_types.extend_from_slice(&VALUES)?;
    for (element_type, is_64) in [(ElementType::Func, false), (ElementType::Extern, true)] {
        info.memory_types.push(MemoryType {
            memory64: is_64,
            shared: false,
        })?;
        info.table_types.push(TableType {
            element_type,
            table64: is_64,
        })?;
    }
    for (params, returns) in FUNCTIONS {
        info.types_map.push(TypeInfo::Func(FuncInfo {
            params: types_of(alloc, params)?,
            returns: types_of(alloc, returns)?,
        }))?;
    }
    info.function_map.extend_from_slice(&[0, 1, 2])?;
    Ok(info)
}

/// What the instruction gives on operands of these types: a type or nothing, or `x` where it doesn't take them.
fn given(info: &ModuleInfo, instr: &Instr, operands: &[PrimitiveTypeInfo]) -> &'static str {
    match instruction_types(info, &VALUES, instr, operands) {
        None => "x",
        Some(None) => "-",
        Some(Some(tpe)) => tpe.name(),
    }
}

/// Adds what it gives with each type at that place, and with none there.
fn add_others(
    alloc: Global,
    info: &ModuleInfo,
    instr: &Instr,
    operands: &[PrimitiveTypeInfo],
    place: usize,
    text: &mut String,
) -> Result<(), AllocError> {
    let mut others = Vec::from_slice(alloc, operands)?;
    text.push_str(" [")?;
    for value in VALUES {
        if let Some(operand) = others.get_mut(place) {
            *operand = value;
        }
        text.push_str(given(info, instr, &others))?;
        text.push(' ')?;
    }
    if place < others.len() {
        others.remove(place);
    }
    text.push_str(given(info, instr, &others))?;
    Ok(text.push(']')?)
}
