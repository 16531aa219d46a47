//! The modules whose bodies are changed.

use PrimitiveTypeInfo::{Empty, I32, I64};
use std::alloc::{AllocError, Global};
use wasm_types::{FuncInfo, MemoryType, ModuleInfo, PrimitiveTypeInfo, TypeInfo};

/// The locals of the bodies of `module`.
pub(crate) const LOCALS: &[PrimitiveTypeInfo] = &[I32, I64, I32, I32];

/// The same where one is a reference.
pub(crate) const WITH_REFERENCE: &[PrimitiveTypeInfo] = &[I32, I64, Empty];

/// The type of a function.
fn function_type(
    alloc: Global,
    takes: &[PrimitiveTypeInfo],
    gives: &[PrimitiveTypeInfo],
) -> Result<TypeInfo, AllocError> {
    let params = Vec::from_slice(alloc, takes)?;
    let returns = Vec::from_slice(alloc, gives)?;
    Ok(TypeInfo::Func(FuncInfo { params, returns }))
}

/// A module with four globals, two memories, of 32 and of 64 bits, and seven functions. Functions 0 and 2 take and give an i32, by types
/// in two places; 1 and 4 nothing, by one type; 3 takes an i64 and gives an i32; the type of 5 is no function's, and that of 6 isn't
/// there.
pub(crate) fn module(alloc: Global) -> Result<ModuleInfo<'static>, AllocError> {
    let mut info = ModuleInfo::new(alloc, &[]);
    info.one_reference = true;
    info.global_types.extend_from_slice(&[I32, I64, I32, I32])?;
    for memory64 in [false, true] {
        let shared = false;
        info.memory_types.push(MemoryType { memory64, shared })?;
    }
    info.types_map.push(function_type(alloc, &[I32], &[I32])?)?;
    info.types_map.push(function_type(alloc, &[I32], &[I32])?)?;
    info.types_map.push(function_type(alloc, &[], &[])?)?;
    info.types_map.push(TypeInfo::Other)?;
    info.types_map.push(function_type(alloc, &[I64], &[I32])?)?;
    info.function_map.extend_from_slice(&[0, 2, 1, 4, 2, 3, 9])?;
    Ok(info)
}

/// A module with a function that takes an i32 and gives nothing.
pub(crate) fn module_of_one(alloc: Global) -> Result<ModuleInfo<'static>, AllocError> {
    let mut info = ModuleInfo::new(alloc, &[]);
    info.types_map.push(function_type(alloc, &[I32], &[])?)?;
    info.function_map.push(0)?;
    Ok(info)
}
