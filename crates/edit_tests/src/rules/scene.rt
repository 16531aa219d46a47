//! Where bodies stand: their modules, and the locals of their functions.

use super::unreadable::Unreadable;
use std::alloc::{AllocError, Global};
use wasm_types::{FuncInfo, MemoryType, ModuleInfo, PrimitiveTypeInfo, TypeInfo};

// The types of the parameters and locals if none are given.
const LOCALS: &str = "i32 i32 i64 i64 f32 f64 v128 f32 f64 v128";

/// A module, and the types of a function's parameters and locals.
#[derive(Drop)]
pub struct Scene {
    pub info: ModuleInfo<'static>,
    pub locals: Vec<PrimitiveTypeInfo>,
}

// A module with globals of i32 and of i64, a memory, and a function that takes an i32 and gives one.
fn module_of(alloc: Global) -> Result<ModuleInfo<'static>, AllocError> {
    let mut info = ModuleInfo::new(alloc, &[]);
    info.global_types.push(PrimitiveTypeInfo::I32)?;
    info.global_types.push(PrimitiveTypeInfo::I64)?;
    info.memory_types.push(MemoryType {
        memory64: false,
        shared: false,
    })?;
    let function = FuncInfo {
        params: vec![in alloc; PrimitiveTypeInfo::I32]?,
        returns: vec![in alloc; PrimitiveTypeInfo::I32]?,
    };
    info.types_map.push(TypeInfo::Func(function))?;
    info.function_map.push(0)?;
    Ok(info)
}

/// The scene that the text names: a module that is marked `exact` or isn't, `plain`, with globals, a memory and a function, and ten
/// locals; or the types of the locals, and a module with nothing, which `exact` before them marks so.
pub fn scene_of(alloc: Global, text: &str) -> Result<Scene, Unreadable> {
    let mut info = ModuleInfo::new(alloc, &[]);
    let mut names = text.strip_prefix("exact ").unwrap_or(text);
    if text == "plain" || text == "exact" {
        info = module_of(alloc)?;
        names = LOCALS;
    }
    info.exact = text.starts_with("exact");
    let mut locals = Vec::new(alloc);
    for name in names.split_whitespace() {
        locals.push(PrimitiveTypeInfo::from_name(name).ok_or(Unreadable)?)?;
    }
    Ok(Scene { info, locals })
}
