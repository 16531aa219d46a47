//! Where code stands, and what it may name.

use wasm_code::OperatorAndByteOffset;
use wasm_types::{ModuleInfo, PrimitiveTypeInfo};

/// What a function's code may name: the module, and the types of the function's parameters and locals.
#[derive(Clone, Copy)]
pub struct Scope<'a> {
    pub info: &'a ModuleInfo<'a>,
    pub locals: &'a [PrimitiveTypeInfo],
}

/// A body in the bytes of a module: what its code may name, its operators with their offsets, and the bytes.
#[derive(Clone, Copy)]
pub struct Source<'a> {
    pub info: &'a ModuleInfo<'a>,
    pub locals: &'a [PrimitiveTypeInfo],
    pub operators: &'a [OperatorAndByteOffset],
    pub input: &'a [u8],
}
