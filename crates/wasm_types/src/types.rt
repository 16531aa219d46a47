ghost use Rattle.std.specs.Prelude.{◌≡◌, ◌≢◌, IfSome, IfNone};
ghost use Rattle.wasm_types.specs.Types.{type_name};
ghost use Rattle.wasm_types.specs.declared.types.PrimitiveTypeInfo.{PrimitiveTypeInfo};

use std::alloc::AllocError;
use std::marker::Model;

/// A value type, or `Empty` for no value. In what is read of a module `Empty` is the type of every reference, whatever it refers to:
/// such a value is passed on, and nothing but what takes a reference accepts it.
#[derive(Clone, Copy, Debug, PartialEq, Eq)]
pub enum PrimitiveTypeInfo {
    I32,
    I64,
    F32,
    F64,
    V128,
    FuncRef,
    ExternRef,
    Empty,
}

impl PrimitiveTypeInfo {
    /// The type's name: `i32`, `i64`, `f32`, `f64`, `v128`, `funcref`, `externref` or `empty`.
    pub fn name(&self) -> &'static str
        ensures { result.now ≡ type_name self.now }
    {
        match self {
            PrimitiveTypeInfo::I32 => "i32",
            PrimitiveTypeInfo::I64 => "i64",
            PrimitiveTypeInfo::F32 => "f32",
            PrimitiveTypeInfo::F64 => "f64",
            PrimitiveTypeInfo::V128 => "v128",
            PrimitiveTypeInfo::FuncRef => "funcref",
            PrimitiveTypeInfo::ExternRef => "externref",
            PrimitiveTypeInfo::Empty => "empty",
        }
    }

    /// The type of this name, or None where no type has it.
    pub fn from_name(name: &str) -> Option<PrimitiveTypeInfo>
        ensures some { IfSome result (λ t. name.now ≡ type_name t) }
        ensures none { IfNone result ((t : PrimitiveTypeInfo) → name.now ≢ type_name t) }
    {
        match name {
            "i32" => Some(PrimitiveTypeInfo::I32),
            "i64" => Some(PrimitiveTypeInfo::I64),
            "f32" => Some(PrimitiveTypeInfo::F32),
            "f64" => Some(PrimitiveTypeInfo::F64),
            "v128" => Some(PrimitiveTypeInfo::V128),
            "funcref" => Some(PrimitiveTypeInfo::FuncRef),
            "externref" => Some(PrimitiveTypeInfo::ExternRef),
            "empty" => Some(PrimitiveTypeInfo::Empty),
            _ => None,
        }
    }
}

/// What the elements of a table refer to.
#[derive(Clone, Copy, Debug, PartialEq, Eq)]
pub enum ElementType {
    Func,
    Extern,
    /// Something else, which may be a function too.
    Other,
}

/// What is known of a table: its elements, and whether 64 bits index them.
#[derive(Clone, Copy, Debug, PartialEq, Eq)]
pub struct TableType {
    pub element_type: ElementType,
    pub table64: bool,
}

/// What is known of a memory: whether 64 bits index it, and whether threads share it.
#[derive(Clone, Copy, Debug, PartialEq, Eq)]
pub struct MemoryType {
    pub memory64: bool,
    pub shared: bool,
}

/// A function's type: what it takes, and what it returns. A contract sees the two lists.
#[derive(Debug, Drop)]
pub struct FuncInfo {
    pub params: Vec<PrimitiveTypeInfo>,
    pub returns: Vec<PrimitiveTypeInfo>,
}

impl Model for FuncInfo {
    ghost use Rattle.wasm_types.specs.Types.{FuncType};

    ghost Value = { FuncType };

    ghost view = { λ f. record { params = f.params.items; returns = f.returns.items } };
}

impl Clone for FuncInfo {
    ghost use Rattle.std.specs.Prelude.{◌≡◌};

    ghost is_clone = { λ f g. g ≡ f };

    fn clone(&self) -> Result<FuncInfo, AllocError> {
        Ok(FuncInfo {
            params: self.params.clone()?,
            returns: self.returns.clone()?,
        })
    }
}

/// A type that a module declares.
#[derive(Debug, Drop)]
pub enum TypeInfo {
    /// A function's.
    Func(FuncInfo),
    /// Another, a structure's or an array's, of which nothing is known.
    Other,
}

impl Clone for TypeInfo {
    ghost use Rattle.std.specs.Prelude.{◌≡◌};

    ghost is_clone = { λ t u. u ≡ t };

    fn clone(&self) -> Result<TypeInfo, AllocError> {
        match self {
            TypeInfo::Func(function) => Ok(TypeInfo::Func(function.clone()?)),
            TypeInfo::Other => Ok(TypeInfo::Other),
        }
    }
}
