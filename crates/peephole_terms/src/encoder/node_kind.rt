//! The types of numbers, which kinds of nodes without an instruction are of.

ghost use Rattle.std.specs.Prelude.{◌≡◌};

use wasm_types::PrimitiveTypeInfo;

/// A type of numbers (WebAssembly Core Specification 3.0, Structure, Types, Number Types).
#[derive(Clone, Copy)]
pub enum NumberType {
    I32,
    I64,
    F32,
    F64,
}

impl NumberType {
    ghost use Rattle.peephole_terms.specs.NodeKind.{primitive_of};

    /// The type among those of values.
    pub(crate) fn primitive(self) -> PrimitiveTypeInfo
        ensures { result ≡ primitive_of self }
    {
        match self {
            NumberType::I32 => PrimitiveTypeInfo::I32,
            NumberType::I64 => PrimitiveTypeInfo::I64,
            NumberType::F32 => PrimitiveTypeInfo::F32,
            NumberType::F64 => PrimitiveTypeInfo::F64,
        }
    }
}
