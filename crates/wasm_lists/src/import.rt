//! What a module imports.
use wasm_types::{MemoryType, PrimitiveTypeInfo, TableType};

/// What a module imports.
#[derive(Clone, Copy, Debug, PartialEq, Eq)]
pub enum Import {
    /// A function, by the index of its type.
    Function(u32),
    /// A table.
    Table(TableType),
    /// A memory.
    Memory(MemoryType),
    /// A global, by the type of its value.
    Global(PrimitiveTypeInfo),
    /// A tag, by the index of its type.
    Tag(u32),
}
