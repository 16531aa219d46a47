//! What the sections of a module list, as values.
use std::marker::Model;
use wasm_lists::{Entry, Import, Known, TypeGroup};
use wasm_types::{MemoryType, PrimitiveTypeInfo, TableType};

/// What is known of the lists of a module's sections; nothing is listed where a section isn't there.
#[derive(Drop)]
pub struct Listed {
    /// The types, in groups.
    pub types: Known<TypeGroup>,
    /// The imports.
    pub imports: Known<Import>,
    /// Of each function of the module's own the index of its type.
    pub functions: Vec<u32>,
    /// The tables of its own.
    pub tables: Known<TableType>,
    /// The memories of its own.
    pub memories: Known<MemoryType>,
    /// The types of the globals of its own.
    pub globals: Known<PrimitiveTypeInfo>,
    /// Where the entries of the code stand.
    pub entries: Vec<Entry>,
}

impl Model for Listed {
    ghost use Rattle.wasm_module.specs.Lists.{Listed};

    ghost Value = { Listed };

    ghost view = { λ l. record {
      types = l.types;
      imports = l.imports;
      functions = l.functions.items;
      tables = l.tables;
      memories = l.memories;
      globals = l.globals;
      entries = l.entries.items;
    } };
}
