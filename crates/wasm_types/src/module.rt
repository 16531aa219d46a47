ghost use Rattle.std.specs.Prelude.{◌≡◌, length, option_copied};
ghost use Rattle.wasm_types.specs.Module.{module_of, function_type};

use crate::types::{MemoryType, PrimitiveTypeInfo, TableType, TypeInfo};
use std::alloc::{AllocError, Global};
use std::marker::Model;

/// What is known of the module that a body comes from. A contract sees the lists.
#[derive(Debug, Drop)]
pub struct ModuleInfo<'a> {
    /// The module's bytes, from whose start the offsets of bodies count.
    pub input_wasm: &'a [u8],
    /// The types of the globals.
    pub global_types: Vec<PrimitiveTypeInfo>,
    /// The types that it declares.
    pub types_map: Vec<TypeInfo>,
    /// Of each function the place of its type.
    pub function_map: Vec<u32>,
    /// The tables.
    pub table_types: Vec<TableType>,
    /// The memories.
    pub memory_types: Vec<MemoryType>,
    /// Whether what runs it does what the standard says on the exact rows, on floats, vectors and memories.
    pub exact: bool,
    /// Whether its references all have one type, `Empty`, whatever they refer to, as in modules that are read from bytes: so that
    /// a value of a subtype stands wherever one of the type may.
    pub one_reference: bool,
}

impl<'a> Model for ModuleInfo<'a> {
    ghost use Rattle.wasm_types.specs.Module.{Module};

    ghost Value = { Module };

    ghost view = { λ m. record {
      input = m.input_wasm.now;
      globals = m.global_types.items;
      types = m.types_map.items;
      functions = m.function_map.items;
      tables = m.table_types.items;
      memories = m.memory_types.items;
      exact = m.exact;
      one_reference = m.one_reference;
    } };
}

impl<'a> ModuleInfo<'a> {
    /// A module of which nothing is known but its bytes.
    pub fn new(alloc: Global, input_wasm: &'a [u8]) -> ModuleInfo<'a>
        ensures { result ≡ module_of input_wasm.now }
    {
        ModuleInfo {
            input_wasm,
            global_types: Vec::new(alloc),
            types_map: Vec::new(alloc),
            function_map: Vec::new(alloc),
            table_types: Vec::new(alloc),
            memory_types: Vec::new(alloc),
            exact: false,
            one_reference: false,
        }
    }

    /// The type of the function with this index, or None where the function or its type isn't there.
    pub fn get_functype_idx(&self, idx: u32) -> Option<&TypeInfo>
        ensures { option_copied result ≡ function_type self.now idx }
    {
        let place = self.function_map.get(idx as usize)?;
        self.types_map.get(*place as usize)
    }

    /// How many globals there are.
    pub fn get_global_count(&self) -> usize
        ensures { result ≡ length self.now.globals }
    {
        self.global_types.len()
    }
}

impl<'a> Clone for ModuleInfo<'a> {
    ghost use Rattle.std.specs.Prelude.{◌≡◌};

    ghost is_clone = { λ m n. n ≡ m };

    fn clone(&self) -> Result<ModuleInfo<'a>, AllocError> {
        Ok(ModuleInfo {
            input_wasm: self.input_wasm,
            global_types: self.global_types.clone()?,
            types_map: self.types_map.clone()?,
            function_map: self.function_map.clone()?,
            table_types: self.table_types.clone()?,
            memory_types: self.memory_types.clone()?,
            exact: self.exact,
            one_reference: self.one_reference,
        })
    }
}
