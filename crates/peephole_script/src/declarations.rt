//! What lines say of the module that the body comes from.

ghost use Rattle.peephole_script.specs.Text.{texts};
ghost use Rattle.peephole_script.specs.Declarations.{with_global, with_memory, with_table, with_type, with_declared_function, with_declaration, Declares};

use crate::arguments::{element_of, is_64, parts_of, type_of, types_of};
use crate::fault::Fault;
use crate::text::number_of;
use std::alloc::Global;
use wasm_types::{FuncInfo, MemoryType, ModuleInfo, TableType, TypeInfo};

/// What a line adds to the module.
#[derive(Clone, Copy, Debug, PartialEq, Eq)]
pub enum Declaration {
    /// A global of a type.
    Global,
    /// A memory with indexes of 32 or 64 bits.
    Memory,
    /// A table of functions or of outer references, with indexes of 32 or 64 bits.
    Table,
    /// The type of functions with some parameters and results.
    Type,
    /// A function of a type that is there.
    Function,
}

/// Adds to the module what the words say; `BadArgument` where they say nothing of the kind, `Memory` for want of memory, and
/// the module is then as it was.
pub fn declare(
    alloc: Global,
    info: &mut ModuleInfo,
    declaration: Declaration,
    words: &[&str],
) -> Result<(), Fault>
    ensures { Declares (with_declaration declaration info.old (texts words.now)) info.old info.new
        result }
{
    match declaration {
        Declaration::Global => add_global(info, words),
        Declaration::Memory => add_memory(info, words),
        Declaration::Table => add_table(info, words),
        Declaration::Type => add_type(alloc, info, words),
        Declaration::Function => add_function(info, words),
    }
}

fn add_global(info: &mut ModuleInfo, words: &[&str]) -> Result<(), Fault>
    ensures { Declares (with_global info.old (texts words.now)) info.old info.new result }
{
    let [name] = words else {
        return Err(Fault::BadArgument);
    };
    let Some(value) = type_of(name) else {
        return Err(Fault::BadArgument);
    };
    info.global_types.push(value)?;
    Ok(())
}

fn add_memory(info: &mut ModuleInfo, words: &[&str]) -> Result<(), Fault>
    ensures { Declares (with_memory info.old (texts words.now)) info.old info.new result }
{
    let [bits] = words else {
        return Err(Fault::BadArgument);
    };
    let Some(memory64) = is_64(bits) else {
        return Err(Fault::BadArgument);
    };
    info.memory_types.push(MemoryType {
        memory64,
        shared: false,
    })?;
    Ok(())
}

fn add_table(info: &mut ModuleInfo, words: &[&str]) -> Result<(), Fault>
    ensures { Declares (with_table info.old (texts words.now)) info.old info.new result }
{
    let [element, bits] = words else {
        return Err(Fault::BadArgument);
    };
    let (Some(element_type), Some(table64)) = (element_of(element), is_64(bits)) else {
        return Err(Fault::BadArgument);
    };
    info.table_types.push(TableType {
        element_type,
        table64,
    })?;
    Ok(())
}

fn add_type(alloc: Global, info: &mut ModuleInfo, words: &[&str]) -> Result<(), Fault>
    ensures { Declares (with_type info.old (texts words.now)) info.old info.new result }
{
    let Some((params, returns)) = parts_of(words) else {
        return Err(Fault::BadArgument);
    };
    let params = types_of(alloc, params)?;
    let returns = types_of(alloc, returns)?;
    info.types_map
        .push(TypeInfo::Func(FuncInfo { params, returns }))?;
    Ok(())
}

fn add_function(info: &mut ModuleInfo, words: &[&str]) -> Result<(), Fault>
    ensures { Declares (with_declared_function info.old (texts words.now)) info.old info.new
        result }
{
    let [word] = words else {
        return Err(Fault::BadArgument);
    };
    let Some(number) = number_of(word) else {
        return Err(Fault::BadArgument);
    };
    if number >= info.types_map.len() as u64 || number > u64::from(u32::MAX) {
        return Err(Fault::BadArgument);
    }
    info.function_map.push(number as u32)?;
    Ok(())
}
