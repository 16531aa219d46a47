//! What a module declares, and where its functions' bodies stand.
ghost use Rattle.std.specs.Prelude.{◌≡◌, false, length, IfOk, IfErr, IsOk, OnOk, MatchResult};
ghost use Rattle.wasm_sections.specs.Section.{SpellsModule};
ghost use Rattle.wasm_module.specs.Module.{Layout as Place, IsModule};
ghost use Rattle.wasm_types.specs.Module.{Module as Info};
ghost use Rattle.wasm_module.specs.Lists.{AreListed};
ghost use Rattle.wasm_module.specs.Fault.{IsCodeStart, IsModuleFault};
ghost use Rattle.wasm_sections.specs.declared.fault.ModuleFault.TheVariants.{CodeCount, Memory};

use crate::laws::one_reading;
use crate::layout::{Layout, Module};
use crate::listed::Listed;
use crate::lists::read_lists;
use crate::spaces::{
    function_space, global_count, global_space, memory_space, table_space, type_space, unknown_of,
};
use std::alloc::{AllocError, Global};
use wasm_lists::laws::one_list;
use wasm_sections::{ModuleError, ModuleFault, Section, SectionId, find_section, read_sections};
use wasm_types::ModuleInfo;

/// The start of the code section, or the end of the bytes where there is none.
fn code_start(bytes: &[u8], sections: &[Section]) -> usize
    ensures { IsCodeStart bytes.now sections.now result }
{
    match find_section(sections, SectionId::Code) {
        Some(code) => code.start,
        None => bytes.len(),
    }
}

/// Whether there are as many code entries as functions.
fn check_count(bytes: &[u8], sections: &[Section], listed: &Listed) -> Result<(), ModuleError>
    requires spells { SpellsModule bytes.now sections.now }
    requires listed { AreListed bytes.now sections.now listed.now }
    ensures ok { OnOk result (length listed.now.entries ≡ length listed.now.functions) }
    ensures only { (info : Info) (layout : Place) → IsModule bytes.now info layout
        → layout.sections ≡ sections.now → IsOk result }
    ensures fault { IfErr result (λ e. IsModuleFault bytes.now e.kind e.offset) }
{
    one_list();
    if listed.entries.len() == listed.functions.len() {
        Ok(())
    } else {
        Err(ModuleError {
            kind: ModuleFault::CodeCount,
            offset: code_start(bytes, sections),
        })
    }
}

/// The module that lists these; in each index space what is imported comes first.
fn module_of<'a>(
    alloc: Global,
    bytes: &'a [u8],
    sections: Vec<Section>,
    listed: Listed,
    exact: bool,
) -> Result<Module<'a>, AllocError>
    requires spells { SpellsModule bytes.now sections.items }
    requires listed { AreListed bytes.now sections.items listed }
    requires count { length listed.entries ≡ length listed.functions }
    ensures is { IfOk result (λ m. IsModule bytes.now m.info m.layout) }
    ensures marked { IfOk result (λ m. m.info.exact ≡ exact) }
{
    let (function_map, imported_functions) = function_space(alloc, &listed)?;
    let table_types = table_space(alloc, &listed)?;
    let memory_types = memory_space(alloc, &listed)?;
    let global_types = global_space(alloc, &listed)?;
    let own_globals = global_count(&listed);
    let unknown = unknown_of(&listed);
    let types_map = type_space(alloc, listed.types.into_items())?;
    Ok(Module {
        info: ModuleInfo {
            input_wasm: bytes,
            global_types,
            types_map,
            function_map,
            table_types,
            memory_types,
            exact,
            one_reference: true,
        },
        layout: Layout {
            sections,
            imported_functions,
            own_globals,
            entries: listed.entries,
            unknown,
        },
    })
}

/// Reads what a module declares and where its functions' bodies stand (WebAssembly Core Specification 3.0, Binary Format,
/// Modules).
///
/// It accepts exactly modules of which these are known: the sections are told apart by `read_sections`; those of types, imports,
/// functions, tables, memories, globals and code are read, each as its items in `wasm_lists` say; and there are as many code
/// entries as functions of the module's own. The contents of the other sections and the bodies aren't read, and whether the module is
/// valid isn't asked.
///
/// Types are numbered across their groups; structures and arrays are `TypeInfo::Other`. What references refer to isn't kept: each is
/// `Empty` as the type of a value, and `ElementType::Other` as what a table holds, and the module's `one_reference` says so.
///
/// A group of types, an import, a table, a memory or a global of a form that isn't known here is no error: what its section lists from
/// there on isn't known, and the layout's `unknown` says so.
///
/// Bytes don't say whether what runs the module is exact: `exact` is false, and `read_marked` sets it.
///
/// An error names a fault that is there: as `read_sections` refuses the bytes; as `wasm_lists` refuses one of those lists; or
/// `CodeCount` where the numbers differ, at the start of the code section, or at the end of the bytes where there is none. `Memory`
/// where no memory was left.
pub fn read_module<'a>(alloc: Global, bytes: &'a [u8]) -> Result<Module<'a>, ModuleError>
    // What is read is declared so.
    ensures read { IfOk result (λ m. IsModule bytes.now m.info m.layout) }
    // It isn't said that what runs it is exact.
    ensures unmarked { IfOk result (λ m. m.info.exact ≡ false) }
    // What is declared so is read, unless memory runs out.
    ensures only { (info : Info) (layout : Place) → IsModule bytes.now info layout
        → info.exact ≡ false → MatchResult result (λ m. (m.info ≡ info) × (m.layout ≡ layout))
        (λ e. e.kind ≡ Memory) }
    // What doesn't come from memory is a fault of the bytes.
    ensures fault { IfErr result (λ e. IsModuleFault bytes.now e.kind e.offset) }
{
    read_marked(alloc, bytes, false)
}

/// Reads a module as `read_module` does, what runs which is exact or not, as the mark says.
pub fn read_marked<'a>(
    alloc: Global,
    bytes: &'a [u8],
    exact: bool,
) -> Result<Module<'a>, ModuleError>
    ensures read { IfOk result (λ m. IsModule bytes.now m.info m.layout) }
    ensures marked { IfOk result (λ m. m.info.exact ≡ exact) }
    ensures only { (info : Info) (layout : Place) → IsModule bytes.now info layout
        → info.exact ≡ exact → MatchResult result (λ m. (m.info ≡ info) × (m.layout ≡ layout))
        (λ e. e.kind ≡ Memory) }
    ensures fault { IfErr result (λ e. IsModuleFault bytes.now e.kind e.offset) }
{
    one_reading();
    let sections = read_sections(alloc, bytes)?;
    let listed = read_lists(alloc, bytes, &sections)?;
    check_count(bytes, &sections, &listed)?;
    match module_of(alloc, bytes, sections, listed, exact) {
        Ok(module) => Ok(module),
        Err(_) => Err(ModuleError {
            kind: ModuleFault::Memory,
            offset: 0,
        }),
    }
}
