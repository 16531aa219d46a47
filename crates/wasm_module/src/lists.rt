//! What the sections of a module list.
ghost use Rattle.std.specs.Prelude.{◌≡◌, ℕ, List, IfOk, IfErr};
ghost use Rattle.wasm_code.specs.Number.{SpellsUnsigned};
ghost use Rattle.wasm_sections.specs.Section.{SpellsModule};
ghost use Rattle.wasm_sections.specs.declared.id.SectionId.TheVariants as ids;
ghost use Rattle.wasm_sections.specs.declared.fault.ModuleFault.{ModuleFault};
ghost use Rattle.wasm_sections.specs.declared.fault.ModuleFault.TheVariants.{Memory};
ghost use Rattle.wasm_lists.specs.Known.{Known as Knowledge, IsKnownFault};
ghost use Rattle.wasm_lists.specs.List.{SpellsList};
ghost use Rattle.wasm_lists.specs.Entries.{SpellsEntries};
ghost use Rattle.wasm_lists.specs.declared.entries.Entry.{Entry};
ghost use Rattle.wasm_module.specs.Module.{Lists, Knows};
ghost use Rattle.wasm_module.specs.Lists.{Listed as Listing, AreListed};
ghost use Rattle.wasm_module.specs.Fault.{IsSectionFaultOf, HasFault, HasListFault};

use crate::contents::contents_with;
use crate::listed::Listed;
use std::alloc::Global;
use wasm_lists::{
    Entry, Globals, Imports, Indices, Item, Known, Memories, Tables, TypeGroups, read_entries,
    read_known, read_list,
};
use wasm_sections::{ModuleError, Section, SectionId};

/// What is known of the list in the section with the id; nothing is listed where there is none.
fn list_in<T: Item>(
    alloc: Global,
    bytes: &[u8],
    sections: &[Section],
    id: SectionId,
) -> Result<Known<T::Value>, ModuleError>
    requires sections { SpellsModule bytes.now sections.now }
    requires faults { (start : ℕ) (text : List ℕ) (kind : ModuleFault) (offset : ℕ)
        → IsKnownFault T.Spells T.Fails start text kind offset
        → IsSectionFaultOf id start text kind offset }
    ensures found { IfOk result (Knows T.Spells T.Fails bytes.now sections.now id) }
    ensures only { (known : Knowledge T.Value)
        → Knows T.Spells T.Fails bytes.now sections.now id known
        → IfErr result (λ e. e.kind ≡ Memory) }
    ensures fault { IfErr result (λ e. HasFault bytes.now sections.now id e.kind e.offset) }
{
    match contents_with(bytes, sections, id) {
        Some((contents, start)) => read_known::<T>(alloc, contents, start),
        None => Ok(Known::none(alloc)),
    }
}

/// Of each function of the module's own the index of its type.
fn functions_in(alloc: Global, bytes: &[u8], sections: &[Section]) -> Result<Vec<u32>, ModuleError>
    requires { SpellsModule bytes.now sections.now }
    ensures found { IfOk result (λ v. Lists (λ _. SpellsList (SpellsUnsigned 32))
        bytes.now sections.now ids.Function v.items) }
    ensures only { (xs : List ℕ)
        → Lists (λ _. SpellsList (SpellsUnsigned 32)) bytes.now sections.now ids.Function xs
        → IfErr result (λ e. e.kind ≡ Memory) }
    ensures fault { IfErr result (λ e.
        HasFault bytes.now sections.now ids.Function e.kind e.offset) }
{
    match contents_with(bytes, sections, SectionId::Function) {
        Some((contents, start)) => read_list::<Indices>(alloc, contents, start),
        None => Ok(Vec::new(alloc)),
    }
}

/// The entries of the code.
fn entries_in(alloc: Global, bytes: &[u8], sections: &[Section]) -> Result<Vec<Entry>, ModuleError>
    requires { SpellsModule bytes.now sections.now }
    ensures found { IfOk result (λ v. Lists SpellsEntries
        bytes.now sections.now ids.Code v.items) }
    ensures only { (xs : List Entry) → Lists SpellsEntries bytes.now sections.now ids.Code xs
        → IfErr result (λ e. e.kind ≡ Memory) }
    ensures fault { IfErr result (λ e.
        HasFault bytes.now sections.now ids.Code e.kind e.offset) }
{
    match contents_with(bytes, sections, SectionId::Code) {
        Some((contents, start)) => read_entries(alloc, contents, start),
        None => Ok(Vec::new(alloc)),
    }
}

/// What the sections of the module list.
pub fn read_lists(alloc: Global, bytes: &[u8], sections: &[Section]) -> Result<Listed, ModuleError>
    requires { SpellsModule bytes.now sections.now }
    ensures found { IfOk result (λ l. AreListed bytes.now sections.now l) }
    ensures only { (listed : Listing) → AreListed bytes.now sections.now listed
        → IfErr result (λ e. e.kind ≡ Memory) }
    ensures fault { IfErr result (λ e. HasListFault bytes.now e.kind e.offset) }
{
    Ok(Listed {
        types: list_in::<TypeGroups>(alloc, bytes, sections, SectionId::Type)?,
        imports: list_in::<Imports>(alloc, bytes, sections, SectionId::Import)?,
        functions: functions_in(alloc, bytes, sections)?,
        tables: list_in::<Tables>(alloc, bytes, sections, SectionId::Table)?,
        memories: list_in::<Memories>(alloc, bytes, sections, SectionId::Memory)?,
        globals: list_in::<Globals>(alloc, bytes, sections, SectionId::Global)?,
        entries: entries_in(alloc, bytes, sections)?,
    })
}
