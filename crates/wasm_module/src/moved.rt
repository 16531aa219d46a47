//! A module with another body, read again: what was read of the module before it is moved along.
ghost use Rattle.std.specs.Prelude.{◌≡◌, ◌≤◌, ◌<◌, ◌+◌, ◌++◌, [], ◌∷◌, ℕ, List, All, length, map, slice_range, IfOk, IfErr};
ghost use Rattle.wasm_code.specs.Number.{SpellsUnsigned};
ghost use Rattle.wasm_types.specs.Module.{Module as Info};
ghost use Rattle.wasm_sections.specs.declared.fault.ModuleFault.TheVariants.{Memory};
ghost use Rattle.wasm_sections.specs.declared.id.SectionId.TheVariants as ids;
ghost use Rattle.wasm_sections.specs.declared.section.Section.{Section as Span};
ghost use Rattle.wasm_sections.specs.Find.{IsFirstWith};
ghost use Rattle.wasm_lists.specs.declared.entries.Entry.{Entry as Place};
ghost use Rattle.wasm_module.specs.Module.{Layout as Places, IsModule};
ghost use Rattle.wasm_module.specs.Moved.{moved, CanMove, CanMoveAround};
ghost use Rattle.wasm_module.specs.Reread.{IsMoving, WasRewritten};
ghost use Rattle.wasm_module.specs.Room.{CountBeginsText};

use crate::contents::contents_with;
use crate::front::past_count;
use crate::laws::{entries_are_inside, rewritten_bytes_are_a_module};
use crate::layout::{Layout, Module};
use crate::module::read_marked;
use crate::writing::code_place;
use std::alloc::Global;
use wasm_code::laws::shortest_is_a_spelling;
use wasm_code::u32_of;
use wasm_lists::Entry;
use wasm_sections::{ModuleError, Section, SectionId, find_section, read_sections};
use wasm_types::ModuleInfo;

/// The number that begins the bytes.
fn count_of(bytes: &[u8]) -> usize
    requires { (n : ℕ) × CountBeginsText bytes.now n }
    ensures { (n : ℕ) → CountBeginsText bytes.now n → result ≡ n }
{
    match u32_of(bytes) {
        Ok((count, _items)) => count as usize,
        Err(_) => unreachable!(),
    }
}

/// How many globals the module's own section has.
fn own_globals(bytes: &[u8], sections: &[Section]) -> usize
    requires { (info : Info) × (layout : Places) × IsModule bytes.now info layout
        × (layout.sections ≡ sections.now) }
    ensures { (info : Info) (layout : Places) → IsModule bytes.now info layout
        → layout.sections ≡ sections.now → result ≡ layout.own_globals }
{
    match contents_with(bytes, sections, SectionId::Global) {
        Some((contents, _start)) => count_of(contents),
        None => 0,
    }
}

/// The entry between the offsets, which begins with its size.
fn entry_between(bytes: &[u8], start: usize, end: usize) -> Entry
    requires order { start ≤ end }
    requires inside { end ≤ length bytes.now }
    requires sized { (n : ℕ) × CountBeginsText (slice_range bytes.now start end) n }
    ensures start { result.start ≡ start }
    ensures end { result.end ≡ end }
    ensures contents { (size contents : List ℕ) (n : ℕ)
        → slice_range bytes.now start end ≡ size ++ contents → SpellsUnsigned 32 size n
        → result.contents + length contents ≡ end }
{
    let contents = past_count(&bytes[start..end]);
    Entry {
        start,
        contents: end - contents.len(),
        end,
    }
}

/// Moves the entries as what stands at the offset `from` is moved to `to`.
fn move_entries(entries: &mut [Entry], from: usize, to: usize)
    requires { All (CanMove from to) entries.old }
    ensures { entries.new ≡ map (moved from to) entries.old }
{
    if from == to {
        return;
    }
    for entry in entries.iter_mut() {
        *entry = Entry {
            start: to + (entry.start - from),
            contents: to + (entry.contents - from),
            end: to + (entry.end - from),
        };
    }
}

/// Puts the entry in the place of the n-th one, and moves those before it as what stands at `from` is moved to `to`, and those
/// behind it as its end is.
fn move_around(entries: &mut [Entry], n: usize, from: usize, to: usize, here: Entry)
    requires { CanMoveAround entries.old n from to here.end }
    ensures { (before behind : List Place) (old : Place) → entries.old ≡ before ++ old ∷ behind
        → n ≡ length before
        → entries.new ≡ map (moved from to) before ++ here ∷ map (moved old.end here.end) behind }
{
    let end = entries[n].end;
    let (before, rest) = entries.split_at_mut(n);
    let (one, behind) = rest.split_at_mut(1);
    move_entries(before, from, to);
    one[0] = here;
    move_entries(behind, end, here.end);
}

/// The code section of a module that has entries.
fn code_section(sections: &[Section]) -> Section
    requires { (code : Span) × IsFirstWith sections.now ids.Code code }
    ensures { IsFirstWith sections.now ids.Code result }
{
    match find_section(sections, SectionId::Code) {
        Some(code) => code,
        None => unreachable!(),
    }
}

/// Where things stand in the module with another body, whose sections these are.
fn move_layout(layout: Layout, bytes: &[u8], sections: Vec<Section>, n: usize) -> Layout
    requires { IsMoving layout sections.items n bytes.now }
    ensures { (m : IsMoving layout sections.items n bytes.now)
        → result ≡ record m.reread.again { own_globals = layout.own_globals } }
{
    entries_are_inside();
    shortest_is_a_spelling();
    let (code, old) = code_place(&layout, n);
    let place = code_section(&sections);
    let start = place.contents + (old.start - code.contents);
    let end = place.end - (code.end - old.end);
    let here = entry_between(bytes, start, end);
    let mut entries = layout.entries;
    move_around(&mut entries, n, code.contents, place.contents, here);
    Layout {
        sections,
        imported_functions: layout.imported_functions,
        own_globals: layout.own_globals,
        entries,
        unknown: layout.unknown,
    }
}

/// What a module declares, with other bytes.
fn with_bytes<'a>(info: ModuleInfo<'_>, bytes: &'a [u8]) -> ModuleInfo<'a>
    ensures { result ≡ record info.entry { input = bytes.now } }
{
    ModuleInfo {
        input_wasm: bytes,
        global_types: info.global_types,
        types_map: info.types_map,
        function_map: info.function_map,
        table_types: info.table_types,
        memory_types: info.memory_types,
        exact: info.exact,
        one_reference: info.one_reference,
    }
}

impl<'a> Module<'a> {
    /// What was read of the module, without its bytes.
    pub fn without_bytes(self) -> Module<'static>
        ensures info { result.info ≡ record self.entry.info { input = [] } }
        ensures layout { result.layout ≡ self.entry.layout }
    {
        Module {
            info: with_bytes(self.info, b""),
            layout: self.layout,
        }
    }
}

/// Reads the module that `with_body` wrote with another body as the n-th entry of a module's code: what was read of that one, whatever
/// its bytes, is moved along, in time linear in the number of entries, and without memory but for the sections. Where globals were
/// appended, all is read, as `read_marked` does. What runs it is exact where that is said of the old one. `Memory` where no memory was
/// left.
pub fn read_again<'a>(
    alloc: Global,
    bytes: &'a [u8],
    old: Module<'_>,
    n: usize,
) -> Result<Module<'a>, ModuleError>
    requires { WasRewritten old.info old.layout n bytes.now }
    ensures read { IfOk result (λ m. IsModule bytes.now m.info m.layout) }
    ensures marked { IfOk result (λ m. m.info.exact ≡ old.entry.info.exact) }
    ensures memory { IfErr result (λ e. e.kind ≡ Memory) }
{
    rewritten_bytes_are_a_module();
    let sections = read_sections(alloc, bytes)?;
    if own_globals(bytes, &sections) != old.layout.own_globals {
        return read_marked(alloc, bytes, old.info.exact);
    }
    Ok(Module {
        info: with_bytes(old.info, bytes),
        layout: move_layout(old.layout, bytes, sections, n),
    })
}
