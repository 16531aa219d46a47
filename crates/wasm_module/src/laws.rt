//! Laws on modules: functions that do nothing, and whose contracts hold for all values.
ghost use Rattle.std.specs.Prelude.{◌≡◌, ◌≢◌, ◌-◌, ◌≤◌, ℕ, List, All, Some, None, length, slice_get};
ghost use Rattle.std.specs.List.{sum_by};
ghost use Rattle.wasm_types.specs.Module.{Module};
ghost use Rattle.wasm_lists.specs.declared.entries.Entry.{Entry};
ghost use Rattle.wasm_module.specs.Module.{Layout, IsModule};
ghost use Rattle.wasm_types.specs.declared.types.PrimitiveTypeInfo.{PrimitiveTypeInfo};
ghost use Rattle.wasm_sections.specs.declared.fault.ModuleFault.{ModuleFault};
ghost use Rattle.wasm_sections.specs.declared.fault.ModuleFault.TheVariants.{Memory};
ghost use Rattle.wasm_module.specs.Fault.{IsModuleFault};
ghost use Rattle.wasm_module.specs.Inside.{IsInside};
ghost use Rattle.wasm_module.specs.Limits.{IsTooLarge};
ghost use Rattle.wasm_module.specs.Rewritten.{IsRewritten};
ghost use Rattle.wasm_types.specs.declared.types.PrimitiveTypeInfo.TheVariants as primitives;
ghost use Rattle.wasm_module.specs.Reread.{IsReread};
ghost use Rattle.wasm_module.specs.Again.{AreSectionsAgain};
ghost use Rattle.wasm_sections.specs.declared.section.Section.{Section};
ghost use Rattle.wasm_sections.specs.Section.{SpellsModule};
ghost use Rattle.wasm_sections.specs.Debug.{IsWithoutDebug};
ghost use Rattle.wasm_module.specs.SameModule.{IsSameModule};
ghost use Rattle.wasm_module.specs.Instance.{Making, IsMadeOf, with_more_globals};

use wasm_code::laws::shortest_is_a_spelling;
use wasm_lists::laws::{lists_have_no_fault, one_list};
use wasm_sections::laws::{
    modules_have_no_section_fault, one_module, one_place, other_sections_stay,
    sections_fill_the_module,
};

/// Each entry of a module's code lies inside its bytes.
pub fn entries_are_inside()
    ensures { (bytes : List ℕ) (info : Module) (layout : Layout) (n : ℕ) (entry : Entry)
        → IsModule bytes info layout → slice_get layout.entries n ≡ Some entry
        → IsInside bytes entry }
{
    sections_fill_the_module();
}

/// The entries of a module's code contain no more bytes than it has.
pub fn entries_fit_the_module()
    ensures { (bytes : List ℕ) (info : Module) (layout : Layout) → IsModule bytes info layout
        → sum_by (λ (entry : Entry). entry.end - entry.contents) layout.entries ≤ length bytes }
{
    sections_fill_the_module();
}

/// The new bytes are sections in order again: those of the module, which contain the same, but that the code section contains the
/// other contents of the entry, and a global section before it the globals more.
pub fn rewritten_bytes_are_sections()
    ensures { (bytes : List ℕ) (info : Module) (layout : Layout) (n : ℕ) (contents : List ℕ)
        (more : List PrimitiveTypeInfo) (new : List ℕ) → IsModule bytes info layout
        → IsRewritten bytes layout n contents more new
        → AreSectionsAgain bytes layout n contents more new }
{
    shortest_is_a_spelling();
}

/// The new bytes are a module again: the old one, with the globals more behind its own, and with those contents of the entry.
pub fn rewritten_bytes_are_a_module()
    ensures { (bytes : List ℕ) (info : Module) (layout : Layout) (n : ℕ) (contents : List ℕ)
        (more : List PrimitiveTypeInfo) (new : List ℕ) → IsModule bytes info layout
        → IsRewritten bytes layout n contents more new → layout.unknown.imports ≡ None
        → layout.unknown.globals ≡ None → All (λ t. t ≢ primitives.Empty) more
        → IsReread bytes info layout n contents more new }
{
    shortest_is_a_spelling();
}

/// A module with other contents of a code entry and with more globals is one text, or it is too large to be written.
pub fn one_rewritten_module()
    ensures one { (bytes : List ℕ) (layout : Layout) (n : ℕ) (contents : List ℕ)
        (more : List PrimitiveTypeInfo) (new other : List ℕ)
        → IsRewritten bytes layout n contents more new
        → IsRewritten bytes layout n contents more other → new ≡ other }
    ensures fits { (bytes : List ℕ) (info : Module) (layout : Layout) (n : ℕ)
        (contents : List ℕ) (more : List PrimitiveTypeInfo) (new : List ℕ)
        → IsModule bytes info layout → IsRewritten bytes layout n contents more new
        → ¬ (IsTooLarge bytes layout n contents more) }
{
    one_place();
}

/// Bytes are one module at most: what is known of it, and where things stand in it, follow from them, but not whether what runs it is
/// exact.
pub fn one_reading()
    ensures { (bytes : List ℕ) (info other : Module) (layout place : Layout)
        → IsModule bytes info layout → IsModule bytes other place → info.exact ≡ other.exact
        → (info ≡ other) × (layout ≡ place) }
{
    one_module();
    one_list();
}

/// The bytes of a module have no fault.
pub fn modules_have_no_fault()
    ensures { (bytes : List ℕ) (info : Module) (layout : Layout) → IsModule bytes info layout
        → (fault : ModuleFault) (offset : ℕ) → IsModuleFault bytes fault offset
        → fault ≡ Memory }
{
    one_module();
    modules_have_no_section_fault();
    one_list();
    lists_have_no_fault();
}

/// A module without its custom sections that name places in the code is the same module.
pub fn modules_without_debug_are_the_same()
    ensures { (bytes : List ℕ) (info : Module) (layout : Layout) (new : List ℕ)
        → IsModule bytes info layout → IsWithoutDebug bytes layout.sections new
        → IsSameModule bytes info layout new }
{
    sections_fill_the_module();
    other_sections_stay();
}

/// A rewritten module is made of what the module is made of, with the globals more behind its own, which begin as zeros or nulls:
/// same imports, exports, start function, tables, memories and segments. Without its custom sections that name places in the code it is
/// made of the same, and each module is made of something.
pub fn rewritten_modules_are_made_alike()
    ensures rewritten { (bytes : List ℕ) (info : Module) (layout : Layout) (n : ℕ)
        (contents : List ℕ) (more : List PrimitiveTypeInfo) (new : List ℕ) (sections : List Section)
        (making : Making) → IsModule bytes info layout
        → IsRewritten bytes layout n contents more new → SpellsModule new sections
        → IsMadeOf bytes layout.sections making
        → IsMadeOf new sections (with_more_globals more making) }
    ensures stripped { (bytes new : List ℕ) (sections left : List Section) (making : Making)
        → IsWithoutDebug bytes sections new → SpellsModule new left
        → IsMadeOf bytes sections making → IsMadeOf new left making }
    ensures made { (bytes : List ℕ) (info : Module) (layout : Layout)
        → IsModule bytes info layout → (making : Making) × IsMadeOf bytes layout.sections making }
{
    shortest_is_a_spelling();
    one_module();
    other_sections_stay();
}
