//! Laws on modules as sections: functions that do nothing, and whose contracts hold for all values.
ghost use Rattle.std.specs.Prelude.{◌≡◌, ◌≢◌, ◌<◌, ◌≤◌, ◌^◌, ◌++◌, ℕ, List, ◌∷◌, length, take, drop, All};
ghost use Rattle.wasm_sections.specs.Section.{SpellsModule, section_parts_of};
ghost use Rattle.wasm_sections.specs.Sections.{IsSectionFault};
ghost use Rattle.wasm_sections.specs.declared.fault.ModuleFault.{ModuleFault};
ghost use Rattle.wasm_sections.specs.declared.fault.ModuleFault.TheVariants.{Memory};
ghost use Rattle.wasm_sections.specs.Find.{LackId, IsFirstWith, IsPlaceOf};
ghost use Rattle.wasm_sections.specs.Writing.{section_code};
ghost use Rattle.wasm_sections.specs.Debug.{IsDebug, IsWithoutDebug};
ghost use Rattle.wasm_sections.specs.Laws.{SpellsParts, AreJoined, IsWithin, IsInOrderAt, HasFirst};
ghost use Rattle.wasm_sections.specs.declared.section.Section.{Section};
ghost use Rattle.wasm_sections.specs.declared.id.SectionId.{SectionId};
ghost use Rattle.wasm_sections.specs.declared.id.SectionId.TheVariants as ids;

use wasm_code::laws::shortest_is_a_spelling;

/// Bytes spell one module at most.
pub fn one_module()
    ensures { (bytes : List ℕ) (xs ys : List Section) → SpellsModule bytes xs
        → SpellsModule bytes ys → xs ≡ ys }
{}

/// Bytes have one fault at most.
pub fn one_fault()
    ensures { (bytes : List ℕ) (one other : ModuleFault) (at to : ℕ) → IsSectionFault bytes one at
        → IsSectionFault bytes other to → one ≢ Memory → other ≢ Memory
        → (one ≡ other) × (at ≡ to) }
{}

/// The bytes of a module have no fault.
pub fn modules_have_no_section_fault()
    ensures { (bytes : List ℕ) (sections : List Section) → SpellsModule bytes sections
        → (fault : ModuleFault) (offset : ℕ) → IsSectionFault bytes fault offset
        → fault ≡ Memory }
{}

/// The sections of a module fill it behind the preamble, one behind another, and so each lies within it.
pub fn sections_fill_the_module()
    ensures joined { (bytes : List ℕ) (sections : List Section) → SpellsModule bytes sections
        → AreJoined 8 sections (length bytes) }
    ensures each { (bytes : List ℕ) (sections : List Section) → SpellsModule bytes sections
        → All (IsWithin 8 (length bytes)) sections }
    ensures found { (bytes : List ℕ) (sections : List Section) (id : SectionId) (s : Section)
        → SpellsModule bytes sections → IsFirstWith sections id s → IsWithin 8 (length bytes) s }
{}

/// A place for a section lies within the module, behind each section that has to precede it and before each that has to follow
/// it; custom sections stand on either side.
pub fn places_are_in_order()
    ensures within { (bytes : List ℕ) (sections : List Section) (id : SectionId) (place : ℕ)
        → SpellsModule bytes sections → IsPlaceOf sections id place
        → (8 ≤ place) × (place ≤ length bytes) }
    ensures order { (bytes : List ℕ) (sections : List Section) (id : SectionId) (place : ℕ)
        → SpellsModule bytes sections → IsPlaceOf sections id place
        → All (IsInOrderAt place id) sections }
{}

/// A section that isn't there has one place at most.
pub fn one_place()
    ensures { (sections : List Section) (id : SectionId) (place other : ℕ)
        → IsPlaceOf sections id place → IsPlaceOf sections id other → place ≡ other }
{}

/// A module in which one section is written anew, with other contents, is a module with these contents in place of the old ones.
/// The section isn't custom, since other contents of a custom section might make the module a linkable object.
pub fn replaced_section()
    ensures { (bytes contents : List ℕ) (before behind : List Section) (s : Section)
        → SpellsModule bytes (before ++ s ∷ behind) → s.id ≢ ids.Custom → length contents < 2 ^ 32
        → SpellsParts (take s.start bytes ++ section_code s.id contents ++ drop s.end bytes)
        (section_parts_of bytes before ++ (s.id, contents) ∷ section_parts_of bytes behind) }
{
    shortest_is_a_spelling();
}

/// A module with a section more, at a place of its id, is a module with this section between the others.
pub fn added_section()
    ensures { (bytes contents : List ℕ) (sections : List Section) (id : SectionId) (place : ℕ)
        → SpellsModule bytes sections → (p : IsPlaceOf sections id place) → id ≢ ids.Custom
        → length contents < 2 ^ 32
        → SpellsParts (take place bytes ++ section_code id contents ++ drop place bytes)
        (section_parts_of bytes p.before ++ (id, contents) ∷ section_parts_of bytes p.behind) }
{
    shortest_is_a_spelling();
}

/// What is left of a module without its custom sections that name places in the code has none of them; it is the module as it
/// stood where that had none, and nothing else is left of it.
pub fn debug_sections_are_gone()
    ensures gone { (bytes new : List ℕ) (sections left : List Section)
        → IsWithoutDebug bytes sections new → SpellsModule new left
        → All (λ s. IsDebug new s → ⊥) left }
    ensures unchanged { (bytes new : List ℕ) (sections : List Section)
        → SpellsModule bytes sections → All (λ s. IsDebug bytes s → ⊥) sections
        → IsWithoutDebug bytes sections new → new ≡ bytes }
    ensures one { (bytes one other : List ℕ) (sections : List Section)
        → IsWithoutDebug bytes sections one → IsWithoutDebug bytes sections other → one ≡ other }
{}

/// The sections that aren't custom contain what they did, in what is left of a module without those that name places in the code.
pub fn other_sections_stay()
    ensures none { (bytes new : List ℕ) (sections left : List Section) (id : SectionId)
        → IsWithoutDebug bytes sections new → SpellsModule new left
        → LackId sections id → LackId left id }
    ensures first { (bytes new contents : List ℕ) (sections left : List Section) (id : SectionId)
        → IsWithoutDebug bytes sections new → SpellsModule new left → id ≢ ids.Custom
        → HasFirst bytes sections id contents → HasFirst new left id contents }
{}
