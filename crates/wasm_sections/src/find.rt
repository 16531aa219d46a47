//! Sections by their id, and where one would stand.
ghost use Rattle.std.specs.Prelude.{◌≡◌, ◌≢◌, ℕ, List, IfSome, IfNone};
ghost use Rattle.wasm_sections.specs.Section.{SpellsModule};
ghost use Rattle.wasm_sections.specs.Find.{LackId, IsFirstWith, IsPlaceOf};
ghost use Rattle.wasm_sections.specs.declared.id.SectionId.TheVariants as ids;
ghost use Rattle.wasm_sections.specs.Reader.{comes_before_lem};

use crate::id::SectionId;
use crate::section::{PREAMBLE, Section};

/// The first section that has the id; `None` where none has it.
pub fn find_section(sections: &[Section], id: SectionId) -> Option<Section>
    ensures found { IfSome result (λ s. IsFirstWith sections.now id s) }
    ensures none { IfNone result (LackId sections.now id) }
{
    for section in sections {
        if section.id == id {
            return Some(*section);
        }
    }
    None
}

/// Whether a section of the first id has to stand before one of the second.
fn comes_before(first: SectionId, second: SectionId) -> bool
    ensures { result ≡ comes_before_lem first second }
{
    let rank = first.rank();
    rank > 0 && rank < second.rank()
}

/// The offset at which a section with the id would stand in a module that has none: behind the last section that has to
/// precede it, or behind the preamble.
pub fn place_of(sections: &[Section], id: SectionId) -> usize
    // The place is right in each module of these sections.
    ensures { (bytes : List ℕ) → SpellsModule bytes sections.now → LackId sections.now id
        → id ≢ ids.Custom → IsPlaceOf sections.now id result }
{
    let mut place = PREAMBLE.len();
    for section in sections {
        if comes_before(section.id, id) {
            place = section.end;
        }
    }
    place
}
