//! The custom section `name`.
ghost use Rattle.std.specs.Prelude.{◌≡◌, ◌↔◌, ◌≤◌, ℕ, List, length, codes, IsTrue, IfSome, IfNone, MatchOption};
ghost use Rattle.wasm_sections.specs.Section.{SpellsModule};
ghost use Rattle.wasm_sections.specs.Names.{AreNamed, IsNameSection, HasNameSection};

use crate::id::SectionId;
use crate::laws::sections_fill_the_module;
use crate::name_reading::sized_of;
use crate::section::Section;

/// Whether it is the name of the section with names.
fn is_name(name: &[u8]) -> bool
    ensures { IsTrue result ↔ (name.now ≡ codes "name") }
{
    name == b"name".as_slice()
}

/// What follows the name `name`, where it begins the contents of a custom section.
fn past_name(contents: &[u8]) -> Option<&[u8]>
    ensures found { IfSome result (λ rest. AreNamed contents.now (codes "name") rest.now) }
    ensures none { IfNone result ((rest : List ℕ) → AreNamed contents.now (codes "name") rest → ⊥) }
{
    match sized_of(contents) {
        Ok((name, rest)) => { if is_name(name) { Some(rest) } else { None } }
        Err(_) => None,
    }
}

/// What follows the name in the section, where that is the name section.
fn subsections_of<'a>(bytes: &'a [u8], section: Section) -> Option<&'a [u8]>
    requires order { section.contents ≤ section.end }
    requires bounds { section.end ≤ length bytes.now }
    ensures found { IfSome result (λ rest. IsNameSection bytes.now section rest.now) }
    ensures none { IfNone result ((rest : List ℕ) → IsNameSection bytes.now section rest → ⊥) }
{
    if section.id == SectionId::Custom {
        past_name(&bytes[section.contents..section.end])
    } else {
        None
    }
}

/// What follows the name in the first section that is a name section.
pub fn name_section<'a>(bytes: &'a [u8], sections: &[Section]) -> Option<&'a [u8]>
    requires { SpellsModule bytes.now sections.now }
    ensures found { IfSome result (λ rest. HasNameSection bytes.now sections.now rest.now) }
    ensures only { (rest : List ℕ) → HasNameSection bytes.now sections.now rest
        → MatchOption result ⊥ (λ found. found.now ≡ rest) }
{
    sections_fill_the_module();
    for section in sections {
        if let Some(rest) = subsections_of(bytes, *section) {
            return Some(rest);
        }
    }
    None
}
