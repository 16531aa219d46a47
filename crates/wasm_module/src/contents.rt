//! What a module's section contains.
ghost use Rattle.std.specs.Prelude.{◌≡◌, ◌≤◌, length, slice_range, IfSome, IfNone};
ghost use Rattle.wasm_sections.specs.Section.{SpellsModule};
ghost use Rattle.wasm_sections.specs.Find.{LackId};
ghost use Rattle.wasm_module.specs.Contents.{AreContents};

use wasm_sections::laws::sections_fill_the_module;
use wasm_sections::{Section, SectionId, find_section};

/// What the section contains.
pub fn contents_of(bytes: &[u8], section: Section) -> &[u8]
    requires order { section.contents ≤ section.end }
    requires bounds { section.end ≤ length bytes.now }
    ensures { result.now ≡ slice_range bytes.now section.contents section.end }
{
    &bytes[section.contents..section.end]
}

/// What the section of the module with the id contains, and where that starts; `None` where no section has the id.
pub fn contents_with<'a>(
    bytes: &'a [u8],
    sections: &[Section],
    id: SectionId,
) -> Option<(&'a [u8], usize)>
    requires { SpellsModule bytes.now sections.now }
    ensures found { IfSome result (λ x. AreContents bytes.now sections.now id x.1 x.0.now) }
    ensures none { IfNone result (LackId sections.now id) }
{
    sections_fill_the_module();
    let section = find_section(sections, id)?;
    Some((contents_of(bytes, section), section.contents))
}
