//! Custom sections that make a module a linkable object.
ghost use Rattle.std.specs.Prelude.{◌↔◌, IsTrue};
ghost use Rattle.wasm_sections.specs.Section.{IsLinkingName, IsLinkable};

use crate::name::name_of;

/// Whether the name of a custom section is that of linking metadata.
fn is_linking_name(name: &[u8]) -> bool
    ensures { IsTrue result ↔ IsLinkingName name.now }
{
    name == b"linking".as_slice() || name.starts_with(b"reloc.")
}

/// Whether these contents of a custom section make the module a linkable object.
pub fn is_linkable(contents: &[u8]) -> bool
    ensures { IsTrue result ↔ IsLinkable contents.now }
{
    match name_of(contents) {
        Some(name) => is_linking_name(name),
        None => false,
    }
}
