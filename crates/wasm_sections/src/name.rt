//! The name of a custom section.
ghost use Rattle.std.specs.Prelude.{ℕ, List, IfSome, IfNone};
ghost use Rattle.wasm_sections.specs.Section.{BeginsWithName};

use wasm_code::u32_of;

/// The name that begins the contents of a custom section; `None` where they begin with no whole name.
pub fn name_of(contents: &[u8]) -> Option<&[u8]>
    ensures found { IfSome result (λ name. BeginsWithName contents.now name.now) }
    ensures none { IfNone result ((name : List ℕ) → BeginsWithName contents.now name → ⊥) }
{
    match u32_of(contents) {
        Ok((size, rest)) => match rest.split_at_checked(size as usize) {
            Some((name, _)) => Some(name),
            None => None,
        },
        Err(_) => None,
    }
}
