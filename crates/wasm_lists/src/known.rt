//! Lists with items of forms that aren't known here.
ghost use Rattle.std.specs.Prelude.{◌≡◌};
ghost use Rattle.wasm_lists.specs.Known.{nothing_listed};

use std::alloc::Global;
use std::marker::Model;
use wasm_sections::ModuleError;

/// What is known of a list: its items before the first whose form isn't known.
#[derive(Drop)]
pub struct Known<T: Drop> {
    /// The number that the list gives of its items.
    pub count: u32,
    /// The items before the first one of an unknown form; all of them where there is none.
    pub items: Vec<T>,
    /// Where that one starts, and whether a form or an operator in it isn't known.
    pub unknown: Option<ModuleError>,
}

impl<T: Drop> Model for Known<T> {
    ghost use Rattle.wasm_lists.specs.Known.{Known};

    ghost Value = { Known T };

    ghost view = { λ k. record { count = k.count; items = k.items.items; unknown = k.unknown } };
}

impl<T: Drop> Known<T> {
    /// Nothing is listed.
    pub fn none(alloc: Global) -> Known<T>
        ensures { result ≡ nothing_listed }
    {
        Known {
            count: 0,
            items: Vec::new(alloc),
            unknown: None,
        }
    }

    /// The items that are known.
    pub fn into_items(self) -> Vec<T>
        ensures { result.items ≡ self.items }
    {
        self.items
    }
}
