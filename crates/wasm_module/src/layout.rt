//! Where things stand in a module.

use crate::unknown::Unknown;
use std::marker::Model;
use wasm_lists::Entry;
use wasm_sections::Section;
use wasm_types::ModuleInfo;

/// Where things stand in a module, how many come from outside, and what isn't known.
#[derive(Drop)]
pub struct Layout {
    /// The sections, in order.
    pub sections: Vec<Section>,
    /// How many functions are imported, as far as imports are known. Where all are, the function of the n-th code entry has the index
    /// n behind these.
    pub imported_functions: usize,
    /// How many globals the module's own section has.
    pub own_globals: usize,
    /// The entries of the code section.
    pub entries: Vec<Entry>,
    /// Where forms stand that aren't known here.
    pub unknown: Unknown,
}

impl Model for Layout {
    ghost use Rattle.wasm_module.specs.Module.{Layout};

    ghost Value = { Layout };

    ghost view = { λ l. record {
      sections = l.sections.items;
      imported_functions = l.imported_functions;
      own_globals = l.own_globals;
      entries = l.entries.items;
      unknown = l.unknown;
    } };
}

/// A module: what it declares, and where it does.
#[derive(Drop)]
pub struct Module<'a> {
    /// The types of its functions, globals, tables and memories, the imported ones first.
    pub info: ModuleInfo<'a>,
    /// Where its sections and its functions' bodies stand.
    pub layout: Layout,
}
