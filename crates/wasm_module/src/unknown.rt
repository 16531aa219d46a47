//! What of a module isn't known.
use wasm_sections::ModuleError;

/// Of each section that lists items, the first one of a form that isn't known here: where it starts, and whether it is a form or an
/// operator in it that isn't known. The items from there on aren't known. Known are the forms of the standard's version 3.0, and shared
/// memories; not known are, for instance, shared heap types, descriptors and other pages, as the items in `wasm_lists` say.
#[derive(Clone, Copy, Debug, PartialEq, Eq)]
pub struct Unknown {
    /// The first group of types that has such a one. The types before it are those of the groups before.
    pub types: Option<ModuleError>,
    /// The first such import; no index is known but of what is imported before it.
    pub imports: Option<ModuleError>,
    /// The first such table.
    pub tables: Option<ModuleError>,
    /// The first such memory.
    pub memories: Option<ModuleError>,
    /// The first such global.
    pub globals: Option<ModuleError>,
}
