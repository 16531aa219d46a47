//! A buffer's module without its custom sections that name places in its code, written over its front.
ghost use Rattle.std.specs.Prelude.{◌<◌, ◌≤◌, ℕ, IfErr, IfOk, length};
ghost use Rattle.wasm_sections.specs.Sections.{IsSectionFault};
ghost use Rattle.teddertempo_c.specs.Strips.{IsStripped, Strips};

use crate::report::put;
use module_rewrites::laws::rewritten_modules_do_as_before;
use std::alloc::Global;
use wasm_sections::laws::sections_fill_the_module;
use wasm_sections::{ModuleError, ModuleFault, read_sections, without_debug};

// The module without these sections.
#[tactic(auto, using(crate::proofs::StripsLemmas::no_longer, crate::proofs::StripsLemmas::some_left))]
fn stripped(alloc: Global, bytes: &[u8]) -> Result<Vec<u8>, ModuleError>
    ensures stripped { IfOk result (λ new. IsStripped bytes.now new.items) }
    ensures some { IfOk result (λ new. 0 < length new.items) }
    ensures fits { IfOk result (λ new. length new.items ≤ length bytes.now) }
    ensures fault { IfErr result (λ e. IsSectionFault bytes.now e.kind e.offset) }
{
    rewritten_modules_do_as_before();
    sections_fill_the_module();
    let sections = read_sections(alloc, bytes)?;
    match without_debug(alloc, bytes, &sections) {
        Ok(new) => Ok(new),
        Err(_) => Err(ModuleError {
            kind: ModuleFault::Memory,
            offset: 0,
        }),
    }
}

/// Drops the custom sections that name places in the code of the module that the buffer is.
#[tactic(auto, using(crate::proofs::StripsLemmas::strip_made, crate::proofs::StripsLemmas::strip_refused))]
pub fn strip_in(alloc: Global, buffer: &mut [u8]) -> usize
    ensures { Strips buffer.old result buffer.new }
{
    match stripped(alloc, buffer) {
        Ok(new) => put(buffer, &new),
        Err(_) => 0,
    }
}
