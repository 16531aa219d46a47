//! A buffer's module with code of another module, written over its front.
ghost use Rattle.std.specs.Prelude.{◌≡◌, IfErr, IfOk};
ghost use Rattle.module_changes.specs.Spliced.{IsSpliceRefusal};
ghost use Rattle.module_rewrites.specs.Seeded.{seeded};
ghost use Rattle.teddertempo_c.specs.Changes.{HasSize};
ghost use Rattle.teddertempo_c.specs.Splices.{copies_alone, IsSplicedBy, SplicesOnce};

use crate::report::put;
use body_changes::Change;
use module_changes::{Scope, SpliceRefusal, SplicedModule, splice_module};
use rand::rngs::StdRng;
use rand_core::SeedableRng;
use std::alloc::Global;

// The module with code of the other one, in any function, of at most `room` bytes.
fn spliced_once(
    alloc: Global,
    bytes: &[u8],
    other: &[u8],
    seed: u64,
    room: usize,
) -> Result<SplicedModule, SpliceRefusal>
    ensures spliced { IfOk result (λ m.
        IsSplicedBy seed room bytes.now other.now m.bytes.items) }
    ensures fits { IfOk result (λ m. HasSize room m.bytes.items) }
    ensures refused { IfErr result
        (IsSpliceRefusal (copies_alone room) bytes.now other.now (seeded seed)) }
{
    let scope = Scope {
        changes: &[Change::Copy],
        function: None,
        most: 8,
        max_size: room,
    };
    let mut generator = StdRng::seed_from_u64(seed);
    splice_module(alloc, bytes, other, &mut generator, &scope)
}

/// Puts code of the other module into the module that the first `size` bytes of the buffer are, in any function.
#[tactic(auto, using(crate::proofs::SplicesLemmas::splice_made, crate::proofs::SplicesLemmas::splice_outside, crate::proofs::SplicesLemmas::splice_refused))]
pub fn splice_in(alloc: Global, buffer: &mut [u8], size: usize, other: &[u8], seed: u64) -> usize
    ensures { SplicesOnce seed size other.now buffer.old result buffer.new }
{
    if size > buffer.len() {
        return 0;
    }
    let room = buffer.len();
    match spliced_once(alloc, &buffer[..size], other, seed, room) {
        Ok(module) => put(buffer, &module.bytes),
        Err(_) => 0,
    }
}
