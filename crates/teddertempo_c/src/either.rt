//! A buffer's module rewritten or changed, as a chance has it.
ghost use Rattle.std.specs.Prelude.{◌≡◌};
ghost use Rattle.teddertempo_c.specs.Either.{EitherOnce, keeps};

use crate::changing::change_in;
use crate::rewriting::rewrite_in;
use rand::rngs::StdRng;
use rand_core::{Rng, SeedableRng};
use std::alloc::Global;

// Whether a call under the seed keeps what the module computes, where so many of a hundred do.
fn keeps(seed: u64, keep: u32) -> bool
    ensures { result ≡ keeps seed keep }
{
    let mut generator = StdRng::seed_from_u64(u64::MAX - seed);
    generator.next_u64() % 100 < keep as u64
}

/// Rewrites the module that the first `size` bytes of the buffer are, or changes it, once: of a hundred seeds so many rewrite.
pub fn either_in(alloc: Global, buffer: &mut [u8], size: usize, seed: u64, keep: u32) -> usize
    ensures { EitherOnce seed keep size buffer.old result buffer.new }
{
    if keeps(seed, keep) {
        rewrite_in(alloc, buffer, size, seed)
    } else {
        change_in(alloc, buffer, size, seed)
    }
}
