//! A body, read.

ghost use Rattle.std.specs.Prelude.{◌≡◌, ◌<◌, ◌⊎◌, length, option_map, Ok, Err, MatchResult};
ghost use Rattle.peephole_graphs.specs.Block.{block_at};
ghost use Rattle.peephole_terms.specs.Written.{IsBodyIn};
ghost use Rattle.wasm_code.specs.declared.fault.ReadKind.TheVariants.{Memory};
ghost use Rattle.peephole_commands.specs.Body.{body_of};
ghost use Rattle.peephole_commands.specs.Starts.{block_range};

use crate::starts::{range_at, starts_of};
use peephole_terms::BBlock;
use peephole_terms::laws::blocks_are_found;
use std::alloc::Global;
use std::marker::Model;
use std::ops::Range;
use wasm_code::laws::body_at_reads;
use wasm_code::{OperatorAndByteOffset, ReadKind, read_body};

/// A body's bytes, and the operators that they spell.
#[derive(Drop)]
pub struct Body {
    bytes: Vec<u8>,
    operators: Vec<OperatorAndByteOffset>,
    // Of every sixteenth operator where its block starts, if it has one; none of them until they are to be kept.
    starts: Vec<usize>,
}

impl Model for Body {
    ghost use Rattle.peephole_terms.specs.Written.{IsBodyIn};
    ghost use Rattle.std.specs.Prelude.{length};
    ghost use Rattle.peephole_commands.specs.Body.{Contents};
    ghost use Rattle.peephole_commands.specs.Starts.{AreStarts};

    ghost Value = { Contents };

    ghost view = { λ b. record { bytes = b.bytes.items; operators = b.operators.items } };

    ghost invariant = { λ b. IsBodyIn b.bytes.items b.operators.items
        × AreStarts b.operators.items b.starts.items };
}

impl Body {
    /// The body of these bytes. Refused where they spell none, for the first fault, or for want of memory.
    pub fn read(alloc: Global, bytes: Vec<u8>) -> Result<Body, ReadKind>
        ensures { MatchResult result (λ body. body_of bytes.items ≡ Ok body)
            (λ kind. (kind ≡ Memory) ⊎ (body_of bytes.items ≡ Err kind)) }
    {
        body_at_reads();
        match read_body(alloc, bytes.as_slice(), 0, bytes.len()) {
            Ok(operators) => Ok(Body {
                bytes,
                operators,
                starts: Vec::new(alloc),
            }),
            Err(error) => Err(error.kind),
        }
    }

    /// The bytes.
    pub fn bytes(&self) -> &[u8]
        ensures { result.now ≡ self.now.bytes }
    {
        self.bytes.as_slice()
    }

    /// The operators that they spell, each with its offset.
    pub fn operators(&self) -> &[OperatorAndByteOffset]
        ensures value { result.now ≡ self.now.operators }
        ensures body { IsBodyIn self.now.bytes self.now.operators }
    {
        self.operators.as_slice()
    }

    /// The number of operators.
    pub fn len(&self) -> usize
        ensures { result ≡ length self.now.operators }
    {
        self.operators.len()
    }

    /// Keeps where blocks start, half a byte for each operator, so that `range_at` doesn't walk back through a block. Where
    /// memory is refused, it goes on without.
    pub fn keep_starts(&mut self, alloc: Global)
        ensures { self.new ≡ self.old }
    {
        if !self.starts.is_empty() {
            return;
        }
        if let Ok(starts) = starts_of(alloc, self.operators.as_slice()) {
            self.starts = starts;
        }
    }

    /// The range of an operator's block, if there is one. It takes time linear in the block, or none that grows once starts are
    /// kept.
    pub fn range_at(&self, point: usize) -> Option<Range<usize>>
        requires { point < length self.now.operators }
        ensures { option_map (λ r. block_range r.start r.end) result
            ≡ block_at self.now.operators point }
    {
        range_at(self.starts.as_slice(), self.operators.as_slice(), point)
    }

    /// The block of an operator, if there is one. It takes time linear in the block.
    pub fn block_at(&self, point: usize) -> Option<BBlock>
        requires { point < length self.now.operators }
        ensures { result ≡ block_at self.now.operators point }
    {
        blocks_are_found();
        BBlock::of_operator(point, self.operators.as_slice())
    }
}
