//! Where the blocks of a body start.

ghost use Rattle.std.specs.Prelude.{◌≡◌, ◌<◌, length, option_map, IfOk};
ghost use Rattle.peephole_graphs.specs.Block.{block_at, block_start};
ghost use Rattle.peephole_commands.specs.Starts.{AreStarts, block_range};

use std::alloc::{AllocError, Global};
use std::ops::Range;
use wasm_code::OperatorAndByteOffset;

// One start is kept for so many operators, half a byte for each. From any of them the kept one before it is a few steps back.
const STRIDE: usize = 16;

/// Of every sixteenth operator the index behind the last delimiter before it.
pub fn starts_of(
    alloc: Global,
    operators: &[OperatorAndByteOffset],
) -> Result<Vec<usize>, AllocError>
    ensures { IfOk result (λ starts. AreStarts operators.now starts.items) }
{
    let mut starts = Vec::with_capacity(alloc, operators.len() / STRIDE + 1)?;
    let mut start = 0;
    for index in 0..operators.len() {
        if index % STRIDE == 0 {
            starts.push(start)?;
        }
        if operators[index].0.is_delimiter() {
            start = index + 1;
        }
    }
    Ok(starts)
}

// The index behind the last delimiter before the operator at the point. It walks back to that one, or to an operator whose
// start is kept.
fn start_of(starts: &[usize], operators: &[OperatorAndByteOffset], point: usize) -> usize
    requires there { point < length operators.now }
    requires starts { AreStarts operators.now starts.now }
    ensures { result ≡ block_start operators.now point }
{
    let mut index = point;
    while index > 0 {
        if index % STRIDE == 0 && index / STRIDE < starts.len() {
            return starts[index / STRIDE];
        }
        if operators[index - 1].0.is_delimiter() {
            return index;
        }
        index -= 1;
    }
    0
}

/// The range of an operator's block, if there is one, by where blocks start.
pub fn range_at(
    starts: &[usize],
    operators: &[OperatorAndByteOffset],
    point: usize,
) -> Option<Range<usize>>
    requires there { point < length operators.now }
    requires starts { AreStarts operators.now starts.now }
    ensures { option_map (λ r. block_range r.start r.end) result ≡ block_at operators.now point }
{
    if operators[point].0.is_delimiter() {
        return None;
    }
    Some(start_of(starts, operators, point)..point + 1)
}
