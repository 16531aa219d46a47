//! The bytes of a body outside a range of its operators.

ghost use Rattle.std.specs.Prelude.{◌≡◌, ◌<◌, length};
ghost use Rattle.peephole_terms.specs.EncoderSteps.{BlockIsInside};
ghost use Rattle.peephole_terms.specs.Spliced.{range_as_block};
ghost use Rattle.peephole_terms.specs.Written.{offset_of, before_block, after_block};

use std::ops::Range;
use wasm_code::OperatorAndByteOffset;

/// The input's bytes of a body before a range of its operators, and after it.
#[derive(Clone, Copy)]
pub(crate) struct Outside<'a> {
    pub(crate) before: &'a [u8],
    pub(crate) after: &'a [u8],
}

// Where an operator starts in the input.
fn offset_at(operators: &[OperatorAndByteOffset], index: usize) -> usize
    requires { index < length operators.now }
    ensures { result ≡ offset_of operators.now index }
{
    operators[index].1
}

impl<'a> Outside<'a> {
    /// The bytes outside a range of a body's operators, whose offsets are those of the input.
    pub(crate) fn of(
        input: &'a [u8],
        operators: &[OperatorAndByteOffset],
        range: Range<usize>,
    ) -> Outside<'a>
        requires { BlockIsInside input.now operators.now (range_as_block range.start range.end) }
        ensures before { result.before.now
            ≡ before_block input.now operators.now (range_as_block range.start range.end) }
        ensures after { result.after.now
            ≡ after_block input.now operators.now (range_as_block range.start range.end) }
    {
        let first = offset_at(operators, 0);
        let start = offset_at(operators, range.start);
        let end = offset_at(operators, range.end);
        let last = offset_at(operators, operators.len() - 1);
        Outside {
            before: &input[first..start],
            after: &input[end..last + 1],
        }
    }
}
