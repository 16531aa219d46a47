//! The bytes of a body's operators.
ghost use Rattle.std.specs.Prelude.{◌≡◌, ◌<◌, ◌≤◌, length, drop, slice_range};
ghost use Rattle.wasm_code.specs.Body.{bytes_of};
ghost use Rattle.body_splices.specs.OwnBytes.{IsBodyIn, own_bytes};
ghost use Rattle.body_splices.specs.Splice.{IsRangeIn};
ghost use Rattle.body_splices.specs.Putting.{offset_of};

use wasm_code::OperatorAndByteOffset;

// Where an operator starts in the input.
fn offset_at(operators: &[OperatorAndByteOffset], index: usize) -> usize
    requires { index < length operators.now }
    ensures { result ≡ offset_of operators.now index }
{
    operators[index].1
}

// The input's bytes from one offset up to another.
fn part(input: &[u8], from: usize, to: usize) -> &[u8]
    requires ordered { from ≤ to }
    requires inside { to ≤ length input.now }
    ensures { result.now ≡ slice_range input.now from to }
{
    &input[from..to]
}

/// The bytes of the operators from one index up to the one before another.
pub(crate) fn bytes_between<'a>(
    operators: &[OperatorAndByteOffset],
    input: &'a [u8],
    start: usize,
    end: usize,
) -> &'a [u8]
    requires body { IsBodyIn input.now operators.now }
    requires range { IsRangeIn operators.now start end }
    ensures { result.now
        ≡ bytes_of (slice_range (own_bytes input.now operators.now) start end) }
{
    let from = offset_at(operators, start);
    let to = offset_at(operators, end);
    part(input, from, to)
}

/// The bytes of the operators from an index on.
pub(crate) fn bytes_from<'a>(
    operators: &[OperatorAndByteOffset],
    input: &'a [u8],
    start: usize,
) -> &'a [u8]
    requires body { IsBodyIn input.now operators.now }
    requires inside { start < length operators.now }
    ensures { result.now ≡ bytes_of (drop start (own_bytes input.now operators.now)) }
{
    let from = offset_at(operators, start);
    let last = offset_at(operators, operators.len() - 1);
    part(input, from, last + 1)
}
