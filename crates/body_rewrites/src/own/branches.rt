//! Branches to labels that take nothing.
ghost use Rattle.std.specs.Prelude.{◌≡◌, ◌<◌, IsTrue, length, take};
ghost use Rattle.body_splices.specs.OwnBytes.{without_offsets};
ghost use Rattle.wrapped_code.specs.Opened.{opens_bare, TakesNothing};
ghost use Rattle.body_rewrites.specs.Blocks.{AreBlocks};
ghost use Rattle.body_rewrites.specs.OwnSites.{HasBareOpener};

use crate::blocks::Blocks;
use crate::own::unwrap::operator_at;
use wasm_code::{BlockType, Operator, OperatorAndByteOffset};

// Whether the operator opens a block to whose label a branch takes nothing.
fn opens_bare(operator: &Operator) -> bool
    ensures { result ≡ opens_bare operator.now }
{
    match operator {
        Operator::Block(BlockType::Empty) => true,
        Operator::Loop(BlockType::Empty) => true,
        Operator::Loop(BlockType::Value(_)) => true,
        Operator::If(BlockType::Empty) => true,
        _ => false,
    }
}

// Whether such a one stands there.
fn has_bare(operators: &[OperatorAndByteOffset], at: usize) -> bool
    ensures same { IsTrue result → HasBareOpener operators.now at }
    ensures only { HasBareOpener operators.now at → IsTrue result }
{
    match operator_at(operators, at) {
        Some(operator) => opens_bare(&operator),
        None => false,
    }
}

// Whether a branch before the operator takes nothing to that label.
pub(crate) fn takes_nothing(
    operators: &[OperatorAndByteOffset],
    blocks: &Blocks,
    at: usize,
    label: u8,
) -> bool
    requires { at < length operators.now }
    ensures same { IsTrue result → AreBlocks operators.now blocks.now
        → TakesNothing (take at (without_offsets operators.now)) label }
    ensures only { AreBlocks operators.now blocks.now
        → TakesNothing (take at (without_offsets operators.now)) label → IsTrue result }
{
    match blocks.opener_of(at, label) {
        Some(place) => has_bare(operators, place),
        None => false,
    }
}
