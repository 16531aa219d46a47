//! The blocks of a body, found in one pass: the innermost one that is open before each operator, and how deep they nest.
ghost use Rattle.std.specs.Prelude.{◌≡◌, ◌<◌, ◌+◌, ℕ, List, length, IsTrue, IfOk};
ghost use Rattle.wasm_code.specs.declared.operator.Operator.{Operator as BodyOperator};
ghost use Rattle.wrapped_code.specs.Opened.{opens_block};
ghost use Rattle.body_rewrites.specs.Blocks.{AreBlocks, AreInnermost, HasRoomForBlock, IsNest, IsOpenerOf, outer_at};

use std::alloc::{AllocError, Global};
use wasm_code::{Operator, OperatorAndByteOffset};

/// The blocks of a body.
#[derive(Drop)]
pub struct Blocks {
    /// For each operator where the innermost block begins that is open before it; none where none is.
    pub innermost: Vec<Option<usize>>,
    /// How many are open where most are.
    pub deepest: usize,
}

// The blocks before an operator: where the innermost one begins, and how many are open.
#[derive(Clone, Copy)]
struct Nest {
    innermost: Option<usize>,
    depth: usize,
}

// Whether the operator opens a block.
fn opens_block(operator: &Operator) -> bool
    ensures { result ≡ opens_block operator.now }
{
    match operator {
        Operator::Block(_) => true,
        Operator::Loop(_) => true,
        Operator::If(_) => true,
        _ => false,
    }
}

// Where the innermost block begins before the operator at the index; none where none is open, or where there is no operator.
fn outer_at(innermost: &[Option<usize>], at: usize) -> Option<usize>
    ensures { result ≡ outer_at innermost.now at }
{
    innermost.get(at).copied().flatten()
}

impl Nest {
    // Behind the operator at `at`, by what is known of those up to it.
    fn next(
        &self,
        operators: &[OperatorAndByteOffset],
        innermost: &[Option<usize>],
        at: usize,
    ) -> Nest
        requires inside { at < length operators.now }
        requires nest { IsNest operators.now at self.now }
        requires known { AreInnermost operators.now (at + 1) innermost.now }
        ensures { IsNest operators.now (at + 1) result }
    {
        let operator = operators[at].0;
        if opens_block(&operator) {
            return Nest {
                innermost: Some(at),
                depth: self.depth + 1,
            };
        }
        match operator {
            Operator::End => Nest {
                innermost: self.innermost.and_then(|place| outer_at(innermost, place)),
                depth: self.depth.saturating_sub(1),
            },
            _ => *self,
        }
    }
}

/// The blocks of a body.
///
/// It takes time linear in the body, and one pass. The only error is that memory was refused.
pub fn blocks_of(alloc: Global, operators: &[OperatorAndByteOffset]) -> Result<Blocks, AllocError>
    ensures { IfOk result (λ blocks. AreBlocks operators.now blocks) }
{
    let mut innermost = Vec::new(alloc);
    let mut deepest = 0;
    let mut nest = Nest {
        innermost: None,
        depth: 0,
    };
    for at in 0..operators.len() {
        innermost.push(nest.innermost)?;
        nest = nest.next(operators, &innermost, at);
        deepest = deepest.max(nest.depth);
    }
    Ok(Blocks { innermost, deepest })
}

impl Blocks {
    // Whether nowhere so many blocks are open that there can't be one more.
    pub(crate) fn has_room(&self) -> bool
        ensures same { IsTrue result → (operators : List (BodyOperator × ℕ))
            → AreBlocks operators self.now → HasRoomForBlock operators }
        ensures only { (operators : List (BodyOperator × ℕ)) → AreBlocks operators self.now
            → HasRoomForBlock operators → IsTrue result }
    {
        self.deepest < 200
    }

    // Where the block begins whose label has that depth before the operator at `at`.
    pub(crate) fn opener_of(&self, at: usize, label: u8) -> Option<usize>
        ensures { (operators : List (BodyOperator × ℕ)) → AreBlocks operators self.now
            → at < length operators → IsOpenerOf operators at label result }
    {
        let mut place = at;
        for _ in 0..label {
            place = outer_at(&self.innermost, place)?;
        }
        outer_at(&self.innermost, place)
    }
}
