//! Basic blocks.

ghost use Rattle.std.specs.Prelude.{◌≡◌, ◌↔◌, ◌+◌, ◌<◌, ◌≤◌, ℕ, length, IsTrue, IfSome, IfNone};
ghost use Rattle.peephole_graphs.specs.Block.{HasNoDelimiter, IsDelimiterAt, IsBlockIn, IsBlockOf};

use std::marker::Model;
use std::ops::Range;
use wasm_code::OperatorAndByteOffset;

/// A basic block: a range of a body's operators that holds no delimiter.
#[derive(Debug, Drop)]
pub struct BBlock {
    start: usize,
    end: usize,
}

impl Model for BBlock {
    ghost use Rattle.std.specs.Prelude.{◌≤◌};
    ghost use Rattle.peephole_graphs.specs.Block.{BlockRange};

    ghost Value = { BlockRange };

    ghost view = { λ b. record { start = b.start; end = b.end } };

    ghost invariant = { λ b. b.start ≤ b.end };
}

// The first operator of the block that ends with the one at the index; behind it where that is a delimiter.
fn block_start(index: usize, operators: &[OperatorAndByteOffset]) -> usize
    requires { index < length operators.now }
    ensures within { result ≤ index + 1 }
    ensures none { HasNoDelimiter operators.now result (index + 1) }
    ensures longest { (from : ℕ) → HasNoDelimiter operators.now from (index + 1) → result ≤ from }
{
    let mut start = index + 1;
    while start > 0 {
        if operators[start - 1].0.is_delimiter() {
            return start;
        }
        start -= 1;
    }
    start
}

// Whether none of the operators of the range is a delimiter.
fn has_no_delimiter(start: usize, end: usize, operators: &[OperatorAndByteOffset]) -> bool
    requires { end ≤ length operators.now }
    ensures { IsTrue result ↔ HasNoDelimiter operators.now start end }
{
    for index in start..end {
        if operators[index].0.is_delimiter() {
            return false;
        }
    }
    true
}

impl BBlock {
    // The range from `start` to `end`.
    fn between(start: usize, end: usize) -> BBlock
        requires { start ≤ end }
        ensures { result ≡ record { start = start; end = end } }
    {
        BBlock { start, end }
    }

    /// The block with the range from `start` to `end`, the operator at `end` no longer of it. None exactly where the range is
    /// empty, passes the operators' end, or holds a delimiter. It takes time linear in the range.
    pub fn of_range(start: usize, end: usize, operators: &[OperatorAndByteOffset]) -> Option<BBlock>
        ensures block { IfSome result (λ b. (b ≡ record { start = start; end = end })
            × IsBlockIn operators.now b) }
        ensures none { IfNone result
            (¬ (IsBlockIn operators.now (record { start = start; end = end }))) }
    {
        if start >= end || end > operators.len() {
            return None;
        }
        if !has_no_delimiter(start, end, operators) {
            return None;
        }
        Some(BBlock::between(start, end))
    }

    /// The block of the operator at `index`: the longest range of operators that ends with it and holds no delimiter. None
    /// exactly where the operator is a delimiter. Condition: the operator is there.
    pub fn of_operator(index: usize, operators: &[OperatorAndByteOffset]) -> Option<BBlock>
        requires { index < length operators.now }
        ensures block { IfSome result (λ b. IsBlockOf operators.now index b.start b.end) }
        ensures inside { IfSome result (λ b. IsBlockIn operators.now b) }
        ensures none { IfNone result (IsDelimiterAt operators.now index) }
    {
        let start = block_start(index, operators);
        if start > index {
            return None;
        }
        Some(BBlock::between(start, index + 1))
    }

    /// The indexes, in the body, of the block's operators.
    pub fn range(&self) -> Range<usize>
        ensures start { result.start ≡ self.now.start }
        ensures end { result.end ≡ self.now.end }
        ensures ordered { self.now.start ≤ self.now.end }
    {
        self.start..self.end
    }
}
