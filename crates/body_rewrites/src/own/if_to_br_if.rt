//! A conditional with nothing but a branch in it → a branch under a condition.
ghost use Rattle.std.specs.Prelude.{◌≡◌, ℕ, IsTrue, IfSome, IfNone, Some, slice_get};
ghost use Rattle.wasm_code.specs.declared.immediate.BlockType.TheVariants.{Empty};
ghost use Rattle.wasm_code.specs.declared.operator.Operator.TheVariants.{End, If};
ghost use Rattle.body_splices.specs.OwnBytes.{without_offsets};
ghost use Rattle.wasm_execution.specs.Values.{Context};
ghost use Rattle.rewrite_rules.specs.declared.table.Own.TheVariants.{IfToBrIf};
ghost use Rattle.body_rewrites.specs.OwnSites.{HasOuterBranch, IsOuterBranch, IsSiteOf};

use crate::own::unwrap::operator_at;
use crate::own::{Made, Site};
use wasm_code::{BlockType, Operator, OperatorAndByteOffset};

// Whether a conditional begins there whose parts give nothing.
fn has_bare_if(operators: &[OperatorAndByteOffset], at: usize) -> bool
    ensures same { IsTrue result → slice_get (without_offsets operators.now) at ≡ Some (If Empty) }
    ensures only { slice_get (without_offsets operators.now) at ≡ Some (If Empty) → IsTrue result }
{
    match operator_at(operators, at) {
        Some(Operator::If(BlockType::Empty)) => true,
        _ => false,
    }
}

// Whether the end of a block stands there.
fn has_end(operators: &[OperatorAndByteOffset], at: usize) -> bool
    ensures same { IsTrue result → slice_get (without_offsets operators.now) at ≡ Some End }
    ensures only { slice_get (without_offsets operators.now) at ≡ Some End → IsTrue result }
{
    match operator_at(operators, at) {
        Some(Operator::End) => true,
        _ => false,
    }
}

// The label of the operator, one further in, where it is a branch to one around the innermost; one byte holds it.
fn outer_of(operator: Operator) -> Option<u8>
    ensures some { IfSome result (IsOuterBranch operator) }
    ensures none { IfNone result ((label : ℕ) → ¬ (IsOuterBranch operator label)) }
{
    match operator {
        Operator::Br(label) if label > 0 && label <= 256 => Some((label - 1) as u8),
        _ => None,
    }
}

// That of the one that stands there.
fn outer_at(operators: &[OperatorAndByteOffset], at: usize) -> Option<u8>
    ensures some { IfSome result (HasOuterBranch operators.now at) }
    ensures none { IfNone result ((label : ℕ) → ¬ (HasOuterBranch operators.now at label)) }
{
    match operator_at(operators, at) {
        Some(operator) => outer_of(operator),
        None => None,
    }
}

// Where the rule applies at the operator, and what it makes there.
pub(crate) fn find(operators: &[OperatorAndByteOffset], at: usize) -> Option<Site>
    ensures { (context : Context) → IsSiteOf context operators.now IfToBrIf at result }
{
    if at >= operators.len() || at + 1 >= operators.len() || at < 2 {
        return None;
    }
    if !has_end(operators, at) {
        return None;
    }
    let Some(label) = outer_at(operators, at - 1) else {
        return None;
    };
    let start = at - 2;
    if !has_bare_if(operators, start) {
        return None;
    }
    Some(Site {
        start,
        made: Made::BranchIf(label),
    })
}
