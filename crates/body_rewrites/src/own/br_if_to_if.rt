//! A branch under a condition → a conditional, and in it the branch.
ghost use Rattle.std.specs.Prelude.{ℕ, IfSome, IfNone};
ghost use Rattle.wasm_execution.specs.Values.{Context};
ghost use Rattle.rewrite_rules.specs.declared.table.Own.TheVariants.{BrIfToIf};
ghost use Rattle.body_rewrites.specs.Blocks.{AreBlocks};
ghost use Rattle.body_rewrites.specs.OwnSites.{HasBranchIf, IsBranchIf, IsSiteOf};

use crate::blocks::Blocks;
use crate::own::branches::takes_nothing;
use crate::own::unwrap::operator_at;
use crate::own::{Made, Site};
use wasm_code::{Operator, OperatorAndByteOffset};

// The label of the operator, where it is a branch under a condition; one byte holds it, and the next one.
fn label_of(operator: Operator) -> Option<u8>
    ensures some { IfSome result (IsBranchIf operator) }
    ensures none { IfNone result ((label : ℕ) → ¬ (IsBranchIf operator label)) }
{
    match operator {
        Operator::BrIf(label) if label < 255 => Some(label as u8),
        _ => None,
    }
}

// That of the one that stands there.
fn label_at(operators: &[OperatorAndByteOffset], at: usize) -> Option<u8>
    ensures some { IfSome result (HasBranchIf operators.now at) }
    ensures none { IfNone result ((label : ℕ) → ¬ (HasBranchIf operators.now at label)) }
{
    match operator_at(operators, at) {
        Some(operator) => label_of(operator),
        None => None,
    }
}

// Where the rule applies at the operator, and what it makes there.
pub(crate) fn find(operators: &[OperatorAndByteOffset], blocks: &Blocks, at: usize) -> Option<Site>
    ensures { (context : Context) → AreBlocks operators.now blocks.now
        → IsSiteOf context operators.now BrIfToIf at result }
{
    if at >= operators.len() {
        return None;
    }
    if !blocks.has_room() {
        return None;
    }
    let Some(label) = label_at(operators, at) else {
        return None;
    };
    if !takes_nothing(operators, blocks, at, label) {
        return None;
    }
    Some(Site {
        start: at,
        made: Made::InConditional(label),
    })
}
