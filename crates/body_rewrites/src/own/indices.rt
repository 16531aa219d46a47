//! Indices of branches by a table, and what bounds them.
ghost use Rattle.std.specs.Prelude.{◌≡◌, ◌↔◌, ℕ, List, IsTrue, IfSome, IfNone};
ghost use Rattle.wasm_code.specs.declared.operator.Operator.{Operator as OperatorOf};
ghost use Rattle.wasm_execution.specs.Values.{Context};
ghost use Rattle.wasm_execution.specs.declared.integer.IntegerType.TheVariants as integer;
ghost use Rattle.rewrite_rules.specs.Instance.{constant_code};
ghost use Rattle.body_rewrites.specs.Open.{HasInstruction};
ghost use Rattle.body_rewrites.specs.Trees.{AreTrees};
ghost use Rattle.body_rewrites.specs.Own.{HasTable};
ghost use Rattle.body_rewrites.specs.OwnSites.{IsBoundAt, IsSettledBefore, IsTableOperator};

use crate::cutting::tree_at;
use crate::instructions::{constant, is_bare_at};
use crate::matching::are_equal;
use crate::own::leaves::read_before;
use crate::own::unwrap::operator_at;
use crate::trees::{Tree, instr_at};
use wasm_code::{Operator, OperatorAndByteOffset};
use wasm_execution::IntegerType;

// The number of labels of the operator, where it is a branch by a table.
fn labels_of(operator: Operator) -> Option<u32>
    ensures some { IfSome result (IsTableOperator operator) }
    ensures none { IfNone result ((n : ℕ) → ¬ (IsTableOperator operator n)) }
{
    match operator {
        Operator::BrTable(count) => Some(count),
        _ => None,
    }
}

// That of the branch by a table that stands there.
pub(crate) fn table_at(operators: &[OperatorAndByteOffset], at: usize) -> Option<u32>
    ensures some { IfSome result (HasTable operators.now at) }
    ensures none { IfNone result ((count : ℕ) → ¬ (HasTable operators.now at count)) }
{
    match operator_at(operators, at) {
        Some(operator) => labels_of(operator),
        None => None,
    }
}

// Whether the number stands there as a constant of 32 bits.
pub(crate) fn has_number(operators: &[OperatorAndByteOffset], at: usize, number: u32) -> bool
    ensures { IsTrue result ↔ HasInstruction operators.now at (constant_code integer.I32 number) }
{
    let wanted = constant(IntegerType::I32, number as u64);
    match instr_at(operators, at) {
        Some(instr) => are_equal(&instr, &wanted),
        None => false,
    }
}

// Where the tree of 32 bits begins that ends right before the operator, if it writes nothing and doesn't ask the world: then it has the
// same value twice.
pub(crate) fn settled_before(trees: &[Option<Tree>], end: usize) -> Option<usize>
    ensures some { IfSome result (λ start. (context : Context)
        (operators : List (OperatorOf × ℕ)) → AreTrees context operators trees.now
        → IsSettledBefore context operators start end) }
    ensures none { IfNone result ((context : Context) (operators : List (OperatorOf × ℕ))
        → AreTrees context operators trees.now → (start : ℕ)
        → ¬ (IsSettledBefore context operators start end)) }
{
    if end == 0 {
        return None;
    }
    let Some(tree) = tree_at(trees, end - 1) else {
        return None;
    };
    if tree.asks {
        return None;
    }
    read_before(trees, end)
}

// Where the number of labels stands that the select at the operator bounds an index by, and that number; none where it doesn't.
pub(crate) fn bound_at(operators: &[OperatorAndByteOffset], at: usize) -> Option<(usize, u32)>
    ensures some { IfSome result (λ b. IsBoundAt operators.now b.0 at b.1) }
    ensures none { IfNone result ((place count : ℕ)
        → ¬ (IsBoundAt operators.now place at count)) }
{
    if at >= operators.len() || at < 2 {
        return None;
    }
    let Some(count) = table_at(operators, at + 1) else {
        return None;
    };
    if !is_bare_at(operators, at, 3) {
        return None;
    }
    if !is_bare_at(operators, at - 1, 44) {
        return None;
    }
    if !has_number(operators, at - 2, count) {
        return None;
    }
    Some((at - 2, count))
}
