//! Conditions of branches and of conditionals.
ghost use Rattle.std.specs.Prelude.{◌≡◌, ◌↔◌, ℕ, IsTrue, IfSome, IfNone};
ghost use Rattle.wasm_types.specs.declared.types.PrimitiveTypeInfo.TheVariants as primitive;
ghost use Rattle.wrapped_code.specs.Conditions.{is_condition};
ghost use Rattle.wasm_execution.specs.Values.{Context};
ghost use Rattle.body_rewrites.specs.Trees.{AreTrees};
ghost use Rattle.body_rewrites.specs.Own.{HasCondition};
ghost use Rattle.body_rewrites.specs.OwnSites.{IsAskedBehind};

use crate::cutting::tree_at;
use crate::own::unwrap::operator_at;
use crate::trees::Tree;
use wasm_code::{Operator, OperatorAndByteOffset};
use wasm_types::PrimitiveTypeInfo;

// Whether it is the type of numbers of 32 bits.
pub(crate) fn is_i32(t: PrimitiveTypeInfo) -> bool
    ensures { IsTrue result ↔ (t ≡ primitive.I32) }
{
    match t {
        PrimitiveTypeInfo::I32 => true,
        _ => false,
    }
}

// Whether the operator asks whether a number is zero.
fn is_condition(operator: &Operator) -> bool
    ensures { result ≡ is_condition operator.now }
{
    match operator {
        Operator::BrIf(_) => true,
        Operator::If(_) => true,
        _ => false,
    }
}

// Whether such an operator stands there.
fn has_condition(operators: &[OperatorAndByteOffset], at: usize) -> bool
    ensures same { IsTrue result → HasCondition operators.now at }
    ensures only { HasCondition operators.now at → IsTrue result }
{
    match operator_at(operators, at) {
        Some(operator) => is_condition(&operator),
        None => false,
    }
}

// Where the tree of 32 bits begins whose last operator is that one, if such an operator stands at the other place.
pub(crate) fn asked(
    operators: &[OperatorAndByteOffset],
    trees: &[Option<Tree>],
    last: usize,
    behind: usize,
) -> Option<usize>
    ensures some { IfSome result (λ start. (context : Context)
        → AreTrees context operators.now trees.now
        → IsAskedBehind context operators.now start last behind) }
    ensures none { IfNone result ((context : Context)
        → AreTrees context operators.now trees.now → (start : ℕ)
        → ¬ (IsAskedBehind context operators.now start last behind)) }
{
    let Some(tree) = tree_at(trees, last) else {
        return None;
    };
    if !is_i32(tree.gives) {
        return None;
    }
    if !has_condition(operators, behind) {
        return None;
    }
    Some(tree.start)
}
