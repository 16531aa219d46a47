//! Constants and variables, and conditions that write nothing: what selects and conditionals are made of.
ghost use Rattle.std.specs.Prelude.{◌≡◌, ◌↔◌, ℕ, List, IsTrue, IfSome, IfNone};
ghost use Rattle.wasm_code.specs.declared.immediate.ValType.{ValType as BlockValue};
ghost use Rattle.wasm_code.specs.declared.operator.Operator.{Operator};
ghost use Rattle.wasm_types.specs.declared.types.PrimitiveTypeInfo.{PrimitiveTypeInfo as ValueType};
ghost use Rattle.wasm_execution.specs.Values.{Context};
ghost use Rattle.rewrite_rules.specs.Flow.{is_leaf};
ghost use Rattle.body_rewrites.specs.Trees.{AreTrees};
ghost use Rattle.body_rewrites.specs.Own.{AreLeaves, IsLeafAt, IsReadBefore};

use crate::cutting::tree_at;
use crate::own::conditions::is_i32;
use crate::trees::{Tree, instr_at};
use rewrite_rules::value_of;
use wasm_code::{Instr, OperatorAndByteOffset, ValType};
use wasm_execution::{Row, integer_row};
use wasm_types::PrimitiveTypeInfo;

// Whether the instruction is a constant or reads a variable.
fn is_leaf(instr: &Instr) -> bool
    ensures { result ≡ is_leaf instr.now }
{
    match integer_row(instr) {
        Row::Constant(_, _) => true,
        Row::Get(_) => true,
        _ => false,
    }
}

// The type of the constant or variable that stands there.
fn leaf_at(
    operators: &[OperatorAndByteOffset],
    trees: &[Option<Tree>],
    at: usize,
) -> Option<PrimitiveTypeInfo>
    ensures some { IfSome result (λ t. (context : Context)
        → AreTrees context operators.now trees.now → IsLeafAt context operators.now at t) }
    ensures none { IfNone result ((context : Context)
        → AreTrees context operators.now trees.now → (t : ValueType)
        → ¬ (IsLeafAt context operators.now at t)) }
{
    let Some(instr) = instr_at(operators, at) else {
        return None;
    };
    if !is_leaf(&instr) {
        return None;
    }
    let Some(tree) = tree_at(trees, at) else {
        return None;
    };
    if tree.start != at {
        return None;
    }
    Some(tree.gives)
}

// Whether both are one type.
fn is_same(one: PrimitiveTypeInfo, other: PrimitiveTypeInfo) -> bool
    ensures { IsTrue result ↔ (one ≡ other) }
{
    one == other
}

// The type of values of the two that stand there, where both are of one.
pub(crate) fn leaves_at(
    operators: &[OperatorAndByteOffset],
    trees: &[Option<Tree>],
    first: usize,
    second: usize,
) -> Option<ValType>
    ensures some { IfSome result (λ v. (context : Context)
        → AreTrees context operators.now trees.now
        → AreLeaves context operators.now first second v) }
    ensures none { IfNone result ((context : Context)
        → AreTrees context operators.now trees.now → (v : BlockValue)
        → ¬ (AreLeaves context operators.now first second v)) }
{
    let Some(one) = leaf_at(operators, trees, first) else {
        return None;
    };
    let Some(other) = leaf_at(operators, trees, second) else {
        return None;
    };
    if !is_same(one, other) {
        return None;
    }
    let Some(value) = value_of(one) else {
        return None;
    };
    Some(value)
}

// Where the tree of 32 bits begins that ends right before the operator, if it writes nothing.
pub(crate) fn read_before(trees: &[Option<Tree>], end: usize) -> Option<usize>
    ensures some { IfSome result (λ start. (context : Context)
        (operators : List (Operator × ℕ)) → AreTrees context operators trees.now
        → IsReadBefore context operators start end) }
    ensures none { IfNone result ((context : Context) (operators : List (Operator × ℕ))
        → AreTrees context operators trees.now → (start : ℕ)
        → ¬ (IsReadBefore context operators start end)) }
{
    if end == 0 {
        return None;
    }
    let Some(tree) = tree_at(trees, end - 1) else {
        return None;
    };
    if !is_i32(tree.gives) {
        return None;
    }
    if tree.writes {
        return None;
    }
    Some(tree.start)
}
