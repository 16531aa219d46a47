//! Where the parts of a pattern stand in a body.
ghost use Rattle.std.specs.Option.{option_flatten};
ghost use Rattle.std.specs.Prelude.{◌≡◌, ◌↔◌, ℕ, List, slice_get, IsTrue, IfSome, IfNone};
ghost use Rattle.wasm_code.specs.declared.operator.Operator.{Operator as BodyOperator};
ghost use Rattle.wasm_execution.specs.Values.{Context};
ghost use Rattle.rewrite_rules.specs.Instance.{operator_code};
ghost use Rattle.body_rewrites.specs.Trees.{AreTrees};
ghost use Rattle.body_rewrites.specs.Cutting.{IsConstant, IsStartAt, IsTreeTold, HasPart, AreCut};

use crate::parts::Parts;
use crate::trees::{Tree, instr_at};
use arrayvec::ArrayVec;
use rewrite_rules::{Operator, Part};
use wasm_code::{Imm, Instr, OperatorAndByteOffset};
use wasm_execution::IntegerType;

// The number of a constant of the type.
pub(crate) fn number_of(instr: &Instr, t: IntegerType) -> Option<u64>
    ensures some { IfSome result (IsConstant t instr.now) }
    ensures none { IfNone result ((n : ℕ) → ¬ (IsConstant t instr.now n)) }
{
    let row = instr.row();
    match (instr.imm(), t) {
        (Imm::I32(z), IntegerType::I32) if row == 36 => Some(z.cast_unsigned() as u64),
        (Imm::I64(z), IntegerType::I64) if row == 37 => Some(z.cast_unsigned()),
        _ => None,
    }
}

// Whether the instruction is the operator's.
pub(crate) fn is_operator(instr: &Instr, operator: Operator) -> bool
    ensures { IsTrue result ↔ (instr.now ≡ operator_code operator) }
{
    let same_row = instr.row() == operator.row();
    let same_immediate = instr.imm() == operator.immediate();
    same_row && same_immediate
}

// The tree of the operator at the index, if it has one.
pub(crate) fn tree_at(trees: &[Option<Tree>], at: usize) -> Option<Tree>
    ensures { result ≡ option_flatten (slice_get trees.now at) }
{
    trees.get(at).copied().flatten()
}

// Where the tree of the operator at the index begins, if it has one.
fn tree_start(trees: &[Option<Tree>], at: usize) -> Option<usize>
    ensures { (context : Context) (operators : List (BodyOperator × ℕ))
        → AreTrees context operators trees.now → IsStartAt context operators at result }
{
    match tree_at(trees, at) {
        Some(tree) => Some(tree.start),
        None => None,
    }
}

/// Whether the operator at the index has a tree.
pub(crate) fn has_tree(trees: &[Option<Tree>], at: usize) -> bool
    ensures { (context : Context) (operators : List (BodyOperator × ℕ))
        → AreTrees context operators trees.now → IsTreeTold context operators at result }
{
    match tree_start(trees, at) {
        Some(_) => true,
        None => false,
    }
}

// Where the part's code begins that ends before `end`, where some does.
fn part_start(
    operators: &[OperatorAndByteOffset],
    trees: &[Option<Tree>],
    part: Part,
    end: usize,
) -> Option<usize>
    ensures some { IfSome result (λ k. (context : Context)
        → AreTrees context operators.now trees.now → HasPart context operators.now part k end) }
    ensures none { IfNone result ((context : Context) → AreTrees context operators.now trees.now
        → (k : ℕ) → ¬ (HasPart context operators.now part k end)) }
{
    if end == 0 {
        return None;
    }
    let at = end - 1;
    match part {
        Part::Hole(_) => tree_start(trees, at),
        Part::Constant(t, _) => {
            let instr = instr_at(operators, at)?;
            number_of(&instr, t)?;
            Some(at)
        }
        Part::Drawn(_) => None,
        Part::Apply(operator) => {
            let instr = instr_at(operators, at)?;
            is_operator(&instr, operator).then_some(at)
        }
    }
}

/// Where each part of a pattern begins, the last one first, in the code of a body that ends before `end`; none where it isn't there.
///
/// It takes time linear in the number of parts, whatever stands in the holes.
pub(crate) fn cuts(
    operators: &[OperatorAndByteOffset],
    trees: &[Option<Tree>],
    parts: &Parts<'_>,
    end: usize,
) -> Option<ArrayVec<usize, 7>>
    ensures some { IfSome result (λ v. (context : Context)
        → AreTrees context operators.now trees.now
        → AreCut context operators.now parts.now v.items end) }
    ensures none { IfNone result ((context : Context)
        → AreTrees context operators.now trees.now → (starts : List ℕ)
        → ¬ (AreCut context operators.now parts.now starts end)) }
{
    let mut starts = ArrayVec::new();
    let mut at = end;
    for i in 0..parts.len() {
        let Some(start) = part_start(operators, trees, parts.at(i), at) else {
            return None;
        };
        starts.push(start);
        at = start;
    }
    Some(starts)
}
