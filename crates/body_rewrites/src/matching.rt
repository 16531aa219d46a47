//! What stands in the holes of a pattern that stands in a body, and the numbers of its constants.
ghost use Rattle.std.specs.Prelude.{◌≡◌, ◌↔◌, ◌≤◌, ℕ, List, length, IsTrue, IfSome, IfNone};
ghost use Rattle.wasm_execution.specs.Values.{Context};
ghost use Rattle.rewrite_rules.specs.declared.pattern.Part.{Part};
ghost use Rattle.body_rewrites.specs.Trees.{AreTrees};
ghost use Rattle.wasm_code.specs.declared.operator.Operator.{Operator as BodyOperator};
ghost use Rattle.body_rewrites.specs.Cutting.{AreCut};
ghost use Rattle.body_rewrites.specs.Operands.{IsOperandOf};
ghost use Rattle.body_rewrites.specs.Matching.{operand_at, operand_of, number_at, slot_at, HaveSame, HaveSameCode, HasSomePart, HasSomeCode, HasSomeCut, IsAlike, AreAllAlike, AreOwn, HasSomeTrees, HasMatch, HasSomeMatch};

use crate::cutting::{cuts, tree_at};
use crate::parts::Parts;
use crate::trees::{Tree, instr_at};
use arrayvec::ArrayVec;
use rewrite_rules::Part;
use wasm_code::{Imm, Instr, OperatorAndByteOffset};

// Where the code in the hole with the index begins, and before which operator it ends.
pub(crate) fn operand_at(
    parts: &Parts<'_>,
    starts: &[usize],
    end: usize,
    index: u8,
) -> (usize, usize)
    requires { length starts.now ≡ length parts.now }
    ensures { result ≡ operand_at parts.now starts.now end index }
{
    let mut at = end;
    for i in 0..parts.len() {
        if parts.is_hole(i, index) {
            return (starts[i], at);
        }
        at = starts[i];
    }
    (0, 0)
}

// The number of the constant at the index, and 0 where none stands there.
fn number_at(operators: &[OperatorAndByteOffset], at: usize) -> u64
    ensures { result ≡ number_at operators.now at }
{
    let Some(instr) = instr_at(operators, at) else {
        return 0;
    };
    match instr.imm() {
        Imm::I32(number) => number.cast_unsigned() as u64,
        Imm::I64(number) => number.cast_unsigned(),
        _ => 0,
    }
}

// The number of the constant with that slot, and 0 where there is none.
fn slot_at(
    operators: &[OperatorAndByteOffset],
    parts: &Parts<'_>,
    starts: &[usize],
    index: u8,
) -> u64
    requires { length starts.now ≡ length parts.now }
    ensures { result ≡ slot_at operators.now parts.now starts.now index }
{
    for i in 0..parts.len() {
        if parts.is_slot(i, index) {
            return number_at(operators, starts[i]);
        }
    }
    0
}

// Whether both are the same instruction.
pub(crate) fn are_equal(one: &Instr, other: &Instr) -> bool
    ensures { IsTrue result ↔ (one.now ≡ other.now) }
{
    let same_row = one.row() == other.row();
    let same_imm = one.imm() == other.imm();
    same_row && same_imm
}

// Whether the same instruction stands at both indices.
fn have_same(operators: &[OperatorAndByteOffset], at: usize, other: usize) -> bool
    ensures same { IsTrue result → HaveSame operators.now at other }
    ensures only { HaveSame operators.now at other → IsTrue result }
{
    let Some(one) = instr_at(operators, at) else {
        return false;
    };
    let Some(two) = instr_at(operators, other) else {
        return false;
    };
    are_equal(&one, &two)
}

// Whether the same instructions stand in both ranges, each of which is a start and the index behind its last operator.
pub(crate) fn are_same(
    operators: &[OperatorAndByteOffset],
    one: (usize, usize),
    other: (usize, usize),
) -> bool
    requires one { (one.0 ≤ one.1) × (one.1 ≤ length operators.now) }
    requires other { (other.0 ≤ other.1) × (other.1 ≤ length operators.now) }
    ensures same { IsTrue result → HaveSameCode operators.now one other }
    ensures only { HaveSameCode operators.now one other → IsTrue result }
{
    let count = one.1 - one.0;
    if other.1 - other.0 != count {
        return false;
    }
    for i in 0..count {
        if !have_same(operators, one.0 + i, other.0 + i) {
            return false;
        }
    }
    true
}

// The operand in the part's hole, and (0, 0) where it is none.
fn operand_of(parts: &Parts<'_>, starts: &[usize], end: usize, part: Part) -> (usize, usize)
    requires { length starts.now ≡ length parts.now }
    ensures { result ≡ operand_of parts.now starts.now end part }
{
    match part {
        Part::Hole(index) => operand_at(parts, starts, end, index),
        _ => (0, 0),
    }
}

// Whether the same instructions stand in both ranges, in the second of which some stand.
fn have_same_code(
    operators: &[OperatorAndByteOffset],
    place: (usize, usize),
    operand: (usize, usize),
) -> bool
    requires place { (place.0 ≤ place.1) × (place.1 ≤ length operators.now) }
    requires operand { HasSomeCode operators.now operand }
    ensures same { IsTrue result → HaveSameCode operators.now place operand }
    ensures only { HaveSameCode operators.now place operand → IsTrue result }
{
    if place.0 == operand.0 && place.1 == operand.1 {
        return true;
    }
    are_same(operators, place, operand)
}

// Whether the part's code stands there, with that operand in a hole, and constants with these numbers.
fn is_alike(
    operators: &[OperatorAndByteOffset],
    part: Part,
    place: (usize, usize),
    operand: (usize, usize),
    numbers: &[u64],
) -> bool
    requires part { HasSomePart operators.now part place }
    requires operand { HasSomeCode operators.now operand }
    ensures same { IsTrue result → IsAlike operators.now part place operand numbers.now }
    ensures only { IsAlike operators.now part place operand numbers.now → IsTrue result }
{
    match part {
        Part::Hole(_) => have_same_code(operators, place, operand),
        Part::Constant(t, number) => number_at(operators, place.0) == number.value(t, numbers),
        _ => true,
    }
}

// Whether each part's code stands where the part does.
fn are_alike(
    operators: &[OperatorAndByteOffset],
    parts: &Parts<'_>,
    starts: &[usize],
    end: usize,
    numbers: &[u64],
) -> bool
    requires { HasSomeCut operators.now parts.now starts.now end }
    ensures same { IsTrue result → AreAllAlike operators.now parts.now starts.now end numbers.now }
    ensures only { AreAllAlike operators.now parts.now starts.now end numbers.now → IsTrue result }
{
    let mut at = end;
    for i in 0..parts.len() {
        let part = parts.at(i);
        let operand = operand_of(parts, starts, end, part);
        if !is_alike(operators, part, (starts[i], at), operand, numbers) {
            return false;
        }
        at = starts[i];
    }
    true
}

/// A pattern's left side in a body: where each of its parts begins, the last one first, and the numbers of the constants with slots.
#[derive(Drop)]
pub(crate) struct Match {
    pub starts: ArrayVec<usize, 7>,
    pub numbers: [u64; 2],
}

/// Where the parts of a pattern stand before `end`, the last one first, with the same operand where a hole stands twice, and constants
/// with the numbers that they have; none where they don't.
///
/// `trees` are the trees of the body's operators. It takes time quadratic in the number of parts, of which a side has seven at
/// most, and linear in what stands in a hole that stands twice.
pub(crate) fn find(
    operators: &[OperatorAndByteOffset],
    trees: &[Option<Tree>],
    parts: &Parts<'_>,
    end: usize,
) -> Option<Match>
    requires { HasSomeTrees operators.now trees.now }
    ensures some { IfSome result (λ m. (context : Context)
        → AreTrees context operators.now trees.now
        → HasMatch context operators.now parts.now m.starts.items end m.numbers) }
    ensures none { IfNone result ((context : Context)
        → AreTrees context operators.now trees.now → AreOwn parts.now
        → ¬ (HasSomeMatch context operators.now parts.now end)) }
{
    let Some(starts) = cuts(operators, trees, parts, end) else {
        return None;
    };
    let numbers = [
        slot_at(operators, parts, &starts, 0),
        slot_at(operators, parts, &starts, 1),
    ];
    if !are_alike(operators, parts, &starts, end, &numbers) {
        return None;
    }
    Some(Match { starts, numbers })
}

/// The tree that stands there, which is the operand in a hole: its type, and what its code may do; none where the pattern has no such
/// hole.
pub(crate) fn operand(trees: &[Option<Tree>], place: (usize, usize)) -> Option<Tree>
    ensures { (context : Context) (operators : List (BodyOperator × ℕ))
        (parts : List Part) (starts : List ℕ) (end index : ℕ)
        → place ≡ operand_at parts starts end index
        → AreTrees context operators trees.now
        → AreCut context operators parts starts end
        → IsOperandOf context operators parts starts end index result }
{
    let (_, behind) = place;
    if behind == 0 {
        return None;
    }
    tree_at(trees, behind - 1)
}
