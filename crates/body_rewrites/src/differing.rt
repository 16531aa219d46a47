//! Whether what is written is other than what stood there.
ghost use Rattle.std.specs.Prelude.{◌↔◌, ◌≤◌, length, IsTrue};
ghost use Rattle.std.specs.List.{All};
ghost use Rattle.body_splices.specs.Laws.{AreInstructions};
ghost use Rattle.body_rewrites.specs.Open.{HasInstruction};
ghost use Rattle.body_rewrites.specs.Rewrites.{Differ};
ghost use Rattle.body_rewrites.specs.Differing.{IsTreeIn, IsKept, IsKeptRange, IsBehindPiece, IsBehindKept, IsBehindNew, ArePieces};

use crate::cutting::tree_at;
use crate::matching::{are_equal, are_same};
use crate::trees::{Tree, instr_at};
use body_splices::Piece;
use wasm_code::{Instr, OperatorAndByteOffset};

// Whether that instruction stands at the index.
fn has_instr(operators: &[OperatorAndByteOffset], at: usize, instr: &Instr) -> bool
    ensures same { IsTrue result → HasInstruction operators.now at instr.now }
    ensures only { HasInstruction operators.now at instr.now → IsTrue result }
{
    let Some(there) = instr_at(operators, at) else {
        return false;
    };
    are_equal(&there, instr)
}

// Whether a tree begins at `start` and ends before `end`, or nothing stands between them.
fn is_tree_in(trees: &[Option<Tree>], start: usize, end: usize) -> bool
    requires { start ≤ end }
    ensures { IsTreeIn trees.now start end → IsTrue result }
{
    if start == end {
        return true;
    }
    match tree_at(trees, end - 1) {
        Some(tree) => tree.start == start,
        None => false,
    }
}

// Behind which operator the code ends that is that of the other range, and stands from `at` on; none where it doesn't stand there
// before `end`. Where no tree has that length there, it doesn't, and that is seen at once.
fn behind_kept(
    operators: &[OperatorAndByteOffset],
    trees: &[Option<Tree>],
    at: usize,
    end: usize,
    kept: (usize, usize),
) -> Option<usize>
    requires range { (at ≤ end) × (end ≤ length operators.now) }
    requires code { AreInstructions operators.now at end }
    requires kept { IsKeptRange operators.now trees.now kept }
    ensures { IsBehindKept operators.now kept at end result }
{
    let count = kept.1 - kept.0;
    if end - at < count {
        return None;
    }
    let next = at + count;
    if at == kept.0 {
        return Some(next);
    }
    if !is_tree_in(trees, at, next) {
        return None;
    }
    if !are_same(operators, (at, next), kept) {
        return None;
    }
    Some(next)
}

// The operator behind the one at `at`, where that instruction stands there, before `end`; else none.
fn behind_new(
    operators: &[OperatorAndByteOffset],
    at: usize,
    end: usize,
    instr: &Instr,
) -> Option<usize>
    requires { end ≤ length operators.now }
    ensures { IsBehindNew operators.now instr.now at end result }
{
    if at >= end {
        return None;
    }
    if !has_instr(operators, at, instr) {
        return None;
    }
    Some(at + 1)
}

// Behind which operator the piece's operators end, which stand from `at` on; none where they don't stand there before `end`.
fn behind_piece(
    operators: &[OperatorAndByteOffset],
    trees: &[Option<Tree>],
    at: usize,
    end: usize,
    piece: Piece,
) -> Option<usize>
    requires range { (at ≤ end) × (end ≤ length operators.now) }
    requires code { AreInstructions operators.now at end }
    requires piece { IsKept operators.now trees.now piece }
    ensures { IsBehindPiece operators.now piece at end result }
{
    match piece {
        Piece::Kept { start, end: last } => behind_kept(operators, trees, at, end, (start, last)),
        Piece::New(instr) => behind_new(operators, at, end, &instr),
        // No line writes one.
        Piece::Structural(_) => unreachable!(),
    }
}

// Whether the pieces are the operators from `start` to before `end`.
fn are_there(
    operators: &[OperatorAndByteOffset],
    trees: &[Option<Tree>],
    start: usize,
    end: usize,
    pieces: &[Piece],
) -> bool
    requires range { (start ≤ end) × (end ≤ length operators.now) }
    requires code { AreInstructions operators.now start end }
    requires pieces { All (IsKept operators.now trees.now) pieces.now }
    ensures same { IsTrue result → ArePieces operators.now start end pieces.now }
    ensures only { ArePieces operators.now start end pieces.now → IsTrue result }
{
    let mut at = start;
    for i in 0..pieces.len() {
        let Some(next) = behind_piece(operators, trees, at, end, pieces[i]) else {
            return false;
        };
        at = next;
    }
    at == end
}

// Whether the pieces are other operators than those from `start` to before `end`, which are instructions.
//
// It ends at the first difference. Operands that changed places are compared only where both are of one length, so that in all
// operators of a body, each asked once, it takes time linear in the body but for the logarithm of its length: what is compared stands
// twice, in code at least twice as long.
pub(crate) fn differ(
    operators: &[OperatorAndByteOffset],
    trees: &[Option<Tree>],
    start: usize,
    end: usize,
    pieces: &[Piece],
) -> bool
    requires range { (start ≤ end) × (end ≤ length operators.now) }
    requires code { AreInstructions operators.now start end }
    requires pieces { All (IsKept operators.now trees.now) pieces.now }
    ensures { IsTrue result ↔ Differ operators.now start end pieces.now }
{
    !are_there(operators, trees, start, end, pieces)
}
