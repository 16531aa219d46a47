//! Small bodies with pieces in the place of operators, each written by hand.
ghost use Rattle.std.specs.List.{All};
ghost use Rattle.std.specs.Prelude.{IfOk, IfSome};
ghost use Rattle.body_splices.specs.OwnBytes.{IsBodyIn};
ghost use Rattle.body_splices.specs.Splice.{IsPieceIn};

use crate::{Control, Piece, splice};
use std::alloc::Global;
use std::test::Fail;
use wasm_code::{Function, Imm, Instr, OperatorAndByteOffset, read_code};

/// A piece: operators that are kept, `i32.const` of a number, the row of an instruction without an immediate, or a structural
/// operator.
#[derive(Clone, Copy)]
enum Part {
    Kept(usize, usize),
    Constant(i32),
    Plain(u16),
    Nested(Control),
}

use Part::{Constant, Kept, Nested, Plain};

const ADD: u16 = 77;

const MULTIPLY: u16 = 79;

/// Behind a byte that isn't the body's: `block`, `local.get 0` and `i32.const 5`, both with a number that is longer than it needs to
/// be, `i32.add`, `drop`, `end`, `end`.
const BODY: &[u8] = b"\xff\x02\x40\x20\x80\0\x41\x85\x80\0\x6a\x1a\x0b\x0b";

/// From which operator up to which one, what stands in their place, and the body then, behind the byte that the sink holds.
type Case = (usize, usize, &'static [Part], &'static [u8]);

const CASES: [Case; 12] = [
    // The operands change places.
    (
        1,
        3,
        &[Kept(2, 3), Kept(1, 2)],
        b"\x07\x02\x40\x41\x85\x80\0\x20\x80\0\x6a\x1a\x0b\x0b",
    ),
    // An operand alone stays.
    (1, 4, &[Kept(1, 2)], b"\x07\x02\x40\x20\x80\0\x1a\x0b\x0b"),
    // An operand stands twice, with new instructions round it.
    (
        2,
        4,
        &[Kept(1, 2), Plain(MULTIPLY), Constant(128), Plain(ADD)],
        b"\x07\x02\x40\x20\x80\0\x20\x80\0\x6c\x41\x80\x01\x6a\x1a\x0b\x0b",
    ),
    // What stood there stays.
    (
        1,
        4,
        &[Kept(1, 4)],
        b"\x07\x02\x40\x20\x80\0\x41\x85\x80\0\x6a\x1a\x0b\x0b",
    ),
    // Nothing is replaced.
    (
        4,
        4,
        &[Constant(-1), Plain(ADD)],
        b"\x07\x02\x40\x20\x80\0\x41\x85\x80\0\x6a\x41\x7f\x6a\x1a\x0b\x0b",
    ),
    // Nothing is left but the body's end.
    (0, 6, &[], b"\x07\x0b"),
    // A block stands twice.
    (
        6,
        6,
        &[Kept(0, 2), Kept(4, 6)],
        b"\x07\x02\x40\x20\x80\0\x41\x85\x80\0\x6a\x1a\x0b\x02\x40\x20\x80\0\x1a\x0b\x0b",
    ),
    // A branch to the innermost label.
    (
        1,
        5,
        &[Nested(Control::Branch(0))],
        b"\x07\x02\x40\x0c\0\x0b\x0b",
    ),
    // To another one.
    (
        1,
        5,
        &[Nested(Control::Branch(5))],
        b"\x07\x02\x40\x0c\x05\x0b\x0b",
    ),
    // To one whose depth has two bytes.
    (
        1,
        5,
        &[Nested(Control::Branch(200))],
        b"\x07\x02\x40\x0c\xc8\x01\x0b\x0b",
    ),
    // A branch under a condition.
    (
        2,
        5,
        &[Nested(Control::BranchIf(1))],
        b"\x07\x02\x40\x20\x80\0\x0d\x01\x0b\x0b",
    ),
    // A conditional that gives nothing.
    (
        2,
        5,
        &[Nested(Control::BareIf), Nested(Control::End)],
        b"\x07\x02\x40\x20\x80\0\x04\x40\x0b\x0b\x0b",
    ),
];

/// The piece, where it stands in the body.
fn piece_in(operators: &[OperatorAndByteOffset], part: Part) -> Option<Piece>
    ensures { IfSome result (IsPieceIn operators.now) }
{
    match part {
        Part::Kept(start, end) => {
            if start <= end && end < operators.len() {
                Some(Piece::Kept { start, end })
            } else {
                None
            }
        }
        Part::Constant(number) => match Instr::new(36, Imm::I32(number)) {
            Some(instr) => Some(Piece::New(instr)),
            None => None,
        },
        Part::Plain(row) => match Instr::new(row, Imm::Nothing) {
            Some(instr) => Some(Piece::New(instr)),
            None => None,
        },
        Part::Nested(control) => Some(Piece::Structural(control)),
    }
}

/// The pieces, which all stand in the body.
fn pieces_in(
    alloc: Global,
    operators: &[OperatorAndByteOffset],
    parts: &[Part],
) -> Result<Vec<Piece>, Fail>
    ensures { IfOk result (λ pieces. All (IsPieceIn operators.now) pieces.items) }
{
    let mut pieces = Vec::new(alloc);
    for i in 0..parts.len() {
        let piece = piece_in(operators, parts[i]).ok_or("no such piece")?;
        pieces.push(piece)?;
    }
    Ok(pieces)
}

/// The operators of the body behind the first byte.
fn operators_of(alloc: Global, bytes: &[u8]) -> Result<Vec<OperatorAndByteOffset>, Fail>
    ensures { IfOk result (λ operators. IsBodyIn bytes.now operators.items) }
{
    let from = bytes.len().min(1);
    Ok(read_code(alloc, bytes, from, bytes.len())?)
}

/// What the sink holds behind its byte and the body with the pieces.
fn spliced(alloc: Global, start: usize, end: usize, parts: &[Part]) -> Result<Function, Fail> {
    let operators = operators_of(alloc, BODY)?;
    let pieces = pieces_in(alloc, &operators, parts)?;
    let mut sink = Function::new(alloc);
    sink.raw(b"\x07")?;
    if start <= end && end < operators.len() {
        splice(&operators, BODY, start..end, &pieces, &mut sink)?;
    }
    Ok(sink)
}

#[test]
fn puts_pieces_in_the_place_of_operators(rt: HostRuntime) -> Result<(), Fail> {
    for (start, end, parts, wanted) in CASES {
        let sink = spliced(rt.alloc(), start, end, parts)?;
        assert!(rt; sink.bytes() == wanted);
    }
    Ok(())
}
