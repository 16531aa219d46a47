//! The code that a line of the table writes.
ghost use Rattle.std.specs.Prelude.{◌≡◌, [], ◌∷◌, drop, get_or};
ghost use Rattle.wasm_execution.specs.declared.integer.IntegerType.TheVariants as IntegerType;
ghost use Rattle.rewrite_rules.specs.Instance.{constant_code, operator_code};
ghost use Rattle.rewrite_rules.specs.Numbers.{constant_at, first_word};
ghost use Rattle.rewrite_rules.specs.Parts.{draws};
ghost use Rattle.rewrite_rules.specs.Table.{parts_for, PartIsInstruction};
ghost use Rattle.rewrite_rules.specs.declared.pattern.Part.TheVariants.{Apply};
ghost use Rattle.std.specs.List.{All};
ghost use Rattle.body_rewrites.specs.Places.{IsLine};
ghost use Rattle.body_rewrites.specs.Changes.{IsWritten};
ghost use Rattle.body_rewrites.specs.Writing.{piece_for, side_pieces, by_line};

use crate::changes::NewCode;
use crate::places::{Line, Place};
use arrayvec::ArrayVec;
use body_splices::Piece;
use rewrite_rules::laws::parts_are_instructions;
use rewrite_rules::{Operator, Part, Side};
use wasm_code::{Imm, Instr};
use wasm_execution::IntegerType;

// The constant with the number's low 32 bits.
fn i32_constant(number: u64) -> Instr
    ensures { result ≡ constant_code IntegerType.I32 number }
{
    let low = (number % 0x1_0000_0000) as u32;
    match Instr::new(36, Imm::I32(low.cast_signed())) {
        Some(instr) => instr,
        None => unreachable!(),
    }
}

// The constant with the number.
fn i64_constant(number: u64) -> Instr
    ensures { result ≡ constant_code IntegerType.I64 number }
{
    match Instr::new(37, Imm::I64(number.cast_signed())) {
        Some(instr) => instr,
        None => unreachable!(),
    }
}

// The constant of the type with the number's low bits.
pub(crate) fn constant_of(t: IntegerType, number: u64) -> Instr
    ensures { result ≡ constant_code t number }
{
    match t {
        IntegerType::I32 => i32_constant(number),
        IntegerType::I64 => i64_constant(number),
    }
}

// The operator's instruction.
fn operator_of(operator: Operator) -> Instr
    requires { PartIsInstruction (Apply operator) }
    ensures { result ≡ operator_code operator }
{
    match Instr::new(operator.row(), operator.immediate()) {
        Some(instr) => instr,
        None => unreachable!(),
    }
}

/// Which operators stand in the hole with the index.
pub(crate) fn operand_in(place: &Place, index: u8) -> (usize, usize)
    ensures { result ≡ get_or place.now.operands index (0, 0) }
{
    place
        .operands
        .get(index as usize)
        .copied()
        .unwrap_or((0, 0))
}

// The first of the words, and 0 where there is none.
fn first_of(words: &[u64]) -> u64
    ensures { result ≡ first_word words.now }
{
    words.first().copied().unwrap_or(0)
}

// The piece that a part of the right side is.
fn piece_of(part: Part, place: &Place, words: &[u64]) -> Piece
    requires { PartIsInstruction part }
    ensures { result ≡ piece_for place.now.operands (constant_at place.now.numbers) words.now part }
{
    match part {
        Part::Hole(index) => {
            let (start, end) = operand_in(place, index);
            Piece::Kept { start, end }
        }
        Part::Constant(t, number) => Piece::New(constant_of(t, number.value(t, &place.numbers))),
        Part::Drawn(t) => Piece::New(constant_of(t, first_of(words))),
        Part::Apply(operator) => Piece::New(operator_of(operator)),
    }
}

// The words that the part leaves.
fn words_after(part: Part, words: &[u64]) -> &[u64]
    ensures { result.now ≡ drop (draws part) words.now }
{
    match part {
        Part::Drawn(_) if words.len() > 0 => &words[1..],
        _ => words,
    }
}

// The pieces of a side for the width.
fn pieces_of(side: &Side, width: IntegerType, place: &Place, word: u64) -> ArrayVec<Piece, 7>
    requires { All PartIsInstruction (parts_for width side.now) }
    ensures { result.items ≡ side_pieces place.now.operands
        (constant_at place.now.numbers) (word ∷ []) (parts_for width side.now) }
{
    let drawn = [word];
    let mut words: &[u64] = &drawn;
    let mut pieces = ArrayVec::new();
    for i in 0..side.len() {
        let Some(part) = side[i].part(width) else {
            return pieces;
        };
        pieces.push(piece_of(part, place, words));
        words = words_after(part, words);
    }
    pieces
}

/// What the line writes in its place, by the word.
pub(crate) fn line_code(line: &Line, place: &Place, word: u64) -> NewCode
    requires { IsLine line.now }
    ensures { IsWritten (by_line line.now place.now) word result }
{
    parts_are_instructions();
    NewCode {
        start: place.start,
        pieces: pieces_of(line.row.right(), line.width, place, word),
        asks: None,
    }
}
