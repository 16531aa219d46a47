//! Instructions of a body replaced by others that leave the same types.
ghost use Rattle.std.specs.Prelude.{◌≡◌, ◌<◌, ◌≤◌, false, List, length, IfOk, IfNone, IfSome, OnErr, IsTrue};
ghost use Rattle.std.specs.List.{All};
ghost use Rattle.wasm_types.specs.declared.types.PrimitiveTypeInfo.{PrimitiveTypeInfo};
ghost use Rattle.body_splices.specs.OwnBytes.{IsBodyIn};
ghost use Rattle.body_splices.specs.Splice.{IsPieceIn};
ghost use Rattle.body_changes.specs.Replacing.{source_context, new_pieces, AppendsReplaced, CanReplace, IsClosed};

use crate::own::instrs_of;
use crate::source::Source;
use crate::typed::{are_same, types_of_code};
use body_splices::laws::spliced_operators_are;
use body_splices::{Piece, splice};
use std::alloc::{AllocError, Global};
use std::ops::Range;
use wasm_code::{Function, Instr, OperatorAndByteOffset, SinkError};
use wasm_equivalence::validity::{replaced_code_stays_valid, typed_rows_check};
use wasm_types::PrimitiveTypeInfo;

/// The types of the values that the operators in `range` leave, the last one on top; none where there are none of them, one is no
/// instruction, they need something from what stands before them, or aren't typed (see `types_of_code`).
///
/// It takes time linear in the range. The only error: an allocation was refused.
pub fn types_in_place(
    alloc: Global,
    source: &Source<'_>,
    range: Range<usize>,
) -> Result<Option<Vec<PrimitiveTypeInfo>>, AllocError>
    requires { range.end ≤ length source.now.operators.now }
    ensures some { IfOk result (λ o. IfSome o (λ types.
        IsClosed (source_context source.now) source.now.operators.now range.start range.end
        types.items)) }
    ensures none { IfOk result (λ o. IfNone o ((types : List PrimitiveTypeInfo)
        → ¬ (IsClosed (source_context source.now) source.now.operators.now range.start range.end
        types))) }
{
    if range.start >= range.end {
        return Ok(None);
    }
    let Some(own) = instrs_of(alloc, &source.operators[range.start..range.end])? else {
        return Ok(None);
    };
    types_of_code(alloc, source.locals, source.info, &own)
}

// Whether the code may stand in the place of the operators in the range: they are instructions, at least one, that need nothing from
// what stands before them, and so is the code, which leaves values of the same types. The only error: an allocation was refused.
fn can_replace(
    alloc: Global,
    source: &Source<'_>,
    range: Range<usize>,
    code: &[Instr],
) -> Result<bool, AllocError>
    requires { range.end ≤ length source.now.operators.now }
    ensures can { IfOk result (λ b. IsTrue b → CanReplace (source_context source.now)
        source.now.operators.now range.start range.end code.now) }
    ensures never { IfOk result (λ b. b ≡ false → ¬ (CanReplace (source_context source.now)
        source.now.operators.now range.start range.end code.now)) }
{
    let Some(old) = types_in_place(alloc, source, range)? else {
        return Ok(false);
    };
    let Some(new) = types_of_code(alloc, source.locals, source.info, code)? else {
        return Ok(false);
    };
    Ok(are_same(&old, &new))
}

// Each instruction as a piece of a body.
fn pieces_of(
    alloc: Global,
    operators: &[OperatorAndByteOffset],
    code: &[Instr],
) -> Result<Vec<Piece>, AllocError>
    ensures are { IfOk result (λ pieces. pieces.items ≡ new_pieces code.now) }
    ensures stand { IfOk result (λ pieces. All (IsPieceIn operators.now) pieces.items) }
{
    let mut pieces = Vec::new(alloc);
    for i in 0..code.len() {
        pieces.push(Piece::New(code[i]))?;
    }
    Ok(pieces)
}

/// Writes a body behind what the sink holds in which the code stands in the place of the operators in `range`, and every byte
/// outside these stands as it stood. Answers whether it did; the sink is as it was where something isn't met: these operators, at
/// least one, are instructions that need nothing from what stands before them, and the code needs nothing either and leaves values
/// of the same types (see `types_of_code`).
///
/// Nothing is said of what the body then computes. It is valid wherever it was, by types, and is read again as the operators
/// before, the code and the operators behind. The operators with their offsets are those of a body in the bytes, and the range ends
/// before the last one.
///
/// It takes time linear in the body and the code. Refused with `Memory` alone: the sink then holds its old bytes.
pub fn replace_code(
    alloc: Global,
    source: &Source<'_>,
    range: Range<usize>,
    code: &[Instr],
    newfunc: &mut Function,
) -> Result<bool, SinkError>
    requires body { IsBodyIn source.now.input.now source.now.operators.now }
    requires inside { range.end < length source.now.operators.now }
    // The body with the code, which is valid where it was.
    ensures replaced { IfOk result (λ b. IsTrue b
        → AppendsReplaced (source_context source.now) source.now.input.now source.now.operators.now
        range.start range.end code.now newfunc.old newfunc.new) }
    // Not only where the code can't stand there; then nothing is written.
    ensures never { IfOk result (λ b. b ≡ false
        → ¬ (CanReplace (source_context source.now) source.now.operators.now range.start range.end
        code.now)) }
    ensures kept { IfOk result (λ b. b ≡ false → newfunc.new ≡ newfunc.old) }
    ensures restored { OnErr result (newfunc.new ≡ newfunc.old) }
{
    typed_rows_check();
    replaced_code_stays_valid();
    spliced_operators_are();
    if !can_replace(alloc, source, range.start..range.end, code)? {
        return Ok(false);
    }
    let pieces = pieces_of(alloc, source.operators, code)?;
    splice(source.operators, source.input, range, &pieces, newfunc)?;
    Ok(true)
}
