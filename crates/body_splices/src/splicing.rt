//! Pieces written in the place of a body's operators.
ghost use Rattle.std.specs.Prelude.{◌≡◌, OnOk, OnErr};
ghost use Rattle.std.specs.List.{All};
ghost use Rattle.wasm_code.specs.Code.{BeginsWith};
ghost use Rattle.body_splices.specs.OwnBytes.{IsBodyIn, own_bytes};
ghost use Rattle.body_splices.specs.Splice.{IsRangeIn, IsPieceIn, AppendsSpliced};
ghost use Rattle.body_splices.specs.Putting.{PutsPiece, PutsPieces, PutsSpliced};

use crate::bytes::{bytes_between, bytes_from};
use crate::control::put_control;
use crate::piece::Piece;
use std::ops::Range;
use wasm_code::laws::{code_spells, shortest_is_a_spelling};
use wasm_code::{Function, OperatorAndByteOffset, SinkError};

// Writes a piece.
fn put_piece(
    operators: &[OperatorAndByteOffset],
    input: &[u8],
    piece: &Piece,
    sink: &mut Function,
) -> Result<(), SinkError>
    requires body { IsBodyIn input.now operators.now }
    requires piece { IsPieceIn operators.now piece.now }
    ensures ok { OnOk result
        (PutsPiece (own_bytes input.now operators.now) piece.now sink.old sink.new) }
    ensures err { OnErr result (sink.new ≡ sink.old) }
{
    match piece {
        Piece::Kept { start, end } => { sink.raw(bytes_between(operators, input, *start, *end)) }
        Piece::New(instr) => {
            // All that there are stand in the table.
            let _row = instr.row();
            sink.instruction(instr)
        }
        Piece::Structural(control) => put_control(*control, sink),
    }
}

// Writes the pieces. After a failure some of their bytes may have been written.
fn put_pieces(
    operators: &[OperatorAndByteOffset],
    input: &[u8],
    pieces: &[Piece],
    sink: &mut Function,
) -> Result<(), SinkError>
    requires body { IsBodyIn input.now operators.now }
    requires pieces { All (IsPieceIn operators.now) pieces.now }
    ensures ok { OnOk result
        (PutsPieces (own_bytes input.now operators.now) pieces.now sink.old sink.new) }
    ensures err { OnErr result (BeginsWith sink.new sink.old) }
{
    for i in 0..pieces.len() {
        put_piece(operators, input, &pieces[i], sink)?;
    }
    Ok(())
}

// Writes the operators before the range, the pieces and the operators behind. After a failure some of their bytes may have been
// written.
fn put_spliced(
    operators: &[OperatorAndByteOffset],
    input: &[u8],
    range: Range<usize>,
    pieces: &[Piece],
    sink: &mut Function,
) -> Result<(), SinkError>
    requires body { IsBodyIn input.now operators.now }
    requires range { IsRangeIn operators.now range.start range.end }
    requires pieces { All (IsPieceIn operators.now) pieces.now }
    ensures ok { OnOk result (PutsSpliced (own_bytes input.now operators.now) range.start range.end
        pieces.now sink.old sink.new) }
    ensures err { OnErr result (BeginsWith sink.new sink.old) }
{
    sink.raw(bytes_between(operators, input, 0, range.start))?;
    put_pieces(operators, input, pieces, sink)?;
    sink.raw(bytes_from(operators, input, range.end))?;
    Ok(())
}

/// Writes a body behind what the sink holds, in which the pieces stand in the place of the operators in `range`: the bytes of the
/// operators before it, those of the pieces, one behind another, and those of the operators behind it.
///
/// `operators` with their offsets are those of a body in `input_wasm`, as `read_body` and `read_code` give them. `range`, and that
/// of each piece that keeps operators, is one of their indexes that ends before the last one, the body's own `end`; it may be empty,
/// and there may be no pieces. Operators that stay or are kept have the bytes that they had, also where a number is spelled by more
/// of them than it needs; a new instruction has its code, with shortest numbers, and a new structural operator its bytes. What is written is read again as these operators,
/// with these bytes (`spliced_operators_are`, `own_bytes_are_the_body`).
///
/// Nesting isn't looked at: where instructions alone are replaced and written, it stays as it was (`splices_keep_operators`, of the
/// structural operators).
///
/// It takes time linear in the number of pieces and in what it writes. The only error is `Memory`: no memory was left for the sink,
/// which then holds its old bytes.
pub fn splice(
    operators: &[OperatorAndByteOffset],
    input_wasm: &[u8],
    range: Range<usize>,
    pieces: &[Piece],
    newfunc: &mut Function,
) -> Result<(), SinkError>
    requires body { IsBodyIn input_wasm.now operators.now }
    requires range { IsRangeIn operators.now range.start range.end }
    requires pieces { All (IsPieceIn operators.now) pieces.now }
    // The bytes outside the range, and between them those of the pieces; it is read as a body again.
    ensures spliced { OnOk result (AppendsSpliced input_wasm.now operators.now range.start range.end
        pieces.now newfunc.old newfunc.new) }
    // After a failure the sink holds its old bytes.
    ensures restored { OnErr result (newfunc.new ≡ newfunc.old) }
{
    code_spells();
    shortest_is_a_spelling();
    let old_len = newfunc.len();
    match put_spliced(operators, input_wasm, range, pieces, newfunc) {
        Ok(()) => Ok(()),
        Err(refusal) => {
            newfunc.truncate(old_len);
            Err(refusal)
        }
    }
}
