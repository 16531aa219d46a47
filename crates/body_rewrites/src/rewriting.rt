//! A body with a rewrite in it.
ghost use Rattle.std.specs.Prelude.{◌≡◌, ℕ, IsTrue, option_to_list, IfOk, IfNone, IfSome, OnOk, OnErr};
ghost use Rattle.body_splices.specs.OwnBytes.{IsBodyIn};
ghost use Rattle.body_rewrites.specs.Changed.{AppendsChanged};
ghost use Rattle.body_rewrites.specs.Changes.{Change, IsWritten, MayStand};
ghost use Rattle.body_rewrites.specs.MadeLaws.{HasChange};
ghost use Rattle.body_rewrites.specs.Places.{context_of, HasItsLists};
ghost use Rattle.body_rewrites.specs.Rewrites.{AppendsRewritten, asked_widths, HasWidth, IsLineOf, IsMade};

use crate::changes::NewCode;
use crate::laws::{changed_bodies_do_as_before, changes_may_stand};
use crate::making::made;
use crate::places::{Body, Line};
use crate::rewrite::Rewrite;
use body_splices::splice;
use rewrite_rules::{TableRow, Widths, width_by};
use std::alloc::{AllocError, Global};
use wasm_code::{Function, SinkError};
use wasm_execution::IntegerType;
use wasm_types::PrimitiveTypeInfo;

// Whether a row of these widths is asked for the width.
fn is_asked(widths: Widths, width: IntegerType) -> bool
    ensures same { IsTrue result → HasWidth (asked_widths widths) width }
    ensures only { HasWidth (asked_widths widths) width → IsTrue result }
{
    match (widths, width) {
        (Widths::Both, _) => true,
        (Widths::Only(one), _) => one == width,
        (Widths::Any, _) => width == IntegerType::I32,
        (Widths::Operands(first, _, _), _) => width == width_by(first),
        (Widths::Own(_), _) => width == IntegerType::I32,
    }
}

// The line of a rewrite, where the table has it.
fn line_of(rewrite: Rewrite) -> Option<Line>
    ensures some { IfSome result (λ line. IsLineOf rewrite line) }
    ensures none { IfNone result ((line : Line) → ¬ (IsLineOf rewrite line)) }
{
    let row = TableRow::numbered(rewrite.row)?;
    let width = rewrite.width;
    is_asked(row.widths(), width).then_some(Line { row, width })
}

// The type of the global that is asked for, as a list.
fn asked(
    alloc: Global,
    asks: Option<PrimitiveTypeInfo>,
) -> Result<Vec<PrimitiveTypeInfo>, AllocError>
    ensures { IfOk result (λ list. list.items ≡ option_to_list asks) }
{
    let mut list = Vec::new(alloc);
    if let Some(t) = asks {
        list.push(t)?;
    }
    Ok(list)
}

// Writes the body with the new code, which is what some change of it writes.
fn put(
    body: &Body<'_>,
    input: &[u8],
    at: usize,
    code: &NewCode,
    newfunc: &mut Function,
) -> Result<(), SinkError>
    requires body { IsBodyIn input.now body.now.operators.now }
    requires change { HasChange body.now at code.now }
    ensures put { OnOk result ((change : Change) → (word : ℕ) → IsWritten change word code.now
        → MayStand (context_of body.now) body.now.operators.now at change
        → AppendsChanged (context_of body.now) input.now body.now.operators.now at change word
        newfunc.old newfunc.new) }
    ensures restored { OnErr result (newfunc.new ≡ newfunc.old) }
{
    changed_bodies_do_as_before();
    splice(
        body.operators,
        input,
        code.start..at + 1,
        &code.pieces,
        newfunc,
    )
}

/// Writes a body behind what the sink holds in which the rewrite is made, by the word where it draws a number. Answers the types of
/// the globals that the new code asks for, which stand behind the module's; or none, and the sink as it was, where the rewrite
/// makes nothing.
///
/// Every byte outside the rewritten code stands as it stood, operands that are kept have the bytes that they had, and the body is
/// read again as the operators before, the new code and the operators behind. It runs piece by piece as it did, and is valid
/// wherever it was, with the globals that are asked for behind the module's.
///
/// It takes time linear in the body. Refused with `Memory` alone: the sink then holds its old bytes.
pub fn rewrite_body(
    alloc: Global,
    body: &Body<'_>,
    input_wasm: &[u8],
    rewrite: Rewrite,
    word: u64,
    newfunc: &mut Function,
) -> Result<Option<Vec<PrimitiveTypeInfo>>, SinkError>
    requires lists { HasItsLists body.now }
    requires body { IsBodyIn input_wasm.now body.now.operators.now }
    ensures rewritten { IfOk result (λ o. IfSome o (λ asks.
        AppendsRewritten (context_of body.now) input_wasm.now body.now.operators.now rewrite word
        newfunc.old newfunc.new asks.items)) }
    // None only where the rewrite makes nothing; then nothing changes.
    ensures none { IfOk result (λ o. IfNone o
        (¬ (IsMade (context_of body.now) body.now.operators.now rewrite))) }
    ensures kept { IfOk result (λ o. IfNone o (newfunc.new ≡ newfunc.old)) }
    ensures restored { OnErr result (newfunc.new ≡ newfunc.old) }
{
    changes_may_stand();
    let Some(line) = line_of(rewrite) else {
        return Ok(None);
    };
    if rewrite.operator >= body.operators.len() {
        return Ok(None);
    }
    let Some(code) = made(body, &line, rewrite.operator, word) else {
        return Ok(None);
    };
    let asks = asked(alloc, code.asks)?;
    put(body, input_wasm, rewrite.operator, &code, newfunc)?;
    Ok(Some(asks))
}
