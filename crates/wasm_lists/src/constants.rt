//! Constant expressions, by which globals and tables start.
ghost use Rattle.std.specs.Prelude.{◌≡◌};
ghost use Rattle.wasm_code.specs.Body.{is_end};
ghost use Rattle.wasm_code.specs.Reader.{Gives, times_at, unsigned_at};
ghost use Rattle.wasm_lists.specs.Constants.{indices_behind, is_making};
ghost use Rattle.wasm_lists.specs.ValueReader.{making_at, constant_operator_at, initialiser_at};

use crate::value_types::past_heap_type;
use wasm_code::laws::parts_are_read;
use wasm_code::{Cause, Operator, byte_of, operator_from, u32_of};

/// The opcode of `ref.null`.
const NULL: u8 = 0xd0;

/// The byte before the opcodes that make references.
const MAKING: u8 = 0xfb;

/// What follows so many indices.
pub fn past_indices(count: u32, bytes: &[u8]) -> Result<&[u8], Cause>
    ensures { Gives (λ x. (tt, x.now)) result (times_at count (unsigned_at 32) bytes.now) }
{
    let mut rest = bytes;
    for _ in 0..count {
        match u32_of(rest) {
            Ok((_, after)) => rest = after,
            Err(e) => return Err(e),
        }
    }
    Ok(rest)
}

/// How many indices follow the opcode.
fn indices_behind(opcode: u32) -> u32
    ensures { result ≡ indices_behind opcode }
{
    if opcode == 8 {
        2
    } else if opcode <= 7 {
        1
    } else {
        0
    }
}

/// Whether the opcode makes a reference.
fn is_making(opcode: u32) -> bool
    ensures { result ≡ is_making opcode }
{
    opcode <= 1 || (6 <= opcode && opcode <= 8) || (0x1a <= opcode && opcode <= 0x1c)
}

/// What follows an opcode that makes a reference, and its indices.
#[tactic(auto, unfolding(crate::specs::ValueReader::making_at))]
fn past_making(bytes: &[u8]) -> Result<&[u8], Cause>
    ensures { Gives (λ x. (tt, x.now)) result (making_at bytes.now) }
{
    let (opcode, rest) = u32_of(bytes)?;
    if is_making(opcode) {
        past_indices(indices_behind(opcode), rest)
    } else {
        Err(Cause::UnknownOpcode)
    }
}

fn is_end_of(operator: &Operator) -> bool
    ensures { result ≡ is_end operator.now }
{
    matches!(operator, Operator::End)
}

/// Whether the operator of a constant expression is `end`, and what follows it.
#[tactic(auto, unfolding(crate::specs::ValueReader::constant_operator_at))]
fn constant_from(bytes: &[u8]) -> Result<(bool, &[u8]), Cause>
    ensures { Gives (λ x. (x.0, x.1.now)) result (constant_operator_at bytes.now) }
{
    let (b, rest) = byte_of(bytes)?;
    if b == NULL {
        let rest = past_heap_type(rest)?;
        Ok((false, rest))
    } else if b == MAKING {
        let rest = past_making(rest)?;
        Ok((false, rest))
    } else {
        match operator_from(bytes) {
            Ok((operator, rest)) => Ok((is_end_of(&operator), rest)),
            Err(cause) => Err(cause),
        }
    }
}

/// What follows an initialiser: the operators up to and with the first `end`.
pub fn past_initialiser(bytes: &[u8]) -> Result<&[u8], Cause>
    ensures { Gives (λ x. (tt, x.now)) result (initialiser_at bytes.now) }
{
    parts_are_read();
    let mut rest = bytes;
    loop {
        match constant_from(rest) {
            Ok((ended, behind)) => {
                if ended {
                    return Ok(behind);
                }
                rest = behind;
            }
            Err(cause) => return Err(cause),
        }
    }
}
