//! What a change makes of an operator's unit, where it makes anything.
ghost use Rattle.std.specs.Prelude.{◌≡◌, ◌<◌, ℕ, List, None, is_some, IfNone, IfOk, IfSome, IsTrue};
ghost use Rattle.wasm_code.specs.Instruction.{Instruction};
ghost use Rattle.body_changes.specs.Proposals.{IsNewFrom, IsPlace, MakesAtPlace, NamesAt};

use crate::change::Change;
use crate::deciding::makes_new;
use crate::kinds::accesses::{Indexed, other_access};
use crate::kinds::constants::other_constant;
use crate::kinds::copies::copied;
use crate::kinds::drawn::drawn;
use crate::kinds::memory_arguments::other_memory;
use crate::kinds::operands::{exchanged, first_operand, last_operand};
use crate::kinds::operators::other_behind;
use crate::kinds::statements::{deleted, doubled, turned};
use crate::kinds::{Place, Proposal};
use std::alloc::{AllocError, Global};
use wasm_code::Instr;

// Code in the place of the unit, where there is any.
fn in_place(place: &Place<'_>, code: Option<Vec<Instr>>) -> Option<Proposal>
    ensures some { IfSome result (λ p. IfSome code (λ own. (p.start ≡ place.now.unit.start)
        × (p.code.items ≡ own.items))) }
    ensures there { IfSome result (λ p. IsTrue (is_some code)) }
    ensures none { IfNone result (code ≡ None) }
{
    match code {
        Some(code) => Some(Proposal {
            start: place.unit.start,
            code,
        }),
        None => None,
    }
}

// What the change makes of the unit; some words name what. It is new wherever the change makes anything that is.
fn propose(
    alloc: Global,
    place: &Place<'_>,
    most: usize,
    change: Change,
    words: &[u64],
) -> Result<Option<Proposal>, AllocError>
    requires place { IsPlace place.now }
    requires some { 0 < most }
    ensures made { IfOk result (λ o. IfSome o (λ p.
        MakesAtPlace place.now most words.now change p.start p.code.items)) }
    ensures new { IfOk result (λ o. IfSome o (λ p. (start : ℕ) (code : List Instruction)
        → MakesAtPlace place.now most words.now change start code → IsNewFrom place.now start code
        → IsNewFrom place.now p.start p.code.items)) }
    ensures none { IfOk result (λ o. IfNone o ((start : ℕ) (code : List Instruction)
        → MakesAtPlace place.now most words.now change start code
        → ¬ (IsNewFrom place.now start code))) }
    ensures named { IfOk result (λ o. IfSome o (λ p. (start : ℕ) (code : List Instruction)
        → MakesAtPlace place.now most words.now change start code → IsNewFrom place.now start code
        → NamesAt place.now change words.now code → p.code.items ≡ code)) }
{
    match change {
        Change::Constant => Ok(in_place(place, other_constant(alloc, place, words)?)),
        Change::Operator => Ok(in_place(place, other_behind(alloc, place, words)?)),
        Change::Local => Ok(in_place(place, other_access(alloc, place, Indexed::Local, words)?)),
        Change::Draw => Ok(in_place(place, drawn(alloc, place, most, words)?)),
        Change::Copy => Ok(in_place(place, copied(alloc, place)?)),
        Change::FirstOperand => Ok(in_place(place, first_operand(alloc, place)?)),
        Change::LastOperand => Ok(in_place(place, last_operand(alloc, place)?)),
        Change::ExchangeOperands => Ok(in_place(place, exchanged(alloc, place)?)),
        Change::Delete => Ok(in_place(place, deleted(alloc, place))),
        Change::Double => Ok(in_place(place, doubled(alloc, place)?)),
        Change::ExchangeStatements => turned(alloc, place),
        Change::Global => Ok(in_place(place, other_access(alloc, place, Indexed::Global, words)?)),
        Change::Call => Ok(in_place(place, other_access(alloc, place, Indexed::Function, words)?)),
        Change::MemoryArgument => Ok(in_place(place, other_memory(alloc, place, words)?)),
    }
}

/// What the change makes of the unit of the operator, where that is new; some words name what. None only where it makes nothing new.
pub(crate) fn made_of(
    alloc: Global,
    place: &Place<'_>,
    most: usize,
    change: Change,
    words: &[u64],
) -> Result<Option<Proposal>, AllocError>
    requires place { IsPlace place.now }
    requires some { 0 < most }
    ensures made { IfOk result (λ o. IfSome o (λ p.
        MakesAtPlace place.now most words.now change p.start p.code.items)) }
    ensures new { IfOk result (λ o. IfSome o (λ p. IsNewFrom place.now p.start p.code.items)) }
    ensures none { IfOk result (λ o. IfNone o ((start : ℕ) (code : List Instruction)
        → MakesAtPlace place.now most words.now change start code
        → ¬ (IsNewFrom place.now start code))) }
    ensures named { IfOk result (λ o. IfSome o (λ p. (start : ℕ) (code : List Instruction)
        → MakesAtPlace place.now most words.now change start code → IsNewFrom place.now start code
        → NamesAt place.now change words.now code → p.code.items ≡ code)) }
{
    if !makes_new(place, change, words) {
        return Ok(None);
    }
    propose(alloc, place, most, change, words)
}
