//! Another operator of the same types.
ghost use Rattle.std.specs.Prelude.{◌≡◌, ◌<◌, ◌≤◌, ◌↔◌, ℕ, false, Some, IfNone, IfSome, IsTrue};
ghost use Rattle.std.specs.List.{All};
ghost use Rattle.wasm_code.specs.Instruction.{Instruction, IsInstruction};
ghost use Rattle.wasm_types.specs.declared.types.PrimitiveTypeInfo.{PrimitiveTypeInfo};
ghost use Rattle.body_changes.specs.Goals.{context_for};
ghost use Rattle.body_changes.specs.Others.{bare, is_row_asked_for, others_below, same_results, IsOther};
ghost use Rattle.body_changes.specs.Typed.{is_told_apart, told_types};

use crate::choosing::ROWS;
use crate::source::Scope;
use crate::typed::{is_told_apart, told_types};
use wasm_code::{Imm, Instr};
use wasm_types::PrimitiveTypeInfo;

/// What is asked of another operator: not to be of the own row, and to give that on operands of these types.
#[derive(Clone, Copy)]
pub(crate) struct Asked<'a> {
    pub scope: Scope<'a>,
    pub own: u16,
    pub operands: &'a [PrimitiveTypeInfo],
    pub gives: Option<PrimitiveTypeInfo>,
}

// Whether each of them is told apart.
fn are_told_apart(types: &[PrimitiveTypeInfo]) -> bool
    ensures { IsTrue result ↔ All (λ (t : PrimitiveTypeInfo). IsTrue (is_told_apart t)) types.now }
{
    for i in 0..types.len() {
        if !is_told_apart(types[i]) {
            return false;
        }
    }
    true
}

// Whether the types are there, and are the same.
fn same_results(gives: Option<Option<PrimitiveTypeInfo>>, wanted: Option<PrimitiveTypeInfo>) -> bool
    ensures { result ≡ same_results gives wanted }
{
    match (gives, wanted) {
        (Some(Some(t)), Some(u)) => t == u,
        (Some(None), None) => true,
        _ => false,
    }
}

// Whether the instruction gives what is asked for.
fn gives_so(asked: &Asked<'_>, instr: &Instr) -> bool
    ensures { result ≡ same_results (told_types (context_for asked.now.scope) instr.now
        asked.now.operands.now) asked.now.gives }
{
    same_results(
        told_types(asked.scope.info, asked.scope.locals, instr, asked.operands),
        asked.gives,
    )
}

// The row's instruction without an immediate, where it is what is asked for.
fn other_at(asked: &Asked<'_>, row: u16) -> Option<Instr>
    ensures some { IfSome result (λ i. (i ≡ bare row) × IsInstruction i
        × IsTrue (is_row_asked_for asked.now row)) }
    ensures none { IfNone result (is_row_asked_for asked.now row ≡ false) }
{
    if row == asked.own {
        return None;
    }
    match Instr::new(row, Imm::Nothing) {
        Some(instr) => {
            if gives_so(asked, &instr) {
                Some(instr)
            } else {
                None
            }
        }
        None => None,
    }
}

// How many there are.
#[tactic(auto, unfolding(crate::specs::Others::others_below))]
fn count_others(asked: &Asked<'_>) -> u16
    ensures { result ≡ others_below asked.now 446 }
{
    let mut count = 0;
    for row in 0..ROWS {
        if other_at(asked, row).is_some() {
            count += 1;
        }
    }
    count
}

// The one with that number.
#[tactic(auto, unfolding(crate::specs::Others::others_below))]
fn other_with(asked: &Asked<'_>, number: u16) -> Option<Instr>
    ensures some { IfSome result (λ i. (i ≡ bare i.row) × IsInstruction i
        × IsTrue (is_row_asked_for asked.now i.row)) }
    ensures none { IfNone result (others_below asked.now 446 ≤ number) }
{
    let mut before = 0;
    for row in 0..ROWS {
        if let Some(instr) = other_at(asked, row) {
            if before == number {
                return Some(instr);
            }
            before += 1;
        }
    }
    None
}

// That of the row with the word's number, where there is such a row, and it is what is asked for.
fn other_of_word(asked: &Asked<'_>, word: u64) -> Option<Instr>
    ensures some { IfSome result (λ i. (i ≡ bare i.row) × IsInstruction i
        × IsTrue (is_row_asked_for asked.now i.row)) }
    ensures named { (row : ℕ) → row < 446 → word ≡ row → IsTrue (is_row_asked_for asked.now row)
        → result ≡ Some (bare row) }
{
    if word < ROWS as u64 {
        other_at(asked, word as u16)
    } else {
        None
    }
}

/// Another operator that gives the same as the instruction does on operands of these types: that of the row with the word's number,
/// where it is one, and else each as likely as any other by the word.
/// None only where there is no other among those without an immediate, where the instruction doesn't take such operands, or where one
/// of them, or what it gives, is a reference that is none of funcref and externref.
///
/// It takes time by the size of the instruction table.
pub fn other_operator(
    scope: &Scope<'_>,
    instr: &Instr,
    operands: &[PrimitiveTypeInfo],
    word: u64,
) -> Option<Instr>
    ensures some { IfSome result (IsOther (context_for scope.now) operands.now instr.now) }
    ensures none { IfNone result ((other : Instruction)
        → ¬ (IsOther (context_for scope.now) operands.now instr.now other)) }
    ensures named { (other : Instruction) → IsOther (context_for scope.now) operands.now instr.now
        other → word ≡ other.row → result ≡ Some other }
{
    if !are_told_apart(operands) {
        return None;
    }
    let gives = told_types(scope.info, scope.locals, instr, operands)?;
    let asked = Asked {
        scope: *scope,
        own: instr.row(),
        operands,
        gives,
    };
    if let Some(other) = other_of_word(&asked, word) {
        return Some(other);
    }
    let count = count_others(&asked);
    if count == 0 {
        return None;
    }
    match other_with(&asked, (word % count as u64) as u16) {
        Some(other) => Some(other),
        None => unreachable!(),
    }
}
