//! Code that is copied: the unit of an operator that a word names, and what such code leaves elsewhere.
ghost use Rattle.std.specs.Prelude.{◌≡◌, ◌↔◌, ◌<◌, ◌+◌, List, Option, Some, length, slice_get, IfNone, IfOk, IfSome, IsTrue};
ghost use Rattle.wasm_code.specs.Instruction.{Instruction};
ghost use Rattle.wasm_types.specs.declared.types.PrimitiveTypeInfo.{PrimitiveTypeInfo as TypeOf};
ghost use Rattle.wasm_execution.specs.Row.{list_of};
ghost use Rattle.body_changes.specs.Copied.{IsGiven, IsUnitNamed};
ghost use Rattle.body_changes.specs.Drawing.{asks_types_alone, is_leaf_row, is_local_row, is_nothing, AskTypesAlone};
ghost use Rattle.body_changes.specs.Kinds.{Stand};
ghost use Rattle.body_changes.specs.Replacing.{source_context};
ghost use Rattle.body_changes.specs.Units.{IsUnit};

use crate::own::instrs_of;
use crate::source::Source;
use crate::typed::types_of_code;
use crate::units::{Unit, units_of};
use std::alloc::{AllocError, Global};
use wasm_code::{Imm, Instr};
use wasm_types::PrimitiveTypeInfo;

/// Code that may be copied into a body, and what it leaves there.
#[derive(Clone, Copy)]
pub struct Copied<'a> {
    /// The code; none is copied where it is empty.
    pub code: &'a [Instr],
    /// The one type that it leaves, or that it leaves none; or neither, since it isn't typed in that body or leaves more.
    pub gives: Option<Option<PrimitiveTypeInfo>>,
}

// The only type among these, or that there is none of them, where there is one at most.
fn only_type(types: &[PrimitiveTypeInfo]) -> Option<Option<PrimitiveTypeInfo>>
    ensures some { IfSome result (λ gives. types.now ≡ list_of gives) }
    ensures none { IfNone result ((gives : Option TypeOf) → ¬ (types.now ≡ list_of gives)) }
{
    match types {
        [] => Some(None),
        [t] => Some(Some(*t)),
        _ => None,
    }
}

/// The code, with what it leaves in the body: see `types_of_code`. It takes time linear in the code. The only error: an allocation was
/// refused.
pub fn copied_into<'a>(
    alloc: Global,
    source: &Source<'_>,
    code: &'a [Instr],
) -> Result<Copied<'a>, AllocError>
    ensures code { IfOk result (λ copied. copied.code.now ≡ code.now) }
    ensures gives { IfOk result (λ copied.
        IsGiven (source_context source.now) code.now copied.gives) }
{
    let gives = match types_of_code(alloc, source.locals, source.info, code)? {
        Some(types) => only_type(&types),
        None => None,
    };
    Ok(Copied { code, gives })
}

// The unit of that operator, if it has one.
fn unit_at(units: &[Option<Unit>], at: usize) -> Option<Unit>
    requires { at < length units.now }
    ensures { slice_get units.now at ≡ Some result }
{
    units[at]
}

// The code of that operator's unit.
fn code_of(
    alloc: Global,
    source: &Source<'_>,
    at: usize,
    unit: Unit,
) -> Result<Option<Vec<Instr>>, AllocError>
    requires inside { at < length source.now.operators.now }
    requires is { IsUnit (source_context source.now) source.now.operators.now at unit }
    ensures some { IfOk result (λ o. IfSome o (λ code.
        Stand source.now.operators.now unit.start (at + 1) code.items)) }
    ensures none { IfOk result (λ o. IfNone o ((code : List Instruction)
        → ¬ (Stand source.now.operators.now unit.start (at + 1) code))) }
{
    instrs_of(alloc, &source.operators[unit.start..at + 1])
}

/// The code of the unit of the operator that the word names, modulo their number; none where that one has no unit (see `units_of`).
///
/// It takes time linear in the body. The only error: an allocation was refused.
pub fn unit_named(
    alloc: Global,
    source: &Source<'_>,
    word: u64,
) -> Result<Option<Vec<Instr>>, AllocError>
    ensures some { IfOk result (λ o. IfSome o (λ code. IsUnitNamed (source_context source.now)
        source.now.operators.now word code.items)) }
    ensures none { IfOk result (λ o. IfNone o ((code : List Instruction)
        → ¬ (IsUnitNamed (source_context source.now) source.now.operators.now word code))) }
    // It is the only one.
    ensures only { IfOk result (λ o. IfSome o (λ code. (other : List Instruction)
        → IsUnitNamed (source_context source.now) source.now.operators.now word other
        → code.items ≡ other)) }
{
    let count = source.operators.len();
    if count == 0 {
        return Ok(None);
    }
    let at = (word % count as u64) as usize;
    let units = units_of(alloc, source.locals, source.info, source.operators)?;
    let Some(unit) = unit_at(&units, at) else {
        return Ok(None);
    };
    code_of(alloc, source, at, unit)
}

// Whether it is a constant, or reads a variable.
fn is_leaf_row(row: u16) -> bool
    ensures { result ≡ is_leaf_row row }
{
    match row {
        4 | 7 | 36 | 37 | 38 | 39 | 168 | 201 => true,
        _ => false,
    }
}

// Whether it reads or writes a local.
fn is_local_row(row: u16) -> bool
    ensures { result ≡ is_local_row row }
{
    match row {
        4 | 5 | 6 => true,
        _ => false,
    }
}

// Whether there is none.
fn is_nothing(imm: Imm) -> bool
    ensures { result ≡ is_nothing imm }
{
    match imm {
        Imm::Nothing => true,
        _ => false,
    }
}

// Whether the standard asks nothing of the instruction beyond its types.
fn asks_types_alone(instr: &Instr) -> bool
    ensures { result ≡ asks_types_alone instr.now }
{
    let row = instr.row();
    is_nothing(instr.imm()) || is_leaf_row(row) || is_local_row(row)
}

/// Whether the standard asks nothing of any instruction of the code beyond its types: each has no immediate, or is a constant, or reads a
/// variable, or writes a local.
pub fn ask_types_alone(code: &[Instr]) -> bool
    ensures { IsTrue result ↔ AskTypesAlone code.now }
{
    for i in 0..code.len() {
        if !asks_types_alone(&code[i]) {
            return false;
        }
    }
    true
}
