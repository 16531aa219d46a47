//! An instruction with an immediate → another one: a load or a store with an operator behind it or before it, or with another alignment;
//! a constant by its bits, or their complement.
ghost use Rattle.std.specs.Prelude.{◌≡◌, ◌↔◌, ◌+◌, ◌-◌, ◌<◌, ◌^◌, IsTrue, IfSome, IfNone};
ghost use Rattle.wasm_code.specs.Instruction.{IsInstruction};
ghost use Rattle.wasm_code.specs.declared.immediate.Imm.{Imm as Immediate};
ghost use Rattle.wasm_execution.specs.Values.{Context};
ghost use Rattle.rewrite_rules.specs.Access.{conversion_code, conversion_size, code_with, side_code};
ghost use Rattle.rewrite_rules.specs.Instance.{constant_code, operator_code};
ghost use Rattle.rewrite_rules.specs.declared.table.Own.TheVariants.{Access as Accesses};
ghost use Rattle.body_rewrites.specs.Open.{HasInstruction};
ghost use Rattle.body_rewrites.specs.OwnSites.{IsImmediateAt, IsImmediateOf, IsSiteOf, StandFrom, places};

use crate::cutting::is_operator;
use crate::instructions::constant;
use crate::matching::are_equal;
use crate::own::{Made, Site};
use crate::trees::instr_at;
use rewrite_rules::{AccessKind, AccessSide, Conversion, Operator, access_at};
use wasm_code::{Imm, Instr, OperatorAndByteOffset};
use wasm_execution::IntegerType;
use wasm_types::ModuleInfo;

// The immediate of the row's instruction.
fn immediate_in(instr: &Instr, row: u16) -> Option<Imm>
    ensures some { IfSome result (λ i. (instr.now ≡ code_with row i)
        × IsInstruction (code_with row i)) }
    ensures none { IfNone result ((i : Immediate) → ¬ (instr.now ≡ code_with row i)) }
{
    if instr.row() != row {
        return None;
    }
    Some(instr.imm())
}

// The immediate of the row's instruction at the operator.
fn immediate_at(operators: &[OperatorAndByteOffset], at: usize, row: u16) -> Option<Imm>
    ensures some { IfSome result (λ i. IsImmediateAt operators.now at row i) }
    ensures none { IfNone result ((i : Immediate)
        → ¬ (HasInstruction operators.now at (code_with row i))) }
{
    let instr = instr_at(operators, at)?;
    immediate_in(&instr, row)
}

// Whether the constant stands at the operator.
fn is_constant_at(
    operators: &[OperatorAndByteOffset],
    at: usize,
    t: IntegerType,
    number: u64,
) -> bool
    ensures { IsTrue result ↔ HasInstruction operators.now at (constant_code t number) }
{
    match instr_at(operators, at) {
        Some(instr) => are_equal(&instr, &constant(t, number)),
        None => false,
    }
}

// Whether the instruction stands at the operator.
fn is_operator_at(operators: &[OperatorAndByteOffset], at: usize, operator: Operator) -> bool
    ensures { IsTrue result ↔ HasInstruction operators.now at (operator_code operator) }
{
    match instr_at(operators, at) {
        Some(instr) => is_operator(&instr, operator),
        None => false,
    }
}

// Whether the conversion stands from the operator on.
fn is_conversion_at(
    operators: &[OperatorAndByteOffset],
    start: usize,
    conversion: Conversion,
) -> bool
    requires { start + conversion_size conversion < 2 ^ 64 }
    ensures { IsTrue result ↔ StandFrom operators.now start (conversion_code conversion) }
{
    match conversion {
        Conversion::Nothing => true,
        Conversion::By(operator) => is_operator_at(operators, start, operator),
        Conversion::With(t, number, operator) => {
            let constant = is_constant_at(operators, start, t, number);
            let by = is_operator_at(operators, start + 1, operator);
            constant && by
        }
    }
}

// Where the instruction with the immediate stands, and where the conversion begins, of so many instructions, in code that begins there.
fn places(kind: AccessKind, start: usize, size: usize) -> (usize, usize)
    requires { start + size < 2 ^ 64 - 1 }
    ensures { result ≡ places kind start size }
{
    match kind {
        AccessKind::Load => (start, start + 1),
        AccessKind::Store => (start + size, start),
        AccessKind::Constant => (start, start + 1),
    }
}

// The immediate of the side, where it stands from the operator on.
fn side_at(
    operators: &[OperatorAndByteOffset],
    start: usize,
    kind: AccessKind,
    side: AccessSide,
) -> Option<Imm>
    requires { start + conversion_size side.conversion < 2 ^ 64 - 1 }
    ensures some { IfSome result (λ i. IsImmediateOf operators.now start kind side i) }
    ensures none { IfNone result ((i : Immediate)
        → ¬ (StandFrom operators.now start (side_code kind side i))) }
{
    let (stands, converts) = places(kind, start, side.conversion.size());
    let Some(immediate) = immediate_at(operators, stands, side.row) else {
        return None;
    };
    if !is_conversion_at(operators, converts, side.conversion) {
        return None;
    }
    Some(immediate)
}

// Where the rule applies at the operator, and what it makes there.
pub(crate) fn find(
    info: &ModuleInfo<'_>,
    operators: &[OperatorAndByteOffset],
    at: usize,
    number: u8,
) -> Option<Site>
    ensures { (context : Context) → context.info ≡ info.now
        → IsSiteOf context operators.now (Accesses number) at result }
{
    if !info.exact {
        return None;
    }
    if at >= operators.len() {
        return None;
    }
    let Some(access) = access_at(number) else {
        return None;
    };
    let size = access.left.conversion.size();
    if at < size {
        return None;
    }
    let Some(immediate) = side_at(operators, at - size, access.kind, access.left) else {
        return None;
    };
    let Some(written) = access.written(immediate) else {
        return None;
    };
    Some(Site {
        start: at - size,
        made: Made::Access(access, written),
    })
}
