//! The types that code leaves which needs nothing from what stands before it.
ghost use Rattle.std.specs.Prelude.{◌≡◌, ◌↔◌, ◌≤◌, ◌++◌, [], None, Some, false, length, take, IfOk, IfNone, IfSome, IsTrue, OnOk};
ghost use Rattle.wasm_execution.specs.Row.{list_of};
ghost use Rattle.wasm_execution.specs.Values.{context_in};
ghost use Rattle.body_changes.specs.Typed.{is_told_apart, keep, told_apart, told_types, told_types_after, told_types_behind, LeavesTypes};

use std::alloc::{AllocError, Global};
use wasm_code::Instr;
use wasm_execution::{instruction_types, operand_count};
use wasm_types::{ModuleInfo, PrimitiveTypeInfo};

/// Whether it is no reference, or one to a function or an external one.
pub(crate) fn is_told_apart(t: PrimitiveTypeInfo) -> bool
    ensures { result ≡ is_told_apart t }
{
    match t {
        PrimitiveTypeInfo::Empty => false,
        _ => true,
    }
}

fn told_apart(t: PrimitiveTypeInfo) -> Option<Option<PrimitiveTypeInfo>>
    ensures { result ≡ told_apart t }
{
    is_told_apart(t).then_some(Some(t))
}

fn keep(gives: Option<PrimitiveTypeInfo>) -> Option<Option<PrimitiveTypeInfo>>
    ensures { result ≡ keep gives }
{
    match gives {
        Some(t) => told_apart(t),
        None => Some(None),
    }
}

/// What the instruction gives on operands of these types; none also where that is a reference of a type that isn't told apart.
pub(crate) fn told_types(
    info: &ModuleInfo<'_>,
    locals: &[PrimitiveTypeInfo],
    instr: &Instr,
    operands: &[PrimitiveTypeInfo],
) -> Option<Option<PrimitiveTypeInfo>>
    ensures { result ≡ told_types (context_in info.now locals.now) instr.now operands.now }
{
    keep(instruction_types(info, locals, instr, operands)?)
}

// The first so many types, and one more, where there is one.
fn leave(
    types: &mut Vec<PrimitiveTypeInfo>,
    below: usize,
    gives: Option<PrimitiveTypeInfo>,
) -> Result<(), AllocError>
    requires { below ≤ length types.old.items }
    ensures { OnOk result (types.new.items ≡ take below types.old.items ++ list_of gives) }
{
    types.truncate(below);
    match gives {
        Some(t) => {
            types.push(t)?;
            Ok(())
        }
        None => Ok(()),
    }
}

// The types behind the instruction, where it finds its operands on top; whether it does.
fn go_behind(
    info: &ModuleInfo<'_>,
    locals: &[PrimitiveTypeInfo],
    instr: &Instr,
    types: &mut Vec<PrimitiveTypeInfo>,
) -> Result<bool, AllocError>
    ensures typed { IfOk result (λ b. IsTrue b
        → told_types_behind (context_in info.now locals.now) instr.now types.old.items
        ≡ Some types.new.items) }
    ensures untyped { IfOk result (λ b. b ≡ false
        → told_types_behind (context_in info.now locals.now) instr.now types.old.items ≡ None) }
{
    let count = operand_count(info, instr);
    let all = types.len();
    if count > all {
        return Ok(false);
    }
    let below = all - count;
    let Some(gives) = told_types(info, locals, instr, &types[below..]) else {
        return Ok(false);
    };
    leave(types, below, gives)?;
    Ok(true)
}

/// The types of the values that the code leaves, the last one on top; none where it needs something from what stands before it, or
/// isn't typed. `locals` are the types of the function's parameters and locals.
///
/// Code in which a reference occurs that is none of funcref and externref counts as untyped: those types aren't told apart here, so
/// that one of them would be taken for another.
///
/// It takes time linear in the code. The only error: an allocation was refused.
pub fn types_of_code(
    alloc: Global,
    locals: &[PrimitiveTypeInfo],
    info: &ModuleInfo<'_>,
    code: &[Instr],
) -> Result<Option<Vec<PrimitiveTypeInfo>>, AllocError>
    ensures some { IfOk result (λ o. IfSome o (λ types.
        LeavesTypes (context_in info.now locals.now) code.now types.items)) }
    ensures none { IfOk result (λ o. IfNone o (
        told_types_after (context_in info.now locals.now) code.now [] ≡ None)) }
{
    let mut types = Vec::new(alloc);
    for i in 0..code.len() {
        let typed = go_behind(info, locals, &code[i], &mut types)?;
        if !typed {
            return Ok(None);
        }
    }
    Ok(Some(types))
}

/// Whether they are the same types, one by one.
pub(crate) fn are_same(some: &[PrimitiveTypeInfo], others: &[PrimitiveTypeInfo]) -> bool
    ensures { IsTrue result ↔ (some.now ≡ others.now) }
{
    if some.len() != others.len() {
        return false;
    }
    for i in 0..some.len() {
        if some[i] != others[i] {
            return false;
        }
    }
    true
}
