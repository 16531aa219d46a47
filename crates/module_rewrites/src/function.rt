//! A function of a module: the types of its parameters and locals, and its body.
ghost use Rattle.std.specs.Prelude.{◌≡◌, ◌↔◌, ◌<◌, ◌+◌, ℕ, List, length, Some, option_copied, option_map, slice_get, slice_range, IfOk, IfErr, IfNone, IfSome, IsTrue, MatchResult};
ghost use Rattle.wasm_code.specs.declared.operator.Operator.{Operator};
ghost use Rattle.wasm_types.specs.declared.types.PrimitiveTypeInfo.{PrimitiveTypeInfo};
ghost use Rattle.wasm_types.specs.Module.{Module, function_type};
ghost use Rattle.module_rewrites.specs.Function.{HasNoType, IsFunction, IsFunctionFault, FunctionIsUnknown, IsWantOfMemory, KnowsIndices, operator_at_fault, parameters_of};
ghost use Rattle.wasm_module.specs.Inside.{IsInside};
ghost use Rattle.wasm_module.specs.Module.{IsModule};

use crate::operator_code::{OperatorCode, code_at};
use std::alloc::Global;
use thiserror::Error;
use wasm_code::{OperatorAndByteOffset, ReadError, ReadKind, read_code};
use wasm_module::laws::entries_are_inside;
use wasm_module::{Entry, Layout, ModuleError, ModuleFault, read_locals};
use wasm_types::{ModuleInfo, PrimitiveTypeInfo, TypeInfo};

/// Why a function can't be read.
#[derive(Clone, Copy, Debug, PartialEq, Eq, Error)]
pub enum FunctionError {
    /// An import, a global or its type is of a form that isn't known here: what the function needs of the module isn't known.
    #[error("{0}")]
    Unknown(ModuleError),
    /// The module has no type for it.
    #[error("UnknownType")]
    UnknownType,
    /// Its locals are refused.
    #[error("{0}")]
    Locals(ModuleError),
    /// Its body is refused: it has an operator that isn't known here, or is no body.
    #[error("{0}")]
    Body(BodyError),
}

/// Why a body can't be read.
#[derive(Clone, Copy, Debug, PartialEq, Eq, Error)]
#[error("{fault}")]
pub struct BodyError {
    /// The first fault, and where the operator at fault starts.
    pub fault: ReadError,
    /// The code of that operator, where it isn't known here, or an immediate of it isn't.
    pub operator: Option<OperatorCode>,
}

impl FunctionError {
    /// Whether no memory was left.
    pub fn is_memory(&self) -> bool
        ensures { IsTrue result ↔ IsWantOfMemory self.now }
    {
        match self {
            FunctionError::Unknown(_) | FunctionError::UnknownType => false,
            FunctionError::Locals(e) => e.kind == ModuleFault::Memory,
            FunctionError::Body(e) => e.fault.kind == ReadKind::Memory,
        }
    }
}

/// A function of a module.
#[derive(Drop)]
pub struct FunctionBody {
    /// The types of its parameters, and of its locals behind them.
    pub locals: Vec<PrimitiveTypeInfo>,
    /// Where its expression starts, counted in bytes from the start of the module.
    pub expression: usize,
    /// Its operators with their offsets in the module.
    pub operators: Vec<OperatorAndByteOffset>,
}

// The type of the function with the index; none where the module has no such function, or no type for it.
fn type_of<'a>(info: &'a ModuleInfo<'_>, index: usize) -> Option<&'a TypeInfo>
    ensures { option_copied result ≡ function_type info.now index }
{
    let place = info.function_map.get(index)?;
    info.types_map.get(*place as usize)
}

// The types of its parameters.
fn parameters<'a>(info: &'a ModuleInfo<'_>, index: usize) -> Option<&'a [PrimitiveTypeInfo]>
    ensures { option_map (λ params. params.now) result ≡ parameters_of info.now index }
{
    match type_of(info, index)? {
        TypeInfo::Func(function) => Some(&function.params),
        TypeInfo::Other => None,
    }
}

/// The index, among all functions, of the one whose code is the n-th entry. Condition: the module has such a function.
pub fn function_index(info: &ModuleInfo<'_>, layout: &Layout, n: usize) -> usize
    requires { layout.now.imported_functions + n < length info.now.functions }
    ensures { result ≡ layout.now.imported_functions + n }
{
    let count = info.function_map.len();
    let imported = layout.imported_functions;
    prove!(imported < count);
    imported + n
}

pub(crate) fn entry_at(layout: &Layout, n: usize) -> Entry
    requires { n < length layout.now.entries }
    ensures { slice_get layout.now.entries n ≡ Some result }
{
    layout.entries[n]
}

fn contents_of(bytes: &[u8], entry: Entry) -> &[u8]
    requires { IsInside bytes.now entry }
    ensures { result.now ≡ slice_range bytes.now entry.contents entry.end }
{
    &bytes[entry.contents..entry.end]
}

// The first import, or else the first global, of a form that isn't known.
fn unknown_index(layout: &Layout) -> Option<ModuleError>
    ensures none { IfNone result (KnowsIndices layout.now) }
    ensures some { (info : Module) (n : ℕ) → IfSome result (FunctionIsUnknown info layout.now n) }
{
    match layout.unknown.imports {
        Some(error) => Some(error),
        None => layout.unknown.globals,
    }
}

// The code of the operator at fault, where it isn't known, or an immediate of it isn't.
fn operator_at_fault(bytes: &[u8], fault: ReadError) -> Option<OperatorCode>
    ensures { result ≡ operator_at_fault bytes.now fault }
{
    match fault.kind {
        ReadKind::UnknownOpcode => code_at(bytes, fault.offset),
        ReadKind::BadImmediate => code_at(bytes, fault.offset),
        _ => None,
    }
}

// Why a function has no type that is known.
fn without_type(layout: &Layout) -> FunctionError
    requires indices { KnowsIndices layout.now }
    ensures { (bytes : List ℕ) (info : Module) (n : ℕ) → HasNoType info layout.now n
        → IsFunctionFault bytes info layout.now n result }
{
    match layout.unknown.types {
        Some(error) => FunctionError::Unknown(error),
        None => FunctionError::UnknownType,
    }
}

/// Reads the function of the module's n-th code entry, from 0: the types of its parameters and locals, and its body.
///
/// Refused with the first fault: `Unknown` where an import or a global is of a form that isn't known here, so that indices aren't
/// known, or where such a type stands before the function's; `UnknownType` where the module has no type for it; `Locals` as
/// `read_locals` refuses its locals; `Body` as `read_code` refuses what stands behind them, with the code of an operator that isn't
/// known; for want of memory as either refuses.
pub fn read_function(
    alloc: Global,
    bytes: &[u8],
    info: &ModuleInfo<'_>,
    layout: &Layout,
    n: usize,
) -> Result<FunctionBody, FunctionError>
    requires module { IsModule bytes.now info.now layout.now }
    requires inside { n < length layout.now.entries }
    // What is read is spelled so.
    ensures read { IfOk result (λ f.
        IsFunction bytes.now info.now layout.now n f.locals.items f.expression f.operators.items) }
    // What is spelled so is read, unless memory runs out.
    ensures only { (locals : List PrimitiveTypeInfo) (expression : ℕ)
        (operators : List (Operator × ℕ))
        → IsFunction bytes.now info.now layout.now n locals expression operators
        → MatchResult result (λ f. (f.locals.items ≡ locals) × (f.operators.items ≡ operators))
        IsWantOfMemory }
    // What doesn't come from memory is the first fault.
    ensures fault { IfErr result (IsFunctionFault bytes.now info.now layout.now n) }
{
    entries_are_inside();
    if let Some(error) = unknown_index(layout) {
        return Err(FunctionError::Unknown(error));
    }
    let entry = entry_at(layout, n);
    let Some(params) = parameters(info, function_index(info, layout, n)) else {
        return Err(without_type(layout));
    };
    let contents = contents_of(bytes, entry);
    let locals = match read_locals(alloc, params, contents, entry.contents) {
        Ok(locals) => locals,
        Err(e) => return Err(FunctionError::Locals(e)),
    };
    match read_code(alloc, bytes, locals.expression, entry.end) {
        Ok(operators) => Ok(FunctionBody {
            locals: locals.types,
            expression: locals.expression,
            operators,
        }),
        Err(fault) => {
            let operator = operator_at_fault(bytes, fault);
            Err(FunctionError::Body(BodyError { fault, operator }))
        }
    }
}
