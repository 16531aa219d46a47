//! A module's first rewrite, or why nothing of it is rewritten; the functions of a module that may be rewritten.
ghost use Rattle.std.specs.Prelude.{◌≡◌, ◌⊎◌, ◌↔◌, ◌≤◌, ◌<◌, ◌+◌, ◌^◌, ℕ, length, None, IfOk, IfErr, IfNone, IfSome, IsTrue, false};
ghost use Rattle.module_rewrites.specs.Attempt.{CanRead, IsForSize, IsKnownFunctionFault, IsReason, IsReasonWithin, RefusesIndex};
ghost use Rattle.module_rewrites.specs.Chosen.{ChoosesOfModule, GivesUp};
ghost use Rattle.module_rewrites.specs.Mutated.{IsChosen, IsMutated, WasRewrittenAt};
ghost use Rattle.module_rewrites.specs.declared.mutation.MutationError.TheVariants.{Memory};
ghost use Rattle.wasm_module.specs.Module.{IsModule};

use crate::function::{FunctionError, read_function};
use crate::mutation::{MutationError, Step, mutate_chosen};
use crate::scope::Scope;
use rand_core::Rng;
use std::alloc::{AllocError, Global};
use std::ops::Range;
use thiserror::Error as ErrorTexts;
use wasm_module::laws::one_reading;
use wasm_module::{Layout, ModuleError, read_marked};
use wasm_types::ModuleInfo;

/// Why nothing of a module is rewritten.
#[derive(Clone, Copy, Debug, PartialEq, Eq, ErrorTexts)]
pub enum Reason {
    /// No rule applies.
    #[error("no rule applies")]
    NoRule,
    /// The module has no function of its own.
    #[error("the module has no function of its own")]
    NoOwnFunction,
    /// None of the functions that may be rewritten can be read; the error is that of the first one.
    #[error("no function can be read, the first one for {0}")]
    Unreadable(FunctionError),
    /// The module has no function of its own with this index.
    #[error("the module has no function {0} of its own")]
    NoFunction(usize),
    /// A function is named, and an import isn't known, so that no function's index is.
    #[error("an import isn't known, and so no function's index is: {0}")]
    UnknownImport(ModuleError),
    /// The module, or a rewrite of it, is refused.
    #[error("{0}")]
    Refused(MutationError),
}

impl From<AllocError> for Reason {
    ghost use Rattle.std.specs.Prelude.{◌≡◌};
    ghost use Rattle.module_rewrites.specs.declared.attempt.Reason.TheVariants.{Refused};
    ghost use Rattle.module_rewrites.specs.declared.mutation.MutationError.TheVariants.{Memory};

    ghost from_gives = { λ _ e. e ≡ Refused Memory };

    fn from(_e: AllocError) -> Reason {
        Reason::Refused(MutationError::Memory)
    }
}

/// The index, among all functions, of the one whose code is the n-th entry. It has one only where all imports are known.
pub fn index_of(layout: &Layout, n: usize) -> usize
    ensures { layout.now.imported_functions + n < 2 ^ 64
        → result ≡ layout.now.imported_functions + n }
{
    layout.imported_functions.saturating_add(n)
}

/// The code entries of the functions that may be rewritten: all of them, or with `only` that of the function with this index.
///
/// `NoFunction` where that is none of the module's own; `UnknownImport` where an import isn't known, and so no function's index is.
pub fn chosen_entries(layout: &Layout, only: Option<usize>) -> Result<Range<usize>, Reason>
    ensures inside { IfOk result (λ r.
        (r.start ≤ r.end) × (r.end ≤ length layout.now.entries)) }
    ensures chosen { IfOk result (λ r. (n : ℕ) → ((r.start ≤ n) × (n < r.end))
        ↔ ((n < length layout.now.entries) × IsChosen only (layout.now.imported_functions + n))) }
    ensures named { IfOk result (λ r. (only ≡ None) ⊎ (r.start < r.end)) }
    ensures known { IfOk result (λ _. (only ≡ None) ⊎ (layout.now.unknown.imports ≡ None)) }
    ensures refused { IfErr result (RefusesIndex layout.now only) }
{
    let count = layout.entries.len();
    let Some(function) = only else {
        return Ok(0..count);
    };
    if let Some(error) = layout.unknown.imports {
        return Err(Reason::UnknownImport(error));
    }
    let imported = layout.imported_functions;
    if function < imported || function - imported >= count {
        return Err(Reason::NoFunction(function));
    }
    let n = function - imported;
    Ok(n..n + 1)
}

// Whether one of the functions of these code entries can be read; for want of memory an error.
fn can_read_any(
    alloc: Global,
    bytes: &[u8],
    info: &ModuleInfo<'_>,
    layout: &Layout,
    entries: Range<usize>,
) -> Result<bool, MutationError>
    requires module { IsModule bytes.now info.now layout.now }
    requires inside { entries.end ≤ length layout.now.entries }
    ensures some { IfOk result (λ b. IsTrue b → (n : ℕ) × (entries.start ≤ n) × (n < entries.end)
        × CanRead bytes.now info.now layout.now n) }
    ensures none { IfOk result (λ b. b ≡ false → (n : ℕ) → entries.start ≤ n → n < entries.end
        → ¬ (CanRead bytes.now info.now layout.now n)) }
    ensures memory { IfErr result (λ e. (e ≡ Memory)
        × (n : ℕ) × (entries.start ≤ n) × (n < entries.end)) }
{
    let from = entries.start;
    let to = entries.end;
    for n in from..to {
        match read_function(alloc, bytes, info, layout, n) {
            Ok(_) => return Ok(true),
            Err(e) => {
                if e.is_memory() {
                    return Err(MutationError::Memory);
                }
            }
        }
    }
    Ok(false)
}

// Why none of the functions of these code entries can be read: the error of the first one. None where one of them can; for want of
// memory an error.
fn first_unread(
    alloc: Global,
    bytes: &[u8],
    info: &ModuleInfo<'_>,
    layout: &Layout,
    entries: Range<usize>,
) -> Result<Option<FunctionError>, MutationError>
    requires module { IsModule bytes.now info.now layout.now }
    requires inside { entries.end ≤ length layout.now.entries }
    requires some { entries.start < entries.end }
    ensures fault { IfOk result (λ o. IfSome o (λ e.
        IsKnownFunctionFault bytes.now info.now layout.now entries.start e)) }
    ensures none { IfOk result (λ o. IfSome o (λ e. (n : ℕ) → entries.start ≤ n
        → n < entries.end → ¬ (CanRead bytes.now info.now layout.now n))) }
    ensures some { IfOk result (λ o. IfNone o ((n : ℕ) × (entries.start ≤ n)
        × (n < entries.end) × CanRead bytes.now info.now layout.now n)) }
    ensures memory { IfErr result (λ e. (e ≡ Memory)
        × (n : ℕ) × (entries.start ≤ n) × (n < entries.end)) }
{
    let (from, to) = (entries.start, entries.end);
    let first = match read_function(alloc, bytes, info, layout, from) {
        Ok(_) => return Ok(None),
        Err(e) => e,
    };
    if first.is_memory() {
        return Err(MutationError::Memory);
    }
    if can_read_any(alloc, bytes, info, layout, from + 1..to)? {
        return Ok(None);
    }
    Ok(Some(first))
}

// Why nothing of a module is rewritten in which nothing can be, and of which these code entries may be.
fn without_rewrite(
    alloc: Global,
    bytes: &[u8],
    info: &ModuleInfo<'_>,
    layout: &Layout,
    entries: Range<usize>,
) -> Reason
    requires module { IsModule bytes.now info.now layout.now }
    requires inside { entries.end ≤ length layout.now.entries }
    ensures reason { IsReasonWithin bytes.now info.now layout.now entries.start entries.end result }
    ensures size { ¬ (IsForSize result) }
{
    if entries.start >= entries.end {
        return Reason::NoOwnFunction;
    }
    match first_unread(alloc, bytes, info, layout, entries) {
        Ok(None) => Reason::NoRule,
        Ok(Some(error)) => Reason::Unreadable(error),
        Err(e) => Reason::Refused(e),
    }
}

/// The module with one rewrite made, by a generator that then stands behind its words, or why nothing of it is rewritten.
pub(crate) fn rewrite_first<R: Rng>(
    alloc: Global,
    bytes: &[u8],
    generator: &mut R,
    scope: &Scope<'_>,
) -> Result<Step, Reason>
    ensures mutated { IfOk result (λ m. IsMutated scope.now bytes.now
        m.mutated.function m.mutated.rewrite m.mutated.bytes.items) }
    ensures chosen { IfOk result (λ m. ChoosesOfModule scope.now bytes.now
        (R.stream generator.old) m.mutated.function m.mutated.rewrite m.mutated.bytes.items
        (R.stream generator.new)) }
    ensures read { IfOk result (λ m. WasRewrittenAt scope.now
        m.read.info m.read.layout m.mutated.function m.mutated.bytes.items) }
    ensures fails { IfErr result (IsReason scope.now bytes.now) }
    ensures gives_up { IfErr result (λ e. IsForSize e
        → GivesUp scope.now bytes.now (R.stream generator.old)) }
{
    one_reading();
    let module = match read_marked(alloc, bytes, scope.exact) {
        Ok(module) => module,
        Err(e) => return Err(Reason::Refused(MutationError::Read(e))),
    };
    let entries = match chosen_entries(&module.layout, scope.function) {
        Ok(entries) => entries,
        Err(reason) => return Err(reason),
    };
    match mutate_chosen(alloc, &module.info, generator, scope, bytes, &module.layout) {
        Ok(Some(mutated)) => Ok(Step {
            mutated,
            read: module.without_bytes(),
        }),
        Ok(None) => Err(without_rewrite(alloc, bytes, &module.info, &module.layout, entries)),
        Err(e) => Err(Reason::Refused(e)),
    }
}
