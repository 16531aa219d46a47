//! How many rewrites are wanted of a module: a number, or a percentage of the operators that there are.
ghost use Rattle.std.specs.Prelude.{◌≡◌, ◌≤◌, ◌<◌, ℕ, Option, length, IfOk, IfErr};
ghost use Rattle.module_rewrites.specs.Attempt.{AreChosen, IsReason};
ghost use Rattle.module_rewrites.specs.Dose.{AreOperators, AreOperatorsOf, HasOperators, IsDoseOf, IsOfReading, IsOneOrMore, percentage};
ghost use Rattle.module_rewrites.specs.declared.mutation.MutationError.TheVariants.{Memory};
ghost use Rattle.wasm_module.specs.Module.{IsModule};

use crate::attempt::{Reason, chosen_entries};
use crate::function::read_function;
use crate::mutation::MutationError;
use crate::scope::Scope;
use std::alloc::Global;
use std::ops::Range;
use wasm_module::{Layout, read_marked};
use wasm_types::ModuleInfo;

/// How many rewrites are wanted of a module.
#[derive(Clone, Copy, Debug, PartialEq, Eq)]
pub enum Dose {
    /// So many.
    Times(usize),
    /// As many as this percentage of the operators of the functions that may be rewritten and can be read, rounded down, but one at
    /// least.
    Percent(usize),
}

// How many operators the function of the n-th code entry has, where it is one of these entries and can be read; else 0.
fn operators_within(
    alloc: Global,
    bytes: &[u8],
    info: &ModuleInfo<'_>,
    layout: &Layout,
    entries: &Range<usize>,
    n: usize,
) -> Result<usize, MutationError>
    requires module { IsModule bytes.now info.now layout.now }
    requires inside { n < length layout.now.entries }
    ensures own { IfOk result (λ own. (only : Option ℕ)
        → AreChosen only layout.now entries.now.start entries.now.end
        → HasOperators only bytes.now info.now layout.now n own) }
    ensures memory { IfErr result (λ e. (e ≡ Memory)
        × (entries.now.start ≤ n) × (n < entries.now.end)) }
{
    if n < entries.start {
        return Ok(0);
    }
    if n >= entries.end {
        return Ok(0);
    }
    match read_function(alloc, bytes, info, layout, n) {
        Ok(function) => Ok(function.operators.len()),
        Err(e) => {
            if e.is_memory() {
                return Err(MutationError::Memory);
            }
            Ok(0)
        }
    }
}

// How many operators the functions of these code entries have that can be read.
fn operators_of(
    alloc: Global,
    bytes: &[u8],
    info: &ModuleInfo<'_>,
    layout: &Layout,
    entries: &Range<usize>,
) -> Result<u128, MutationError>
    requires module { IsModule bytes.now info.now layout.now }
    ensures all { IfOk result (λ all. (only : Option ℕ)
        → AreChosen only layout.now entries.now.start entries.now.end
        → AreOperators only bytes.now info.now layout.now all) }
    ensures memory { IfErr result (λ e. (e ≡ Memory)
        × (n : ℕ) × (entries.now.start ≤ n) × (n < entries.now.end)) }
{
    let mut all: u128 = 0;
    for n in 0..layout.entries.len() {
        let own = match operators_within(alloc, bytes, info, layout, entries, n) {
            Ok(own) => own,
            Err(e) => return Err(e),
        };
        all = all.saturating_add(own as u128);
    }
    Ok(all)
}

// How many operators the functions have that may be rewritten and can be read.
fn all_operators(alloc: Global, bytes: &[u8], scope: &Scope<'_>) -> Result<u128, Reason>
    ensures all { IfOk result (AreOperatorsOf scope.now.function bytes.now) }
    ensures fails { IfErr result (IsReason scope.now bytes.now) }
    ensures reading { IfErr result IsOfReading }
{
    let module = match read_marked(alloc, bytes, scope.exact) {
        Ok(module) => module,
        Err(e) => return Err(Reason::Refused(MutationError::Read(e))),
    };
    let entries = match chosen_entries(&module.layout, scope.function) {
        Ok(entries) => entries,
        Err(reason) => return Err(reason),
    };
    match operators_of(alloc, bytes, &module.info, &module.layout, &entries) {
        Ok(all) => Ok(all),
        Err(e) => Err(Reason::Refused(e)),
    }
}

// That percentage of so many, rounded down, but one at least.
fn percentage_of(percent: usize, all: u128) -> usize
    ensures { result ≡ percentage percent all }
{
    let part = all.saturating_mul(percent as u128) / 100;
    part.min(usize::MAX as u128).max(1) as usize
}

/// How many rewrites the dose is of the module: the number itself, or that percentage of the operators, the last `end` of each body
/// among them, of the functions that may be rewritten and can be read, rounded down, but one at least, and at most what a `usize`
/// holds. A number takes no time; a percentage is linear in the module.
///
/// Of a percentage `NoFunction` and `UnknownImport` as `chosen_entries` refuses, and `Refused` with `Read` as `read_module` refuses,
/// or with `Memory` for want of memory.
pub fn count_of_dose(
    alloc: Global,
    bytes: &[u8],
    scope: &Scope<'_>,
    dose: Dose,
) -> Result<usize, Reason>
    // It is that number, exactly.
    ensures count { IfOk result (IsDoseOf dose scope.now.function bytes.now) }
    ensures some { IsOneOrMore dose → IfOk result (λ count. 0 < count) }
    // Why there is none: why nothing of the module is rewritten, but not that no rewrite can be made, or fits.
    ensures fails { IfErr result (IsReason scope.now bytes.now) }
    ensures reading { IfErr result IsOfReading }
{
    match dose {
        Dose::Times(count) => Ok(count),
        Dose::Percent(percent) => match all_operators(alloc, bytes, scope) {
            Ok(all) => Ok(percentage_of(percent, all)),
            Err(reason) => Err(reason),
        },
    }
}
