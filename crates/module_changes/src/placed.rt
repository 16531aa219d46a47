//! A module changed at operators that are named.
ghost use Rattle.std.specs.Prelude.{◌≡◌, ◌↔◌, ◌+◌, ◌<◌, ◌≤◌, None, false, IfErr, IfNone, IfOk, IfSome, IsTrue, length};
ghost use Rattle.body_changes.specs.Chosen.{NoneWithin};
ghost use Rattle.module_changes.specs.Entry.{IsReading};
ghost use Rattle.module_changes.specs.Placed.{up_to, ChangesAt, ChangesLast, MakesIn, RefusesAt, RefusesLast};
ghost use Rattle.module_changes.specs.Valid.{StaysValidModule};
ghost use Rattle.module_changes.specs.declared.refusal.Refusal.TheVariants.{Memory, NoChange};

use crate::attempt::{Step, refusal_by};
use crate::entry::{Attempt, Reading, Trial, change_function};
use crate::laws::changed_modules_stay_valid;
use crate::refusal::Refusal;
use crate::scope::Scope;
use crate::times::ChangedModule;
use body_changes::{Body, Change, Source, change_last, copied_into, units_of};
use module_rewrites::{FunctionBody, chosen_entries, read_function};
use std::alloc::Global;
use std::ops::Range;
use wasm_module::read_module;

/// A change of some operators of a function.
#[derive(Clone, Copy, Debug, PartialEq, Eq)]
pub struct ChangeAt {
    /// The change.
    pub change: Change,
    /// The function, by its index among all functions of the module, imported ones first.
    pub function: usize,
    /// The first operator of its body, counted from 0.
    pub first: usize,
    /// The operator behind the last one; what there isn't of these is left out.
    pub end: usize,
}

// The last operator in the range of which the change makes anything, by no words.
fn last_in(
    alloc: Global,
    reading: &Reading<'_>,
    function: &FunctionBody,
    change: Change,
    range: Range<usize>,
) -> Result<Option<usize>, Refusal>
    requires { range.end ≤ length function.now.operators.items }
    ensures some { IfOk result (λ o. IfSome o (λ at. (range.start ≤ at) × (at < range.end)
        × MakesIn reading.now function.now change at
        × NoneWithin (MakesIn reading.now function.now change) (at + 1) range.end)) }
    ensures none { IfOk result (λ o. IfNone o (NoneWithin
        (MakesIn reading.now function.now change) range.start range.end)) }
    ensures memory { IfErr result (λ e. e ≡ Memory) }
{
    let source = Source {
        info: reading.info,
        locals: &function.locals,
        operators: &function.operators,
        input: reading.bytes,
    };
    let units = units_of(alloc, source.locals, source.info, source.operators)?;
    let copied = copied_into(alloc, &source, &[])?;
    let body = Body {
        source,
        units: &units,
        most: 1,
        copied,
    };
    match change_last(alloc, &body, change, range, &[])? {
        Some(changed) => Ok(Some(changed.at)),
        None => Ok(None),
    }
}

// The module that was read with the change of the last of these operators of its n-th entry's function.
fn change_last_read(
    alloc: Global,
    reading: &Reading<'_>,
    n: usize,
    at: ChangeAt,
    max_size: usize,
) -> Result<Step, Refusal>
    requires reading { IsReading reading.now }
    requires unmarked { reading.now.info.now.exact ≡ false }
    requires inside { n < length reading.now.layout.now.entries }
    requires function { reading.now.layout.now.imported_functions + n ≡ at.function }
    ensures made { IfOk result (λ m.
        ChangesLast at max_size reading.now.bytes.now m.made m.bytes.items) }
    ensures refused { IfErr result (RefusesLast at max_size reading.now.bytes.now) }
{
    let function = match read_function(alloc, reading.bytes, reading.info, reading.layout, n) {
        Ok(function) => function,
        Err(e) => {
            if e.is_memory() {
                return Err(Refusal::Memory);
            }
            return Err(Refusal::NoChange);
        }
    };
    let range = at.first..at.end.min(function.operators.len());
    let Some(operator) = last_in(alloc, reading, &function, at.change, range)? else {
        return Err(Refusal::NoChange);
    };
    let scope = Scope {
        changes: &[at.change],
        function: Some(at.function),
        most: 1,
        max_size,
    };
    let trial = Trial {
        scope: &scope,
        copied: &[],
        words: &[0, operator as u64],
    };
    match change_function(alloc, reading, &trial, n, &function)? {
        Attempt::Made(made, bytes) => Ok(Step { made, bytes }),
        Attempt::Unchanged => unreachable!(),
        Attempt::TooLarge => Err(Refusal::TooLarge),
    }
}

// The module with the change of the last of these operators of which it makes anything.
fn change_last_of(
    alloc: Global,
    bytes: &[u8],
    at: ChangeAt,
    max_size: usize,
) -> Result<Step, Refusal>
    ensures made { IfOk result (λ m. ChangesLast at max_size bytes.now m.made m.bytes.items) }
    ensures refused { IfErr result (RefusesLast at max_size bytes.now) }
{
    let module = match read_module(alloc, bytes) {
        Ok(module) => module,
        Err(e) => return Err(Refusal::Read(e)),
    };
    let entries = match chosen_entries(&module.layout, Some(at.function)) {
        Ok(entries) => entries,
        Err(reason) => return Err(refusal_by(reason)),
    };
    let reading = Reading {
        bytes,
        info: &module.info,
        layout: &module.layout,
    };
    change_last_read(alloc, &reading, entries.start, at, max_size)
}

// The same change of those of the operators that stand before this one.
fn up_to(at: ChangeAt, end: usize) -> ChangeAt
    ensures { result ≡ up_to at end }
{
    ChangeAt { end, ..at }
}

// Whether nothing more can be changed.
fn is_no_change(refusal: Refusal) -> bool
    ensures { IsTrue result ↔ (refusal ≡ NoChange) }
{
    match refusal {
        Refusal::NoChange => true,
        _ => false,
    }
}

/// The module with this change of those of these operators of which it makes anything, from the last operator down to the first one, each
/// change made of the module that the one before it left. What stands within code that is replaced isn't looked at again: after a change
/// the operators before that code are. The change is made by no words (see `change_of_words`): a value that is drawn becomes the constant 0
/// of its type, or where that is what stands there the constant 1; a local, a global or a function becomes that with the number 0, where
/// it has the same type; and nothing is copied. (Which constant it is, no clause says.)
///
/// It takes time linear in the module for each change that is made.
///
/// `Read` as `read_module` refuses; `NoFunction` and `UnknownImport` as `chosen_entries` does; `NoChange` only where the change makes
/// nothing of any of them, or the function can't be read; `TooLarge` where a module with one of the changes doesn't fit; `Memory` for want
/// of memory. Then none is made.
pub fn change_at(
    alloc: Global,
    bytes: &[u8],
    at: ChangeAt,
    max_size: usize,
) -> Result<ChangedModule, Refusal>
    ensures changed { IfOk result (λ m.
        ChangesAt at max_size bytes.now m.made.items m.bytes.items) }
    ensures whole { IfOk result (λ m. m.stopped ≡ None) }
    // The new module is valid where the old one was.
    ensures valid { IfOk result (λ m. StaysValidModule bytes.now m.bytes.items) }
    ensures fails { IfErr result (RefusesAt at max_size bytes.now) }
{
    changed_modules_stay_valid();
    let first = change_last_of(alloc, bytes, at, max_size)?;
    let mut left = first.made.start;
    let mut made = Vec::new(alloc);
    made.push(first.made)?;
    let mut module = ChangedModule {
        bytes: first.bytes,
        made,
        stopped: None,
    };
    'changes: loop {
        match change_last_of(alloc, &module.bytes, up_to(at, left), max_size) {
            Ok(next) => {
                module.made.push(next.made)?;
                left = next.made.start;
                module.bytes = next.bytes;
            }
            Err(refusal) => {
                if is_no_change(refusal) {
                    return Ok(module);
                }
                return Err(refusal);
            }
        }
    }
}
