//! A code entry changed by words.
ghost use Rattle.std.specs.Prelude.{◌≡◌, ◌<◌, ◌≤◌, ◌+◌, ◌++◌, ℕ, List, [], Some, IfErr, IfNone, IfOk, IfSome, length, slice_get, slice_range};
ghost use Rattle.wasm_code.specs.declared.operator.Operator.{Operator};
ghost use Rattle.wasm_types.specs.declared.types.PrimitiveTypeInfo.{PrimitiveTypeInfo};
ghost use Rattle.body_changes.specs.Replacing.{source_context};
ghost use Rattle.body_splices.specs.OwnBytes.{IsBodyIn};
ghost use Rattle.body_changes.specs.Chosen.{ChangesNone};
ghost use Rattle.wasm_module.specs.Rewritten.{IsRewritten};
ghost use Rattle.module_rewrites.specs.Function.{IsFunction};
ghost use Rattle.module_rewrites.specs.Drawing.{WordNames};
ghost use Rattle.module_rewrites.specs.Mutated.{IsBehindLocals};
ghost use Rattle.module_changes.specs.Changed.{WritesCode};
ghost use Rattle.module_changes.specs.Entry.{choice_of, IsLarge, IsReading, IsTried};
ghost use Rattle.module_changes.specs.Scope.{material_of};
ghost use Rattle.module_changes.specs.declared.refusal.Refusal.TheVariants.{Memory};

use crate::refusal::Refusal;
use crate::scope::Scope;
use crate::sites::Site;
use body_changes::{
    Body, Change, Changed, Source, change_of_words, copied_into, replace_code, units_of,
};
use body_splices::laws::splices_keep_operators;
use module_rewrites::laws::{bodies_are_read_again, functions_are_inside};
use module_rewrites::{FunctionBody, entry_of_word, function_index, read_function};
use std::alloc::Global;
use wasm_code::{Function, Instr};
use wasm_module::laws::{entries_are_inside, entries_fit_the_module, rewritten_bytes_are_a_module};
use wasm_module::{Entry, Layout, WriteError, with_body};
use wasm_types::ModuleInfo;

/// A change that was made, of an operator and what stands right before it.
#[derive(Clone, Copy, Debug, PartialEq, Eq)]
pub struct MadeChange {
    /// The function, by its index among all functions of the module, imported ones first.
    pub function: usize,
    /// The change.
    pub change: Change,
    /// The operator of its body, counted from 0, with which the code ended that was replaced.
    pub operator: usize,
    /// The operator with which that began.
    pub start: usize,
}

impl MadeChange {
    ghost use Rattle.std.specs.Prelude.{◌≡◌};
    ghost use Rattle.module_changes.specs.Sites.{site_of_change};

    /// The operator and the change.
    pub fn site(&self) -> Site
        ensures { result ≡ site_of_change self.now }
    {
        Site {
            operator: self.operator,
            change: self.change,
        }
    }
}

/// A module, and what was read of it.
#[derive(Clone, Copy)]
pub(crate) struct Reading<'a> {
    pub bytes: &'a [u8],
    pub info: &'a ModuleInfo<'a>,
    pub layout: &'a Layout,
}

/// What may be changed, the code that may be copied, and the words that choose a change.
#[derive(Clone, Copy)]
pub(crate) struct Trial<'a> {
    pub scope: &'a Scope<'a>,
    pub copied: &'a [Instr],
    pub words: &'a [u64],
}

/// The module with a change of one of its entries, or why there is none.
#[derive(Drop)]
pub(crate) enum Attempt {
    /// The new module.
    Made(MadeChange, Vec<u8>),
    /// No change makes anything, or the function can't be read.
    Unchanged,
    /// The new module doesn't fit.
    TooLarge,
}

/// What an entry contains: the groups of its locals, and its body.
#[derive(Clone, Copy)]
struct Contents<'a> {
    locals: &'a [u8],
    body: &'a [u8],
}

/// The number of the entry that the word names by its size.
pub(crate) fn entry_named(reading: &Reading<'_>, word: u64) -> usize
    requires reading { IsReading reading.now }
    requires some { 0 < length reading.now.layout.now.entries }
    ensures named { WordNames word reading.now.layout.now.entries result }
    ensures inside { result < length reading.now.layout.now.entries }
{
    entries_are_inside();
    entries_fit_the_module();
    entry_of_word(reading.layout, word)
}

// The n-th entry.
fn entry_at(layout: &Layout, n: usize) -> Entry
    requires { n < length layout.now.entries }
    ensures { slice_get layout.now.entries n ≡ Some result }
{
    layout.entries[n]
}

// What stands in an entry before its expression: the groups of its locals.
fn locals_of(bytes: &[u8], entry: Entry, expression: usize) -> &[u8]
    requires { IsBehindLocals bytes.now entry expression }
    ensures { result.now ≡ slice_range bytes.now entry.contents expression }
{
    &bytes[entry.contents..expression]
}

// Writes the body with the change that the words choose behind what the sink holds; none where no change makes anything.
fn change_body(
    alloc: Global,
    source: &Source<'_>,
    trial: &Trial<'_>,
    sink: &mut Function,
) -> Result<Option<Changed>, Refusal>
    requires body { IsBodyIn source.now.input.now source.now.operators.now }
    requires some { 0 < trial.now.scope.now.most }
    ensures made { IfOk result (λ o. IfSome o (λ c. WritesCode (choice_of trial.now)
        (source_context source.now) source.now.input.now source.now.operators.now
        trial.now.words.now c.change c.at c.start sink.old sink.new)) }
    ensures none { IfOk result (λ o. IfNone o (ChangesNone
        (source_context source.now) source.now.operators.now
        (material_of (choice_of trial.now)) trial.now.scope.now.changes trial.now.words.now)) }
    ensures memory { IfErr result (λ e. e ≡ Memory) }
{
    let units = units_of(alloc, source.locals, source.info, source.operators)?;
    let copied = copied_into(alloc, source, trial.copied)?;
    let body = Body {
        source: *source,
        units: &units,
        most: trial.scope.most(),
        copied,
    };
    let changes = trial.scope.changes();
    let Some(changed) = change_of_words(alloc, &body, changes, trial.words)? else {
        return Ok(None);
    };
    let range = changed.start..changed.at + 1;
    match replace_code(alloc, source, range, &changed.code, sink) {
        Ok(true) => Ok(Some(changed)),
        Ok(false) => unreachable!(),
        Err(_) => Err(Refusal::Memory),
    }
}

// The module with the body in its n-th code entry, behind the locals as they stood; none where it doesn't fit.
fn module_with(
    alloc: Global,
    reading: &Reading<'_>,
    n: usize,
    contents: Contents<'_>,
    most: usize,
) -> Result<Option<Vec<u8>>, Refusal>
    requires reading { IsReading reading.now }
    requires inside { n < length reading.now.layout.now.entries }
    ensures written { IfOk result (λ o. IfSome o (λ new. IsRewritten reading.now.bytes.now
        reading.now.layout.now n
        (contents.entry.locals.now ++ contents.entry.body.now) [] new.items)) }
    ensures fits { IfOk result (λ o. IfSome o (λ new. length new.items ≤ most)) }
    ensures large { IfOk result (λ o. IfNone o (IsLarge reading.now.bytes.now
        reading.now.layout.now n (contents.entry.locals.now ++ contents.entry.body.now) most)) }
    ensures memory { IfErr result (λ e. e ≡ Memory) }
{
    let Contents { locals, body } = contents;
    match with_body(alloc, reading.bytes, reading.layout, n, locals, body, &[]) {
        Ok(new) => {
            if new.len() > most {
                Ok(None)
            } else {
                Ok(Some(new))
            }
        }
        Err(WriteError::TooLarge) => Ok(None),
        Err(WriteError::EmptyType) => unreachable!(),
        Err(WriteError::Memory) => Err(Refusal::Memory),
    }
}

/// The module with the function's body changed by the words.
pub(crate) fn change_function(
    alloc: Global,
    reading: &Reading<'_>,
    trial: &Trial<'_>,
    n: usize,
    function: &FunctionBody,
) -> Result<Attempt, Refusal>
    requires reading { IsReading reading.now }
    requires inside { n < length reading.now.layout.now.entries }
    requires some { 0 < trial.now.scope.now.most }
    requires function { IsFunction reading.now.bytes.now reading.now.info.now
        reading.now.layout.now n function.now.locals.items function.now.expression
        function.now.operators.items }
    // It is read in one way.
    requires only { (locals : List PrimitiveTypeInfo) (expression : ℕ)
        (operators : List (Operator × ℕ)) → IsFunction reading.now.bytes.now
        reading.now.info.now reading.now.layout.now n locals expression operators
        → (function.now.locals.items ≡ locals) × (function.now.operators.items ≡ operators) }
    ensures tried { IfOk result (IsTried (choice_of trial.now) reading.now.bytes.now
        reading.now.info.now reading.now.layout.now trial.now.words.now n) }
    ensures memory { IfErr result (λ e. e ≡ Memory) }
{
    functions_are_inside();
    splices_keep_operators();
    rewritten_bytes_are_a_module();
    bodies_are_read_again();
    let source = Source {
        info: reading.info,
        locals: &function.locals,
        operators: &function.operators,
        input: reading.bytes,
    };
    let mut body = Function::new(alloc);
    let Some(changed) = change_body(alloc, &source, trial, &mut body)? else {
        return Ok(Attempt::Unchanged);
    };
    let locals = locals_of(
        reading.bytes,
        entry_at(reading.layout, n),
        function.expression,
    );
    let contents = Contents {
        locals,
        body: body.bytes(),
    };
    match module_with(alloc, reading, n, contents, trial.scope.max_size())? {
        Some(new) => {
            let made = MadeChange {
                function: function_index(reading.info, reading.layout, n),
                change: changed.change,
                operator: changed.at,
                start: changed.start,
            };
            Ok(Attempt::Made(made, new))
        }
        None => Ok(Attempt::TooLarge),
    }
}

/// The module with a change of the function of its n-th code entry, as the words choose it.
pub(crate) fn change_entry(
    alloc: Global,
    reading: &Reading<'_>,
    trial: &Trial<'_>,
    n: usize,
) -> Result<Attempt, Refusal>
    requires reading { IsReading reading.now }
    requires inside { n < length reading.now.layout.now.entries }
    requires some { 0 < trial.now.scope.now.most }
    ensures tried { IfOk result (IsTried (choice_of trial.now) reading.now.bytes.now
        reading.now.info.now reading.now.layout.now trial.now.words.now n) }
    ensures memory { IfErr result (λ e. e ≡ Memory) }
{
    match read_function(alloc, reading.bytes, reading.info, reading.layout, n) {
        Ok(function) => change_function(alloc, reading, trial, n, &function),
        Err(e) => {
            if e.is_memory() {
                Err(Refusal::Memory)
            } else {
                Ok(Attempt::Unchanged)
            }
        }
    }
}
