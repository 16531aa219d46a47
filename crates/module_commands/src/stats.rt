//! What a run reports of a module and its rewrites.
ghost use Rattle.std.specs.Prelude.{◌≡◌, ◌<◌, ◌≤◌, ℕ, List, length, option_map, IfOk, IfErr, OnOk};
ghost use Rattle.std.specs.Io.KnownBytes.{Appends};
ghost use Rattle.serde_json.specs.View.{view};
ghost use Rattle.module_commands.specs.Failures.{FailsToReport};
ghost use Rattle.module_commands.specs.Lines.{family_lines, functions_line, functions_object, functions_text, part_line, part_object, part_text, reach_lines, sizes_line, sizes_object, sizes_text, stopped_line, stopped_name, stopped_object, stopped_part, stopped_text};
ghost use Rattle.module_commands.specs.Reports.{ReportsFunctions, TellsIfUnread, made_lines, rewrites_report, stop_name};
ghost use Rattle.module_commands.specs.declared.failure.Failure.TheVariants.{Memory};
ghost use Rattle.wasm_module.specs.Module.{IsModule};

use crate::failure::Failure;
use crate::faults::write_fault;
use crate::listing::write_rewrite;
use crate::names::RowNames;
use crate::objects::write_value;
use crate::reach::{Part, Reach};
use module_options::Form;
use module_rewrites::{MadeRewrite, MutationError, RewrittenModule, read_function};
use serde_json::{Value, json};
use std::alloc::{AllocError, Global};
use std::io::Write;
use wasm_module::{Module, WriteError};

// Writes the line of the n-th of the module's own functions, where that can't be read; answers 1 then, else 0.
fn report_function<W: Write>(
    alloc: Global,
    bytes: &[u8],
    wasm: &Module<'_>,
    form: Form,
    n: usize,
    notes: &mut W,
) -> Result<usize, Failure>
    requires module { IsModule bytes.now wasm.now.info wasm.now.layout }
    requires inside { n < length wasm.now.layout.entries }
    ensures told { IfOk result (λ one. (text : List ℕ)
        × Appends (W.contents notes.old) (W.contents notes.new) text
        × TellsIfUnread form bytes.now wasm.now.info wasm.now.layout n one text) }
    ensures most { IfOk result (λ one. one ≤ 1) }
    ensures fails { IfErr result FailsToReport }
{
    let error = match read_function(alloc, bytes, &wasm.info, &wasm.layout, n) {
        Ok(_) => return Ok(0),
        Err(e) => e,
    };
    if error.is_memory() {
        return Err(Failure::Memory);
    }
    write_fault(alloc, notes, form, &wasm.layout, n, &error)?;
    Ok(1)
}

// Writes the text that counts functions.
fn write_counts<W: Write>(notes: &mut W, count: usize, unreadable: usize) -> Result<(), Failure>
    ensures line { OnOk result (Appends (W.contents notes.old) (W.contents notes.new)
        (functions_text count unreadable)) }
    ensures fails { IfErr result FailsToReport }
{
    writeln!(notes, "functions  {count:<10} unreadable {unreadable}")?;
    Ok(())
}

// The object that counts functions.
fn counts_value(alloc: Global, count: usize, unreadable: usize) -> Result<Value, AllocError>
    ensures { IfOk result (λ v. view v ≡ functions_object count unreadable) }
{
    json!(in alloc; {"functions": count, "unreadable": unreadable})
}

// Writes the line that counts functions.
fn write_functions<W: Write>(
    alloc: Global,
    notes: &mut W,
    form: Form,
    count: usize,
    unreadable: usize,
) -> Result<(), Failure>
    ensures line { OnOk result (Appends (W.contents notes.old) (W.contents notes.new)
        (functions_line form count unreadable)) }
    ensures fails { IfErr result FailsToReport }
{
    match form {
        Form::Text => write_counts(notes, count, unreadable),
        Form::Json => {
            let value = counts_value(alloc, count, unreadable)?;
            write_value(alloc, notes, &value)
        }
    }
}

/// Reports on the functions of a module: a line for each that can't be read, with its first fault and where that is, and how many
/// functions the module has of its own, and of those how many can't be read.
pub fn report_functions<W: Write>(
    alloc: Global,
    bytes: &[u8],
    wasm: &Module<'_>,
    form: Form,
    notes: &mut W,
) -> Result<(), Failure>
    requires { IsModule bytes.now wasm.now.info wasm.now.layout }
    ensures reports { OnOk result (ReportsFunctions form bytes.now wasm.now.info
        wasm.now.layout (W.contents notes.old) (W.contents notes.new)) }
    ensures fails { IfErr result FailsToReport }
{
    let count = wasm.layout.entries.len();
    let mut unreadable = 0usize;
    for n in 0..count {
        unreadable += report_function(alloc, bytes, wasm, form, n, notes)?;
    }
    write_functions(alloc, notes, form, count, unreadable)
}

// Writes the text of a part of what rules reach, behind a word.
fn write_part_text<W: Write>(notes: &mut W, word: &str, part: Part) -> Result<(), Failure>
    ensures line { OnOk result (Appends (W.contents notes.old) (W.contents notes.new)
        (part_text word.now part)) }
    ensures fails { IfErr result FailsToReport }
{
    let (all, within) = (part.all, part.within);
    writeln!(notes, "{word}{all:<10} rewritable {within}")?;
    Ok(())
}

// The object of a part of what rules reach.
fn part_value(alloc: Global, name: &str, part: Part) -> Result<Value, AllocError>
    ensures { IfOk result (λ v. view v ≡ part_object name.now part) }
{
    let (all, within) = (part.all, part.within);
    json!(in alloc; {"all": all, "of": name, "rewritable": within})
}

// Writes the line of a part of what rules reach: its name, and the word that the text has for it.
fn write_part<W: Write>(
    alloc: Global,
    notes: &mut W,
    form: Form,
    name: &str,
    word: &str,
    part: Part,
) -> Result<(), Failure>
    ensures line { OnOk result (Appends (W.contents notes.old) (W.contents notes.new)
        (part_line form name.now word.now part)) }
    ensures fails { IfErr result FailsToReport }
{
    match form {
        Form::Text => write_part_text(notes, word, part),
        Form::Json => {
            let value = part_value(alloc, name, part)?;
            write_value(alloc, notes, &value)
        }
    }
}

// Writes the lines of the families.
fn write_families<W: Write>(
    alloc: Global,
    notes: &mut W,
    form: Form,
    reach: Reach,
) -> Result<(), Failure>
    ensures lines { OnOk result (Appends (W.contents notes.old) (W.contents notes.new)
        (family_lines form reach)) }
    ensures fails { IfErr result FailsToReport }
{
    let (integers, floats) = (reach.integers, reach.floats);
    let (vectors, accesses) = (reach.vectors, reach.accesses);
    write_part(alloc, notes, form, "integers", "integers   ", integers)?;
    write_part(alloc, notes, form, "floats", "floats     ", floats)?;
    write_part(alloc, notes, form, "vectors", "vectors    ", vectors)?;
    write_part(alloc, notes, form, "accesses", "accesses   ", accesses)
}

/// Reports how much of a module rules reach.
pub fn report_reach<W: Write>(
    alloc: Global,
    notes: &mut W,
    form: Form,
    reach: Reach,
) -> Result<(), Failure>
    ensures reports { OnOk result (Appends (W.contents notes.old) (W.contents notes.new)
        (reach_lines form reach)) }
    ensures fails { IfErr result FailsToReport }
{
    write_part(
        alloc,
        notes,
        form,
        "operators",
        "operators  ",
        reach.operators,
    )?;
    write_part(alloc, notes, form, "blocks", "blocks     ", reach.blocks)?;
    write_families(alloc, notes, form, reach)
}

// Writes the lines of the rewrites that were made.
fn write_made<W: Write>(
    alloc: Global,
    notes: &mut W,
    form: Form,
    made: &[MadeRewrite],
) -> Result<(), Failure>
    ensures lines { OnOk result (Appends (W.contents notes.old) (W.contents notes.new)
        (made_lines form made.now)) }
    ensures fails { IfErr result FailsToReport }
{
    let names = RowNames::new(alloc)?;
    for one in made {
        write_rewrite(alloc, notes, form, &names, one.function, &one.rewrite)?;
    }
    Ok(())
}

// The name of what was refused.
fn stopped_name(error: &MutationError) -> &'static str
    ensures { result.now ≡ stopped_name error.now }
{
    match error {
        MutationError::Read(e) => e.kind.name(),
        MutationError::Memory => "Memory",
        MutationError::Write(WriteError::TooLarge) => "TooLarge",
        MutationError::Write(WriteError::EmptyType) => "EmptyType",
        MutationError::Write(WriteError::Memory) => "Memory",
        MutationError::TooLong => "TooLong",
        MutationError::NotSmaller => "NotSmaller",
    }
}

// Why there are no more rewrites, where there were to be so many.
fn stop_name(new: &RewrittenModule, count: usize) -> Option<&'static str>
    ensures { option_map (λ name. name.now) result
        ≡ stop_name count new.now.made.items new.now.stopped }
{
    match &new.stopped {
        Some(error) => Some(stopped_name(error)),
        None => {
            if new.made.len() < count {
                Some("NoRule")
            } else {
                None
            }
        }
    }
}

// Writes the text of why there are no more.
fn write_stop_text<W: Write>(notes: &mut W, name: &str) -> Result<(), Failure>
    ensures line { OnOk result (Appends (W.contents notes.old) (W.contents notes.new)
        (stopped_text name.now)) }
    ensures fails { IfErr result FailsToReport }
{
    writeln!(notes, "stopped {name}")?;
    Ok(())
}

// The object of why there are no more.
fn stop_value(alloc: Global, name: &str) -> Result<Value, AllocError>
    ensures { IfOk result (λ v. view v ≡ stopped_object name.now) }
{
    json!(in alloc; {"stopped": name})
}

// Writes the line of why there are no more.
fn write_stop<W: Write>(alloc: Global, notes: &mut W, form: Form, name: &str) -> Result<(), Failure>
    ensures line { OnOk result (Appends (W.contents notes.old) (W.contents notes.new)
        (stopped_line form name.now)) }
    ensures fails { IfErr result FailsToReport }
{
    match form {
        Form::Text => write_stop_text(notes, name),
        Form::Json => {
            let value = stop_value(alloc, name)?;
            write_value(alloc, notes, &value)
        }
    }
}

/// The same, where there is something to tell.
pub fn write_stopped<W: Write>(
    alloc: Global,
    notes: &mut W,
    form: Form,
    name: Option<&str>,
) -> Result<(), Failure>
    ensures text { OnOk result (Appends (W.contents notes.old) (W.contents notes.new)
        (stopped_part form (option_map (λ n. n.now) name.entry))) }
    ensures fails { IfErr result FailsToReport }
{
    match name {
        None => Ok(()),
        Some(name) => write_stop(alloc, notes, form, name),
    }
}

// Writes the text of the sizes.
fn write_bytes<W: Write>(notes: &mut W, before: usize, behind: usize) -> Result<(), Failure>
    ensures line { OnOk result (Appends (W.contents notes.old) (W.contents notes.new)
        (sizes_text before behind)) }
    ensures fails { IfErr result FailsToReport }
{
    writeln!(notes, "bytes      {before:<10} new {behind}")?;
    Ok(())
}

// The object of the sizes.
fn bytes_value(alloc: Global, before: usize, behind: usize) -> Result<Value, AllocError>
    ensures { IfOk result (λ v. view v ≡ sizes_object before behind) }
{
    json!(in alloc; {"bytes": before, "new": behind})
}

/// Writes the line of the sizes.
pub fn write_sizes<W: Write>(
    alloc: Global,
    notes: &mut W,
    form: Form,
    before: usize,
    behind: usize,
) -> Result<(), Failure>
    ensures line { OnOk result (Appends (W.contents notes.old) (W.contents notes.new)
        (sizes_line form before behind)) }
    ensures fails { IfErr result FailsToReport }
{
    match form {
        Form::Text => write_bytes(notes, before, behind),
        Form::Json => {
            let value = bytes_value(alloc, before, behind)?;
            write_value(alloc, notes, &value)
        }
    }
}

// Reports on a module that was rewritten.
fn report_rewrites<W: Write>(
    alloc: Global,
    bytes: &[u8],
    new: &RewrittenModule,
    form: Form,
    count: usize,
    notes: &mut W,
) -> Result<(), Failure>
    ensures reports { OnOk result (Appends (W.contents notes.old) (W.contents notes.new)
        (rewrites_report form count bytes.now new.now.made.items new.now.stopped
        new.now.bytes.items)) }
    ensures fails { IfErr result FailsToReport }
{
    write_made(alloc, notes, form, &new.made)?;
    write_stopped(alloc, notes, form, stop_name(new, count))?;
    write_sizes(alloc, notes, form, bytes.len(), new.bytes.len())
}

/// What is reported of a module that was rewritten: each rewrite that was made, in order, why there are no more where there were to
/// be so many, and the bytes of the module and of what is written. Fails with `Memory` where no memory is left: nothing else keeps a
/// `Vec` from being written.
pub fn rewrites_report(
    alloc: Global,
    bytes: &[u8],
    new: &RewrittenModule,
    form: Form,
    count: usize,
) -> Result<Vec<u8>, Failure>
    ensures report { IfOk result (λ report. report.items ≡ rewrites_report form count bytes.now
        new.now.made.items new.now.stopped new.now.bytes.items) }
    ensures memory { IfErr result (λ e. e ≡ Memory) }
{
    let mut report: Vec<u8> = Vec::new(alloc);
    match report_rewrites(alloc, bytes, new, form, count, &mut report) {
        Ok(()) => Ok(report),
        Err(_) => Err(Failure::Memory),
    }
}
