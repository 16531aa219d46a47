//! Functions that can't be read.
ghost use Rattle.std.specs.Prelude.{◌≡◌, ◌<◌, ℕ, List, length, slice_get, option_map, None, Some, IfOk, IfErr, OnOk};
ghost use Rattle.std.specs.Io.KnownBytes.{Appends};
ghost use Rattle.serde_json.specs.View.{view};
ghost use Rattle.module_commands.specs.Blocks.{TellsFault};
ghost use Rattle.module_commands.specs.Failures.{FailsToReport};
ghost use Rattle.module_commands.specs.Lines.{entry_line, entry_object, fault_offset, fault_operator, fault_text, fault_words, function_line, function_object, operator_words_of};

use crate::failure::Failure;
use crate::objects::write_value;
use module_options::Form;
use module_rewrites::{FunctionError, OperatorCode, index_of};
use serde_json::{Value, json};
use std::alloc::{AllocError, Global};
use std::io::Write;
use wasm_module::Layout;

// The name of the first fault.
fn fault_name(error: &FunctionError) -> &'static str
    ensures { result.now ≡ fault_text error.now }
{
    match error {
        FunctionError::Unknown(e) => e.kind.name(),
        FunctionError::UnknownType => "UnknownType",
        FunctionError::Locals(e) => e.kind.name(),
        FunctionError::Body(e) => e.fault.kind.name(),
    }
}

// Where the fault is in the module, of a function whose code entry starts at `start`.
fn fault_offset(error: &FunctionError, start: usize) -> usize
    ensures { result ≡ fault_offset start error.now }
{
    match error {
        FunctionError::Unknown(e) => e.offset,
        FunctionError::UnknownType => start,
        FunctionError::Locals(e) => e.offset,
        FunctionError::Body(e) => e.fault.offset,
    }
}

// The code of an operator that isn't known, where that is the fault.
fn fault_operator(error: &FunctionError) -> Option<OperatorCode>
    ensures { result ≡ fault_operator error.now }
{
    match error {
        FunctionError::Unknown(_) => None,
        FunctionError::UnknownType => None,
        FunctionError::Locals(_) => None,
        FunctionError::Body(e) => e.operator,
    }
}

// A fault as it is told: its name, and where it is.
#[derive(Clone, Copy)]
struct NamedFault {
    name: &'static str,
    offset: usize,
}

// Where the n-th code entry starts.
fn entry_start(layout: &Layout, n: usize) -> usize
    requires { n < length layout.now.entries }
    ensures { option_map (λ e. e.start) (slice_get layout.now.entries n) ≡ Some result }
{
    layout.entries[n].start
}

// Writes the text of a fault under a word and a number.
fn write_fault_words<W: Write>(
    output: &mut W,
    word: &str,
    number: usize,
    told: NamedFault,
) -> Result<(), Failure>
    ensures line { OnOk result (Appends (W.contents output.old) (W.contents output.new)
        (operator_words_of word.now number told.name.now told.offset None)) }
    ensures fails { IfErr result FailsToReport }
{
    let (name, offset) = (told.name, told.offset);
    writeln!(output, "{word}{number:<6} {name} at {offset}")?;
    Ok(())
}

// The same of an operator that isn't known.
fn write_operator_words<W: Write>(
    output: &mut W,
    word: &str,
    number: usize,
    told: NamedFault,
    code: OperatorCode,
) -> Result<(), Failure>
    ensures line { OnOk result (Appends (W.contents output.old) (W.contents output.new)
        (operator_words_of word.now number told.name.now told.offset (Some code))) }
    ensures fails { IfErr result FailsToReport }
{
    let (name, offset) = (told.name, told.offset);
    let family = code.family().name();
    writeln!(
        output,
        "{word}{number:<6} {name} at {offset}: operator {code} ({family})"
    )?;
    Ok(())
}

// Writes the text of the error under a word and a number.
fn write_words<W: Write>(
    output: &mut W,
    word: &str,
    number: usize,
    start: usize,
    error: &FunctionError,
) -> Result<(), Failure>
    ensures line { OnOk result (Appends (W.contents output.old) (W.contents output.new)
        (fault_words word.now number start error.now)) }
    ensures fails { IfErr result FailsToReport }
{
    let told = NamedFault {
        name: fault_name(error),
        offset: fault_offset(error, start),
    };
    match fault_operator(error) {
        None => write_fault_words(output, word, number, told),
        Some(code) => write_operator_words(output, word, number, told, code),
    }
}

// The object of the function with the index.
fn function_value(
    alloc: Global,
    function: usize,
    start: usize,
    error: &FunctionError,
) -> Result<Value, AllocError>
    ensures { IfOk result (λ v. view v ≡ function_object function start error.now) }
{
    let fault = fault_name(error);
    let offset = fault_offset(error, start);
    match fault_operator(error) {
        None => json!(in alloc; {"fault": fault, "function": function, "offset": offset}),
        Some(code) => {
            let family = code.family().name();
            let operator = format!(in alloc; "{code}")?;
            json!(in alloc; {
                "family": family,
                "fault": fault,
                "function": function,
                "offset": offset,
                "operator": operator
            })
        }
    }
}

// The object of the code entry with the number.
fn entry_value(
    alloc: Global,
    entry: usize,
    start: usize,
    error: &FunctionError,
) -> Result<Value, AllocError>
    ensures { IfOk result (λ v. view v ≡ entry_object entry start error.now) }
{
    let fault = fault_name(error);
    let offset = fault_offset(error, start);
    match fault_operator(error) {
        None => json!(in alloc; {"entry": entry, "fault": fault, "offset": offset}),
        Some(code) => {
            let family = code.family().name();
            let operator = format!(in alloc; "{code}")?;
            json!(in alloc; {
                "entry": entry,
                "family": family,
                "fault": fault,
                "offset": offset,
                "operator": operator
            })
        }
    }
}

// Writes the line of the function with the index.
fn write_function<W: Write>(
    alloc: Global,
    output: &mut W,
    form: Form,
    function: usize,
    start: usize,
    error: &FunctionError,
) -> Result<(), Failure>
    ensures line { OnOk result (Appends (W.contents output.old) (W.contents output.new)
        (function_line form function start error.now)) }
    ensures fails { IfErr result FailsToReport }
{
    match form {
        Form::Text => write_words(output, "function ", function, start, error),
        Form::Json => {
            let value = function_value(alloc, function, start, error)?;
            write_value(alloc, output, &value)
        }
    }
}

// Writes the line of the code entry with the number.
fn write_entry<W: Write>(
    alloc: Global,
    output: &mut W,
    form: Form,
    entry: usize,
    start: usize,
    error: &FunctionError,
) -> Result<(), Failure>
    ensures line { OnOk result (Appends (W.contents output.old) (W.contents output.new)
        (entry_line form entry start error.now)) }
    ensures fails { IfErr result FailsToReport }
{
    match form {
        Form::Text => write_words(output, "entry    ", entry, start, error),
        Form::Json => {
            let value = entry_value(alloc, entry, start, error)?;
            write_value(alloc, output, &value)
        }
    }
}

/// Writes the line of the n-th of the module's own functions, which can't be read: the name of its first fault, where that is in
/// the module, and of an operator that isn't known its code and its family. Where an import isn't known, and so no function's index is, the line names the code entry.
pub fn write_fault<W: Write>(
    alloc: Global,
    output: &mut W,
    form: Form,
    layout: &Layout,
    n: usize,
    error: &FunctionError,
) -> Result<(), Failure>
    requires inside { n < length layout.now.entries }
    ensures line { OnOk result ((text : List ℕ)
        × Appends (W.contents output.old) (W.contents output.new) text
        × TellsFault form layout.now n error.now text) }
    ensures fails { IfErr result FailsToReport }
{
    let start = entry_start(layout, n);
    match layout.unknown.imports {
        None => write_function(alloc, output, form, index_of(layout, n), start, error),
        Some(_) => write_entry(alloc, output, form, n, start, error),
    }
}
