//! The list of the changes.
ghost use Rattle.std.specs.Prelude.{◌≡◌, ◌≢◌, OnOk, IfOk, IfErr};
ghost use Rattle.std.specs.Io.KnownBytes.{Appends};
ghost use Rattle.serde_json.specs.View.{view};
ghost use Rattle.module_commands.specs.Changes.{WritesChanges, summary, summary_line, summary_lines, summary_object, summary_text};
ghost use Rattle.module_commands.specs.Failures.{FailsToReport};
ghost use Rattle.module_commands.specs.declared.ending.Ending.TheVariants.{Whole};
ghost use Rattle.module_commands.specs.declared.failure.Failure.TheVariants.{Memory, Output};

use crate::ending::Ending;
use crate::failure::Failure;
use crate::objects::write_value;
use body_changes::{CHANGES, Change};
use module_options::Form;
use serde_json::{Value, json};
use std::alloc::{AllocError, Global};
use std::io::Write;

// What it makes, in words.
fn summary(change: Change) -> &'static str
    ensures { result.now ≡ summary change }
{
    match change {
        Change::Constant => "a constant becomes another one of its type",
        Change::Operator => "an operator becomes another one of the same types",
        Change::Local => "an access to a local becomes one to another of its type",
        Change::Draw => "a value is drawn anew, by at most eight instructions",
        Change::Copy =>
            "code becomes a copy of other code of the module that leaves the same types",
        Change::FirstOperand => "the first of two operands stands for the whole",
        Change::LastOperand => "the last operand stands for the whole",
        Change::ExchangeOperands => "two operands of one type change places",
        Change::Delete => "a statement is gone",
        Change::Double => "a statement stands there twice",
        Change::ExchangeStatements => "two statements change places",
        Change::Global => "a global that is read becomes another one of its type",
        Change::Call => "a function that is called becomes another one of its type",
        Change::MemoryArgument => {
            "a load or a store gets another offset, and an alignment that is no greater"
        }
    }
}

// Writes the text of a change.
fn write_text<W: Write>(output: &mut W, change: Change) -> Result<(), Failure>
    ensures line { OnOk result (Appends (W.contents output.old) (W.contents output.new)
        (summary_text change)) }
    ensures fails { IfErr result FailsToReport }
{
    let (name, makes) = (change.name(), summary(change));
    writeln!(output, "{name}: {makes}")?;
    Ok(())
}

// The object of a change.
fn value_of(alloc: Global, change: Change) -> Result<Value, AllocError>
    ensures { IfOk result (λ v. view v ≡ summary_object change) }
{
    let (name, makes) = (change.name(), summary(change));
    json!(in alloc; {"change": name, "makes": makes})
}

// Writes the line of a change.
fn write_line<W: Write>(
    alloc: Global,
    output: &mut W,
    form: Form,
    change: Change,
) -> Result<(), Failure>
    ensures line { OnOk result (Appends (W.contents output.old) (W.contents output.new)
        (summary_line form change)) }
    ensures fails { IfErr result FailsToReport }
{
    match form {
        Form::Text => write_text(output, change),
        Form::Json => {
            let value = value_of(alloc, change)?;
            write_value(alloc, output, &value)
        }
    }
}

// Writes the lines of changes.
fn write_lines<W: Write>(
    alloc: Global,
    output: &mut W,
    form: Form,
    changes: &[Change],
) -> Result<(), Failure>
    ensures lines { OnOk result (Appends (W.contents output.old) (W.contents output.new)
        (summary_lines form changes.now)) }
    ensures fails { IfErr result FailsToReport }
{
    for change in changes {
        write_line(alloc, output, form, *change)?;
    }
    Ok(())
}

/// Writes all changes, each with what it makes, in the form. Nothing is written for want of memory.
pub fn list_changes<W: Write>(alloc: Global, form: Form, output: &mut W) -> Result<Ending, Failure>
    ensures written { OnOk result (WritesChanges form (W.contents output.old)
        (W.contents output.new)) }
    ensures whole { IfOk result (λ ending. ending ≡ Whole) }
    ensures fails { IfErr result FailsToReport }
    ensures kept { IfErr result (λ e. e ≢ Output
        → W.contents output.new ≡ W.contents output.old) }
{
    let mut text: Vec<u8> = Vec::new(alloc);
    if write_lines(alloc, &mut text, form, &CHANGES).is_err() {
        return Err(Failure::Memory);
    }
    output.write_all(&text)?;
    output.flush()?;
    Ok(Ending::Whole)
}
