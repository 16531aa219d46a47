//! The blocks of a module's functions.
ghost use Rattle.std.specs.Prelude.{◌≡◌, ◌⊎◌, ◌↔◌, ◌<◌, ◌≤◌, ◌+◌, ℕ, List, length, true, false, IsTrue, IfSome, IfNone, IfOk, IfErr, OnOk};
ghost use Rattle.std.specs.Io.KnownBytes.{Appends};
ghost use Rattle.serde_json.specs.View.{view};
ghost use Rattle.module_commands.specs.Blocks.{HasNoDelimiter, IsBlock, delimits, TellsBlock, TellsBlocks, WritesBlocks};
ghost use Rattle.module_commands.specs.Failures.{FailsToList, FailsToReport};
ghost use Rattle.module_options.specs.Form.{output_form_of};
ghost use Rattle.module_commands.specs.Lines.{block_line_in_form, block_lines, block_object, block_text};
ghost use Rattle.module_commands.specs.Lists.{InTurn};
ghost use Rattle.module_options.specs.declared.form.Form.{Form};
ghost use Rattle.wasm_module.specs.Module.{IsModule};

use crate::failure::Failure;
use crate::faults::write_fault;
use crate::functions::module_of;
use crate::objects::write_value;
use module_options::{Form, Options};
use module_rewrites::{chosen_entries, index_of, read_function};
use serde_json::{Value, json};
use std::alloc::{AllocError, Global};
use std::io::Write;
use wasm_code::OperatorAndByteOffset;
use wasm_module::Module;

/// A block of the function with an index: the indexes, in the body, of its first operator and of the one behind its last.
#[derive(Clone, Copy)]
pub struct BlockLine {
    pub function: usize,
    pub start: usize,
    pub end: usize,
}

// Writes the text of a block.
fn write_text<W: Write>(output: &mut W, line: BlockLine) -> Result<(), Failure>
    ensures line { OnOk result (Appends (W.contents output.old) (W.contents output.new)
        (block_text line.function line.start line.end)) }
    ensures fails { IfErr result FailsToReport }
{
    let (function, start, end) = (line.function, line.start, line.end);
    writeln!(output, "function {function:<6} block {start:>6}..{end}")?;
    Ok(())
}

// The object of a block.
fn value_of(alloc: Global, line: BlockLine) -> Result<Value, AllocError>
    ensures { IfOk result (λ v. view v ≡ block_object line.function line.start line.end) }
{
    let (function, start, end) = (line.function, line.start, line.end);
    json!(in alloc; {"end": end, "function": function, "start": start})
}

// Writes the line of a block.
fn write_line<W: Write>(
    alloc: Global,
    output: &mut W,
    form: Form,
    line: BlockLine,
) -> Result<(), Failure>
    ensures line { OnOk result (Appends (W.contents output.old) (W.contents output.new)
        (block_line_in_form form line)) }
    ensures fails { IfErr result FailsToReport }
{
    match form {
        Form::Text => write_text(output, line),
        Form::Json => {
            let value = value_of(alloc, line)?;
            write_value(alloc, output, &value)
        }
    }
}

// The same, where there is a block.
fn write_lines<W: Write>(
    alloc: Global,
    output: &mut W,
    form: Form,
    line: Option<BlockLine>,
) -> Result<(), Failure>
    ensures lines { OnOk result (Appends (W.contents output.old) (W.contents output.new)
        (block_lines form line)) }
    ensures fails { IfErr result FailsToReport }
{
    match line {
        None => Ok(()),
        Some(line) => write_line(alloc, output, form, line),
    }
}

// Whether the operator there is a delimiter.
pub(crate) fn delimits(operators: &[OperatorAndByteOffset], index: usize) -> bool
    requires { index < length operators.now }
    ensures { result ≡ delimits operators.now index }
{
    operators[index].0.is_delimiter()
}

// Whether the operator is the last one of a block.
fn ends_block(operators: &[OperatorAndByteOffset], index: usize) -> bool
    requires { index < length operators.now }
    ensures { IsTrue result ↔ ((delimits operators.now index ≡ false)
        × ((index + 1 ≡ length operators.now) ⊎ (delimits operators.now (index + 1) ≡ true))) }
{
    if delimits(operators, index) {
        return false;
    }
    if index + 1 == operators.len() {
        return true;
    }
    delimits(operators, index + 1)
}

// The first operator of the longest range that ends with the one at `last` and holds no delimiter; behind it where that is one.
fn block_start(operators: &[OperatorAndByteOffset], last: usize) -> usize
    requires { last < length operators.now }
    ensures within { result ≤ last + 1 }
    ensures none { HasNoDelimiter operators.now result (last + 1) }
    ensures longest { (from : ℕ) → HasNoDelimiter operators.now from (last + 1)
        → result ≤ from }
{
    let mut start = last + 1;
    while start > 0 {
        if delimits(operators, start - 1) {
            return start;
        }
        start -= 1;
    }
    start
}

// The first operator of the block whose last one is that, where there is such a block.
pub(crate) fn block_ending(operators: &[OperatorAndByteOffset], last: usize) -> Option<usize>
    requires { last < length operators.now }
    ensures block { IfSome result (λ start. IsBlock operators.now start (last + 1)) }
    ensures none { IfNone result ((start : ℕ) → ¬ (IsBlock operators.now start (last + 1))) }
{
    if !ends_block(operators, last) {
        return None;
    }
    Some(block_start(operators, last))
}

// What is told of the block whose last operator is that one, where there is one.
fn line_ending(
    function: usize,
    operators: &[OperatorAndByteOffset],
    last: usize,
) -> Option<BlockLine>
    requires { last < length operators.now }
    ensures { (form : Form) → TellsBlock form function operators.now last
        (block_lines form result) }
{
    let Some(start) = block_ending(operators, last) else {
        return None;
    };
    Some(BlockLine {
        function,
        start,
        end: last + 1,
    })
}

// Writes the lines of the blocks of the function with the index.
fn write_blocks<W: Write>(
    alloc: Global,
    function: usize,
    operators: &[OperatorAndByteOffset],
    form: Form,
    output: &mut W,
) -> Result<(), Failure>
    ensures lines { OnOk result ((text : List ℕ)
        × Appends (W.contents output.old) (W.contents output.new) text
        × InTurn (TellsBlock form function operators.now) 0 (length operators.now) text) }
    ensures fails { IfErr result FailsToReport }
{
    for last in 0..operators.len() {
        let line = line_ending(function, operators, last);
        write_lines(alloc, output, form, line)?;
    }
    Ok(())
}

// Writes the lines of the n-th of the module's own functions.
fn write_function<W: Write>(
    alloc: Global,
    wasm: &Module<'_>,
    bytes: &[u8],
    n: usize,
    form: Form,
    output: &mut W,
) -> Result<(), Failure>
    requires module { IsModule bytes.now wasm.now.info wasm.now.layout }
    requires inside { n < length wasm.now.layout.entries }
    ensures lines { OnOk result ((text : List ℕ)
        × Appends (W.contents output.old) (W.contents output.new) text
        × TellsBlocks form bytes.now wasm.now.info wasm.now.layout n text) }
    ensures fails { IfErr result FailsToReport }
{
    match read_function(alloc, bytes, &wasm.info, &wasm.layout, n) {
        Ok(function) => {
            let index = index_of(&wasm.layout, n);
            write_blocks(alloc, index, &function.operators, form, output)
        }
        Err(e) => {
            if e.is_memory() {
                return Err(Failure::Memory);
            }
            write_fault(alloc, output, form, &wasm.layout, n, &e)
        }
    }
}

/// Writes a line for each block of each function of the module: the longest ranges of operators that hold no delimiter. A function
/// that can't be read has a line that says why. Where the options name a function, that alone is looked at.
///
/// Fails as the module can't be read, and as `chosen_entries` finds no such function.
#[tactic(auto, using(crate::proofs::FaultsLemmas::read_fails, crate::proofs::FaultsLemmas::index_fails, crate::proofs::FaultsLemmas::report_fails))]
pub fn list_blocks<W: Write>(
    alloc: Global,
    bytes: &[u8],
    options: &Options,
    output: &mut W,
) -> Result<(), Failure>
    ensures lines { OnOk result (WritesBlocks (output_form_of options.now) options.now.function
        bytes.now (W.contents output.old) (W.contents output.new)) }
    ensures fails { IfErr result (FailsToList options.now.function bytes.now) }
{
    let module = module_of(alloc, bytes, false)?;
    let chosen = chosen_entries(&module.layout, options.function)?;
    let form = options.form();
    let from = chosen.start;
    let to = chosen.end;
    for n in from..to {
        write_function(alloc, &module, bytes, n, form, output)?;
    }
    Ok(())
}
