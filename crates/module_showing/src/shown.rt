//! A rewrite, shown.
ghost use Rattle.std.specs.Prelude.{◌≡◌, ◌++◌, ℕ, List, OnOk, IfErr};
ghost use Rattle.std.specs.Io.KnownBytes.{Appends};
ghost use Rattle.module_showing.specs.Shown.{row_name, first_line};
ghost use Rattle.module_showing.specs.declared.error.ShowError.TheVariants.{Memory, Output};
ghost use Rattle.wasm_sections.specs.Section.{SpellsModule};

use crate::drawing::add_drawn;
use crate::error::ShowError;
use crate::range::{Drawn, range_of};
use crate::reading::{function_of, module_of};
use body_rewrites::trees_of;
use module_rewrites::{FunctionBody, MadeRewrite};
use rewrite_rules::Rule;
use std::alloc::Global;
use std::io::Write;
use wasm_code::OperatorAndByteOffset;
use wasm_module::Section;
use wasm_sections::function_name;
use wasm_types::ModuleInfo;

// A function of a module.
#[derive(Clone, Copy)]
struct Side<'a> {
    info: &'a ModuleInfo<'a>,
    function: &'a FunctionBody,
}

// Adds the line of the function's name, where it has one.
fn add_name(
    text: &mut String,
    bytes: &[u8],
    sections: &[Section],
    function: usize,
) -> Result<(), ShowError>
    requires { SpellsModule bytes.now sections.now }
{
    if function > u32::MAX as usize {
        return Ok(());
    }
    if let Some(name) = function_name(bytes, sections, function as u32) {
        writeln!(text, "  name {name:?}")?;
    }
    Ok(())
}

// Where the operator's block begins: behind the last delimiter before it, or at the first operator.
fn block_start(operators: &[OperatorAndByteOffset], at: usize) -> usize {
    for back in 0..at {
        let index = at - 1 - back;
        if let Some((operator, _)) = operators.get(index) {
            if operator.is_delimiter() {
                return index + 1;
            }
        }
    }
    0
}

// The index of the first delimiter from `at` on, or else of what is behind the last operator.
fn block_end(operators: &[OperatorAndByteOffset], at: usize) -> usize {
    for index in at..operators.len() {
        if operators[index].0.is_delimiter() {
            return index;
        }
    }
    operators.len()
}

// Whether the operator with that index stands in a block: it is there, and no delimiter.
fn is_in_block(operators: &[OperatorAndByteOffset], at: usize) -> bool {
    match operators.get(at) {
        Some((operator, _)) => !operator.is_delimiter(),
        None => false,
    }
}

// Adds the line of the operator's block.
fn add_block(
    text: &mut String,
    operators: &[OperatorAndByteOffset],
    at: usize,
) -> Result<(), ShowError> {
    let start = block_start(operators, at);
    let end = block_end(operators, at);
    writeln!(text, "  block {start}..{end}")?;
    Ok(())
}

// Adds what was rewritten, and what it is now.
fn add_sides(
    alloc: Global,
    text: &mut String,
    old: Side<'_>,
    new: Side<'_>,
    at: usize,
) -> Result<(), ShowError> {
    let old_trees = trees_of(
        alloc,
        &old.function.locals,
        old.info,
        &old.function.operators,
    )?;
    let new_trees = trees_of(
        alloc,
        &new.function.locals,
        new.info,
        &new.function.operators,
    )?;
    let old_body = Drawn {
        info: old.info,
        operators: &old.function.operators,
        trees: &old_trees,
    };
    let new_body = Drawn {
        info: new.info,
        operators: &new.function.operators,
        trees: &new_trees,
    };
    let Some(range) = range_of(&old_body, &new_body, at) else {
        return Ok(());
    };
    text.push_str("  before\n")?;
    if let Some(operators) = range.of(old_body.operators) {
        add_drawn(alloc, text, old.info, &old.function.locals, operators)?;
    }
    text.push_str("  after\n")?;
    if let Some(operators) = range.of(new_body.operators) {
        add_drawn(alloc, text, new.info, &new.function.locals, operators)?;
    }
    Ok(())
}

/// What is shown behind the first line, of the operator `at` of the function with the index.
pub(crate) fn lines_of(
    alloc: Global,
    old: &[u8],
    new: &[u8],
    index: usize,
    at: usize,
) -> Result<String, ShowError> {
    let mut text = String::new(alloc);
    let Some(module) = module_of(alloc, old)? else {
        return Ok(text);
    };
    add_name(&mut text, old, &module.layout.sections, index)?;
    let Some(function) = function_of(alloc, old, &module.info, &module.layout, index)? else {
        return Ok(text);
    };
    if is_in_block(&function.operators, at) {
        add_block(&mut text, &function.operators, at)?;
    }
    let Some(rewritten) = module_of(alloc, new)? else {
        return Ok(text);
    };
    let Some(other) = function_of(alloc, new, &rewritten.info, &rewritten.layout, index)? else {
        return Ok(text);
    };
    let before = Side {
        info: &module.info,
        function: &function,
    };
    let after = Side {
        info: &rewritten.info,
        function: &other,
    };
    add_sides(alloc, &mut text, before, after, at)?;
    Ok(text)
}

// The name of the rule that the row is of; none where there is no such row.
fn row_name(row: usize) -> &'static str
    ensures { result.now ≡ row_name row }
{
    match Rule::of_row(row) {
        Some(rule) => rule.name(),
        None => "",
    }
}

// Writes the first line.
fn write_first<W: Write>(output: &mut W, made: &MadeRewrite) -> Result<(), ShowError>
    ensures line { OnOk result (Appends (W.contents output.old) (W.contents output.new)
        (first_line made.now)) }
    ensures fails { IfErr result (λ e. e ≡ Output) }
{
    let function = made.function;
    let operator = made.rewrite.operator;
    let rule = row_name(made.rewrite.row);
    writeln!(
        output,
        "function {function} operator {operator} rule {rule}"
    )?;
    Ok(())
}

/// Writes the text.
pub(crate) fn write_text<W: Write>(output: &mut W, text: &str) -> Result<(), ShowError>
    ensures text { OnOk result (Appends (W.contents output.old) (W.contents output.new)
        text.now) }
    ensures fails { IfErr result (λ e. e ≡ Output) }
{
    write!(output, "{text}")?;
    Ok(())
}

/// Writes what a rewrite made of a module, for people to read. `old` is the module before that one rewrite, `new` the module with
/// it. A first line says which operator of which function, and the name of the rule, which is left out where the table has no such
/// row; the lines behind it are indented: the function's name, in quotes, where the module has one; the operator's block, by the
/// indexes of its first operator and of what is behind its last one; and what was rewritten and what stands in its place, both from
/// the first operator that isn't the same, or the first of its operands, drawn as trees, or one operator a line where there are more
/// than 256, or `nothing` where there are none. Where `old` has no such function that can be read, the lines that there would be of it
/// are left out, and so is the block's where the operator ends one, and where `new` has no such function, what was rewritten.
///
/// It takes time linear in the modules. Nothing is written for want of memory (`Memory`).
pub fn write_shown<W: Write>(
    alloc: Global,
    output: &mut W,
    old: &[u8],
    new: &[u8],
    made: &MadeRewrite,
) -> Result<(), ShowError>
    // What is written is the first line, and others.
    ensures shown { OnOk result ((more : List ℕ)
        × Appends (W.contents output.old) (W.contents output.new) (first_line made.now ++ more)) }
    // Nothing is written where no memory was left.
    ensures unwritten { IfErr result (λ e. e ≡ Memory → output.new ≡ output.old) }
{
    let lines = lines_of(alloc, old, new, made.function, made.rewrite.operator)?;
    write_first(output, made)?;
    write_text(output, lines.as_str())
}
