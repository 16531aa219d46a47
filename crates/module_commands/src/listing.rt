//! The rewrites that there are of a module.
ghost use Rattle.std.specs.Prelude.{◌≡◌, ◌<◌, ℕ, List, length, IfOk, IfErr, OnOk};
ghost use Rattle.std.specs.Io.KnownBytes.{Appends};
ghost use Rattle.serde_json.specs.View.{view};
ghost use Rattle.module_commands.specs.Failures.{FailsToList, FailsToReport};
ghost use Rattle.module_options.specs.Form.{output_form_of};
ghost use Rattle.module_commands.specs.Lines.{rewrite_line, rewrite_lines, rewrite_object, rewrite_text};
ghost use Rattle.module_commands.specs.Lists.{AreTheRewrites, ListsFunction, WritesList};
ghost use Rattle.module_options.specs.Scope.{scope_of};
ghost use Rattle.wasm_execution.specs.Values.{context_in};
ghost use Rattle.module_rewrites.specs.Scope.{IsMarked};
ghost use Rattle.wasm_module.specs.Module.{IsModule};

use crate::failure::Failure;
use crate::functions::module_of;
use crate::names::RowNames;
use crate::objects::write_value;
use body_rewrites::{Body, Rewrite, blocks_of, rewrites_of_body, trees_of};
use module_options::{Form, Options};
use module_rewrites::{FunctionBody, Scope, chosen_entries, index_of, read_function};
use serde_json::{Value, json};
use std::alloc::{AllocError, Global};
use std::io::Write;
use wasm_module::Module;
use wasm_types::ModuleInfo;

// Writes the text of a rewrite of the function with the index.
fn write_text<W: Write>(
    output: &mut W,
    names: &RowNames,
    function: usize,
    rewrite: &Rewrite,
) -> Result<(), Failure>
    ensures line { OnOk result (Appends (W.contents output.old) (W.contents output.new)
        (rewrite_text function rewrite.now)) }
    ensures fails { IfErr result FailsToReport }
{
    let operator = rewrite.operator;
    let rule = names.name(rewrite.row);
    writeln!(
        output,
        "function {function:<6} operator {operator:<6} rule {rule}"
    )?;
    Ok(())
}

// The object of a rewrite of the function with the index.
fn value_of(
    alloc: Global,
    names: &RowNames,
    function: usize,
    rewrite: &Rewrite,
) -> Result<Value, AllocError>
    ensures { IfOk result (λ v. view v ≡ rewrite_object function rewrite.now) }
{
    let operator = rewrite.operator;
    let rule = names.name(rewrite.row);
    json!(in alloc; {"function": function, "operator": operator, "rule": rule})
}

/// Writes the line of a rewrite of the function with the index.
pub fn write_rewrite<W: Write>(
    alloc: Global,
    output: &mut W,
    form: Form,
    names: &RowNames,
    function: usize,
    rewrite: &Rewrite,
) -> Result<(), Failure>
    ensures line { OnOk result (Appends (W.contents output.old) (W.contents output.new)
        (rewrite_line form function rewrite.now)) }
    ensures fails { IfErr result FailsToReport }
{
    match form {
        Form::Text => write_text(output, names, function, rewrite),
        Form::Json => {
            let value = value_of(alloc, names, function, rewrite)?;
            write_value(alloc, output, &value)
        }
    }
}

// Writes the lines of the rewrites of the function with the index.
fn write_rewrites<W: Write>(
    alloc: Global,
    output: &mut W,
    form: Form,
    function: usize,
    rewrites: &[Rewrite],
) -> Result<(), Failure>
    ensures lines { OnOk result (Appends (W.contents output.old) (W.contents output.new)
        (rewrite_lines form function rewrites.now)) }
    ensures fails { IfErr result FailsToReport }
{
    let names = RowNames::new(alloc)?;
    for rewrite in rewrites {
        write_rewrite(alloc, output, form, &names, function, rewrite)?;
    }
    Ok(())
}

// The rewrites that there are of the function by one of the rules, of those that the scope allows.
fn rewrites_of(
    alloc: Global,
    info: &ModuleInfo<'_>,
    function: &FunctionBody,
    scope: &Scope<'_>,
) -> Result<Vec<Rewrite>, AllocError>
    ensures { IfOk result (λ list. AreTheRewrites
        (context_in info.now function.now.locals.items) scope.now function.now.operators.items
        list.items) }
{
    let locals = function.locals.as_slice();
    let operators = function.operators.as_slice();
    let trees = trees_of(alloc, locals, info, operators)?;
    let blocks = blocks_of(alloc, operators)?;
    let body = Body {
        info,
        locals,
        operators,
        trees: &trees,
        blocks: &blocks,
    };
    rewrites_of_body(alloc, &body, scope.rules(), scope.wanted())
}

// Writes the lines of the n-th of the module's own functions, where that can be read.
fn list_function<W: Write>(
    alloc: Global,
    wasm: &Module<'_>,
    bytes: &[u8],
    n: usize,
    options: &Options,
    output: &mut W,
) -> Result<(), Failure>
    requires module { IsModule bytes.now wasm.now.info wasm.now.layout }
    requires inside { n < length wasm.now.layout.entries }
    requires marked { IsMarked (scope_of options.now) wasm.now.info }
    ensures lines { OnOk result ((text : List ℕ)
        × Appends (W.contents output.old) (W.contents output.new) text
        × ListsFunction (output_form_of options.now) (scope_of options.now) bytes.now wasm.now.info
        wasm.now.layout n text) }
    ensures fails { IfErr result FailsToReport }
{
    let info = &wasm.info;
    let function = match read_function(alloc, bytes, info, &wasm.layout, n) {
        Ok(function) => function,
        Err(e) => {
            if e.is_memory() {
                return Err(Failure::Memory);
            }
            return Ok(());
        }
    };
    let rewrites = rewrites_of(alloc, info, &function, &options.scope())?;
    let index = index_of(&wasm.layout, n);
    write_rewrites(alloc, output, options.form(), index, &rewrites)
}

/// Writes a line for each rewrite by one of the rules that there is in a function of the module that can be read; where the options
/// name a function, in that alone, and where rewrites are to make it smaller, for those alone that leave no more operators.
///
/// Fails as the module can't be read, and as `chosen_entries` finds no such function.
#[tactic(auto, using(crate::proofs::FaultsLemmas::read_fails, crate::proofs::FaultsLemmas::index_fails, crate::proofs::FaultsLemmas::report_fails))]
pub fn list_rewrites<W: Write>(
    alloc: Global,
    bytes: &[u8],
    options: &Options,
    output: &mut W,
) -> Result<(), Failure>
    ensures lines { OnOk result (WritesList (output_form_of options.now) (scope_of options.now)
        bytes.now (W.contents output.old) (W.contents output.new)) }
    ensures fails { IfErr result (FailsToList options.now.function bytes.now) }
{
    let module = module_of(alloc, bytes, options.exact)?;
    let chosen = chosen_entries(&module.layout, options.function)?;
    let from = chosen.start;
    let to = chosen.end;
    for n in from..to {
        list_function(alloc, &module, bytes, n, options, output)?;
    }
    Ok(())
}
