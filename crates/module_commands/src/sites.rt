//! The sites of a module: the operators of its functions, each with the changes that make anything of it.
ghost use Rattle.std.specs.Prelude.{◌≡◌, ◌<◌, ℕ, List, length, IfOk, IfErr, OnOk};
ghost use Rattle.std.specs.Io.KnownBytes.{Appends};
ghost use Rattle.serde_json.specs.View.{view};
ghost use Rattle.module_commands.specs.Failures.{FailsToList, FailsToReport};
ghost use Rattle.module_options.specs.Form.{output_form_of};
ghost use Rattle.module_commands.specs.Sites.{ListsSitesInText, WritesSites, site_line, site_lines, site_object, site_text};
ghost use Rattle.wasm_module.specs.Module.{IsModule};

use crate::failure::Failure;
use crate::functions::module_of;
use crate::objects::write_value;
use module_changes::{Site, sites_of};
use module_options::{Form, Options};
use module_rewrites::{chosen_entries, index_of};
use serde_json::{Value, json};
use std::alloc::{AllocError, Global};
use std::io::Write;
use wasm_module::Module;

// Writes the text of a site of the function with the index.
fn write_text<W: Write>(output: &mut W, function: usize, site: Site) -> Result<(), Failure>
    ensures line { OnOk result (Appends (W.contents output.old) (W.contents output.new)
        (site_text function site)) }
    ensures fails { IfErr result FailsToReport }
{
    let operator = site.operator;
    let change = site.change.name();
    writeln!(
        output,
        "function {function:<6} operator {operator:<6} change {change}"
    )?;
    Ok(())
}

// The object of a site of the function with the index.
fn value_of(alloc: Global, function: usize, site: Site) -> Result<Value, AllocError>
    ensures { IfOk result (λ v. view v ≡ site_object function site) }
{
    let operator = site.operator;
    let change = site.change.name();
    json!(in alloc; {"change": change, "function": function, "operator": operator})
}

/// Writes the line of a site of the function with the index.
pub fn write_site<W: Write>(
    alloc: Global,
    output: &mut W,
    form: Form,
    function: usize,
    site: Site,
) -> Result<(), Failure>
    ensures line { OnOk result (Appends (W.contents output.old) (W.contents output.new)
        (site_line form function site)) }
    ensures fails { IfErr result FailsToReport }
{
    match form {
        Form::Text => write_text(output, function, site),
        Form::Json => {
            let value = value_of(alloc, function, site)?;
            write_value(alloc, output, &value)
        }
    }
}

// Writes the lines of the sites of the function with the index.
fn write_sites<W: Write>(
    alloc: Global,
    output: &mut W,
    form: Form,
    function: usize,
    sites: &[Site],
) -> Result<(), Failure>
    ensures lines { OnOk result (Appends (W.contents output.old) (W.contents output.new)
        (site_lines form function sites.now)) }
    ensures fails { IfErr result FailsToReport }
{
    for site in sites {
        write_site(alloc, output, form, function, *site)?;
    }
    Ok(())
}

// Writes the lines of the n-th of the module's own functions.
fn list_function<W: Write>(
    alloc: Global,
    wasm: &Module<'_>,
    bytes: &[u8],
    n: usize,
    options: &Options,
    output: &mut W,
) -> Result<(), Failure>
    requires module { IsModule bytes.now wasm.now.info wasm.now.layout }
    requires inside { n < length wasm.now.layout.entries }
    ensures lines { OnOk result ((text : List ℕ)
        × Appends (W.contents output.old) (W.contents output.new) text
        × ListsSitesInText (output_form_of options.now) options.now.changes.items bytes.now
        wasm.now.info
        wasm.now.layout n text) }
    ensures fails { IfErr result FailsToReport }
{
    let sites = sites_of(alloc, bytes, wasm, n, &options.changes)?;
    let index = index_of(&wasm.layout, n);
    write_sites(alloc, output, options.form(), index, &sites)
}

/// Writes a line for each operator and each of the changes that makes anything of it, of the functions of the module that can be read;
/// where the options name a function, of that alone.
///
/// Fails as the module can't be read, and as `chosen_entries` finds no such function.
#[tactic(auto, using(crate::proofs::FaultsLemmas::read_fails, crate::proofs::FaultsLemmas::index_fails, crate::proofs::FaultsLemmas::report_fails))]
pub fn list_sites<W: Write>(
    alloc: Global,
    bytes: &[u8],
    options: &Options,
    output: &mut W,
) -> Result<(), Failure>
    ensures lines { OnOk result (WritesSites (output_form_of options.now) options.now.changes.items
        options.now.function bytes.now (W.contents output.old) (W.contents output.new)) }
    ensures fails { IfErr result (FailsToList options.now.function bytes.now) }
{
    let module = module_of(alloc, bytes, false)?;
    let chosen = chosen_entries(&module.layout, options.function)?;
    let from = chosen.start;
    let to = chosen.end;
    for n in from..to {
        list_function(alloc, &module, bytes, n, options, output)?;
    }
    Ok(())
}
