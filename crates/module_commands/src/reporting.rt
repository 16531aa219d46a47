//! What a run reports of the module that it reads.
ghost use Rattle.std.specs.Prelude.{◌≡◌, ℕ, List, OnOk, IfErr};
ghost use Rattle.std.specs.Io.KnownBytes.{Appends};
ghost use Rattle.module_commands.specs.Failures.{FailsToInform, FailsToReport};
ghost use Rattle.module_options.specs.Form.{output_form_of};
ghost use Rattle.module_commands.specs.Reports.{ReportsModule, TellsReach};
ghost use Rattle.module_options.specs.Scope.{scope_of};
ghost use Rattle.wasm_module.specs.Module.{IsModule};

use crate::failure::Failure;
use crate::functions::module_of;
use crate::reach::reach_of;
use crate::stats::{report_functions, report_reach};
use module_options::Options;
use std::alloc::Global;
use std::io::Write;
use wasm_module::Module;

// Reports how much of the module the rules reach, where that is asked for.
fn report_reach_asked<E: Write>(
    alloc: Global,
    bytes: &[u8],
    wasm: &Module<'_>,
    options: &Options,
    notes: &mut E,
) -> Result<(), Failure>
    requires { IsModule bytes.now wasm.now.info wasm.now.layout }
    ensures reports { OnOk result ((text : List ℕ)
        × Appends (E.contents notes.old) (E.contents notes.new) text
        × TellsReach options.now.reach (output_form_of options.now) (scope_of options.now) bytes.now
        wasm.now.info wasm.now.layout text) }
    ensures fails { IfErr result FailsToReport }
{
    if !options.reach {
        return Ok(());
    }
    let reach = reach_of(alloc, bytes, &wasm.info, &wasm.layout, &options.scope())?;
    report_reach(alloc, notes, options.form(), reach)
}

/// Reports on the functions of the module, and on how much of it the rules reach where that is asked for.
pub fn report_module<E: Write>(
    alloc: Global,
    bytes: &[u8],
    options: &Options,
    notes: &mut E,
) -> Result<(), Failure>
    ensures reports { OnOk result (ReportsModule options.now bytes.now
        (E.contents notes.old) (E.contents notes.new)) }
    ensures fails { IfErr result (FailsToInform bytes.now) }
{
    let module = module_of(alloc, bytes, options.exact)?;
    report_functions(alloc, bytes, &module, options.form(), notes)?;
    report_reach_asked(alloc, bytes, &module, options, notes)
}
