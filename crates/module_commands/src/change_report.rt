//! What a run reports of a module that was changed.
ghost use Rattle.std.specs.Prelude.{◌≡◌, option_map, IfErr, IfOk, OnOk};
ghost use Rattle.std.specs.Io.KnownBytes.{Appends};
ghost use Rattle.module_commands.specs.Changing.{change_lines, changes_report, refusal_name};
ghost use Rattle.module_commands.specs.Failures.{FailsToReport};
ghost use Rattle.module_commands.specs.declared.failure.Failure.TheVariants.{Memory};

use crate::failure::Failure;
use crate::sites::write_site;
use crate::stats::{write_sizes, write_stopped};
use module_changes::{ChangedModule, MadeChange, Refusal};
use module_options::Form;
use std::alloc::Global;
use std::io::Write;

// Writes the lines of the changes that were made.
fn write_made<W: Write>(
    alloc: Global,
    notes: &mut W,
    form: Form,
    made: &[MadeChange],
) -> Result<(), Failure>
    ensures lines { OnOk result (Appends (W.contents notes.old) (W.contents notes.new)
        (change_lines form made.now)) }
    ensures fails { IfErr result FailsToReport }
{
    for one in made {
        write_site(alloc, notes, form, one.function, one.site())?;
    }
    Ok(())
}

// The name of why no further change was made.
fn refusal_name(refusal: &Refusal) -> &'static str
    ensures { result.now ≡ refusal_name refusal.now }
{
    match refusal {
        Refusal::Read(e) => e.kind.name(),
        Refusal::NoFunction(_) => "NoFunction",
        Refusal::UnknownImport(_) => "UnknownImport",
        Refusal::NoChange => "NoChange",
        Refusal::TooLarge => "TooLarge",
        Refusal::Memory => "Memory",
    }
}

// The same, where there is something to tell.
fn stop_name(stopped: &Option<Refusal>) -> Option<&'static str>
    ensures { option_map (λ name. name.now) result ≡ option_map refusal_name stopped.now }
{
    match stopped {
        Some(refusal) => Some(refusal_name(refusal)),
        None => None,
    }
}

// Reports on a module that was changed.
fn report_changes<W: Write>(
    alloc: Global,
    bytes: &[u8],
    new: &ChangedModule,
    form: Form,
    notes: &mut W,
) -> Result<(), Failure>
    ensures reports { OnOk result (Appends (W.contents notes.old) (W.contents notes.new)
        (changes_report form bytes.now new.now.made.items new.now.stopped new.now.bytes.items)) }
    ensures fails { IfErr result FailsToReport }
{
    write_made(alloc, notes, form, &new.made)?;
    write_stopped(alloc, notes, form, stop_name(&new.stopped))?;
    write_sizes(alloc, notes, form, bytes.len(), new.bytes.len())
}

/// What is reported of a module that was changed: each change that was made, in order, why there are no more where there were to be so
/// many, and the bytes of the module and of what is written. Fails with `Memory` where no memory is left: nothing else keeps a `Vec`
/// from being written.
pub fn changes_report(
    alloc: Global,
    bytes: &[u8],
    new: &ChangedModule,
    form: Form,
) -> Result<Vec<u8>, Failure>
    ensures report { IfOk result (λ report. report.items ≡ changes_report form bytes.now
        new.now.made.items new.now.stopped new.now.bytes.items) }
    ensures memory { IfErr result (λ e. e ≡ Memory) }
{
    let mut report: Vec<u8> = Vec::new(alloc);
    match report_changes(alloc, bytes, new, form, &mut report) {
        Ok(()) => Ok(report),
        Err(_) => Err(Failure::Memory),
    }
}
