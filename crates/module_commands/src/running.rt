//! A run: a module in, or none where rules or changes are listed, and out goes what the options ask for.
ghost use Rattle.std.specs.Prelude.{◌≡◌, ◌≢◌, List, true, false, OnOk, IfErr, IfOk, IfSome, IsErrOf, IsTrue};
ghost use Rattle.std.specs.Io.KnownBytes.{Consumes, IsAtEnd};
ghost use Rattle.module_commands.specs.Blocks.{WritesBlocks};
ghost use Rattle.module_commands.specs.Changes.{WritesChanges};
ghost use Rattle.module_commands.specs.Changing.{TellsChanged, WritesChanged};
ghost use Rattle.module_commands.specs.Failures.{FailsToDo, FailsToReport, FailsToRewrite, FailsToTakeModule, IsNoOther, IsOfInput, SharesMemory, TakesModule};
ghost use Rattle.module_commands.specs.declared.failure.Failure.TheVariants.{Output};
ghost use Rattle.module_options.specs.Form.{output_form_of};
ghost use Rattle.module_commands.specs.Lists.{WritesList};
ghost use Rattle.module_commands.specs.Reports.{ReportsMutated};
ghost use Rattle.module_commands.specs.Rules.{WritesRules};
ghost use Rattle.module_options.specs.Scope.{scope_of};
ghost use Rattle.module_options.specs.Task.{WritesModule};
ghost use Rattle.module_commands.specs.Shown.{ShowsMutated};
ghost use Rattle.module_commands.specs.Sites.{WritesSites};
ghost use Rattle.module_commands.specs.Writes.{WritesMutated};
ghost use Rattle.rule_listing.specs.declared.form.Form.{Form as RulesForm};

use crate::blocks::list_blocks;
use crate::changes::list_changes;
use crate::changing::write_changed;
use crate::ending::{Ending, ending_of};
use crate::failure::Failure;
use crate::front::{is_component, is_text};
use crate::input::read_input;
use crate::listing::list_rewrites;
use crate::mutating::rewritten;
use crate::progress::Progress;
use crate::reporting::report_module;
use crate::rules::list_rules;
use crate::sharing::check_exact;
use crate::sites::list_sites;
use crate::stats::rewrites_report;
use crate::writing::{show, write_bytes};
use device_tally::Tally;
use module_options::{Options, Task};
use std::alloc::Global;
use std::io::{Read, Write};

// Writes the module rewritten, and what is shown of the rewrites.
fn write_rewritten<W: Write, E: Write, P: Progress + Drop>(
    alloc: Global,
    options: &Options,
    bytes: &[u8],
    output: &mut W,
    notes: &mut E,
    progress: P,
) -> Result<Ending, Failure>
    ensures shown { IfOk result (λ ending. ShowsMutated options.now bytes.now ending
        (W.contents output.old) (W.contents output.new) (E.contents notes.old)
        (E.contents notes.new)) }
    ensures quiet { options.now.show ≡ false → notes.new ≡ notes.old }
    ensures fails { IfErr result (FailsToRewrite options.now bytes.now) }
    ensures kept { IfErr result (λ e. e ≢ Output
        → W.contents output.new ≡ W.contents output.old) }
{
    let new = rewritten(alloc, bytes, options, progress)?;
    write_bytes(output, &new.module.bytes)?;
    show(notes, options.show, &new.shown)?;
    Ok(ending_of(&new.module.stopped))
}

// The same, and reports: first on the module, so also where no rule applies, and on the rewrites behind that. What is said of the
// rewrites is made before the module is written, so that nothing is written where memory is refused to it.
fn write_reported<W: Write, E: Write, P: Progress + Drop>(
    alloc: Global,
    options: &Options,
    bytes: &[u8],
    output: &mut W,
    notes: &mut E,
    progress: P,
) -> Result<Ending, Failure>
    ensures reported { IfOk result (λ ending. ReportsMutated options.now bytes.now ending
        (W.contents output.old) (W.contents output.new) (E.contents notes.old)
        (E.contents notes.new)) }
    ensures fails { IfErr result (FailsToRewrite options.now bytes.now) }
    ensures kept { IfErr result (λ e. e ≢ Output
        → W.contents output.new ≡ W.contents output.old) }
{
    report_module(alloc, bytes, options, notes)?;
    let new = rewritten(alloc, bytes, options, progress)?;
    let report = rewrites_report(alloc, bytes, &new.module, options.form(), new.count)?;
    write_bytes(output, &new.module.bytes)?;
    notes.write_all(&new.shown)?;
    notes.write_all(&report)?;
    Ok(ending_of(&new.module.stopped))
}

// Writes the module rewritten, with what is shown and reported where the options ask for it.
fn rewrite<W: Write, E: Write, P: Progress + Drop>(
    alloc: Global,
    options: &Options,
    bytes: &[u8],
    output: &mut W,
    notes: &mut E,
    progress: P,
) -> Result<Ending, Failure>
    ensures written { IfOk result (λ ending. WritesMutated options.now bytes.now ending
        (W.contents output.old) (W.contents output.new)) }
    ensures reported { IsTrue options.now.stats → IfOk result (λ ending. ReportsMutated options.now
        bytes.now ending (W.contents output.old) (W.contents output.new) (E.contents notes.old)
        (E.contents notes.new)) }
    ensures shown { options.now.stats ≡ false → IfOk result (λ ending. ShowsMutated options.now
        bytes.now ending (W.contents output.old) (W.contents output.new) (E.contents notes.old)
        (E.contents notes.new)) }
    ensures quiet { options.now.stats ≡ false → options.now.show ≡ false
        → notes.new ≡ notes.old }
    ensures fails { IfErr result (FailsToRewrite options.now bytes.now) }
    ensures kept { IfErr result (λ e. e ≢ Output
        → W.contents output.new ≡ W.contents output.old) }
{
    if options.stats {
        return write_reported(alloc, options, bytes, output, notes, progress);
    }
    write_rewritten(alloc, options, bytes, output, notes, progress)
}

// All bytes of the input, which are neither a component nor a text, nor, where what runs the module is to be exact, those of one of
// which threads share a memory.
fn take_module<R: Read>(
    alloc: Global,
    exact: bool,
    input: &mut Tally<R>,
) -> Result<Vec<u8>, Failure>
    ensures bytes { IfOk result (λ text. Consumes (R.remaining input.old.device)
        (R.remaining input.new.device) text.items) }
    ensures end { OnOk result (IsAtEnd (R.remaining input.new.device)) }
    ensures other { IfOk result (λ text. IsNoOther text.items) }
    ensures alone { exact ≡ true → IfOk result (λ text. ¬ (SharesMemory text.items)) }
    ensures fails { IfErr result (FailsToTakeModule exact (R.remaining input.old.device)) }
    // `Input` only where a read failed; with the bytes, none did.
    ensures input { IsErrOf result Failure.Input → IsTrue input.new.failed }
    ensures sound { OnOk result (input.new.failed ≡ input.old.failed) }
{
    let bytes = read_input(alloc, input)?;
    if is_component(&bytes) {
        return Err(Failure::Component);
    }
    if is_text(&bytes) {
        return Err(Failure::TextFormat);
    }
    check_exact(alloc, exact, &bytes)?;
    Ok(bytes)
}

/// Reads all of the input, unless rules or changes are listed, and does what the options ask for: what it writes goes to the output, and what it
/// reports and shows to the notes. What it lists and reports has the form that they ask for. `progress` counts the rewrites and changes that are drawn.
/// Fails as the task fails, and as the input can't be read or the output written.
pub fn run<R: Read, W: Write, E: Write, P: Progress + Drop>(
    alloc: Global,
    options: &Options,
    input: &mut Tally<R>,
    output: &mut W,
    notes: &mut E,
    progress: P,
) -> Result<Ending, Failure>
    // What is written is the input rewritten as the seed chooses, valid where that was; what stands round each rewrite runs as
    // before, and its functions do what they did. Where the options say so, custom sections that name places in the code are dropped.
    // Where rewrites are to make it smaller, and none does, it is the input as it is. The answer tells whether memory ran out.
    ensures written { options.now.task ≡ Task.Rewrite → IfOk result (λ ending.
        IfSome (R.remaining input.old.device) (λ bytes. WritesMutated options.now bytes ending
        (W.contents output.old) (W.contents output.new))) }
    // What is written is the input changed as the seed chooses, and stays valid. Where the options say so, such custom sections are
    // dropped.
    ensures changed { options.now.task ≡ Task.Change → IfOk result (λ ending.
        IfSome (R.remaining input.old.device) (λ bytes. WritesChanged options.now bytes ending
        (W.contents output.old) (W.contents output.new))) }
    // A list has a line for each rewrite that there is in the functions that are looked at, and no other.
    ensures listed { options.now.task ≡ Task.List → OnOk result
        (IfSome (R.remaining input.old.device) (λ bytes. WritesList (output_form_of options.now)
        (scope_of options.now) bytes (W.contents output.old) (W.contents output.new))) }
    // So has one of sites, for each operator and each of the changes that makes anything of it.
    ensures sites { options.now.task ≡ Task.Sites → OnOk result
        (IfSome (R.remaining input.old.device) (λ bytes. WritesSites (output_form_of options.now)
        options.now.changes.items options.now.function bytes (W.contents output.old)
        (W.contents output.new))) }
    // The blocks have a line each, of the functions that are looked at.
    ensures blocks { options.now.task ≡ Task.Blocks → OnOk result
        (IfSome (R.remaining input.old.device) (λ bytes. WritesBlocks (output_form_of options.now)
        options.now.function bytes (W.contents output.old) (W.contents output.new))) }
    // The rules are all of them, each with its lines, in the form that is asked for.
    ensures rules { (form : RulesForm) → options.now.task ≡ Task.Rules form
        → OnOk result (WritesRules form (W.contents output.old) (W.contents output.new)) }
    // The changes have a line each.
    ensures changes { options.now.task ≡ Task.Changes → OnOk result
        (WritesChanges (output_form_of options.now) (W.contents output.old)
        (W.contents output.new)) }
    // No input is read for these two.
    ensures unread { ¬ (TakesModule options.now.task) → input.new ≡ input.old }
    // A list, the blocks, the rules, and the changes, are whole.
    ensures whole { ¬ (WritesModule options.now.task) → IfOk result (λ ending.
        ending ≡ Ending.Whole) }
    // Where the options ask for it, the notes tell of functions, of rewrites, and of the rules' reach.
    ensures reported { options.now.task ≡ Task.Rewrite → IsTrue options.now.stats
        → IfOk result (λ ending. IfSome (R.remaining input.old.device) (λ bytes.
        ReportsMutated options.now bytes ending (W.contents output.old) (W.contents output.new)
        (E.contents notes.old) (E.contents notes.new))) }
    // Where the options ask for it, the notes show each rewrite. Else they stay as they are.
    ensures shown { options.now.task ≡ Task.Rewrite → options.now.stats ≡ false
        → IfOk result (λ ending. IfSome (R.remaining input.old.device) (λ bytes.
        ShowsMutated options.now bytes ending (W.contents output.old) (W.contents output.new)
        (E.contents notes.old) (E.contents notes.new))) }
    // Of changes, too: of the module before, of each change, and of the sizes, as far as the options ask for it.
    ensures told { options.now.task ≡ Task.Change → IfOk result (λ ending.
        IfSome (R.remaining input.old.device) (λ bytes. TellsChanged options.now bytes ending
        (W.contents output.old) (W.contents output.new) (E.contents notes.old)
        (E.contents notes.new))) }
    ensures quiet { options.now.stats ≡ false → options.now.show ≡ false
        → notes.new ≡ notes.old }
    // Where what runs the module is to be exact, threads share none of its memories.
    ensures alone { TakesModule options.now.task → options.now.exact ≡ true → OnOk result
        (IfSome (R.remaining input.old.device) (λ bytes. ¬ (SharesMemory bytes))) }
    // `Input` only where a read failed; where the run succeeds, none did.
    ensures input { IsErrOf result Failure.Input → IsTrue input.new.failed }
    ensures sound { OnOk result (input.new.failed ≡ input.old.failed) }
    // Nothing is written or noted where the input can't be read, is too long, is a component or a text, or such a memory is shared.
    ensures untouched { IfErr result (λ e. IsOfInput e
        → (output.new ≡ output.old) × (notes.new ≡ notes.old)) }
    // Why it fails: with `NoRule`, only where no rule applies in a function that can be read; with `Unreadable`, only where none can;
    // with `NoChange`, only where sixteen times no change makes anything by the words that the seed gives;
    // for a reason of the module, only where the input is neither a component nor a text, each of which is told so.
    ensures fails { IfErr result (λ e. IfSome (R.remaining input.old.device) (λ bytes. FailsToDo
        options.now.task options.now bytes e)) }
    // Nothing is written then, unless the output, or the notes, can't be written.
    ensures kept { WritesModule options.now.task → IfErr result (λ e. e ≢ Output
        → W.contents output.new ≡ W.contents output.old) }
    // The rules, and the changes, fail alone as the output can't be written, or for want of memory, and then nothing is written.
    ensures lists_fail { ¬ (TakesModule options.now.task) → IfErr result FailsToReport }
    ensures lists_kept { ¬ (TakesModule options.now.task) → IfErr result (λ e. e ≢ Output
        → W.contents output.new ≡ W.contents output.old) }
{
    match options.task {
        Task::Rules(form) => list_rules(alloc, form, output),
        Task::Changes => list_changes(alloc, options.form(), output),
        Task::Rewrite => {
            let bytes = take_module(alloc, options.exact, input)?;
            rewrite(alloc, options, &bytes, output, notes, progress)
        }
        Task::Change => {
            let bytes = take_module(alloc, options.exact, input)?;
            write_changed(alloc, options, &bytes, output, notes, progress)
        }
        Task::List => {
            let bytes = take_module(alloc, options.exact, input)?;
            list_rewrites(alloc, &bytes, options, output)?;
            output.flush()?;
            Ok(Ending::Whole)
        }
        Task::Sites => {
            let bytes = take_module(alloc, options.exact, input)?;
            list_sites(alloc, &bytes, options, output)?;
            output.flush()?;
            Ok(Ending::Whole)
        }
        Task::Blocks => {
            let bytes = take_module(alloc, options.exact, input)?;
            list_blocks(alloc, &bytes, options, output)?;
            output.flush()?;
            Ok(Ending::Whole)
        }
    }
}
