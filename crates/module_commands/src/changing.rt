//! The module changed as the options say, and what is told of that.
ghost use Rattle.std.specs.Prelude.{◌≡◌, ◌≢◌, ◌||◌, ◌++◌, ℕ, [], None, Some, true, false, IfErr, IfOk, OnOk};
ghost use Rattle.module_rewrites.specs.DoesAsBefore.{DoesAsBefore};
ghost use Rattle.module_commands.specs.Changing.{are_shown, AreShown, IsChangedAs, TellsChanged, TellsModule, WritesChanged, change_ending, failure_by, report_asked};
ghost use Rattle.module_commands.specs.Failures.{FailsToChange, FailsToInform};
ghost use Rattle.module_options.specs.Form.{output_form_of};
ghost use Rattle.module_commands.specs.Writes.{IsWrittenAs};
ghost use Rattle.module_commands.specs.declared.failure.Failure.TheVariants.{Memory, Output};

use crate::change_report::changes_report;
use crate::ending::Ending;
use crate::failure::Failure;
use crate::mutating::stripped;
use crate::progress::Progress;
use crate::reporting::report_module;
use crate::writing::{show, write_bytes};
use module_changes::{
    ChangeAt, ChangedModule, MadeChange, Refusal, Watch, change_at, change_module,
};
use module_options::Options;
use module_rewrites::count_of_dose;
use module_rewrites::laws::rewritten_modules_do_as_before;
use module_showing::write_shown_change;
use rand::rngs::StdRng;
use rand_core::SeedableRng;
use std::alloc::Global;
use std::io::Write;
use wasm_module::ModuleFault;

/// Keeps what is shown of the changes that it sees, if that is asked for, and counts them.
#[derive(Drop)]
pub struct ChangeShower<P> {
    /// Whether anything is shown.
    pub wanted: bool,
    /// What is shown so far.
    pub text: Vec<u8>,
    /// Whether no memory was left for some of it.
    pub failed: bool,
    /// Counts the changes.
    pub progress: P,
}

impl<P: Progress + Drop> ChangeShower<P> {
    // Nothing is shown yet.
    fn new(alloc: Global, wanted: bool, progress: P) -> ChangeShower<P>
        ensures wanted { result.wanted ≡ wanted }
        ensures text { result.text.items ≡ [] }
        ensures failed { result.failed ≡ false }
    {
        ChangeShower {
            wanted,
            text: Vec::new(alloc),
            failed: false,
            progress,
        }
    }

    // What is shown.
    fn shown(self) -> Result<Vec<u8>, Failure>
        ensures text { IfOk result (λ text. (text ≡ self.text) × (self.failed ≡ false)) }
        ensures memory { IfErr result (λ e. e ≡ Memory) }
    {
        if self.failed {
            return Err(Failure::Memory);
        }
        Ok(self.text)
    }
}

impl<P: Progress + Drop> Watch for ChangeShower<P> {
    ghost use Rattle.module_commands.specs.Changing.{ShowsOneChange};

    ghost saw = { λ before old new made after. ShowsOneChange before made after };

    fn see(&mut self, alloc: Global, old: &[u8], new: &[u8], made: MadeChange) {
        self.progress.count();
        if !self.wanted || self.failed {
            return;
        }
        if write_shown_change(alloc, &mut self.text, old, new, &made).is_err() {
            self.failed = true;
        }
    }
}

/// A module that was changed, and what is shown of the changes.
#[derive(Drop)]
struct ChangeOutcome {
    module: ChangedModule,
    shown: Vec<u8>,
    /// How many changes there were to be.
    count: usize,
}

// The module without its custom sections that name places in the code where these are to be dropped, else as it is.
fn finished(alloc: Global, strip: bool, new: ChangedModule) -> Result<ChangedModule, Failure>
    ensures made { IfOk result (λ m. m.made.items ≡ new.made.items) }
    ensures stopped { IfOk result (λ m. m.stopped ≡ new.stopped) }
    ensures bytes { IfOk result (λ m. IsWrittenAs strip new.bytes.items m.bytes.items) }
    ensures does { IfOk result (λ m. DoesAsBefore false new.bytes.items m.bytes.items) }
    ensures memory { IfErr result (λ e. e ≡ Memory) }
{
    rewritten_modules_do_as_before();
    if !strip {
        return Ok(new);
    }
    let bytes = stripped(alloc, &new.bytes)?;
    Ok(ChangedModule {
        bytes,
        made: new.made,
        stopped: new.stopped,
    })
}

// Why nothing is changed; want of memory is told as that.
fn failure_by(refusal: Refusal) -> Failure
    ensures { result ≡ failure_by refusal }
{
    match refusal {
        Refusal::Memory => Failure::Memory,
        _ => Failure::Unchanged(refusal),
    }
}

// The module changed as many times as the options say, by their changes, with a generator made from their seed, and what is shown of the
// changes where the options ask for it.
#[tactic(auto, using(crate::proofs::FaultsLemmas::changing_fails))]
fn drawn<P: Progress + Drop>(
    alloc: Global,
    bytes: &[u8],
    options: &Options,
    progress: P,
) -> Result<ChangeOutcome, Failure>
    requires { options.now.place ≡ None }
    ensures outcome { IfOk result (λ o. IsChangedAs options.now o.count bytes.now
        o.module.made.items o.module.stopped o.module.bytes.items) }
    ensures shown { IfOk result (λ o.
        AreShown options.now.show o.module.made.items o.shown.items) }
    ensures fails { IfErr result (FailsToChange options.now bytes.now) }
{
    let count = match count_of_dose(alloc, bytes, &options.scope(), options.dose) {
        Ok(count) => count,
        Err(reason) => return Err(Failure::Nothing(reason)),
    };
    let scope = options.change_scope();
    let mut shower = ChangeShower::new(alloc, options.show, progress);
    let mut generator = StdRng::seed_from_u64(options.seed);
    match change_module(alloc, bytes, &mut generator, &scope, count, &mut shower) {
        Ok(new) => {
            let shown = shower.shown()?;
            let module = finished(alloc, options.strip_debug, new)?;
            Ok(ChangeOutcome {
                module,
                shown,
                count,
            })
        }
        Err(refusal) => Err(failure_by(refusal)),
    }
}

// The module changed at the operators that are named.
#[tactic(auto, using(crate::proofs::FaultsLemmas::placing_fails))]
fn placed(
    alloc: Global,
    bytes: &[u8],
    options: &Options,
    at: ChangeAt,
) -> Result<ChangeOutcome, Failure>
    requires { options.now.place ≡ Some at }
    ensures outcome { IfOk result (λ o. IsChangedAs options.now o.count bytes.now
        o.module.made.items o.module.stopped o.module.bytes.items) }
    ensures shown { IfOk result (λ o. o.shown.items ≡ []) }
    ensures fails { IfErr result (FailsToChange options.now bytes.now) }
{
    match change_at(alloc, bytes, at, options.max_size) {
        Ok(new) => {
            let count = new.made.len();
            let module = finished(alloc, options.strip_debug, new)?;
            Ok(ChangeOutcome {
                module,
                shown: Vec::new(alloc),
                count,
            })
        }
        Err(refusal) => Err(failure_by(refusal)),
    }
}

// The module changed as the options say, and what is shown of the changes where they ask for it.
fn changed<P: Progress + Drop>(
    alloc: Global,
    bytes: &[u8],
    options: &Options,
    progress: P,
) -> Result<ChangeOutcome, Failure>
    ensures outcome { IfOk result (λ o. IsChangedAs options.now o.count bytes.now
        o.module.made.items o.module.stopped o.module.bytes.items) }
    ensures shown { IfOk result (λ o.
        AreShown (are_shown options.now) o.module.made.items o.shown.items) }
    ensures fails { IfErr result (FailsToChange options.now bytes.now) }
{
    match options.place {
        Some(at) => placed(alloc, bytes, options, at),
        None => drawn(alloc, bytes, options, progress),
    }
}

// How a run ends whose changes stopped so.
fn change_ending(stopped: &Option<Refusal>) -> Ending
    ensures { result ≡ change_ending stopped.now }
{
    match stopped {
        Some(Refusal::Memory) => Ending::OutOfMemory,
        Some(Refusal::Read(e)) => match e.kind {
            ModuleFault::Memory => Ending::OutOfMemory,
            _ => Ending::Whole,
        },
        _ => Ending::Whole,
    }
}

// Reports on the functions of the module, where reports are asked for.
fn report_asked_module<E: Write>(
    alloc: Global,
    bytes: &[u8],
    options: &Options,
    notes: &mut E,
) -> Result<(), Failure>
    ensures tells { OnOk result (TellsModule options.now.stats options.now bytes.now
        (E.contents notes.old) (E.contents notes.new)) }
    ensures quiet { options.now.stats ≡ false → notes.new ≡ notes.old }
    ensures fails { IfErr result (FailsToInform bytes.now) }
{
    if !options.stats {
        return Ok(());
    }
    report_module(alloc, bytes, options, notes)
}

// What is told of the changes: what is shown of them, and where reports are asked for, these.
fn told_of(
    alloc: Global,
    bytes: &[u8],
    options: &Options,
    new: &ChangeOutcome,
) -> Result<Vec<u8>, Failure>
    ensures told { IfOk result (λ told. told.items ≡ new.now.shown.items ++ report_asked
        options.now.stats (output_form_of options.now) bytes.now new.now.module.made.items
        new.now.module.stopped new.now.module.bytes.items) }
    ensures memory { IfErr result (λ e. e ≡ Memory) }
{
    let mut told = new.shown.clone()?;
    if options.stats {
        let report = changes_report(alloc, bytes, &new.module, options.form())?;
        told.extend_from_slice(&report)?;
    }
    Ok(told)
}

// Whether anything is told of the changes.
fn is_told(options: &Options) -> bool
    ensures { result ≡ (options.now.stats || options.now.show) }
{
    options.stats || options.show
}

/// Writes the module changed as many times as the options say, by their changes, with a generator made from their seed, or at the
/// operators that they name: it is valid where it was. Where the options say so, its custom sections that name places in the code are dropped then. Where the options ask for
/// it, the notes tell of the module first, then show the changes, and report them and the sizes. What is told of them is made before the
/// module is written, so that nothing is written where memory is refused to it. `progress` counts the changes that are drawn.
///
/// `Nothing` as `count_of_dose` refuses, and where the module that is to be told of can't be read; `Unchanged` as `change_module` or
/// `change_at` refuses.
pub fn write_changed<W: Write, E: Write, P: Progress + Drop>(
    alloc: Global,
    options: &Options,
    bytes: &[u8],
    output: &mut W,
    notes: &mut E,
    progress: P,
) -> Result<Ending, Failure>
    ensures changed { IfOk result (λ ending. WritesChanged options.now bytes.now ending
        (W.contents output.old) (W.contents output.new)) }
    ensures told { IfOk result (λ ending. TellsChanged options.now bytes.now ending
        (W.contents output.old) (W.contents output.new) (E.contents notes.old)
        (E.contents notes.new)) }
    ensures quiet { options.now.stats ≡ false → options.now.show ≡ false
        → notes.new ≡ notes.old }
    ensures fails { IfErr result (FailsToChange options.now bytes.now) }
    ensures kept { IfErr result (λ e. e ≢ Output
        → W.contents output.new ≡ W.contents output.old) }
{
    report_asked_module(alloc, bytes, options, notes)?;
    let new = changed(alloc, bytes, options, progress)?;
    let told = told_of(alloc, bytes, options, &new)?;
    write_bytes(output, &new.module.bytes)?;
    show(notes, is_told(options), &told)?;
    Ok(change_ending(&new.module.stopped))
}
