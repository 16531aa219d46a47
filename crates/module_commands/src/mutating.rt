//! The module rewritten as the options say.
ghost use Rattle.std.specs.Prelude.{◌≡◌, Bool, ℕ, List, [], true, length, nat_le, IfOk, IfErr};
ghost use Rattle.module_rewrites.specs.Attempt.{IsForSize, IsReason};
ghost use Rattle.module_rewrites.specs.Chosen.{GivesUp};
ghost use Rattle.module_rewrites.specs.DoesAsBefore.{DoesAsBefore};
ghost use Rattle.module_rewrites.specs.Dose.{IsDoseOf};
ghost use Rattle.module_rewrites.specs.Seeded.{seeded};
ghost use Rattle.module_commands.specs.Failures.{FailsToMake, leaves};
ghost use Rattle.module_options.specs.Scope.{scope_of};
ghost use Rattle.module_commands.specs.Shown.{IsShown};
ghost use Rattle.module_commands.specs.Writes.{IsCommandOutcome, IsWrittenAs, stopped_by};
ghost use Rattle.module_commands.specs.declared.failure.Failure.TheVariants.{Memory};

use crate::failure::Failure;
use crate::progress::Progress;
use crate::showing::Shower;
use module_options::Options;
use module_rewrites::laws::rewritten_modules_do_as_before;
use module_rewrites::{MutationError, Reason, RewrittenModule, count_of_dose, rewrite_module};
use rand::rngs::StdRng;
use rand_core::SeedableRng;
use std::alloc::Global;
use wasm_sections::{read_sections, without_debug};

/// The module without its custom sections that name places in the code. A module that rewrites or changes made is one, so that it isn't
/// read for want of memory alone. It does what the module does.
pub fn stripped(alloc: Global, bytes: &[u8]) -> Result<Vec<u8>, Failure>
    ensures stripped { IfOk result (λ new. IsWrittenAs true bytes.now new.items) }
    ensures does { IfOk result (λ new. (exact : Bool) → DoesAsBefore exact bytes.now new.items) }
    ensures memory { IfErr result (λ e. e ≡ Memory) }
{
    rewritten_modules_do_as_before();
    let Ok(sections) = read_sections(alloc, bytes) else {
        return Err(Failure::Memory);
    };
    Ok(without_debug(alloc, bytes, &sections)?)
}

// The same where these sections are to be dropped, else the module as it is.
fn finished(alloc: Global, strip: bool, new: RewrittenModule) -> Result<RewrittenModule, Failure>
    ensures made { IfOk result (λ m. m.made.items ≡ new.made.items) }
    ensures stopped { IfOk result (λ m. m.stopped ≡ new.stopped) }
    ensures bytes { IfOk result (λ m. IsWrittenAs strip new.bytes.items m.bytes.items) }
    ensures does { IfOk result (λ m. (exact : Bool) (start : List ℕ)
        → DoesAsBefore exact start new.bytes.items → DoesAsBefore exact start m.bytes.items) }
    ensures memory { IfErr result (λ e. e ≡ Memory) }
{
    rewritten_modules_do_as_before();
    if !strip {
        return Ok(new);
    }
    let bytes = stripped(alloc, &new.bytes)?;
    Ok(RewrittenModule {
        bytes,
        made: new.made,
        stopped: new.stopped,
    })
}

// The module with no rewrite made, and what refused it with each rewrite.
fn unchanged(
    alloc: Global,
    bytes: &[u8],
    stopped: Option<MutationError>,
) -> Result<RewrittenModule, Failure>
    ensures bytes { IfOk result (λ m. m.bytes.items ≡ bytes.now) }
    ensures does { IfOk result (λ m. (exact : Bool) → DoesAsBefore exact bytes.now m.bytes.items) }
    ensures made { IfOk result (λ m. m.made.items ≡ []) }
    ensures stopped { IfOk result (λ m. m.stopped ≡ stopped) }
    ensures memory { IfErr result (λ e. e ≡ Memory) }
{
    rewritten_modules_do_as_before();
    let mut copy = Vec::new(alloc);
    copy.extend_from_slice(bytes)?;
    Ok(RewrittenModule {
        bytes: copy,
        made: Vec::new(alloc),
        stopped,
    })
}

// Whether the module is written as it is for that reason, where rewrites are to make it smaller. `fits`: it has no more bytes than
// it may.
fn leaves(shrink: bool, fits: bool, reason: &Reason) -> bool
    ensures { result ≡ leaves shrink fits reason.now }
{
    match reason {
        Reason::NoRule => shrink,
        Reason::NoOwnFunction => shrink,
        Reason::Refused(MutationError::NotSmaller) => shrink && fits,
        _ => false,
    }
}

// Whether it has no more bytes than it may.
fn fits(bytes: &[u8], most: usize) -> bool
    ensures { result ≡ nat_le (length bytes.now) most }
{
    bytes.len() <= most
}

// What refused it with each rewrite, where something did.
fn stopped_by(reason: &Reason) -> Option<MutationError>
    ensures { result ≡ stopped_by reason.now }
{
    match reason {
        Reason::Refused(e) => Some(*e),
        _ => None,
    }
}

/// A module that was rewritten, and what is shown of the rewrites.
#[derive(Drop)]
pub struct Outcome {
    pub module: RewrittenModule,
    pub shown: Vec<u8>,
    /// How many rewrites there were to be.
    pub count: usize,
}

// What is written where nothing of the module is rewritten, for that reason, and `count` rewrites were to be.
#[tactic(auto, using(crate::proofs::OutcomeLemmas::left_outcome, crate::proofs::OutcomeLemmas::none_shown))]
fn left(
    alloc: Global,
    bytes: &[u8],
    options: &Options,
    count: usize,
    reason: Reason,
) -> Result<Outcome, Failure>
    requires count { IsDoseOf options.now.dose options.now.function bytes.now count }
    requires reason { IsReason (scope_of options.now) bytes.now reason }
    requires for_size { IsForSize reason
        → GivesUp (scope_of options.now) bytes.now (seeded options.now.seed) }
    ensures outcome { IfOk result (λ o. IsCommandOutcome options.now o.count bytes.now
        o.module.made.items o.module.stopped o.module.bytes.items) }
    ensures shown { IfOk result (λ o.
        IsShown options.now.show o.module.made.items o.shown.items) }
    ensures fails { IfErr result (FailsToMake options.now bytes.now) }
{
    let fitting = fits(bytes, options.max_size);
    if !leaves(options.shrink, fitting, &reason) {
        return Err(Failure::Nothing(reason));
    }
    let module = unchanged(alloc, bytes, stopped_by(&reason))?;
    let module = finished(alloc, options.strip_debug, module)?;
    Ok(Outcome {
        module,
        shown: Vec::new(alloc),
        count,
    })
}

/// What is written of the module, rewritten as many times as the options say, by their rules, with a generator made from their seed:
/// it is valid where it was, and does what it did. Where rewrites are to make it smaller, and no rule applies, or none that is drawn
/// makes it so, it is the module as it is. Where the options say so, its custom sections that name places in the code are dropped then.
/// What is shown of the rewrites where the options ask for it; `progress` counts them.
///
/// `Nothing` as `count_of_dose` and `rewrite_module` refuse, but where the module is written as it is.
#[tactic(auto, using(crate::proofs::OutcomeLemmas::rewritten_outcome, crate::proofs::OutcomeLemmas::reason_in, crate::proofs::OutcomeLemmas::gives_up_in, crate::proofs::OutcomeLemmas::counting_fails))]
pub fn rewritten<P: Progress + Drop>(
    alloc: Global,
    bytes: &[u8],
    options: &Options,
    progress: P,
) -> Result<Outcome, Failure>
    ensures outcome { IfOk result (λ o. IsCommandOutcome options.now o.count bytes.now
        o.module.made.items o.module.stopped o.module.bytes.items) }
    ensures shown { IfOk result (λ o.
        IsShown options.now.show o.module.made.items o.shown.items) }
    ensures fails { IfErr result (FailsToMake options.now bytes.now) }
{
    let scope = options.scope();
    let count = match count_of_dose(alloc, bytes, &scope, options.dose) {
        Ok(count) => count,
        Err(reason) => return Err(Failure::Nothing(reason)),
    };
    let mut shower = Shower::new(alloc, options.show, progress);
    let mut generator = StdRng::seed_from_u64(options.seed);
    match rewrite_module(alloc, bytes, &mut generator, &scope, count, &mut shower) {
        Ok(new) => {
            let shown = shower.shown()?;
            let module = finished(alloc, options.strip_debug, new)?;
            Ok(Outcome {
                module,
                shown,
                count,
            })
        }
        Err(reason) => left(alloc, bytes, options, count, reason),
    }
}
