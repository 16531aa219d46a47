//! A buffer's module changed, so that it stays valid and computes something else, and the new one written over its front.
ghost use Rattle.std.specs.Prelude.{◌≡◌, ◌<◌, IfErr, IfOk, IsTrue, length};
ghost use Rattle.module_changes.specs.Times.{IsRefusal};
ghost use Rattle.module_rewrites.specs.Seeded.{seeded};
ghost use Rattle.teddertempo_c.specs.ChangeOptions.{AreBad, changes_of, scope_of_change_options};
ghost use Rattle.teddertempo_c.specs.ChangeReports.{ChangesWith, IsChangedBySeed, IsChangedSo, IsOutcomeFor, TellsChanges};
ghost use Rattle.teddertempo_c.specs.Changes.{any_change, ChangesOnce, HasSize, IsChangedBy};
ghost use Rattle.teddertempo_c.specs.Options.{are_zero};
ghost use Rattle.teddertempo_c.specs.Outcome.{outcome_number};
ghost use Rattle.teddertempo_c.specs.Reported.{IsBadCall, IsMade, IsNone};

use crate::change_options::{ChangeOptions, are_bad, change_number, changes_of, count_of};
use crate::options::{function_of, most_of};
use crate::outcome::{self, Outcome, refusal_by_change, without_place};
use crate::report::{Made, Report, put, report_in, report_of};
use body_changes::{CHANGES, Change};
use module_changes::{ChangedModule, MadeChange, Refusal, Scope, Unwatched, change_module};
use rand::rngs::StdRng;
use rand_core::SeedableRng;
use std::alloc::Global;

// The module changed once, in any function and by any change, to at most `room` bytes.
fn changed_once(
    alloc: Global,
    bytes: &[u8],
    seed: u64,
    room: usize,
) -> Result<ChangedModule, Refusal>
    ensures changed { IfOk result (λ m. IsChangedBy seed room bytes.now m.bytes.items) }
    ensures fits { IfOk result (λ m. HasSize room m.bytes.items) }
    ensures refused { IfErr result (IsRefusal (any_change room) bytes.now (seeded seed)) }
{
    let scope = Scope {
        changes: &CHANGES,
        function: None,
        most: 8,
        max_size: room,
    };
    let mut generator = StdRng::seed_from_u64(seed);
    change_module(alloc, bytes, &mut generator, &scope, 1, &mut Unwatched)
}

/// Changes the module that the first `size` bytes of the buffer are, once, by any change in any function.
#[tactic(auto, using(crate::proofs::ChangesLemmas::change_made, crate::proofs::ChangesLemmas::change_outside, crate::proofs::ChangesLemmas::change_refused))]
pub fn change_in(alloc: Global, buffer: &mut [u8], size: usize, seed: u64) -> usize
    ensures { ChangesOnce seed size buffer.old result buffer.new }
{
    if size > buffer.len() {
        return 0;
    }
    let room = buffer.len();
    match changed_once(alloc, &buffer[..size], seed, room) {
        Ok(module) => put(buffer, &module.bytes),
        Err(_) => 0,
    }
}

// The module changed by these changes, and for the rest as the options say.
fn changed_by(
    alloc: Global,
    bytes: &[u8],
    options: &ChangeOptions,
    changes: &[Change],
    room: usize,
) -> Result<ChangedModule, Refusal>
    requires changes { changes.now ≡ changes_of options.now }
    ensures changed { IfOk result (λ m. IsChangedBySeed options.now (length bytes.now) room
        bytes.now m.made.items m.bytes.items) }
    ensures refused { IfErr result (IsRefusal
        (scope_of_change_options options.now (length bytes.now) room) bytes.now
        (seeded options.now.seed)) }
{
    let scope = Scope {
        changes,
        function: function_of(options.only),
        most: 8,
        max_size: most_of(options.growth, options.flags, bytes.len(), room),
    };
    let mut generator = StdRng::seed_from_u64(options.seed);
    change_module(
        alloc,
        bytes,
        &mut generator,
        &scope,
        count_of(options),
        &mut Unwatched,
    )
}

/// The report on these changes.
pub(crate) fn report_of_changes(made: &[MadeChange]) -> Report
    requires some { 0 < length made.now }
    ensures outcome { result.outcome ≡ outcome_number Outcome.Done }
    ensures tells { TellsChanges made.now result }
    ensures reserved { IsTrue (are_zero result.reserved) }
{
    let last = made[made.len() - 1];
    report_of(
        Outcome::Done,
        change_number(last.change),
        last.function,
        made.len(),
        0,
    )
}

// The module that the first `size` bytes of the buffer are, changed as the options say, and the report on it, or why nothing of it is.
#[tactic(auto, using(crate::proofs::ReportedLemmas::none_bad, crate::proofs::ChangeReportsLemmas::none_memory))]
fn attempt(
    alloc: Global,
    buffer: &[u8],
    size: usize,
    options: &ChangeOptions,
) -> Result<Made, outcome::Refusal>
    ensures made { IfOk result (IsMade (IsChangedSo options.now size buffer.now)
        (IsBadCall (AreBad options.now) size buffer.now) (length buffer.now)) }
    ensures refused { IfErr result (IsNone (IsOutcomeFor options.now size buffer.now)
        (IsBadCall (AreBad options.now) size buffer.now)) }
{
    if size > buffer.len() || are_bad(options) {
        return Err(without_place(Outcome::BadOptions));
    }
    let changes = match changes_of(alloc, options) {
        Ok(changes) => changes,
        Err(_) => return Err(without_place(Outcome::NoMemory)),
    };
    match changed_by(alloc, &buffer[..size], options, &changes, buffer.len()) {
        Ok(module) => Ok(Made {
            report: report_of_changes(&module.made),
            bytes: module.bytes,
        }),
        Err(refusal) => Err(refusal_by_change(refusal)),
    }
}

/// Changes the module that the first `size` bytes of the buffer are as the options say, and reports it.
#[tactic(auto, using(crate::proofs::ReportedLemmas::reported))]
pub fn change_with_in(
    alloc: Global,
    buffer: &mut [u8],
    size: usize,
    options: &ChangeOptions,
    report: &mut Report,
) -> usize
    ensures { ChangesWith options.now size buffer.old result buffer.new report.new }
{
    let made = attempt(alloc, buffer, size, options);
    report_in(buffer, made, report)
}
