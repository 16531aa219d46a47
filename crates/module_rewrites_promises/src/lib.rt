//! Promises of `module_rewrites`, each beside wrong bodies that the check refuses.
//!
//! Each function here has the clauses of the call that it is named after, and a body that only calls it. So what these clauses refuse,
//! those of the call refuse too, and a wrong body is tried without the proofs of `module_rewrites`.
//!
//! To add one: write the call here, if it isn't, with its clauses word by word; then a wrong body as an edit in `must-fail`, which says
//! first on what it goes wrong, and how; and for each clause that it breaks an answer in `proofs` that only searches, so that the refusal
//! comes at once. Of a body of several lines each one replaces the mark at the end of the line before it.
#![tactic(auto)]

ghost use Rattle.std.specs.Prelude.{◌≡◌, ◌<◌, ◌≤◌, ◌^◌, All, length, IfErr, IfOk, OnErr};
ghost use Rattle.std.specs.List.{sum_by};
ghost use Rattle.wasm_lists.specs.declared.entries.Entry.{Entry as Place};
ghost use Rattle.module_rewrites.specs.Attempt.{IsForSize, IsReason};
ghost use Rattle.module_rewrites.specs.Chosen.{GivesUp};
ghost use Rattle.module_rewrites.specs.ChosenTimes.{ChoosesEach, ChoosesTimes};
ghost use Rattle.module_rewrites.specs.DoesAsBefore.{DoesAsBefore};
ghost use Rattle.module_rewrites.specs.Dose.{IsDoseOf, IsOfReading, IsOneOrMore};
ghost use Rattle.module_rewrites.specs.Drawing.{WordNames, contents_length};
ghost use Rattle.module_rewrites.specs.Mutates.{Mutates};
ghost use Rattle.module_rewrites.specs.Watched.{SeesAll};

use module_rewrites::{Dose, Reason, RewrittenModule, Scope, Watch};
use rand_core::Rng;
use std::alloc::Global;
use wasm_module::Layout;

/// As `rewrite_module`.
pub fn rewrite_module<R: Rng, W: Watch>(
    alloc: Global,
    bytes: &[u8],
    generator: &mut R,
    scope: &Scope<'_>,
    count: usize,
    watch: &mut W,
) -> Result<RewrittenModule, Reason>
    requires some { 0 < count }
    ensures mutated { IfOk result (λ m.
        Mutates scope.now count bytes.now m.made.items m.bytes.items m.stopped) }
    ensures does_as_before { IfOk result (λ m.
        DoesAsBefore scope.now.exact bytes.now m.bytes.items) }
    ensures chosen { IfOk result (λ m. ChoosesTimes scope.now bytes.now
        (R.stream generator.old) m.made.items m.bytes.items m.stopped) }
    ensures goes_on { IfOk result (λ m. length m.made.items ≡ count → ChoosesEach scope.now
        bytes.now (R.stream generator.old) m.made.items m.bytes.items (R.stream generator.new)) }
    ensures fails { IfErr result (IsReason scope.now bytes.now) }
    ensures gives_up { IfErr result (λ e. IsForSize e
        → GivesUp scope.now bytes.now (R.stream generator.old)) }
    ensures seen { IfOk result (λ m. SeesAll W.saw scope.now bytes.now (R.stream generator.old)
        m.made.items m.bytes.items watch.old watch.new) }
    ensures unseen { OnErr result (watch.new ≡ watch.old) }
{
    module_rewrites::rewrite_module(alloc, bytes, generator, scope, count, watch)
}

/// As `count_of_dose`.
pub fn count_of_dose(
    alloc: Global,
    bytes: &[u8],
    scope: &Scope<'_>,
    dose: Dose,
) -> Result<usize, Reason>
    ensures count { IfOk result (IsDoseOf dose scope.now.function bytes.now) }
    ensures some { IsOneOrMore dose → IfOk result (λ count. 0 < count) }
    ensures fails { IfErr result (IsReason scope.now bytes.now) }
    ensures reading { IfErr result IsOfReading }
{
    module_rewrites::count_of_dose(alloc, bytes, scope, dose)
}

/// As `entry_of_word`.
pub fn entry_of_word(layout: &Layout, word: u64) -> usize
    requires some { 0 < length layout.now.entries }
    requires ordered { All (λ (e : Place). e.contents ≤ e.end) layout.now.entries }
    requires few { sum_by contents_length layout.now.entries < 2 ^ 64 }
    ensures named { WordNames word layout.now.entries result }
    ensures inside { result < length layout.now.entries }
{
    module_rewrites::entry_of_word(layout, word)
}
