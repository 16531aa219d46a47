//! The module changed by words: which function they change.
ghost use Rattle.std.specs.Prelude.{◌≡◌, ◌↔◌, ◌<◌, ◌≤◌, ◌+◌, drop, get_or, IfErr, IfOk, IsTrue, length};
ghost use Rattle.module_rewrites.specs.Mutated.{IsChosen};
ghost use Rattle.module_changes.specs.Entry.{choice_of, donor_of, AllTried, AreTried, IsReading};
ghost use Rattle.module_changes.specs.declared.refusal.Refusal.TheVariants.{Memory};

use crate::copying::{Source, copied_code};
use crate::entry::{Attempt, Reading, Trial, change_entry, entry_named};
use crate::refusal::Refusal;
use crate::scope::Scope;
use std::alloc::Global;
use std::ops::Range;
use wasm_module::Layout;

// Whether the function of the n-th code entry may be changed.
fn is_chosen(only: Option<usize>, layout: &Layout, n: usize) -> bool
    ensures { IsTrue result ↔ IsChosen only (layout.now.imported_functions + n) }
{
    let imported = layout.imported_functions;
    match only {
        Some(function) => function >= imported && function - imported == n,
        None => true,
    }
}

// The module with the change that the words choose in the first of these entries where they choose one, if it fits.
fn change_within(
    alloc: Global,
    reading: &Reading<'_>,
    trial: &Trial<'_>,
    range: Range<usize>,
) -> Result<Attempt, Refusal>
    requires reading { IsReading reading.now }
    requires inside { range.end ≤ length reading.now.layout.now.entries }
    requires some { 0 < trial.now.scope.now.most }
    ensures tried { IfOk result (AreTried (choice_of trial.now) reading.now.bytes.now
        reading.now.info.now reading.now.layout.now trial.now.words.now range.start range.end) }
    ensures memory { IfErr result (λ e. e ≡ Memory) }
{
    for n in range.start..range.end {
        if is_chosen(trial.scope.function(), reading.layout, n) {
            match change_entry(alloc, reading, trial, n)? {
                Attempt::Unchanged => {}
                attempt => return Ok(attempt),
            }
        }
    }
    Ok(Attempt::Unchanged)
}

// The first word, or 0.
fn first_word(words: &[u64]) -> u64
    ensures { result ≡ get_or words.now 0 0 }
{
    words.get(0).copied().unwrap_or(0)
}

// The words behind the first one.
fn other_words(words: &[u64]) -> &[u64]
    ensures { result.now ≡ drop 1 words.now }
{
    if words.is_empty() { words } else { &words[1..] }
}

/// The module with the change that the words choose: the first one names a code entry by its size, and that is changed, or else the first
/// one behind it, and then from the first one on, whose function may be changed and in which the words behind it choose a change; if that
/// fits. The fourth and the fifth word also name the code that may be copied.
pub(crate) fn change_by_words(
    alloc: Global,
    reading: &Reading<'_>,
    source: &Source<'_>,
    scope: &Scope<'_>,
    words: &[u64],
) -> Result<Attempt, Refusal>
    requires reading { IsReading reading.now }
    requires source { IsReading source.now.reading }
    requires some { 0 < scope.now.most }
    ensures tried { IfOk result (AllTried (donor_of source.now) scope.now reading.now.bytes.now
        reading.now.info.now reading.now.layout.now words.now) }
    ensures memory { IfErr result (λ e. e ≡ Memory) }
{
    let copied = copied_code(alloc, source, scope.changes(), words)?;
    let layout = reading.layout;
    let count = layout.entries.len();
    if count == 0 {
        return Ok(Attempt::Unchanged);
    }
    let from = entry_named(reading, first_word(words));
    let trial = Trial {
        scope,
        copied: &copied,
        words: other_words(words),
    };
    match change_within(alloc, reading, &trial, from..count)? {
        Attempt::Unchanged => change_within(alloc, reading, &trial, 0..from),
        attempt => Ok(attempt),
    }
}
