//! A module changed once, as a generator's words choose it.
ghost use Rattle.std.specs.Prelude.{◌≡◌, ◌<◌, ◌≤◌, IfErr, IfOk};
ghost use Rattle.module_changes.specs.Chosen.{ChoosesLater, ChoosesOne, SomeMayChange};
ghost use Rattle.module_changes.specs.Entry.{donor_of, refusal_by, IsReading, RefusesFrom};
ghost use Rattle.module_changes.specs.Times.{IsRefusal};

use crate::choosing::change_by_words;
use crate::copying::Source;
use crate::entry::{Attempt, MadeChange, Reading};
use crate::refusal::Refusal;
use crate::scope::Scope;
use crate::words::draw_words;
use module_rewrites::{Reason, chosen_entries};
use rand_core::Rng;
use std::alloc::Global;
use wasm_module::read_module;

// How often words are drawn where what they choose can't be made.
const DRAWS: usize = 16;

/// A module with a change.
#[derive(Drop)]
pub(crate) struct Step {
    pub made: MadeChange,
    pub bytes: Vec<u8>,
}

// The module with a change.
fn change_read<R: Rng>(
    alloc: Global,
    reading: &Reading<'_>,
    source: &Source<'_>,
    generator: &mut R,
    scope: &Scope<'_>,
) -> Result<Step, Refusal>
    requires reading { IsReading reading.now }
    requires source { IsReading source.now.reading }
    requires most { (0 < scope.now.most) × (scope.now.most ≤ 1000) }
    requires there { SomeMayChange scope.now.function reading.now.layout.now }
    ensures chosen { IfOk result (λ m. ChoosesLater (donor_of source.now) scope.now
        reading.now.bytes.now reading.now.info.now reading.now.layout.now
        (R.stream generator.old) m.made m.bytes.items (R.stream generator.new)) }
    ensures none { IfErr result (RefusesFrom (donor_of source.now) scope.now
        reading.now.bytes.now reading.now.info.now reading.now.layout.now
        (R.stream generator.old)) }
{
    let mut refusal = Refusal::NoChange;
    'draws: for _ in 0..DRAWS {
        let words = draw_words(alloc, generator, scope.words())?;
        match change_by_words(alloc, reading, source, scope, &words)? {
            Attempt::Made(made, bytes) => return Ok(Step { made, bytes }),
            Attempt::Unchanged => {}
            Attempt::TooLarge => refusal = Refusal::TooLarge,
        }
    }
    Err(refusal)
}

/// Why no function may be changed.
pub(crate) fn refusal_by(reason: Reason) -> Refusal
    ensures { result ≡ refusal_by reason }
{
    match reason {
        Reason::NoFunction(function) => Refusal::NoFunction(function),
        Reason::UnknownImport(e) => Refusal::UnknownImport(e),
        _ => Refusal::NoChange,
    }
}

/// The module that was read with a change, where a function of it may be changed, or why there is none.
pub(crate) fn change_chosen<R: Rng>(
    alloc: Global,
    reading: &Reading<'_>,
    source: &Source<'_>,
    generator: &mut R,
    scope: &Scope<'_>,
) -> Result<Step, Refusal>
    requires reading { IsReading reading.now }
    requires source { IsReading source.now.reading }
    requires most { (0 < scope.now.most) × (scope.now.most ≤ 1000) }
    ensures chosen { IfOk result (λ m. ChoosesLater (donor_of source.now) scope.now
        reading.now.bytes.now reading.now.info.now reading.now.layout.now
        (R.stream generator.old) m.made m.bytes.items (R.stream generator.new)) }
    ensures none { IfErr result (RefusesFrom (donor_of source.now) scope.now
        reading.now.bytes.now reading.now.info.now reading.now.layout.now
        (R.stream generator.old)) }
{
    match chosen_entries(reading.layout, scope.function()) {
        Ok(_) => change_read(alloc, reading, source, generator, scope),
        Err(reason) => Err(refusal_by(reason)),
    }
}

/// The module with a change, by a generator that then stands behind the words that were drawn, or why there is none.
pub(crate) fn change_once<R: Rng>(
    alloc: Global,
    bytes: &[u8],
    generator: &mut R,
    scope: &Scope<'_>,
) -> Result<Step, Refusal>
    requires { (0 < scope.now.most) × (scope.now.most ≤ 1000) }
    ensures chosen { IfOk result (λ m. ChoosesOne scope.now bytes.now
        (R.stream generator.old) m.made m.bytes.items (R.stream generator.new)) }
    ensures fails { IfErr result
        (IsRefusal scope.now bytes.now (R.stream generator.old)) }
{
    let module = match read_module(alloc, bytes) {
        Ok(module) => module,
        Err(e) => return Err(Refusal::Read(e)),
    };
    let reading = Reading {
        bytes,
        info: &module.info,
        layout: &module.layout,
    };
    let source = Source {
        reading,
        plain: false,
    };
    change_chosen(alloc, &reading, &source, generator, scope)
}
