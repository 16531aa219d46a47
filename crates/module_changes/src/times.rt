//! A module changed several times, one change after another.
ghost use Rattle.std.specs.Prelude.{◌≡◌, ◌<◌, ◌≤◌, ◌++◌, ◌∷◌, [], Some, IfErr, IfOk, OnErr, OnOk, length};
ghost use Rattle.module_changes.specs.Times.{ChangesTimes, ChoosesEachChange, IsRefusal};
ghost use Rattle.module_changes.specs.Valid.{StaysValidModule};
ghost use Rattle.module_changes.specs.Watched.{SeesAllChanges};

use crate::attempt::{Step, change_once};
use crate::entry::MadeChange;
use crate::laws::changed_modules_stay_valid;
use crate::refusal::Refusal;
use crate::scope::Scope;
use crate::watch::Watch;
use rand_core::Rng;
use std::alloc::{AllocError, Global};

/// A module that was changed once or more.
#[derive(Drop)]
pub struct ChangedModule {
    /// The bytes of the new module.
    pub bytes: Vec<u8>,
    /// The changes, in the order that they were made in: each of the module that the last one left.
    pub made: Vec<MadeChange>,
    /// Why no further change was made, where fewer were than there were to be.
    pub stopped: Option<Refusal>,
}

// One change more: it is put into the list, and then shown.
fn add_made<W: Watch>(
    alloc: Global,
    made: &mut Vec<MadeChange>,
    old: &[u8],
    step: &Step,
    watch: &mut W,
) -> Result<(), AllocError>
    ensures added { OnOk result (made.new.items ≡ made.old.items ++ step.now.made ∷ []) }
    ensures restored { OnErr result (made.new.items ≡ made.old.items) }
    ensures seen { OnOk result (W.saw watch.old old.now step.now.bytes.items step.now.made
        watch.new) }
    ensures unseen { OnErr result (watch.new ≡ watch.old) }
{
    made.push(step.made)?;
    watch.see(alloc, old, &step.bytes, step.made);
    Ok(())
}

// The module as the changes so far left it, and why no further one was made.
fn stopped(module: ChangedModule, refusal: Refusal) -> ChangedModule
    ensures made { result.made ≡ module.made }
    ensures bytes { result.bytes ≡ module.bytes }
    ensures stopped { result.stopped ≡ Some refusal }
{
    ChangedModule {
        bytes: module.bytes,
        made: module.made,
        stopped: Some(refusal),
    }
}

/// The module changed `count` times, with the generator going on from change to change: each of the module that the last one left. Fewer
/// times only where a further change is refused: `stopped` says why. Or why nothing of it is changed. Conditions: `count` is not 0, and
/// code that is drawn may have 1 to 1,000 instructions.
///
/// A change takes an operator of one of the functions that may be changed, and what stands right before it, and writes other code in
/// their place that leaves values of the same types: so the module stays valid, and computes something else, of which nothing is
/// promised. A function that can't be read, since it has operators or forms that aren't known here, is left alone.
///
/// A change takes 3 words, and 3 for each instruction that may be drawn. The first one, modulo the number of bytes that all code entries
/// contain, names one of these bytes, and so the function whose entry contains it; the next one the change, the one behind it the
/// operator, and the others the code, as `change_of_words` has them. Of these the first one also names a function in the same way, and
/// the next one, modulo their number, an operator of it, whose unit may be copied. Where no change makes anything there, the functions
/// behind it are tried by the same words, and then those before it. Where no change makes anything in any of them, or what is made
/// doesn't fit, words are drawn again, at most 16 times in all. So equal modules, generators, scopes and counts give equal bytes.
///
/// Each change is shown to the watcher once it stands in `made`; one for which no memory was left there is not shown.
///
/// It takes time linear in the module for each change, each time that words are drawn; and where `copy` is one of the changes, for each
/// function that is tried, time linear in the code that may be copied.
///
/// `Read` as `read_module` refuses; `NoFunction` and `UnknownImport` as `chosen_entries` does; `NoChange` only where sixteen times the
/// words choose no change in any function that may be changed and can be read; `TooLarge` only where that is so but for some times, one at
/// least, that they choose one that doesn't fit; `Memory` for want of memory.
pub fn change_module<R: Rng, W: Watch>(
    alloc: Global,
    bytes: &[u8],
    generator: &mut R,
    scope: &Scope<'_>,
    count: usize,
    watch: &mut W,
) -> Result<ChangedModule, Refusal>
    requires some { 0 < count }
    requires most { (0 < scope.now.most) × (scope.now.most ≤ 1000) }
    // The new module is the old one changed once or more, as the words choose, and fewer times only for the reason that is told.
    ensures changed { IfOk result (λ m. ChangesTimes scope.now count bytes.now
        (R.stream generator.old) m.made.items m.bytes.items m.stopped) }
    // It is valid where the old one was.
    ensures valid { IfOk result (λ m. StaysValidModule bytes.now m.bytes.items) }
    // Where as many are made, the generator is left behind their words.
    ensures goes_on { IfOk result (λ m. length m.made.items ≡ count → ChoosesEachChange scope.now
        bytes.now (R.stream generator.old) m.made.items m.bytes.items (R.stream generator.new)) }
    ensures fails { IfErr result (IsRefusal scope.now bytes.now (R.stream generator.old)) }
    // Each change that is made is seen, once and in order, between the bytes before it and those with it.
    ensures seen { IfOk result (λ m.
        SeesAllChanges W.saw scope.now bytes.now (R.stream generator.old) m.made.items m.bytes.items
        watch.old watch.new) }
    // Nothing is seen where none is made.
    ensures unseen { OnErr result (watch.new ≡ watch.old) }
{
    changed_modules_stay_valid();
    let first = change_once(alloc, bytes, generator, scope)?;
    let mut made = Vec::new(alloc);
    add_made(alloc, &mut made, bytes, &first, watch)?;
    let mut module = ChangedModule {
        bytes: first.bytes,
        made,
        stopped: None,
    };
    'changes: for _ in 1..count {
        let next = match change_once(alloc, &module.bytes, generator, scope) {
            Ok(next) => next,
            Err(refusal) => return Ok(stopped(module, refusal)),
        };
        if add_made(alloc, &mut module.made, &module.bytes, &next, watch).is_err() {
            return Ok(stopped(module, Refusal::Memory));
        }
        module.bytes = next.bytes;
    }
    Ok(module)
}
