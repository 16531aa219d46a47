//! A module rewritten several times over, and watched.
ghost use Rattle.std.specs.Prelude.{◌≡◌, ◌<◌, [], ◌∷◌, ◌++◌, Some, length, IfOk, OnOk, OnErr, IfErr};
ghost use Rattle.module_rewrites.specs.Attempt.{IsForSize, IsReason};
ghost use Rattle.module_rewrites.specs.Chosen.{GivesUp};
ghost use Rattle.module_rewrites.specs.ChosenTimes.{ChoosesEach, ChoosesTimes};
ghost use Rattle.module_rewrites.specs.DoesAsBefore.{DoesAsBefore};
ghost use Rattle.module_rewrites.specs.Mutates.{Mutates};
ghost use Rattle.module_rewrites.specs.Watched.{SeesAll};

use crate::attempt::{Reason, rewrite_first};
use crate::laws::{rewritten_modules_are_read_again, rewritten_modules_do_as_before};
use crate::mutation::{Mutated, MutationError, mutate_with};
use crate::scope::Scope;
use crate::watch::Watch;
use body_rewrites::Rewrite;
use rand_core::Rng;
use std::alloc::{AllocError, Global};

/// A rewrite that was made.
#[derive(Clone, Copy, Debug, PartialEq, Eq)]
pub struct MadeRewrite {
    /// The function, by its index among all functions of the module, imported ones first.
    pub function: usize,
    /// The operator of its body that was rewritten, the row of the table, and the width.
    pub rewrite: Rewrite,
}

/// A module that was rewritten once or more.
#[derive(Drop)]
pub struct RewrittenModule {
    /// The bytes of the new module.
    pub bytes: Vec<u8>,
    /// The rewrites, in the order that they were made in: each of the module that the last one left.
    pub made: Vec<MadeRewrite>,
    /// Why no further rewrite was made, where fewer were than there were to be, and it isn't that no rule applies any more.
    pub stopped: Option<MutationError>,
}

// One rewrite more: it is put into the list, and then shown.
fn add_made<W: Watch>(
    alloc: Global,
    made: &mut Vec<MadeRewrite>,
    old: &[u8],
    new: &Mutated,
    watch: &mut W,
) -> Result<(), AllocError>
    ensures added { OnOk result (made.new.items ≡ made.old.items
        ++ record { function = new.now.function; rewrite = new.now.rewrite } ∷ []) }
    ensures restored { OnErr result (made.new.items ≡ made.old.items) }
    ensures seen { OnOk result (W.saw watch.old old.now new.now.bytes.items
        (record { function = new.now.function; rewrite = new.now.rewrite }) watch.new) }
    ensures unseen { OnErr result (watch.new ≡ watch.old) }
{
    let rewrite = MadeRewrite {
        function: new.function,
        rewrite: new.rewrite,
    };
    made.push(rewrite)?;
    watch.see(alloc, old, &new.bytes, rewrite);
    Ok(())
}

// The module as the rewrites so far left it, and why no further one was made.
fn stopped(rewritten: RewrittenModule, e: MutationError) -> RewrittenModule
    ensures made { result.made ≡ rewritten.made }
    ensures bytes { result.bytes ≡ rewritten.bytes }
    ensures stopped { result.stopped ≡ Some e }
{
    RewrittenModule {
        bytes: rewritten.bytes,
        made: rewritten.made,
        stopped: Some(e),
    }
}

/// The module rewritten `count` times, with the generator going on from rewrite to rewrite: each of the module that the last one left.
/// Fewer times only where no rule applies any more, or where a further rewrite is refused: then the module is answered as the rewrites
/// before left it, and `stopped` says why. Or why nothing of it is rewritten. Condition: `count` is not 0.
///
/// A rewrite takes an operator of one of the functions that may be rewritten, and what stands right before it, and writes other code in
/// their place by one of the rules: whatever stands before that and behind it, wherever its run with the old code ends or traps that
/// with the new code does the same, apart from the globals that are appended (see `rewrite_body`). A function that can't be read, since
/// it has operators or forms that aren't known here, is left alone.
///
/// A function is drawn by its size: the generator's next word, modulo the number of bytes that all code entries contain, names one of
/// these bytes, and so the function whose entry contains it. The next three words choose the rewrite, as `rewrite_at_random` says:
/// what becomes of the number of operators, the rule, the rewrite; a fourth one is for a number that the new code draws. Where no
/// rule applies there, or the new module isn't small enough, one is drawn again, at most 16 times in all, or where rewrites are to make
/// the module smaller as often as it has bytes, but at least 16 and at most 4,096 times; then the functions are tried in order, once
/// each, from the one that was drawn last on, and behind the last one those before it. Where the scope names the function, as many
/// rewrites of it are drawn at most. So equal modules, generators, scopes and counts give equal bytes.
///
/// The new bytes are a module again, of at most as many bytes as the scope says. It is valid where the old one was, and each of its
/// functions, called with any arguments in any memory, tables and globals, does what it did, through loops, branches, recursion,
/// calls of imports and calls through tables; where the scope says that what runs it is exact, so it is in what does on the exact rows
/// what the standard says, and else in whatever does the same for the same. They differ from the old ones in the places of the old code, the globals that are
/// appended, and the sizes and numbers that stand before them.
///
/// Each rewrite is shown to the watcher once it stands in `made`; one for which no memory was left there is not shown.
///
/// The module is read once; again only behind a rewrite that appends globals. Each rewrite takes time linear in the module, for its bytes
/// and its entries, and for each one that is drawn or tried as `rewrite_at_random` does in the function, and linear in the module where
/// it isn't small enough.
///
/// `NoRule` only where no rule applies in any of the functions that may be rewritten and can be read, of which there is one;
/// `NoOwnFunction` only where the module has none; `Unreadable` only where there is one that may be rewritten, and none of them can
/// be read, with the error of the first one; `NoFunction` and `UnknownImport` as `chosen_entries` refuses; `Refused` with `Read` as
/// `read_module` refuses, with `Memory` for want of memory, with `Write` as `with_body` refuses, but never with `EmptyType`, with
/// `TooLong` where the module would have more bytes than it may, with `NotSmaller` where it would be no smaller and is to be: with
/// `Write` of `TooLarge`, `TooLong` or `NotSmaller` only where all attempts were in vain, and then as the last one that was refused. Once
/// it has been rewritten it is a module again, so that `stopped` holds `Read` only for want of memory.
pub fn rewrite_module<R: Rng, W: Watch>(
    alloc: Global,
    bytes: &[u8],
    generator: &mut R,
    scope: &Scope<'_>,
    count: usize,
    watch: &mut W,
) -> Result<RewrittenModule, Reason>
    requires some { 0 < count }
    // The new module is the old one rewritten once or more, at most `count` times, and what stands round each rewrite runs as before.
    ensures mutated { IfOk result (λ m.
        Mutates scope.now count bytes.now m.made.items m.bytes.items m.stopped) }
    // It is valid where the old one was, and its functions do what they did, in every sound embedder, or in every exact one.
    ensures does_as_before { IfOk result (λ m.
        DoesAsBefore scope.now.exact bytes.now m.bytes.items) }
    // Each rewrite is the one that the generator's words choose from where the last one left it.
    ensures chosen { IfOk result (λ m. ChoosesTimes scope.now bytes.now
        (R.stream generator.old) m.made.items m.bytes.items m.stopped) }
    // Where as many are made, the generator is left behind their words: a further call goes on as a larger count would have.
    ensures goes_on { IfOk result (λ m. length m.made.items ≡ count → ChoosesEach scope.now
        bytes.now (R.stream generator.old) m.made.items m.bytes.items (R.stream generator.new)) }
    // Why nothing is rewritten; for a size only where the words choose no rewrite that fits.
    ensures fails { IfErr result (IsReason scope.now bytes.now) }
    ensures gives_up { IfErr result (λ e. IsForSize e
        → GivesUp scope.now bytes.now (R.stream generator.old)) }
    // Each rewrite that is made is seen, once and in order, between the bytes before it and those with it.
    ensures seen { IfOk result (λ m. SeesAll W.saw scope.now bytes.now (R.stream generator.old)
        m.made.items m.bytes.items watch.old watch.new) }
    // Nothing is seen where none is made.
    ensures unseen { OnErr result (watch.new ≡ watch.old) }
{
    rewritten_modules_are_read_again();
    rewritten_modules_do_as_before();
    let first = match rewrite_first(alloc, bytes, generator, scope) {
        Ok(first) => first,
        Err(reason) => return Err(reason),
    };
    let mut made = Vec::new(alloc);
    add_made(alloc, &mut made, bytes, &first.mutated, watch)?;
    let mut read = first.read;
    let mut function = first.mutated.function;
    let mut module = RewrittenModule {
        bytes: first.mutated.bytes,
        made,
        stopped: None,
    };
    'rewrites: for _ in 1..count {
        let next = match mutate_with(alloc, &module.bytes, read, function, generator, scope) {
            Ok(Some(next)) => next,
            Ok(None) => return Ok(module),
            Err(e) => return Ok(stopped(module, e)),
        };
        if add_made(alloc, &mut module.made, &module.bytes, &next.mutated, watch).is_err() {
            return Ok(stopped(module, MutationError::Memory));
        }
        read = next.read;
        function = next.mutated.function;
        module.bytes = next.mutated.bytes;
    }
    Ok(module)
}
