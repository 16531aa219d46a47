//! A module with an operator of one of its functions rewritten by a rule, in its place.
ghost use Rattle.std.specs.Prelude.{◌≡◌, ◌↔◌, ◌<◌, ◌≤◌, ◌+◌, ℕ, length, Some, None, slice_range, IfOk, IfErr, IfNone, IfSome, IsTrue};
ghost use Rattle.body_splices.specs.OwnBytes.{IsBodyIn};
ghost use Rattle.wasm_module.specs.Module.{IsModule};
ghost use Rattle.wasm_execution.specs.Values.{context_in};
ghost use Rattle.body_rewrites.specs.Random.{AppendsByWords, HasNoRewrite};
ghost use Rattle.module_rewrites.specs.Chosen.{AllInVain, ChoosesAgain, ChoosesBy, ChoosesFrom, ChoosesOfModule, ChoosesWithin, GivesUp, GivesUpAgain, GivesUpInOrder, GivesUpOn, TriesInVain};
ghost use Rattle.module_rewrites.specs.Mutated.{CannotMutate, HasNoMutation, IsBehindLocals, IsInVain, IsMutated, IsOfSize, IsRefusedForSize, MutatesEntry, MutatesOne, RefusesEntry, RefusesMutation, WasRewrittenAt, last_refusal_of};
ghost use Rattle.module_rewrites.specs.Scope.{IsMarked, wanted_of};
ghost use Rattle.module_rewrites.specs.Size.{IsSmallEnough};
ghost use Rattle.module_rewrites.specs.Writing.{MakesAt};
ghost use Rattle.module_rewrites.specs.declared.mutation.MutationError.TheVariants.{Memory, Write};

use crate::drawing::draw_entry;
use crate::function::{FunctionBody, entry_at, function_index, read_function};
use crate::scope::Scope;
use crate::size::refusal;
use body_rewrites::{Body, Rewrite, Rewritten, blocks_of, rewrite_at_random, trees_of};
use body_splices::laws::own_bytes_stay;
use rand_core::Rng;
use std::alloc::{AllocError, Global};
use thiserror::Error as ErrorTexts;
use wasm_code::Function;
use wasm_module::laws::{
    entries_are_inside, entries_fit_the_module, one_reading, rewritten_bytes_are_a_module,
};
use wasm_module::{Entry, Layout, Module, ModuleError, WriteError, read_again, with_body};
use wasm_types::ModuleInfo;

/// Why there is no new module.
#[derive(Clone, Copy, Debug, PartialEq, Eq, ErrorTexts)]
pub enum MutationError {
    /// The bytes are no module that can be read.
    #[error("{0}")]
    Read(ModuleError),
    /// No memory was left for a rewrite.
    #[error("Memory")]
    Memory,
    /// A section doesn't fit its size, or no memory was left for the module.
    #[error("{0}")]
    Write(WriteError),
    /// The rewritten module has more bytes than a new one may have.
    #[error("the rewritten module has more bytes than it may")]
    TooLong,
    /// The rewritten module isn't smaller, where it is to be.
    #[error("the rewritten module isn't smaller")]
    NotSmaller,
}

impl MutationError {
    /// Whether the module with a rewrite isn't small enough, so that another rewrite may fit.
    pub fn is_of_size(&self) -> bool
        ensures { IsTrue result ↔ IsOfSize self.now }
    {
        match self {
            MutationError::Read(_) | MutationError::Memory => false,
            MutationError::Write(e) => is_too_large(*e),
            MutationError::TooLong | MutationError::NotSmaller => true,
        }
    }
}

/// A module with an operator rewritten.
#[derive(Drop)]
pub struct Mutated {
    /// The bytes of the new module.
    pub bytes: Vec<u8>,
    /// The function, by its index among all functions of the module, imported ones first.
    pub function: usize,
    /// The operator of its body that is rewritten, the row of the table, and the width.
    pub rewrite: Rewrite,
}

/// A module with an operator rewritten, and what was read of the module before it, but for its bytes.
#[derive(Drop)]
pub(crate) struct Step {
    /// The new module.
    pub(crate) mutated: Mutated,
    /// What the old one declares, and where it does.
    pub(crate) read: Module<'static>,
}

impl From<AllocError> for MutationError {
    ghost use Rattle.std.specs.Prelude.{◌≡◌};
    ghost use Rattle.module_rewrites.specs.declared.mutation.MutationError.TheVariants.{Memory};

    ghost from_gives = { λ _ e. e ≡ Memory };

    fn from(_e: AllocError) -> MutationError {
        MutationError::Memory
    }
}

// What stands in an entry before its expression: the groups of its locals.
fn locals_of(bytes: &[u8], entry: Entry, expression: usize) -> &[u8]
    requires { IsBehindLocals bytes.now entry expression }
    ensures { result.now ≡ slice_range bytes.now entry.contents expression }
{
    &bytes[entry.contents..expression]
}

// Whether a size doesn't fit.
fn is_too_large(e: WriteError) -> bool
    ensures { IsTrue result ↔ IsOfSize (Write e) }
{
    match e {
        WriteError::TooLarge => true,
        WriteError::EmptyType | WriteError::Memory => false,
    }
}

// Whether an attempt was in vain: there was no rewrite, or the module with it isn't small enough.
fn is_in_vain(made: &Result<Option<Mutated>, MutationError>) -> bool
    ensures { IsTrue result ↔ IsInVain made.now }
{
    match made {
        Ok(made) => made.is_none(),
        Err(e) => e.is_of_size(),
    }
}

// Whether the module with a rewrite isn't small enough.
fn is_refused_for_size(made: &Result<Option<Mutated>, MutationError>) -> bool
    ensures { IsTrue result ↔ IsRefusedForSize made.now }
{
    match made {
        Ok(_) => false,
        Err(e) => e.is_of_size(),
    }
}

// What attempts in vain come to: the last one's refusal.
fn last(
    before: Result<Option<Mutated>, MutationError>,
    after: Result<Option<Mutated>, MutationError>,
) -> Result<Option<Mutated>, MutationError>
    ensures { result ≡ last_refusal_of before after }
{
    match after {
        Ok(None) => before,
        Ok(Some(made)) => Ok(Some(made)),
        Err(e) => Err(e),
    }
}

// Writes the function's body behind what the sink holds, with a rewrite in it that words choose; none where there is none that the
// scope allows.
fn rewrite_function<R: Rng>(
    alloc: Global,
    info: &ModuleInfo<'_>,
    generator: &mut R,
    scope: &Scope<'_>,
    bytes: &[u8],
    function: &FunctionBody,
    sink: &mut Function,
) -> Result<Option<Rewritten>, MutationError>
    requires body { IsBodyIn bytes.now function.now.operators.items }
    ensures rewritten { IfOk result (λ o. IfSome o (λ made. AppendsByWords
        (context_in info.now function.now.locals.items) (R.stream generator.old) scope.now.rules
        (wanted_of scope.now) bytes.now function.now.operators.items made.rewrite sink.old
        sink.new made.asks.items (R.stream generator.new))) }
    ensures none { IfOk result (λ o. IfNone o (HasNoRewrite
        (context_in info.now function.now.locals.items) scope.now.rules (wanted_of scope.now)
        function.now.operators.items)) }
    ensures kept { IfOk result (λ o. IfNone o
        (R.stream generator.new ≡ R.stream generator.old)) }
    ensures memory { IfErr result (λ e. e ≡ Memory) }
{
    let locals = function.locals.as_slice();
    let operators = function.operators.as_slice();
    let trees = trees_of(alloc, locals, info, operators)?;
    let blocks = blocks_of(alloc, operators)?;
    let body = Body {
        info,
        locals,
        operators,
        trees: &trees,
        blocks: &blocks,
    };
    let (rules, wanted) = (scope.rules(), scope.wanted());
    match rewrite_at_random(alloc, generator, &body, bytes, rules, wanted, sink) {
        Ok(made) => Ok(made),
        Err(_) => Err(MutationError::Memory),
    }
}

// The module with an operator of its n-th code entry rewritten; none where no rule applies there.
fn mutate_entry<R: Rng>(
    alloc: Global,
    info: &ModuleInfo<'_>,
    generator: &mut R,
    scope: &Scope<'_>,
    bytes: &[u8],
    layout: &Layout,
    n: usize,
) -> Result<Option<Mutated>, MutationError>
    requires module { IsModule bytes.now info.now layout.now }
    requires inside { n < length layout.now.entries }
    ensures mutated { IfOk result (λ o. IfSome o (λ m.
        (m.function ≡ layout.now.imported_functions + n) × MutatesEntry
        scope.now bytes.now info.now layout.now n m.rewrite m.bytes.items)) }
    ensures function { IfOk result (λ o. IfSome o (λ m.
        m.function ≡ layout.now.imported_functions + n)) }
    ensures fits { IfOk result (λ o. IfSome o (λ m.
        IsSmallEnough scope.now bytes.now m.bytes.items)) }
    ensures chosen { IfOk result (λ o. IfSome o (λ m. MakesAt scope.now bytes.now info.now
        layout.now (R.stream generator.old) n m.rewrite m.bytes.items (R.stream generator.new))) }
    ensures none { IfOk result (λ o. IfNone o
        (HasNoMutation scope.now bytes.now info.now layout.now n)) }
    ensures refused { IfErr result (RefusesEntry scope.now bytes.now info.now layout.now n) }
    ensures tried { IsInVain result → TriesInVain scope.now bytes.now info.now layout.now
        (R.stream generator.old) n (R.stream generator.new) }
{
    entries_are_inside();
    own_bytes_stay();
    rewritten_bytes_are_a_module();
    let function = match read_function(alloc, bytes, info, layout, n) {
        Ok(function) => function,
        Err(e) => {
            if e.is_memory() {
                return Err(MutationError::Memory);
            }
            return Ok(None);
        }
    };
    let mut body = Function::new(alloc);
    let made = match rewrite_function(alloc, info, generator, scope, bytes, &function, &mut body) {
        Ok(Some(made)) => made,
        Ok(None) => return Ok(None),
        Err(e) => return Err(e),
    };
    let locals = locals_of(bytes, entry_at(layout, n), function.expression);
    match with_body(alloc, bytes, layout, n, locals, body.bytes(), &made.asks) {
        Ok(new) => match refusal(scope, bytes, &new) {
            Some(error) => Err(error),
            None => Ok(Some(Mutated {
                bytes: new,
                function: function_index(info, layout, n),
                rewrite: made.rewrite,
            })),
        },
        Err(e) => Err(MutationError::Write(e)),
    }
}

// The same at the first code entry from `from` on, before `to`, where the attempt isn't in vain.
fn mutate_first<R: Rng>(
    alloc: Global,
    info: &ModuleInfo<'_>,
    generator: &mut R,
    scope: &Scope<'_>,
    bytes: &[u8],
    layout: &Layout,
    from: usize,
    to: usize,
) -> Result<Option<Mutated>, MutationError>
    requires module { IsModule bytes.now info.now layout.now }
    requires inside { to ≤ length layout.now.entries }
    requires ordered { from ≤ to }
    ensures mutated { IfOk result (λ o. IfSome o (λ m. MutatesOne scope.now bytes.now
        info.now layout.now m.function m.rewrite m.bytes.items)) }
    ensures fits { IfOk result (λ o. IfSome o (λ m.
        IsSmallEnough scope.now bytes.now m.bytes.items)) }
    ensures chosen { IfOk result (λ o. IfSome o (λ m. ChoosesWithin
        scope.now bytes.now info.now layout.now from to (R.stream generator.old)
        m.function m.rewrite m.bytes.items (R.stream generator.new))) }
    ensures none { IfOk result (λ o. IfNone o ((n : ℕ) → from ≤ n → n < to
        → HasNoMutation scope.now bytes.now info.now layout.now n)) }
    ensures refused { IfErr result (λ e. (n : ℕ) × (from ≤ n) × (n < to)
        × RefusesEntry scope.now bytes.now info.now layout.now n e) }
    ensures tried { IsInVain result → AllInVain scope.now bytes.now info.now layout.now from to
        (R.stream generator.old) (R.stream generator.new) }
{
    let mut vain = Ok(None);
    for n in from..to {
        let made = mutate_entry(alloc, info, generator, scope, bytes, layout, n);
        if !is_in_vain(&made) {
            return made;
        }
        vain = last(vain, made);
    }
    vain
}

// The same at the first code entry where it isn't, from `first` on, and then before it.
fn mutate_in_order<R: Rng>(
    alloc: Global,
    info: &ModuleInfo<'_>,
    generator: &mut R,
    scope: &Scope<'_>,
    bytes: &[u8],
    layout: &Layout,
    first: usize,
) -> Result<Option<Mutated>, MutationError>
    requires module { IsModule bytes.now info.now layout.now }
    requires inside { first ≤ length layout.now.entries }
    ensures mutated { IfOk result (λ o. IfSome o (λ m. MutatesOne scope.now bytes.now
        info.now layout.now m.function m.rewrite m.bytes.items)) }
    ensures fits { IfOk result (λ o. IfSome o (λ m.
        IsSmallEnough scope.now bytes.now m.bytes.items)) }
    ensures chosen { IfOk result (λ o. IfSome o (λ m. ChoosesFrom
        scope.now bytes.now info.now layout.now first (R.stream generator.old)
        m.function m.rewrite m.bytes.items (R.stream generator.new))) }
    ensures none { IfOk result (λ o. IfNone o ((n : ℕ) → n < length layout.now.entries
        → HasNoMutation scope.now bytes.now info.now layout.now n)) }
    ensures refused { IfErr result (λ e. (n : ℕ) × (n < length layout.now.entries)
        × RefusesEntry scope.now bytes.now info.now layout.now n e) }
    ensures tried { IsInVain result → GivesUpInOrder scope.now bytes.now info.now layout.now first
        (R.stream generator.old) (R.stream generator.new) }
{
    let count = layout.entries.len();
    let behind = mutate_first(alloc, info, generator, scope, bytes, layout, first, count);
    if !is_in_vain(&behind) {
        return behind;
    }
    let before = mutate_first(alloc, info, generator, scope, bytes, layout, 0, first);
    if !is_in_vain(&before) {
        return before;
    }
    last(behind, before)
}

// Rewrites a function of any code entry: entries are drawn until an attempt isn't in vain. Where that is so of none of as many as may be
// drawn, all entries are tried in order, from the one that was drawn last on.
fn mutate_any<R: Rng>(
    alloc: Global,
    info: &ModuleInfo<'_>,
    generator: &mut R,
    scope: &Scope<'_>,
    bytes: &[u8],
    layout: &Layout,
) -> Result<Option<Mutated>, MutationError>
    requires module { IsModule bytes.now info.now layout.now }
    ensures mutated { IfOk result (λ o. IfSome o (λ m. MutatesOne scope.now bytes.now
        info.now layout.now m.function m.rewrite m.bytes.items)) }
    ensures fits { IfOk result (λ o. IfSome o (λ m.
        IsSmallEnough scope.now bytes.now m.bytes.items)) }
    ensures chosen { IfOk result (λ o. IfSome o (λ m. ChoosesBy
        scope.now bytes.now info.now layout.now None (R.stream generator.old)
        m.function m.rewrite m.bytes.items (R.stream generator.new))) }
    ensures none { IfOk result (λ o. IfNone o ((n : ℕ) → n < length layout.now.entries
        → HasNoMutation scope.now bytes.now info.now layout.now n)) }
    ensures refused { IfErr result (λ e. (n : ℕ) × (n < length layout.now.entries)
        × RefusesEntry scope.now bytes.now info.now layout.now n e) }
    ensures gives_up { IfErr result (λ e. IsOfSize e → GivesUpOn scope.now bytes.now info.now
        layout.now None (R.stream generator.old) (R.stream generator.new)) }
{
    entries_are_inside();
    entries_fit_the_module();
    if layout.entries.is_empty() {
        return Ok(None);
    }
    let mut n = 0;
    'draws: for _ in 0..scope.draws(bytes) {
        n = draw_entry(generator, layout);
        let made = mutate_entry(alloc, info, generator, scope, bytes, layout, n);
        if !is_in_vain(&made) {
            return made;
        }
    }
    mutate_in_order(alloc, info, generator, scope, bytes, layout, n)
}

// The same at the n-th code entry alone, as often as may be drawn.
fn mutate_again<R: Rng>(
    alloc: Global,
    info: &ModuleInfo<'_>,
    generator: &mut R,
    scope: &Scope<'_>,
    bytes: &[u8],
    layout: &Layout,
    n: usize,
) -> Result<Option<Mutated>, MutationError>
    requires module { IsModule bytes.now info.now layout.now }
    requires inside { n < length layout.now.entries }
    ensures mutated { IfOk result (λ o. IfSome o (λ m.
        (m.function ≡ layout.now.imported_functions + n) × MutatesEntry
        scope.now bytes.now info.now layout.now n m.rewrite m.bytes.items)) }
    ensures fits { IfOk result (λ o. IfSome o (λ m.
        IsSmallEnough scope.now bytes.now m.bytes.items)) }
    ensures chosen { IfOk result (λ o. IfSome o (λ m. ChoosesAgain
        scope.now bytes.now info.now layout.now n (R.stream generator.old)
        m.function m.rewrite m.bytes.items (R.stream generator.new))) }
    ensures none { IfOk result (λ o. IfNone o
        (HasNoMutation scope.now bytes.now info.now layout.now n)) }
    ensures refused { IfErr result (RefusesEntry scope.now bytes.now info.now layout.now n) }
    ensures gives_up { IfErr result (λ e. IsOfSize e → GivesUpAgain scope.now bytes.now info.now
        layout.now n (R.stream generator.old) (R.stream generator.new)) }
{
    'draws: for _ in 1..scope.draws(bytes) {
        let made = mutate_entry(alloc, info, generator, scope, bytes, layout, n);
        if !is_refused_for_size(&made) {
            return made;
        }
    }
    mutate_entry(alloc, info, generator, scope, bytes, layout, n)
}

// The same at the function with the index.
fn mutate_function<R: Rng>(
    alloc: Global,
    info: &ModuleInfo<'_>,
    generator: &mut R,
    scope: &Scope<'_>,
    bytes: &[u8],
    layout: &Layout,
    function: usize,
) -> Result<Option<Mutated>, MutationError>
    requires module { IsModule bytes.now info.now layout.now }
    ensures mutated { IfOk result (λ o. IfSome o (λ m. (m.function ≡ function) × MutatesOne
        scope.now bytes.now info.now layout.now m.function m.rewrite m.bytes.items)) }
    ensures fits { IfOk result (λ o. IfSome o (λ m.
        IsSmallEnough scope.now bytes.now m.bytes.items)) }
    ensures chosen { IfOk result (λ o. IfSome o (λ m. ChoosesBy
        scope.now bytes.now info.now layout.now (Some function) (R.stream generator.old)
        m.function m.rewrite m.bytes.items (R.stream generator.new))) }
    ensures none { IfOk result (λ o. IfNone o ((n : ℕ) → n < length layout.now.entries
        → layout.now.imported_functions + n ≡ function
        → HasNoMutation scope.now bytes.now info.now layout.now n)) }
    ensures refused { IfErr result (λ e. (n : ℕ) × (n < length layout.now.entries)
        × (layout.now.imported_functions + n ≡ function)
        × RefusesEntry scope.now bytes.now info.now layout.now n e) }
    ensures gives_up { IfErr result (λ e. IsOfSize e → GivesUpOn scope.now bytes.now info.now
        layout.now (Some function) (R.stream generator.old) (R.stream generator.new)) }
{
    let imported = layout.imported_functions;
    if function < imported {
        return Ok(None);
    }
    let n = function - imported;
    if n >= layout.entries.len() {
        return Ok(None);
    }
    mutate_again(alloc, info, generator, scope, bytes, layout, n)
}

/// The same at the function that the scope names, or else at any.
pub(crate) fn mutate_chosen<R: Rng>(
    alloc: Global,
    info: &ModuleInfo<'_>,
    generator: &mut R,
    scope: &Scope<'_>,
    bytes: &[u8],
    layout: &Layout,
) -> Result<Option<Mutated>, MutationError>
    requires module { IsModule bytes.now info.now layout.now }
    requires marked { IsMarked scope.now info.now }
    ensures mutated { IfOk result (λ o. IfSome o (λ m.
        IsMutated scope.now bytes.now m.function m.rewrite m.bytes.items)) }
    ensures chosen { IfOk result (λ o. IfSome o (λ m. ChoosesBy
        scope.now bytes.now info.now layout.now scope.now.function (R.stream generator.old)
        m.function m.rewrite m.bytes.items (R.stream generator.new))) }
    ensures none { IfOk result (λ o. IfNone o (CannotMutate scope.now bytes.now)) }
    ensures refused { IfErr result (RefusesMutation scope.now bytes.now) }
    ensures gives_up { IfErr result (λ e. IsOfSize e → GivesUpOn scope.now bytes.now info.now
        layout.now scope.now.function (R.stream generator.old) (R.stream generator.new)) }
{
    match scope.function {
        None => mutate_any(alloc, info, generator, scope, bytes, layout),
        Some(function) => mutate_function(alloc, info, generator, scope, bytes, layout, function),
    }
}

/// The module with an operator of one of its functions rewritten, by a generator that then stands behind the words that were drawn; none
/// where no rule applies in any of its functions that may be rewritten. It is the module of which `read` was read, but for its bytes, with
/// the function rewritten.
pub(crate) fn mutate_with<R: Rng>(
    alloc: Global,
    bytes: &[u8],
    read: Module<'static>,
    function: usize,
    generator: &mut R,
    scope: &Scope<'_>,
) -> Result<Option<Step>, MutationError>
    requires { WasRewrittenAt scope.now read.info read.layout function bytes.now }
    ensures mutated { IfOk result (λ o. IfSome o (λ m. IsMutated scope.now bytes.now
        m.mutated.function m.mutated.rewrite m.mutated.bytes.items)) }
    ensures chosen { IfOk result (λ o. IfSome o (λ m. ChoosesOfModule
        scope.now bytes.now (R.stream generator.old) m.mutated.function m.mutated.rewrite
        m.mutated.bytes.items (R.stream generator.new))) }
    ensures read { IfOk result (λ o. IfSome o (λ m. WasRewrittenAt scope.now
        m.read.info m.read.layout m.mutated.function m.mutated.bytes.items)) }
    ensures none { IfOk result (λ o. IfNone o (CannotMutate scope.now bytes.now)) }
    ensures refused { IfErr result (RefusesMutation scope.now bytes.now) }
    ensures gives_up { IfErr result (λ e. IsOfSize e
        → GivesUp scope.now bytes.now (R.stream generator.old)) }
{
    one_reading();
    let n = function - read.layout.imported_functions;
    let module = match read_again(alloc, bytes, read, n) {
        Ok(module) => module,
        Err(e) => return Err(MutationError::Read(e)),
    };
    let made = mutate_chosen(alloc, &module.info, generator, scope, bytes, &module.layout);
    match made {
        Ok(Some(mutated)) => Ok(Some(Step {
            mutated,
            read: module.without_bytes(),
        })),
        Ok(None) => Ok(None),
        Err(e) => Err(e),
    }
}
