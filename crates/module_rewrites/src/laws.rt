//! What holds of rewritten modules. A function here does nothing: its contract is the law.
ghost use Rattle.std.specs.Prelude.{◌≡◌, ◌<◌, ◌≤◌, ◌+◌, ◌^◌, ◌++◌, Bool, ℕ, List, Option, None, length, true};
ghost use Rattle.std.specs.List.{sum_by};
ghost use Rattle.rand_core.specs.Stream.{Stream};
ghost use Rattle.wasm_code.specs.declared.operator.Operator.{Operator};
ghost use Rattle.wasm_types.specs.Module.{Module};
ghost use Rattle.wasm_types.specs.declared.types.PrimitiveTypeInfo.{PrimitiveTypeInfo};
ghost use Rattle.wasm_sections.specs.Debug.{IsWithoutDebug};
ghost use Rattle.wasm_sections.specs.Section.{SpellsModule};
ghost use Rattle.wasm_sections.specs.declared.fault.ModuleFault.{ModuleFault};
ghost use Rattle.wasm_sections.specs.declared.fault.ModuleFault.TheVariants.{Memory};
ghost use Rattle.wasm_sections.specs.declared.section.Section.{Section};
ghost use Rattle.wasm_module.specs.Fault.{IsModuleFault};
ghost use Rattle.wasm_module.specs.Module.{Layout};
ghost use Rattle.wasm_execution.specs.Values.{context_in};
ghost use Rattle.body_rewrites.specs.Listing.{IsWantedBy};
ghost use Rattle.body_rewrites.specs.declared.rewrite.Rewrite.{Rewrite};
ghost use Rattle.module_rewrites.specs.Chosen.{ChoosesOfModule, GivesUp};
ghost use Rattle.module_rewrites.specs.ChosenTimes.{ChoosesEach, ChoosesTimes};
ghost use Rattle.module_rewrites.specs.DoesAsBefore.{DoesAsBefore};
ghost use Rattle.module_rewrites.specs.Drawing.{contents_length};
ghost use Rattle.module_rewrites.specs.EntryWords.{DrawsRewrite, HasEntryWords};
ghost use Rattle.module_rewrites.specs.Function.{IsFunction};
ghost use Rattle.module_rewrites.specs.Inside.{FunctionsAreInside, LocalsStandBefore};
ghost use Rattle.module_rewrites.specs.Mutated.{CannotMutate, IsMutated, IsOfSize, RefusesMutation};
ghost use Rattle.module_rewrites.specs.Mutates.{Mutates};
ghost use Rattle.module_rewrites.specs.ReadAgain.{BodiesAreReadAgain};
ghost use Rattle.module_rewrites.specs.Scope.{Scope, wanted_of};
ghost use Rattle.module_rewrites.specs.Size.{IsSmaller};
ghost use Rattle.module_rewrites.specs.Smaller.{MakesSmaller};
ghost use Rattle.module_rewrites.specs.StandAgain.{FunctionsStandAgain};
ghost use Rattle.module_rewrites.specs.Stopped.{HadMemory};
ghost use Rattle.module_rewrites.specs.declared.mutation.MutationError.{MutationError};
ghost use Rattle.module_rewrites.specs.declared.times.MadeRewrite.{MadeRewrite};

use body_rewrites::laws::{
    chosen_rewrites_are_wanted, each_rewrite_has_words, words_choose_one_rewrite,
    words_write_one_body,
};
use body_splices::laws::own_bytes_stay;
use wasm_code::laws::one_list as one_list_of_operators;
use wasm_equivalence::laws::{
    embedders_are_sound, one_function_is_rewritten, pieces_do_as_before, rewritten_modules_do_more,
    sessions_do_more, valid_modules_do_more,
};
use wasm_lists::laws::one_list;
use wasm_module::laws::{
    entries_are_inside, entries_fit_the_module, modules_have_no_fault,
    modules_without_debug_are_the_same, one_reading, one_rewritten_module,
    rewritten_modules_are_made_alike,
};
use wasm_sections::laws::one_module;

/// A rewritten module is a module, so that reading it is refused for want of memory alone.
pub fn rewritten_modules_are_read_again()
    ensures { (scope : Scope) (bytes new : List ℕ) (function : ℕ) (rewrite : Rewrite)
        → IsMutated scope bytes function rewrite new
        → (fault : ModuleFault) (offset : ℕ) → IsModuleFault new fault offset → fault ≡ Memory }
{
    modules_have_no_fault();
}

/// A module that is read again with another body in one of its code entries has that function, and all others as they were.
pub fn bodies_are_read_again()
    ensures { BodiesAreReadAgain }
{
    own_bytes_stay();
}

/// Of such a module the functions are those of the old one, with the new body in place.
pub fn functions_stand_again()
    ensures { FunctionsStandAgain }
{
    one_list();
    one_list_of_operators();
}

/// A function's body stands in the module's bytes (`body`), behind its locals (`locals`).
pub fn functions_are_inside()
    ensures body { FunctionsAreInside }
    ensures locals { LocalsStandBefore }
{
    entries_are_inside();
}

/// A module in which an operator was rewritten (`one`), or several, one after another (`each`), is valid where it was, and does what it
/// did, in every sound embedder, or in every exact one where the scope says that what runs it is exact; so it does without its custom sections that name places in the code (`stripped`), and as it is (`itself`). What does as a
/// second module, which does as a third, does as that (`follow`).
pub fn rewritten_modules_do_as_before()
    ensures one { (scope : Scope) (bytes new : List ℕ) (function : ℕ) (rewrite : Rewrite)
        → IsMutated scope bytes function rewrite new → DoesAsBefore scope.exact bytes new }
    ensures each { (scope : Scope) (count : ℕ) (bytes new : List ℕ) (made : List MadeRewrite)
        (stopped : Option MutationError) → Mutates scope count bytes made new stopped
        → DoesAsBefore scope.exact bytes new }
    ensures stripped { (exact : Bool) (bytes new : List ℕ) (sections : List Section)
        → SpellsModule bytes sections → IsWithoutDebug bytes sections new
        → DoesAsBefore exact bytes new }
    ensures itself { (exact : Bool) (bytes : List ℕ) → DoesAsBefore exact bytes bytes }
    ensures follow { (exact : Bool) (bytes between new : List ℕ) → DoesAsBefore exact bytes between
        → DoesAsBefore exact between new → DoesAsBefore exact bytes new }
{
    one_reading();
    one_list();
    one_list_of_operators();
    one_module();
    own_bytes_stay();
    modules_without_debug_are_the_same();
    rewritten_modules_are_made_alike();
    embedders_are_sound();
    pieces_do_as_before();
    one_function_is_rewritten();
    rewritten_modules_do_more();
    sessions_do_more();
    valid_modules_do_more();
}

/// Rewrites go on where others left the module and the generator: as many as one count says, and then those of another count from
/// there, are those of both counts together, as the words choose them (`mutated`, `chosen`). So the first ones of any are chosen
/// without those behind them (`front`).
pub fn rewrites_go_on()
    ensures mutated { (scope : Scope) (count more : ℕ) (bytes between new : List ℕ)
        (first second : List MadeRewrite) (stopped : Option MutationError)
        → Mutates scope count bytes first between None → length first ≡ count
        → Mutates scope more between second new stopped
        → Mutates scope (count + more) bytes (first ++ second) new stopped }
    ensures chosen { (scope : Scope) (bytes between new : List ℕ) (stream middle : Stream)
        (first second : List MadeRewrite) (stopped : Option MutationError)
        → ChoosesEach scope bytes stream first between middle
        → ChoosesTimes scope between middle second new stopped
        → ChoosesTimes scope bytes stream (first ++ second) new stopped }
    ensures front { (scope : Scope) (bytes new : List ℕ) (stream after : Stream)
        (first second : List MadeRewrite)
        → ChoosesEach scope bytes stream (first ++ second) new after
        → (between : List ℕ) × (middle : Stream)
        × ChoosesEach scope bytes stream first between middle
        × ChoosesEach scope between middle second new after }
{}

/// Every rewrite that there is of a code entry's function by one of the rules that the scope allows is drawn by four words, the first
/// of which names the entry: there is none that no words draw. There are fewer than 2^64 rules and bytes of entries, and than 2^32 operators.
pub fn each_rewrite_is_drawn()
    ensures { (scope : Scope) (bytes : List ℕ) (info : Module) (layout : Layout) (n : ℕ)
        (locals : List PrimitiveTypeInfo) (expression : ℕ) (operators : List (Operator × ℕ))
        (r : Rewrite) → IsFunction bytes info layout n locals expression operators
        → length scope.rules < 2 ^ 64 → length operators < 2 ^ 32
        → sum_by contents_length layout.entries < 2 ^ 64
        → IsWantedBy (context_in info locals) operators scope.rules (wanted_of scope) r
        → ¬ (¬ (HasEntryWords scope bytes info layout n r)) }
{
    each_rewrite_has_words();
}

/// A word names one code entry at most, and the words behind it choose one rewrite of its function at most, where the entries
/// contain any byte, and fewer than 2^64.
pub fn words_draw_one_rewrite()
    ensures { (scope : Scope) (bytes : List ℕ) (info : Module) (layout : Layout) (s : Stream)
        (n m : ℕ) (r q : Rewrite) → 0 < sum_by contents_length layout.entries
        → sum_by contents_length layout.entries < 2 ^ 64
        → DrawsRewrite scope bytes info layout s n r
        → DrawsRewrite scope bytes info layout s m q → (n ≡ m) × (r ≡ q) }
{
    one_list();
    one_list_of_operators();
    words_choose_one_rewrite();
}

/// Equal modules, scopes and words give equal rewrites and equal bytes. Words choose one rewrite of a module, with one text (`one`);
/// where they do, one fits (`none`), and where one is refused for a size, there is one (`refused`). Of two lists of rewrites that
/// words choose one after another, the shorter one begins the longer, which goes on from where that ends (`times`); those that are
/// as long are the same, with the same bytes (`same`). Two answers for at most `count` rewrites, neither of which was stopped for
/// want of memory, are the same (`answers`). A module has fewer than 2^64 bytes, and so has a new one.
pub fn equal_words_give_equal_bytes()
    ensures one { (scope : Scope) (bytes new other : List ℕ) (s after later : Stream) (f g : ℕ)
        (r q : Rewrite) → length bytes < 2 ^ 64 → ChoosesOfModule scope bytes s f r new after
        → ChoosesOfModule scope bytes s g q other later
        → (f ≡ g) × (r ≡ q) × (new ≡ other) × (after ≡ later) }
    ensures none { (scope : Scope) (bytes new : List ℕ) (s after : Stream) (f : ℕ) (r : Rewrite)
        → length bytes < 2 ^ 64 → ChoosesOfModule scope bytes s f r new after
        → ¬ (GivesUp scope bytes s) × ¬ (CannotMutate scope bytes) }
    ensures refused { (scope : Scope) (bytes : List ℕ) (e : MutationError) → IsOfSize e
        → RefusesMutation scope bytes e → ¬ (CannotMutate scope bytes) }
    ensures times { (scope : Scope) (made others : List MadeRewrite) (bytes new other : List ℕ)
        (s after later : Stream) → length bytes < 2 ^ 64 → scope.most < 2 ^ 64
        → length made ≤ length others → ChoosesEach scope bytes s made new after
        → ChoosesEach scope bytes s others other later
        → (rest : List MadeRewrite) × (others ≡ made ++ rest)
        × ChoosesEach scope new after rest other later }
    ensures same { (scope : Scope) (made others : List MadeRewrite) (bytes new other : List ℕ)
        (s after later : Stream) → length bytes < 2 ^ 64 → scope.most < 2 ^ 64
        → length made ≡ length others → ChoosesEach scope bytes s made new after
        → ChoosesEach scope bytes s others other later
        → (made ≡ others) × (new ≡ other) × (after ≡ later) }
    ensures answers { (scope : Scope) (count : ℕ) (bytes new other : List ℕ) (s : Stream)
        (made others : List MadeRewrite) (stopped halted : Option MutationError)
        → length bytes < 2 ^ 64 → scope.most < 2 ^ 64
        → Mutates scope count bytes made new stopped
        → ChoosesTimes scope bytes s made new stopped → HadMemory stopped
        → Mutates scope count bytes others other halted
        → ChoosesTimes scope bytes s others other halted → HadMemory halted
        → (made ≡ others) × (new ≡ other) }
{
    one_list();
    one_list_of_operators();
    words_write_one_body();
    one_rewritten_module();
    one_reading();
    entries_fit_the_module();
}

/// Where rewrites are to make a module smaller, each is one that leaves no more operators, and the module with it is smaller than before:
/// it has fewer bytes, or as many and comes earlier in the dictionary (`one`); so it is after several, one after another (`each`).
pub fn shrinking_rewrites_make_smaller()
    ensures one { (scope : Scope) (bytes new : List ℕ) (function : ℕ) (rewrite : Rewrite)
        → scope.shrinking ≡ true → IsMutated scope bytes function rewrite new
        → MakesSmaller bytes function rewrite new }
    ensures each { (scope : Scope) (count : ℕ) (bytes new : List ℕ) (made : List MadeRewrite)
        (stopped : Option MutationError) → scope.shrinking ≡ true
        → Mutates scope count bytes made new stopped → IsSmaller new bytes }
{
    chosen_rewrites_are_wanted();
}
