//! What holds where instructions are replaced by code with control flow of its own. A function here does nothing: its contract is the law.

ghost use Rattle.wrapped_code.specs.Conditions.{ConditionsAsTrue, ConditionsMayChange};
ghost use Rattle.wrapped_code.specs.Dead.{DeadCodeMayChange};
ghost use Rattle.wrapped_code.specs.Handlers.{ReadCodeHasNoHandlers};
ghost use Rattle.wrapped_code.specs.Indices.{IndicesAreBounded, IndicesMayChange};
ghost use Rattle.wrapped_code.specs.Laws.{UnwrappedCodeDoes, ValuesInBlocks, WrappedCodeDoes, WrappedModulesDoMore, WrappedModulesStayValid};
ghost use Rattle.wrapped_code.specs.Nested.{BranchesMayNest, BranchesMayUnnest};
ghost use Rattle.wrapped_code.specs.Tables.{TablesLoseNothing};
ghost use Rattle.wrapped_code.specs.Ways.{CodeIsAlone, PureCode, PushedCodeChecksAs, PushingCodeIsThere, WrappedCodePushes, WrappedCodeRuns};

use wasm_equivalence::laws::{
    one_function_is_rewritten, standard_control_is_sound, valid_modules_do_more,
};
use wasm_equivalence::validity::{
    replaced_code_stays_valid, typed_rows_check, valid_bodies_stay_valid, valid_code_runs,
    validity_goes_by_types,
};

/// A function in which instructions were replaced by wrapped code, and which has no block that catches exceptions, does as it did
/// (`does`). A module with such a function, in every embedder that is sound for it, answers as it did (`more`), and is valid
/// (`valid`).
pub fn wrapped_code_does_as_before()
    ensures does { WrappedCodeDoes }
    ensures more { WrappedModulesDoMore }
    ensures valid { WrappedModulesStayValid }
{
    standard_control_is_sound();
    one_function_is_rewritten();
    valid_modules_do_more();
    validity_goes_by_types();
    valid_bodies_stay_valid();
}

/// The other way round: a function in which wrapped code was replaced by instructions does as it did.
pub fn unwrapped_code_does_as_before()
    ensures { UnwrappedCodeDoes }
{
    standard_control_is_sound();
    validity_goes_by_types();
    valid_bodies_stay_valid();
    valid_code_runs();
}

/// What wrapped code pushes (`push`), that it is checked as instructions that push the same (`alike`), and that it has an operator
/// where it pushes something (`there`).
pub fn wrapped_code_pushes()
    ensures push { WrappedCodePushes }
    ensures alike { PushedCodeChecksAs }
    ensures there { PushingCodeIsThere }
{}

/// Blocks, loops, conditionals and branches around code that runs as the instructions run as they do.
pub fn wrapped_code_runs()
    ensures { WrappedCodeRuns }
{
    valid_code_runs();
}

/// A value in a block, or in a loop that is left at its end: a function without blocks that catch exceptions does as it did.
pub fn values_in_blocks_do_as_before()
    ensures { ValuesInBlocks }
{
    wrapped_code_does_as_before();
}

/// What operators don't carry may be given by their numbers among those that ask it.
pub fn tables_lose_nothing()
    ensures { TablesLoseNothing }
{}

/// Constants, variables and integer operators that never trap are pure.
pub fn some_code_is_pure()
    ensures { PureCode }
{}

/// Code that pushes one value does the same above every stack, and leaves the values of what it doesn't write.
pub fn typed_code_is_alone()
    ensures { CodeIsAlone }
{
    valid_code_runs();
}

/// A body that was read has no block that catches exceptions.
pub fn read_code_has_no_handlers()
    ensures { ReadCodeHasNoHandlers }
{}

/// A function in which the condition of a branch or of a conditional was replaced by one that is zero where it is does as it did.
pub fn conditions_may_change()
    ensures { ConditionsMayChange }
{
    standard_control_is_sound();
    validity_goes_by_types();
    replaced_code_stays_valid();
    valid_bodies_stay_valid();
    valid_code_runs();
}

/// Some conditions are zero alike: also with `i32.const 0` and `i32.ne` behind them, or with `i32.eqz` twice.
pub fn some_conditions_are_as_true()
    ensures { ConditionsAsTrue }
{
    valid_code_runs();
}

/// A function in which the index of a branch by a table was replaced by one that picks the same label does as it did.
pub fn indices_may_change()
    ensures { IndicesMayChange }
{
    standard_control_is_sound();
    validity_goes_by_types();
    replaced_code_stays_valid();
    valid_bodies_stay_valid();
    valid_code_runs();
}

/// An index may be bounded by the number of labels: it picks the same one.
pub fn indices_may_be_bounded()
    ensures { IndicesAreBounded }
{
    typed_rows_check();
    valid_code_runs();
}

/// A function without blocks that catch exceptions, in which code that is never reached was replaced, put in or taken out, does as
/// it did.
pub fn dead_code_may_change()
    ensures { DeadCodeMayChange }
{
    validity_goes_by_types();
    valid_bodies_stay_valid();
}

/// A function without blocks that catch exceptions, in which a `br_if` was replaced by an `if` with a `br` in it (`nest`), or the
/// other way round (`unnest`), does as it did.
pub fn branches_may_nest()
    ensures nest { BranchesMayNest }
    ensures unnest { BranchesMayUnnest }
{
    validity_goes_by_types();
    valid_bodies_stay_valid();
}
