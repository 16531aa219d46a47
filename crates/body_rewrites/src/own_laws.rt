//! What holds of the rules beside the table. A function here does nothing: its contract is the law.

ghost use Rattle.body_rewrites.specs.Own.{OwnChangesMayStand};

use rewrite_rules::laws::{
    besides_keep_code, bounds_are_indices, dropped_code_pushes_nothing,
    dropped_constants_push_nothing, selects_are_conditionals, tests_are_conditions,
    wraps_are_right,
};
use wasm_equivalence::laws::{pieces_do_as_before, replaced_code_is_in_one_piece};
use wasm_equivalence::validity::replaced_code_stays_valid;
use wrapped_code::laws::{
    branches_may_nest, conditions_may_change, dead_code_may_change, indices_may_change,
    unwrapped_code_does_as_before, wrapped_code_does_as_before, wrapped_code_pushes,
};

/// What a rule beside the table makes may stand in the place of what stood there, and at an operator it makes one thing at most.
pub fn own_changes_may_stand()
    ensures { OwnChangesMayStand }
{
    besides_keep_code();
    wraps_are_right();
    wrapped_code_does_as_before();
    unwrapped_code_does_as_before();
    wrapped_code_pushes();
    selects_are_conditionals();
    tests_are_conditions();
    conditions_may_change();
    bounds_are_indices();
    indices_may_change();
    dead_code_may_change();
    branches_may_nest();
    dropped_code_pushes_nothing();
    dropped_constants_push_nothing();
    replaced_code_is_in_one_piece();
    replaced_code_stays_valid();
    pieces_do_as_before();
}
