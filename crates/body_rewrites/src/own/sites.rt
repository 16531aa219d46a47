//! Where a rule beside the table applies.
ghost use Rattle.std.specs.Prelude.{◌≡◌};
ghost use Rattle.wasm_execution.specs.Values.{Context};
ghost use Rattle.body_rewrites.specs.Places.{AreListsOf};
ghost use Rattle.body_rewrites.specs.OwnSites.{IsSiteOf};

use crate::own::{
    Site, access, bound_index, br_if_to_if, double_condition, drop_condition_test, drop_dead,
    drop_double_condition, drop_index_bound, drop_nop, fold, forget, if_to_br_if, if_to_select,
    put_dead, select_to_if, set_to_tee, tee_to_set, test_condition, through_global, unfold, unwrap,
    with_nop, wrap,
};
use crate::places::Body;
use rewrite_rules::Own;

// Where the rule applies at the operator, and what it makes there.
pub(crate) fn site_of(body: &Body<'_>, own: Own, at: usize) -> Option<Site>
    ensures { (context : Context) → context.info ≡ body.now.info.now
        → AreListsOf context body.now
        → IsSiteOf context body.now.operators.now own at result }
{
    match own {
        Own::Unfold => unfold::find(body.operators, at),
        Own::ThroughGlobal => through_global::find(body.info, body.trees, at),
        Own::WithNop => with_nop::find(body.trees, at),
        Own::Fold => fold::find(body.operators, at),
        Own::Forget => forget::find(body.operators, body.trees, at),
        Own::TeeToSet => tee_to_set::find(body.operators, at),
        Own::DropNop => drop_nop::find(body.operators, at),
        Own::SetToTee => set_to_tee::find(body.operators, at),
        Own::Access(number) => access::find(body.info, body.operators, at, number),
        Own::Wrap(wrap) => wrap::find(body.trees, body.blocks, at, wrap),
        Own::Unwrap(wrap) => unwrap::find(body.operators, body.trees, at, wrap),
        Own::SelectToIf => select_to_if::find(body.operators, body.trees, body.blocks, at),
        Own::IfToSelect => if_to_select::find(body.operators, body.trees, at),
        Own::TestCondition => test_condition::find(body.operators, body.trees, at),
        Own::DropConditionTest => drop_condition_test::find(body.operators, body.trees, at),
        Own::DoubleCondition => double_condition::find(body.operators, body.trees, at),
        Own::DropDoubleCondition => drop_double_condition::find(body.operators, body.trees, at),
        Own::PutDead => put_dead::find(body.operators, at),
        Own::DropDead => drop_dead::find(body.operators, body.trees, at),
        Own::BoundIndex => bound_index::find(body.operators, body.trees, at),
        Own::DropIndexBound => drop_index_bound::find(body.operators, body.trees, at),
        Own::BrIfToIf => br_if_to_if::find(body.operators, body.blocks, at),
        Own::IfToBrIf => if_to_br_if::find(body.operators, at),
    }
}
