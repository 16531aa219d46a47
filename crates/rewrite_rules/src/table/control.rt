//! Lines on control flow.

use crate::table::{Own, Step, TableLine, Widths};
use crate::wrap::Wrap;

/// Values in control flow of their own, selects as conditionals, tests of conditions, code that is never reached, bounds of indices,
/// branches in conditionals, and back.
pub const CONTROL: [TableLine; 32] = [
    own!("in_block": Wrap InBlock),
    own!("drop_block": Unwrap InBlock),
    own!("in_loop": Wrap InLoop),
    own!("drop_loop": Unwrap InLoop),
    own!("in_if": Wrap InIf),
    own!("drop_if": Unwrap InIf),
    own!("in_else": Wrap InElse),
    own!("drop_else": Unwrap InElse),
    own!("leave_block": Wrap LeaveBlock),
    own!("drop_leave": Unwrap LeaveBlock),
    own!("leave_over": Wrap LeaveOver),
    own!("drop_leave_over": Unwrap LeaveOver),
    own!("leave_dead": Wrap LeaveDead),
    own!("drop_leave_dead": Unwrap LeaveDead),
    own!("may_leave": Wrap MayLeave),
    own!("drop_may_leave": Unwrap MayLeave),
    own!("surely_leave": Wrap SurelyLeave),
    own!("drop_surely_leave": Unwrap SurelyLeave),
    own!("once": Wrap Once),
    own!("drop_once": Unwrap Once),
    own!("select_to_if": SelectToIf),
    own!("if_to_select": IfToSelect),
    own!("test_condition": TestCondition),
    own!("drop_condition_test": DropConditionTest),
    own!("double_condition": DoubleCondition),
    own!("drop_double_condition": DropDoubleCondition),
    own!("put_dead": PutDead),
    own!("drop_dead": DropDead),
    own!("bound_index": BoundIndex),
    own!("drop_index_bound": DropIndexBound),
    own!("br_if_to_if": BrIfToIf),
    own!("if_to_br_if": IfToBrIf),
];
