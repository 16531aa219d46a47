//! An operator of a body, as lines are asked for it.
ghost use Rattle.std.specs.Prelude.{◌<◌, ◌≤◌, ◌≡◌, length};
ghost use Rattle.body_rewrites.specs.Places.{context_of, HasItsLists};
ghost use Rattle.body_rewrites.specs.Asking.{IsHere};

use crate::cutting::has_tree;
use crate::places::Body;
use crate::roots::class_at;

/// An operator of a body: its index, the class of its instruction, and whether a tree ends with it.
#[derive(Clone, Copy)]
pub(crate) struct Here {
    pub(crate) at: usize,
    pub(crate) class: usize,
    pub(crate) is_tree: bool,
}

/// The operator with the index.
pub(crate) fn here_at(body: &Body<'_>, at: usize) -> Here
    requires lists { HasItsLists body.now }
    requires inside { at < length body.now.operators.now }
    ensures is { IsHere (context_of body.now) body.now.operators.now result }
    ensures at { result.at ≡ at }
{
    Here {
        at,
        class: class_at(body.operators, at),
        is_tree: has_tree(body.trees, at),
    }
}
