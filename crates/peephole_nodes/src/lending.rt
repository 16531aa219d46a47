//! No ids, lent out of a node that has none, and one id, lent as a list.
ghost use Rattle.std.specs.Prelude.{◌≡◌, ◌≤◌, [], ◌∷◌, slice_index_or};
ghost use Rattle.std.specs.Align.{type_align};
ghost use Rattle.std.specs.Borrow.{sem, Lends, Array};
ghost use Rattle.peephole_nodes.specs.contracts.id.Id as id;

use crate::id::Id;
use std::slice::from_raw_parts_mut;

/// No ids, lent out of a node that has none: the node stays as it was.
///
/// Condition: a node's alignment is at least that of an id.
pub fn no_children<T>(node: &mut T) -> &mut [Id]
    requires { type_align id.the_row ≤ type_align T.row }
    ensures* writes_back { sem 𝓛 (Lends T.row (Array id.the_row 0) node.entry result
        (λ _. node.old)) }
    ensures value { result.now ≡ [] }
{
    unsafe { from_raw_parts_mut(node as *mut T as *mut Id, 0) }
}

/// The id, lent as a list of it alone.
pub fn only_child(child: &mut Id) -> &mut [Id]
    ensures* writes_back { sem 𝓛 (Lends id.the_row (Array id.the_row 0) child.entry result
        (λ ids. slice_index_or ids 0 child.old)) }
    ensures value { result.now ≡ child.old ∷ [] }
{
    std::slice::from_mut(child)
}
