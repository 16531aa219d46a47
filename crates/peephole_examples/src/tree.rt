//! A caller that knows no more of its nodes than the trait says.
ghost use Rattle.std.specs.Prelude.{◌≡◌, ◌<◌, ◌^◌, ◌⊎◌, map, length, slice_index_or, IfOk, IfErr};
ghost use Rattle.peephole_lang.specs.Term.{nodes_of, tree_at, term_of};
ghost use Rattle.peephole_nodes.specs.declared.id.Id.{Id};
ghost use Rattle.peephole_graphs.specs.Layout.{node_by, layout_from, node_count_of};

use peephole_terms::{Error, Id, Language, RecExpr, build_expr};
use std::alloc::Global;

/// The tree at a node of an expression, laid out as an expression of its own.
///
/// Condition: the node is there. `Memory` where an allocation was refused, `TooLarge` where the tree has more than 2^32 nodes.
pub fn tree_of<L: Language>(alloc: Global, expr: &RecExpr<L>, root: Id) -> Result<RecExpr<L>, Error>
    requires { root.0 < length expr.now }
    ensures laid { IfOk result (λ tree. map (node_by L.head L.children) tree
        ≡ layout_from 0 (tree_at (nodes_of L.head L.children expr.now) root.0)) }
    ensures term { IfOk result (λ tree. term_of L.head L.children tree
        ≡ tree_at (nodes_of L.head L.children expr.now) root.0) }
    ensures refused { IfErr result (λ e. (e ≡ Error.Memory)
        ⊎ ((e ≡ Error.TooLarge)
        × (2 ^ 32 < node_count_of (tree_at (nodes_of L.head L.children expr.now) root.0)))) }
{
    let nodes = expr.as_ref();
    build_expr(
        alloc,
        root,
        |id: Id|
            requires { id.0 < length nodes.now }
            ensures { (d : L) → result.now ≡ slice_index_or nodes.entry.now id.0 d }
        { &nodes[id.0 as usize] },
    )
}
