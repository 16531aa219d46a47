// Lays a tree out as an expression.
ghost use Rattle.std.specs.Prelude.{◌≡◌, ℕ, ◌<◌, ◌≤◌, ◌-◌, ◌^◌, ◌++◌, ◌∷◌, [], ◌⊎◌, length, take, drop, map, IfOk, OnOk, IfErr};
ghost use Rattle.std.specs.List.{All};
ghost use Rattle.peephole_lang.specs.Node.{node_of, head_of, children_of};
ghost use Rattle.peephole_lang.specs.Term.{AreBelow, numbers_of, tree_at, term_of};
ghost use Rattle.peephole_graphs.specs.Layout.{node_by, entry_nodes, layout_from, node_count_of};

use crate::dfg::StackEntry;
use crate::postfix::{Postfix, Turn};
use mutate_base::Error;
use peephole_lang::{Id, Lang, Language, RecExpr};
use std::alloc::Global;

// The same node over other children, which are as many.
fn over<L: Language>(node: &L, ids: &[Id]) -> Result<L, Error>
    requires { length ids.now ≡ length (L.ids node.now) }
    ensures head { IfOk result (λ l. L.head l ≡ L.head node.now) }
    ensures ids { IfOk result (λ l. L.ids l ≡ ids.now) }
    ensures refused { IfErr result (λ e. e ≡ Error.Memory) }
{
    let mut copy = node.clone_node()?;
    copy.children_mut().copy_from_slice(ids);
    Ok(copy)
}

// Puts a node behind those laid out, over the finished ones that are its children, and finishes it.
pub(crate) fn add_own<L: Language>(
    expr: &mut RecExpr<L>,
    finished: &mut Vec<Id>,
    node: &L,
) -> Result<(), Error>
    requires enough { length (L.ids node.now) ≤ length finished.old.items }
    requires below { All (λ (k : ℕ). k < length expr.old) (numbers_of finished.old.items) }
    ensures added { OnOk result (map (node_by L.head L.children) expr.new
        ≡ map (node_by L.head L.children) expr.old ++ record {
          head = L.head node.now;
          children = drop (length finished.old.items - length (L.ids node.now))
              (numbers_of finished.old.items);
        } ∷ []) }
    ensures finished { OnOk result (numbers_of finished.new.items
        ≡ take (length finished.old.items - length (L.ids node.now))
        (numbers_of finished.old.items) ++ length expr.old ∷ []) }
    ensures refused { IfErr result (λ e. (e ≡ Error.Memory)
        ⊎ ((e ≡ Error.TooLarge) × (2 ^ 32 ≤ length expr.old))) }
{
    let count = node.children().len();
    let ids = finished.split_off(finished.len() - count)?;
    let own = expr.add(over(node, &ids)?)?;
    finished.push(own)?;
    Ok(())
}

/// The tree of the entry at `root`, laid out in postfix: the children's trees one after another, then the entry's own node,
/// which names each child by its index.
///
/// Memory is the result's and the tree's depth. `Memory` where an allocation was refused, `TooLarge` where the tree has more
/// than 2^32 nodes.
pub(crate) fn lay_out(
    alloc: Global,
    entries: &[StackEntry],
    root: usize,
) -> Result<RecExpr<Lang>, Error>
    requires root { root < length entries.now }
    requires below { AreBelow (entry_nodes entries.now) }
    ensures laid { IfOk result (λ expr. map node_of expr
        ≡ layout_from 0 (tree_at (entry_nodes entries.now) root)) }
    ensures term { IfOk result (λ expr. term_of head_of children_of expr
        ≡ tree_at (entry_nodes entries.now) root) }
    ensures some { IfOk result (λ expr. 0 < length expr) }
    ensures refused { IfErr result (λ e. (e ≡ Error.Memory)
        ⊎ ((e ≡ Error.TooLarge)
        × (2 ^ 32 < node_count_of (tree_at (entry_nodes entries.now) root)))) }
{
    let mut expr = RecExpr::new(alloc);
    let mut finished = Vec::new(alloc);
    let mut walk = Postfix::new(alloc);
    let entry = &entries[root];
    walk.enter(root, entry.operator.children())?;
    while let Some(turn) = walk.advance() {
        match turn {
            Turn::Child(index) => {
                let entry = &entries[index];
                walk.enter(index, entry.operator.children())?;
            }
            Turn::Own(index) => {
                let entry = &entries[index];
                add_own(&mut expr, &mut finished, &entry.operator)?;
            }
        }
    }
    Ok(expr)
}
