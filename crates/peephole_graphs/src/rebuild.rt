//! Trees whose nodes are asked for one by one.

ghost use Rattle.std.specs.Prelude.{◌≡◌, ◌<◌, ◌≤◌, ◌^◌, ◌⊎◌, List, length, IfOk, IfErr};
ghost use Rattle.peephole_nodes.specs.declared.id.Id.{Id};
ghost use Rattle.peephole_lang.specs.Term.{Term};
ghost use Rattle.peephole_graphs.specs.Layout.{node_count_of, IsWhole};
ghost use Rattle.peephole_graphs.specs.Rebuild.{CanAnswer, NodeIsReached, IsReachedOnce, TreeIsTooLong, IsRebuiltTree};
ghost use Rattle.peephole_graphs.specs.Rebuild.{told_tree, AreNodesOfTree, IsLaidOut, IsToldBy};

use crate::layout::add_own;
use mutate_base::Error;
use peephole_lang::{Id, Language, RecExpr};
use std::alloc::Global;

// The nodes of the tree at an id: each node before its children's trees, the last child's tree first.
fn ask_tree<'a, L: Language + 'a, F: Fn(Id) -> &'a L>(
    alloc: Global,
    root: Id,
    id_to_lang: F,
) -> Result<Vec<&'a L>, Error>
    requires { (id : Id)
        → NodeIsReached (CanAnswer L.head L.children (F.post id_to_lang)) root.0 id.0
        → F.pre id_to_lang id }
    ensures tree { IfOk result (λ nodes. (t : Term _)
        × IsRebuiltTree (CanAnswer L.head L.children (F.post id_to_lang)) root.0 t
        × AreNodesOfTree L.head L.children nodes.items t) }
    ensures few { IfOk result (λ nodes. length nodes.items ≤ 2 ^ 32) }
    ensures refused { IfErr result (λ e. (e ≡ Error.Memory)
        ⊎ ((e ≡ Error.TooLarge)
        × TreeIsTooLong (CanAnswer L.head L.children (F.post id_to_lang)) root.0)) }
{
    const LIMIT: usize = 4294967296;
    let mut nodes = Vec::new(alloc);
    let mut ids = Vec::new(alloc);
    ids.push(root)?;
    while let Some(id) = ids.pop() {
        let node = id_to_lang(id);
        if nodes.len() >= LIMIT {
            return Err(Error::TooLarge);
        }
        nodes.push(node)?;
        ids.extend_from_slice(node.children())?;
    }
    Ok(nodes)
}

// The tree of those nodes laid out.
fn lay_asked<L: Language>(alloc: Global, mut asked: Vec<&L>) -> Result<RecExpr<L>, Error>
    requires tree { (t : Term _) × IsWhole t × AreNodesOfTree L.head L.children asked.items t }
    requires few { length asked.items ≤ 2 ^ 32 }
    ensures laid { IfOk result (λ expr. (t : Term _) → IsWhole t
        → AreNodesOfTree L.head L.children asked.entry.items t
        → IsLaidOut L.head L.children t expr) }
    ensures refused { IfErr result (λ e. e ≡ Error.Memory) }
{
    let mut expr = RecExpr::new(alloc);
    let mut finished = Vec::new(alloc);
    while let Some(node) = asked.pop() {
        add_own(&mut expr, &mut finished, node)?;
    }
    Ok(expr)
}

/// The tree at `root` as an expression, where `id_to_lang` answers the node of each id: laid out in postfix, the root last,
/// a node once for each time that it is named. A node's children keep their order, and name their new indexes. `id_to_lang`
/// is called once for each node that is laid out, and memory is linear in them.
///
/// Condition: `id_to_lang` may be called on each id that is reached from the root by children of its answers. `Memory` where
/// an allocation was refused, `TooLarge` where the tree has more than 2^32 nodes, which comes only where a node is reached
/// twice.
pub fn build_expr<'a, L: Language + 'a, F: Fn(Id) -> &'a L>(
    alloc: Global,
    root: Id,
    id_to_lang: F,
) -> Result<RecExpr<L>, Error>
    requires may { (id : Id)
        → NodeIsReached (CanAnswer L.head L.children (F.post id_to_lang)) root.0 id.0
        → F.pre id_to_lang id }
    ensures laid { IfOk result (λ expr. (t : Term _)
        × IsRebuiltTree (CanAnswer L.head L.children (F.post id_to_lang)) root.0 t
        × IsLaidOut L.head L.children t expr) }
    ensures told { (nodes : List _)
        → IsToldBy (CanAnswer L.head L.children (F.post id_to_lang)) root.0 nodes
        → IfOk result (λ expr. IsLaidOut L.head L.children (told_tree nodes root.0) expr) }
    ensures refused { IfErr result (λ e. (e ≡ Error.Memory)
        ⊎ ((e ≡ Error.TooLarge)
        × TreeIsTooLong (CanAnswer L.head L.children (F.post id_to_lang)) root.0)) }
    ensures once { IsReachedOnce (CanAnswer L.head L.children (F.post id_to_lang)) root.0
        → IfErr result (λ e. e ≡ Error.Memory) }
    ensures too_large { (nodes : List _)
        → IsToldBy (CanAnswer L.head L.children (F.post id_to_lang)) root.0 nodes
        → IfErr result (λ e. (e ≡ Error.Memory)
        ⊎ ((e ≡ Error.TooLarge) × (2 ^ 32 < node_count_of (told_tree nodes root.0)))) }
{
    let nodes = ask_tree(alloc, root, id_to_lang)?;
    lay_asked(alloc, nodes)
}
