// The tree of an entry as a copy of the entries that it consists of, where these stand one behind another in postfix.
ghost use Rattle.std.specs.Prelude.{◌≡◌, ◌+◌, ◌-◌, ◌<◌, ◌≤◌, ◌^◌, IsTrue, ◌↔◌, if◌then◌else◌, length, map, slice_index, IfOk, IfErr};
ghost use Rattle.std.specs.List.{All};
ghost use Rattle.mutate_base.specs.declared.error.Error.{Error};
ghost use Rattle.peephole_lang.specs.Node.{node_of};
ghost use Rattle.peephole_lang.specs.Term.{numbers_of};
ghost use Rattle.peephole_graphs.specs.Measures.{colors, sizes_kept, size_kept, forward};
ghost use Rattle.peephole_graphs.specs.Span.{lie_behind, node_from, IsSpan, HoldsItsChildren};

use crate::dfg::StackEntry;
use crate::subtree::Subtree;
use mutate_base::Error;
use peephole_lang::{Id, Lang, Language, RecExpr};
use std::alloc::Global;

// The colour of an entry, or 0 past the end.
fn color_at(entries: &[StackEntry], i: usize) -> u32
    ensures { result ≡ slice_index (colors entries.now) i }
{
    if i < entries.len() {
        entries[i].color
    } else {
        0
    }
}

// How many entries there are from the one at an index downwards, or 0 past the end.
fn size_at(subtrees: &[Subtree], i: usize) -> usize
    ensures { result ≡ size_kept subtrees.now i }
{
    if i < subtrees.len() {
        subtrees[i].len
    } else {
        0
    }
}

/// Whether the entries from each child downwards, by their number, end at the child and begin behind those of the child
/// before it, the first at `from`. With `skips` missing operands are passed over.
pub(crate) fn lie_one_behind_another(
    entries: &[StackEntry],
    subtrees: &[Subtree],
    children: &[Id],
    from: usize,
    skips: bool,
) -> bool
    ensures { result ≡ (if skips
        then forward (size_kept subtrees.now) (slice_index (colors entries.now)) from
        (numbers_of children.now)
        else lie_behind (size_kept subtrees.now) from (numbers_of children.now)) }
{
    let mut at = from;
    for child in children {
        let i = child.0 as usize;
        if !skips || color_at(entries, i) != u32::MAX {
            let size = size_at(subtrees, i);
            if size > i + 1 || i + 1 - size != at {
                return false;
            }
            at = i + 1;
        }
    }
    true
}

/// Whether the entries from `start` to before `end` are trees in postfix: whether the entries from each of them downwards
/// are those right before it, and none of them stands before `start`. `subtrees` tell how many they are.
pub(crate) fn is_span(
    entries: &[StackEntry],
    subtrees: &[Subtree],
    start: usize,
    end: usize,
) -> bool
    requires within { end ≤ length entries.now }
    requires subtrees { length subtrees.now ≡ length entries.now }
    ensures { IsTrue result ↔ IsSpan entries.now (sizes_kept subtrees.now) start end }
{
    for i in start..end {
        let size = subtrees[i].len;
        if size > i + 1 - start {
            return false;
        }
        if !lie_one_behind_another(
            entries,
            subtrees,
            entries[i].operator.children(),
            i + 1 - size,
            false,
        ) {
            return false;
        }
    }
    true
}

// Makes each id smaller.
fn lower(ids: &mut [Id], by: usize)
    requires { All (λ i. by ≤ i) (numbers_of ids.old) }
    ensures { numbers_of ids.new ≡ map (λ i. i - by) (numbers_of ids.old) }
{
    for id in ids.iter_mut() {
        id.0 = (id.0 as usize - by) as u32;
    }
}

// The same node, its children's ids made smaller; those of a block's first tree stay.
fn copy_node<L: Language>(node: &L, by: usize) -> Result<L, Error>
    requires { All (λ i. by ≤ i) (L.children node.now) }
    ensures head { IfOk result (λ l. L.head l ≡ L.head node.now) }
    ensures children { IfOk result (λ l. L.children l ≡ map (λ i. i - by) (L.children node.now)) }
    ensures refused { IfErr result (λ e. e ≡ Error.Memory) }
{
    let mut copy = node.clone_node()?;
    if by > 0 {
        lower(copy.children_mut(), by);
    }
    Ok(copy)
}

/// The nodes of the entries, each with its children counted from the first entry on, whose index in the graph is `start`.
pub(crate) fn copy_span(
    alloc: Global,
    entries: &[StackEntry],
    start: usize,
) -> Result<RecExpr<Lang>, Error>
    requires inside { HoldsItsChildren start entries.now }
    requires small { length entries.now ≤ 2 ^ 32 }
    ensures nodes { IfOk result (λ expr. map node_of expr
        ≡ map (λ (e : StackEntry). node_from start (node_of e.operator)) entries.now) }
    ensures refused { IfErr result (λ e. e ≡ Error.Memory) }
{
    let mut expr = RecExpr::new(alloc);
    for entry in entries {
        expr.add(copy_node(&entry.operator, start)?)?;
    }
    Ok(expr)
}
