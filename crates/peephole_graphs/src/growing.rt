//! A graph as it grows by one operator after another.

ghost use Rattle.std.specs.Prelude.{◌≡◌, ◌+◌, ◌-◌, ◌^◌, ◌<◌, ◌≤◌, ◌++◌, ◌∷◌, [], ◌⊎◌, if◌then◌else◌};
ghost use Rattle.std.specs.Prelude.{true, slice_index, ◌==◌, length, drop, replicate, IfOk, OnOk, IfErr};
ghost use Rattle.std.specs.List.{All, sum_by};
ghost use Rattle.peephole_lang.specs.Node.{instr_of, children_of, takes_children};
ghost use Rattle.peephole_lang.specs.Term.{numbers_of};
ghost use Rattle.peephole_graphs.specs.Measures.{colors, size_kept, flag_kept, are_alike};
ghost use Rattle.peephole_graphs.specs.Growing.{undef_entry, set_each, lacks, own_index, taken_of, taken_total};
ghost use Rattle.peephole_graphs.specs.Growing.{missing_subtree, own_subtree, IsConsistent, Added};
ghost use Rattle.peephole_graphs.specs.Step.{down};

use crate::dfg::StackEntry;
use crate::own_entries::OwnEntries;
use crate::shape::Shape;
use crate::subtree::Subtree;
use mutate_base::Error;
use peephole_lang::{Id, Lang};
use std::alloc::{AllocError, Global};
use wasm_code::Instr;

/// A graph with the entries whose results no operator has taken yet, and the colour of the next operator.
#[derive(Drop)]
pub struct Growing {
    pub map: OwnEntries,
    pub entries: Vec<StackEntry>,
    pub parents: Vec<Option<usize>>,
    pub subtrees: Vec<Subtree>,
    pub stack: Vec<u32>,
    pub color: u64,
    /// The children of the node that was made last: kept for their room alone.
    pub children: Vec<Id>,
}

/// The graph of no operators yet, the first of which will have the index `first` in the body, with room for `count` of them.
pub fn start_graph(alloc: Global, first: usize, count: usize) -> Result<Growing, AllocError>
    ensures first { IfOk result (λ g. g.map.first ≡ first) }
    ensures map { IfOk result (λ g. g.map.entries.items ≡ []) }
    ensures entries { IfOk result (λ g. g.entries.items ≡ []) }
    ensures parents { IfOk result (λ g. g.parents.items ≡ []) }
    ensures subtrees { IfOk result (λ g. g.subtrees.items ≡ []) }
    ensures stack { IfOk result (λ g. g.stack.items ≡ []) }
    ensures color { IfOk result (λ g. g.color ≡ 0) }
{
    Ok(Growing {
        map: OwnEntries::with_capacity(alloc, first, count)?,
        entries: Vec::with_capacity(alloc, count)?,
        parents: Vec::with_capacity(alloc, count)?,
        subtrees: Vec::with_capacity(alloc, count)?,
        stack: Vec::new(alloc),
        color: 0,
        children: Vec::new(alloc),
    })
}

// Writes the parent of each of the entries.
fn mark(parents: &mut [Option<usize>], ids: &[u32], parent: usize)
    requires { All (λ i. i < length parents.old) ids.now }
    ensures { parents.new ≡ set_each parent ids.now parents.old }
{
    for i in ids {
        parents[*i as usize] = Some(parent);
    }
}

// Puts the missing operands' indexes behind the others, the first one made last.
fn push_missing(ids: &mut Vec<Id>, base: u32, missing: u32) -> Result<(), AllocError>
    requires { base + missing < 2 ^ 32 }
    ensures { OnOk result (numbers_of ids.new.items
        ≡ numbers_of ids.old.items ++ down base missing) }
{
    let mut left = missing;
    while left > 0 {
        left -= 1;
        ids.push(Id(base + left))?;
    }
    Ok(())
}

fn push_ids(ids: &mut Vec<Id>, taken: &[u32]) -> Result<(), AllocError>
    ensures { OnOk result (numbers_of ids.new.items ≡ numbers_of ids.old.items ++ taken.now) }
{
    for i in taken {
        ids.push(Id(*i))?;
    }
    Ok(())
}

// The node of an instruction on its missing operands and then those taken, which `ids` holds then.
fn own_node(
    alloc: Global,
    ids: &mut Vec<Id>,
    instr: Instr,
    base: u32,
    missing: u32,
    taken: &[u32],
) -> Result<Lang, Error>
    requires room { base + missing < 2 ^ 32 }
    requires fits { takes_children instr.row (missing + length taken.now) ≡ true }
    ensures node { IfOk result (λ l.
        (instr_of l ≡ Some instr) × (children_of l ≡ down base missing ++ taken.now)) }
    ensures refused { IfErr result (λ e. e ≡ Error.Memory) }
{
    ids.clear();
    push_missing(ids, base, missing)?;
    push_ids(ids, taken)?;
    match Lang::of_instr_in(alloc, &instr, ids)? {
        Some(node) => Ok(node),
        None => unreachable!(),
    }
}

// The last `count` indexes, or all.
fn last_operands(stack: &[u32], count: usize) -> &[u32]
    ensures { result.now ≡ drop (length stack.now - count) stack.now }
{
    &stack[stack.len().saturating_sub(count)..]
}

// The entries of the missing operands.
fn add_missing(
    growing: &mut Growing,
    missing: u32,
    parent: usize,
    operator_idx: usize,
) -> Result<(), AllocError>
    ensures entries { OnOk result (growing.new.entries.items
        ≡ growing.old.entries.items ++ replicate missing (undef_entry operator_idx)) }
    ensures parents { OnOk result (growing.new.parents.items
        ≡ growing.old.parents.items ++ replicate missing (Some parent)) }
    ensures subtrees { OnOk result (growing.new.subtrees.items
        ≡ growing.old.subtrees.items ++ replicate missing missing_subtree) }
    ensures others { OnOk result ((growing.new.map ≡ growing.old.map)
        × (growing.new.stack ≡ growing.old.stack) × (growing.new.color ≡ growing.old.color)) }
{
    for made in 0..missing {
        growing.entries.push(StackEntry {
            operator: Lang::Undef,
            color: u32::MAX,
            operator_idx,
        })?;
        growing.parents.push(Some(parent))?;
        growing.subtrees.push(Subtree {
            len: 1,
            one_color: true,
        })?;
    }
    Ok(())
}

// The index of the own entry, and how many operands are missing.
fn find_place(growing: &Growing, operands: usize) -> Result<(u32, u32), Error>
    ensures place { IfOk result (λ p. (p.0 ≡ own_index operands growing.now)
        × (p.1 ≡ lacks operands growing.now) × (growing.now.color < 4294967295)) }
    ensures refused { IfErr result (λ e. (e ≡ Error.TooLarge)
        × ((2 ^ 32 ≤ own_index operands growing.now) ⊎ (4294967295 ≤ growing.now.color))) }
{
    const LIMIT: usize = 4294967295;
    let base = growing.entries.len();
    let missing = operands.saturating_sub(growing.stack.len());
    if base > LIMIT || missing > LIMIT - base || growing.color >= 4294967295 {
        return Err(Error::TooLarge);
    }
    Ok(((base + missing) as u32, missing as u32))
}

// How many entries there are from the taken ones downwards.
fn taken_size(subtrees: &[Subtree], taken: &[u32]) -> usize
    requires below { All (λ i. i < length subtrees.now) taken.now }
    requires room { sum_by (size_kept subtrees.now) taken.now < 2 ^ 64 }
    ensures { result ≡ sum_by (size_kept subtrees.now) taken.now }
{
    let mut size = 0;
    for i in taken {
        size += subtrees[*i as usize].len;
    }
    size
}

// Whether all entries from the taken ones downwards have the colour.
fn taken_alike(subtrees: &[Subtree], entries: &[StackEntry], taken: &[u32], color: u32) -> bool
    requires below_subtrees { All (λ i. i < length subtrees.now) taken.now }
    requires below_entries { All (λ i. i < length entries.now) taken.now }
    ensures { result ≡ are_alike (flag_kept subtrees.now) (slice_index (colors entries.now)) color
        taken.now }
{
    for i in taken {
        if !subtrees[*i as usize].one_color || entries[*i as usize].color != color {
            return false;
        }
    }
    true
}

// What is kept of an operator's entry: how many entries there are from it downwards, and whether all have its colour.
fn measure(growing: &Growing, operands: usize, missing: u32, color: u32) -> Subtree
    requires below { All (λ i. i < length growing.now.entries.items)
        (taken_of operands growing.now) }
    requires subtrees { length growing.now.subtrees.items ≡ length growing.now.entries.items }
    requires room { taken_total operands growing.now < 2 ^ 33 }
    ensures { result ≡ own_subtree operands missing color growing.now }
{
    let taken = last_operands(&growing.stack, operands);
    let size = taken_size(&growing.subtrees, taken);
    let alike = taken_alike(&growing.subtrees, &growing.entries, taken, color);
    Subtree {
        len: 1 + missing as usize + size,
        one_color: missing == 0 && alike,
    }
}

// An operator's own entry.
fn add_own(
    growing: &mut Growing,
    entry: StackEntry,
    own: u32,
    subtree: Subtree,
) -> Result<(), AllocError>
    ensures entries { OnOk result (growing.new.entries.items
        ≡ growing.old.entries.items ++ entry ∷ []) }
    ensures parents { OnOk result (growing.new.parents.items
        ≡ growing.old.parents.items ++ None ∷ []) }
    ensures subtrees { OnOk result (growing.new.subtrees.items
        ≡ growing.old.subtrees.items ++ subtree ∷ []) }
    ensures named { OnOk result (growing.new.map.entries.items
        ≡ growing.old.map.entries.items ++ own ∷ []) }
    ensures others { OnOk result ((growing.new.map.first ≡ growing.old.map.first)
        × (growing.new.stack ≡ growing.old.stack)
        × (growing.new.color ≡ growing.old.color)) }
{
    growing.entries.push(entry)?;
    growing.parents.push(None)?;
    growing.subtrees.push(subtree)?;
    growing.map.push(own)?;
    Ok(())
}

// The colour behind an operator.
fn next_color(preserving: bool, color: u64, change: u8) -> u64
    requires { color < 2 ^ 32 }
    ensures { result ≡ (if preserving then color + change else color) }
{
    if preserving {
        color + u64::from(change)
    } else {
        color
    }
}

/// Takes an operator's operands and puts its entry behind the others. Conditions: the instruction takes so many operands, and
/// the lists are those of a graph.
pub fn add_operator(
    alloc: Global,
    growing: &mut Growing,
    shape: Shape,
    operator_idx: usize,
    preserving: bool,
) -> Result<(), Error>
    requires fits { takes_children shape.instr.row shape.operands ≡ true }
    requires consistent { IsConsistent growing.old }
    ensures added { OnOk result (Added shape operator_idx growing.old growing.new) }
    ensures small { OnOk result ((own_index shape.operands growing.old < 2 ^ 32)
        × (growing.old.color < 4294967295)) }
    ensures color { OnOk result (growing.new.color
        ≡ (if preserving then growing.old.color + shape.change else growing.old.color)) }
    ensures refused { IfErr result (λ e. (e ≡ Error.Memory) ⊎ ((e ≡ Error.TooLarge)
        × ((2 ^ 32 ≤ own_index shape.operands growing.old) ⊎ (4294967295 ≤ growing.old.color)))) }
{
    let Shape {
        instr,
        operands,
        has_result,
        change,
    } = shape;
    let (own, missing) = find_place(growing, operands)?;
    let color = growing.color;
    let base = own - missing;
    let subtree = measure(growing, operands, missing, color as u32);
    let taken = last_operands(&growing.stack, operands);
    let operator = own_node(alloc, &mut growing.children, instr, base, missing, taken)?;
    mark(&mut growing.parents, taken, own as usize);
    let left = growing.stack.len().saturating_sub(operands);
    growing.stack.truncate(left);
    add_missing(growing, missing, own as usize, operator_idx)?;
    let entry = StackEntry {
        operator,
        color: color as u32,
        operator_idx,
    };
    add_own(growing, entry, own, subtree)?;
    if has_result {
        growing.stack.push(own)?;
    }
    growing.color = next_color(preserving, color, change);
    Ok(())
}
