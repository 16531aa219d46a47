//! The graph of a block.

ghost use Rattle.std.specs.Prelude.{◌≡◌, ◌<◌, ◌+◌, ◌-◌, ◌↔◌, ◌&&◌, ℕ, IsTrue, length, take};
ghost use Rattle.std.proofs.Props.{props};
ghost use Rattle.std.proofs.lemmas.Map.Keys.{IsDistinct-prop};
ghost use Rattle.peephole_graphs.specs.Downwards.{downwards, HasOneColor};
ghost use Rattle.peephole_graphs.specs.Entries.{kins_of, IsForest};
ghost use Rattle.peephole_graphs.specs.Measures.{SubtreesAreMeasured, forwards};
ghost use Rattle.peephole_graphs.specs.Order.{TreesAreInOrder};
ghost use Rattle.peephole_graphs.specs.Layout.{HasTrees, Lang-set};
ghost use Rattle.peephole_graphs.specs.OwnEntries.{own_entry_in};

use crate::forest_text::{operator_text, print_forest};
use crate::layout::lay_out;
use crate::own_entries::OwnEntries;
use crate::span::{copy_span, is_span, lie_one_behind_another};
use crate::subtree::Subtree;
use mutate_base::Error;
use peephole_lang::{Lang, RecExpr};
use std::alloc::{AllocError, Global};
use std::fmt;

/// An entry of a graph: an operator of the block, or a missing operand.
#[derive(Debug, Drop)]
pub struct StackEntry {
    /// The node, whose children are the indexes of entries; `Undef` of a missing operand.
    pub operator: Lang,
    /// The colour; 4294967295 of a missing operand.
    pub color: u32,
    /// The index, in the body, of the operator that it is or that took it.
    pub operator_idx: usize,
}

/// The graph of a block: its entries, each with the indexes of its operands' entries as children. What it says of the block is said at `DFGBuilder::get_dfg`.
#[derive(Drop)]
pub struct MiniDFG {
    map: OwnEntries,
    entries: Vec<StackEntry>,
    parents: Vec<Option<usize>>,
    // Of the entries from each one downwards.
    subtrees: Vec<Subtree>,
    ghost measured: { SubtreesAreMeasured entries.items subtrees.items } by { Prim.hlevel props },
    ghost trees: { HasTrees entries.items (own_entry_in map) } by { Prim.hlevel (props, Lang-set) },
    ghost forest: { IsForest entries.items parents.items } by { Prim.hlevel (props, IsDistinct-prop) },
    // Whether the trees lie one after another is seen from the entries' sizes alone.
    ghost lies: { IsTrue (forwards (kins_of entries.items)) ↔ TreesAreInOrder entries.items parents.items } by { Prim.hlevel props },
}

impl Clone for StackEntry {
    ghost use Rattle.peephole_graphs.specs.Dfg.{IsSameEntry};

    ghost is_clone = { IsSameEntry };

    fn clone(&self) -> Result<StackEntry, AllocError> {
        Ok(StackEntry {
            operator: self.operator.clone()?,
            color: self.color,
            operator_idx: self.operator_idx,
        })
    }
}

impl Clone for MiniDFG {
    ghost use Rattle.peephole_graphs.specs.Dfg.{IsSameGraph};

    ghost is_clone = { IsSameGraph };

    fn clone(&self) -> Result<MiniDFG, AllocError> {
        let map = self.map.clone()?;
        let entries = self.entries.clone()?;
        let parents = Vec::from_slice(*self.parents.allocator(), &self.parents)?;
        let subtrees = Vec::from_slice(*self.subtrees.allocator(), &self.subtrees)?;
        Ok(MiniDFG::of_parts(map, entries, parents, subtrees))
    }
}

impl MiniDFG {
    ghost use Rattle.std.specs.Prelude.{All, map, [], None, List, Result, IfOk, IfErr, IfSome, IsSome, MatchResult, string_bytes};
    ghost use Rattle.mutate_base.specs.declared.error.Error.{Error};
    ghost use Rattle.peephole_lang.specs.Node.{node_of, head_of, children_of};
    ghost use Rattle.peephole_lang.specs.Term.{tree_at, term_of};
    ghost use Rattle.peephole_graphs.specs.Layout.{entry_nodes, layout_from, AreWritable};
    ghost use Rattle.peephole_graphs.specs.Dfg.{graph_of};
    ghost use Rattle.peephole_graphs.specs.ForestText.{forest_text, default_text, IsText, CanTell, Tells, IsForestText};

    // The graph of these parts.
    pub(crate) fn of_parts(
        map: OwnEntries,
        entries: Vec<StackEntry>,
        parents: Vec<Option<usize>>,
        subtrees: Vec<Subtree>,
    ) -> MiniDFG
        requires measured { SubtreesAreMeasured entries.items subtrees.items }
        requires trees { HasTrees entries.items (own_entry_in map) }
        requires forest { IsForest entries.items parents.items }
        requires lies { IsTrue (forwards (kins_of entries.items))
            ↔ TreesAreInOrder entries.items parents.items }
        ensures map { (k : ℕ) → (graph_of result).own_entry k ≡ own_entry_in map k }
        ensures entries { (graph_of result).entries ≡ entries.items }
        ensures parents { (graph_of result).parents ≡ parents.items }
    {
        MiniDFG {
            map,
            entries,
            parents,
            subtrees,
        }
    }

    /// A graph without entries.
    pub fn empty(alloc: Global) -> MiniDFG
        ensures map { (k : ℕ) → (graph_of result).own_entry k ≡ None }
        ensures entries { (graph_of result).entries ≡ [] }
        ensures parents { (graph_of result).parents ≡ [] }
    {
        MiniDFG::of_parts(
            OwnEntries::new(alloc),
            Vec::new(alloc),
            Vec::new(alloc),
            Vec::new(alloc),
        )
    }

    /// The index of the own entry of each of the block's operators, by the operator's index in the body.
    pub fn map(&self) -> &OwnEntries
        ensures { (k : ℕ) → own_entry_in result.now k ≡ (graph_of self.now).own_entry k }
    {
        &self.map
    }

    /// The entries. Children stand before their parents, and operators in the block's order.
    pub fn entries(&self) -> &[StackEntry]
        ensures { result.now ≡ (graph_of self.now).entries }
    {
        self.entries.as_slice()
    }

    /// The index of each entry's parent, none of a root. Entries and parents make a forest: an entry is the child of its
    /// parent and of no other entry, stands among its parent's children once, and stands before it.
    pub fn parents(&self) -> &[Option<usize>]
        ensures value { result.now ≡ (graph_of self.now).parents }
        ensures forest { IsForest (graph_of self.now).entries (graph_of self.now).parents }
    {
        self.parents.as_slice()
    }

    /// The tree of the operator with the index `at` in the body, laid out in postfix: its operands' trees one after another, then its own node, the last one. Each node names its children by their indexes, and can be written; a missing operand is `Undef`. Refused for want of memory alone (`Memory`). Condition: `at` is a key of `map()`.
    pub fn get_expr(&self, alloc: Global, at: usize) -> Result<RecExpr<Lang>, Error>
        requires { IsSome ((graph_of self.now).own_entry at) }
        ensures laid { let g = graph_of self.now in
            IfOk result (λ expr. IfSome (g.own_entry at) (λ i.
            map node_of expr ≡ layout_from 0 (tree_at (entry_nodes g.entries) i))) }
        ensures term { let g = graph_of self.now in
            IfOk result (λ expr. IfSome (g.own_entry at) (λ i.
            term_of head_of children_of expr ≡ tree_at (entry_nodes g.entries) i)) }
        ensures some { IfOk result (λ expr. 0 < length expr) }
        ensures writable { IfOk result (λ expr. AreWritable expr) }
        ensures refused { IfErr result (λ e. e ≡ Error.Memory) }
    {
        match self.map.get(at) {
            Some(root) => self.lay_out_at(alloc, root),
            None => unreachable!(),
        }
    }

    // The tree of the entry at an index, laid out: copied where its entries stand so already.
    fn lay_out_at(&self, alloc: Global, root: usize) -> Result<RecExpr<Lang>, Error>
        requires { root < length (graph_of self.now).entries }
        ensures laid { IfOk result (λ expr.
            map node_of expr
            ≡ layout_from 0 (tree_at (entry_nodes (graph_of self.now).entries) root)) }
        ensures refused { IfErr result (λ e. e ≡ Error.Memory) }
    {
        let end = root + 1;
        let start = end.saturating_sub(self.subtrees[root].len);
        if is_span(&self.entries, &self.subtrees, start, end) {
            copy_span(alloc, &self.entries[start..end], start)
        } else {
            lay_out(alloc, &self.entries, root)
        }
    }

    /// How many entries there are from the one at index `i` downwards, with itself. Condition: the entry is there.
    pub fn subtree_len(&self, i: usize) -> usize
        requires { i < length (graph_of self.now).entries }
        ensures { result ≡ length (downwards (kins_of (graph_of self.now).entries) i) }
    {
        self.subtrees[i].len
    }

    /// Whether all entries from the one at index `i` downwards have one colour. Condition: the entry is there.
    pub fn is_subtree_consistent(&self, i: usize) -> bool
        requires { i < length (graph_of self.now).entries }
        ensures { IsTrue result ↔ HasOneColor (kins_of (graph_of self.now).entries) i }
    {
        self.subtrees[i].one_color
    }

    /// Whether all entries from the last one downwards, which is that of the block's last operator, have one colour. Condition: there is
    /// an entry.
    pub fn is_subtree_consistent_from_root(&self) -> bool
        requires { 0 < length (graph_of self.now).entries }
        ensures { let entries = (graph_of self.now).entries in
            IsTrue result ↔ HasOneColor (kins_of entries) (length entries - 1) }
    {
        self.is_subtree_consistent(self.entries.len() - 1)
    }

    // Whether the children of the entry at an index lie one behind another, and end right before it.
    fn lies_forward_at(&self, i: usize) -> bool
        requires { i < length (graph_of self.now).entries }
        ensures { let entries = (graph_of self.now).entries in
            forwards (kins_of (take (i + 1) entries))
            ≡ (forwards (kins_of (take i entries)) && result) }
    {
        let from = (i + 1).saturating_sub(self.subtrees[i].len);
        let ids = self.entries[i].operator.children();
        lie_one_behind_another(&self.entries[..i], &self.subtrees[..i], ids, from, true)
    }

    // So it is of every entry.
    fn lies_forward(&self) -> bool
        ensures { result ≡ forwards (kins_of (graph_of self.now).entries) }
    {
        for i in 0..self.entries.len() {
            if !self.lies_forward_at(i) {
                return false;
            }
        }
        true
    }

    /// Whether the trees lie one after another: whether the operators of the roots' trees, the roots ascending and each tree
    /// in postfix, ascend. True of no entries.
    pub fn keeps_order(&self) -> bool
        ensures { IsTrue result
            ↔ TreesAreInOrder (graph_of self.now).entries (graph_of self.now).parents }
    {
        self.lies_forward()
    }

    /// The text of the forest: the line `DFG forest`, and then the roots in ascending order, each with its tree. An entry's
    /// line is a prefix that draws the tree, `(colour)(at operator_idx) `, and a text that `f` answers of it.
    ///
    /// Refused where `f` refuses, with that refusal, the first in the order of the lines, and for want of memory (`Memory`);
    /// for nothing else, also where `f` answers now this and now that of one entry. Condition: `f` may be called on each of
    /// the entries.
    pub fn pretty_print<F: Fn(&StackEntry) -> Result<String, Error>>(
        &self,
        alloc: Global,
        f: F,
    ) -> Result<String, Error>
        requires { All (CanTell F.Fn f) (graph_of self.now).entries }
        // Whatever `f` answers; and where it answers by a function of the entry.
        ensures answered { let g = graph_of self.now in
            IsForestText F.Fn f g.entries g.parents result }
        ensures told { (said : StackEntry → Result (List ℕ) Error) → let g = graph_of self.now in
            All (Tells F.Fn f said) g.entries
            → IsText (forest_text said g.entries g.parents) result }
    {
        print_forest(alloc, &self.entries, &self.parents, &f)
    }

    /// The same with the texts of the entries' operators. Refused for want of memory alone (`Memory`).
    pub fn pretty_print_default(&self, alloc: Global) -> Result<String, Error>
        ensures { let g = graph_of self.now in MatchResult result
            (λ text. string_bytes text ≡ default_text g.entries g.parents)
            (λ e. e ≡ Error.Memory) }
    {
        self.pretty_print(alloc, |entry| operator_text(alloc, entry))
    }
}

impl fmt::Display for MiniDFG {
    ghost use Rattle.std.specs.Prelude.{Some};
    ghost use Rattle.peephole_graphs.specs.Dfg.{graph_of};
    ghost use Rattle.peephole_graphs.specs.ForestText.{default_text};

    ghost output = { λ g. Some (default_text (graph_of g).entries (graph_of g).parents) };

    fn fmt<W: fmt::Write>(&self, f: &mut fmt::Formatter<W>) -> fmt::Result {
        match self.pretty_print_default(*self.entries.allocator()) {
            Ok(text) => f.write_str(text.as_str()),
            Err(_) => Err(fmt::Error),
        }
    }
}

impl fmt::Debug for MiniDFG {
    ghost use Rattle.std.specs.Prelude.{Some};
    ghost use Rattle.peephole_graphs.specs.Dfg.{graph_of};
    ghost use Rattle.peephole_graphs.specs.ForestText.{default_text};

    ghost debug_output = { λ g. Some (default_text (graph_of g).entries (graph_of g).parents) };

    fn fmt<W: fmt::Write>(&self, f: &mut fmt::Formatter<W>) -> fmt::Result {
        fmt::Display::fmt(self, f)
    }
}
