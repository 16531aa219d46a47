//! The body that is written with a term in the place of one of a block's trees.

ghost use Rattle.std.specs.Prelude.{◌≡◌, ◌<◌, length, IfOk, IfErr, OnErr, IfSome, IsTrue, is_some};
ghost use Rattle.mutate_base.specs.Config.{info_of, ChangesGeneratorAlone};
ghost use Rattle.mutate_base.specs.declared.error.Error.{Error};
ghost use Rattle.peephole_lang.specs.Term.{AreBelow};
ghost use Rattle.peephole_graphs.specs.Block.{IsBlockIn};
ghost use Rattle.peephole_graphs.specs.Dfg.{graph_of};
ghost use Rattle.peephole_graphs.specs.GraphOf.{IsGraphOf};
ghost use Rattle.peephole_graphs.specs.Layout.{AreWritable, entry_nodes};
ghost use Rattle.peephole_graphs.specs.Source.{source_of};
ghost use Rattle.peephole_terms.specs.Expansion.{setting_of, term_in};
ghost use Rattle.peephole_terms.specs.EncoderSteps.{IsWalkable, around, nodes_in, root_term, root_steps, steps_of};
ghost use Rattle.peephole_terms.specs.ReadAgain.{AppendsReadable, RereadsOwnTrees};
ghost use Rattle.peephole_terms.specs.SameRun.{AppendsSameRun};
ghost use Rattle.peephole_terms.specs.Written.{site_at, AppendsBody, IsBodyIn, KeepsOrder, RefusesBody, block_shapes, term_requests, StandsBehind};

pub(crate) mod expr2wasm;
mod holds;
pub(crate) mod node_kind;
mod outside;
mod own;
pub(crate) mod request;
mod rows;
pub(crate) mod splice;
mod walk;
pub(crate) mod writer;

use self::outside::Outside;
use self::request::ResourceRequest;
use self::writer::Writer;
use mutate_base::{Error, WasmMutate};
use peephole_graphs::{BBlock, MiniDFG, Postfix, StackEntry};
use peephole_lang::{Lang, RecExpr};
use rand_core::Rng;
use std::alloc::Global;
use wasm_code::laws::code_spells;
use wasm_code::{Function, OperatorAndByteOffset};

impl<R: Rng> Writer<'_, R> {
    ghost use Rattle.std.specs.Prelude.{[], OnOk};
    ghost use Rattle.peephole_terms.specs.Writer.{IsSame, Takes};

    // Writes a root's own tree, or the term where the root is the insertion point, by a walk that stands nowhere.
    fn write_root<'n>(
        &mut self,
        walk: &mut Postfix<'n>,
        insertion_point: usize,
        expr: &'n [Lang],
        entries: &'n [StackEntry],
        root: usize,
    ) -> Result<(), Error>
        requires rests { walk.old ≡ [] }
        requires some { 0 < length expr.now }
        requires expr_below { AreBelow (nodes_in (λ l. l) expr.now) }
        requires entries_below { AreBelow (entry_nodes entries.now) }
        requires root { root < length entries.now }
        ensures taken { Takes R.stream
            (steps_of (root_term insertion_point (term_in expr.now) entries.now root))
            self.old self.new result }
        ensures same { IsSame self.old self.new }
        ensures rests { OnOk result (walk.new ≡ []) }
    {
        if entries[root].operator_idx == insertion_point {
            self.write_tree_by(walk, expr, expr.len() - 1)
        } else {
            self.write_tree_by(walk, entries, root)
        }
    }

    // Writes the roots' trees in ascending order, the term in the place of the insertion point's.
    fn write_roots(
        &mut self,
        insertion_point: usize,
        expr: &[Lang],
        entries: &[StackEntry],
        parents: &[Option<usize>],
    ) -> Result<(), Error>
        requires some { 0 < length expr.now }
        requires expr_below { AreBelow (nodes_in (λ l. l) expr.now) }
        requires walkable { IsWalkable entries.now parents.now }
        ensures taken { Takes R.stream
            (root_steps insertion_point (term_in expr.now) entries.now parents.now)
            self.old self.new result }
        ensures same { IsSame self.old self.new }
    {
        let mut walk = Postfix::new(self.alloc);
        for index in 0..parents.len() {
            if parents[index].is_none() {
                self.write_root(&mut walk, insertion_point, expr, entries, index)?;
            }
        }
        Ok(())
    }

    // Writes the bytes before the block, the roots' trees and the bytes after it.
    fn write_body(
        &mut self,
        insertion_point: usize,
        expr: &[Lang],
        dfg: &MiniDFG,
        outside: &Outside<'_>,
    ) -> Result<(), Error>
        requires some { 0 < length expr.now }
        requires expr_below { AreBelow (nodes_in (λ l. l) expr.now) }
        requires walkable { IsWalkable (graph_of dfg.now).entries (graph_of dfg.now).parents }
        ensures taken { Takes R.stream (around outside.now.before.now
            (root_steps insertion_point (term_in expr.now)
            (graph_of dfg.now).entries (graph_of dfg.now).parents) outside.now.after.now)
            self.old self.new result }
        ensures same { IsSame self.old self.new }
    {
        self.sink.raw(outside.before)?;
        self.write_roots(insertion_point, expr, dfg.entries(), dfg.parents())?;
        self.sink.raw(outside.after)?;
        Ok(())
    }
}

/// Writes bodies in which a term stands for a tree.
pub struct Encoder;

impl Encoder {
    /// Writes a body behind what the sink holds: the bytes of `input_wasm` before the block and after it as they stood,
    /// and between them the trees of the block's graph, the roots in ascending order, each tree in postfix. The term of
    /// `expr` stands for the tree of the operator at `insertion_point`; where that operator is no root, no tree is replaced,
    /// nothing is drawn and no global asked for. The term is written as by `expr2wasm`.
    ///
    /// `operators` with their offsets are those of a body in `input_wasm`, as `read_body` gives them, `basicblock` is a
    /// range of them without a delimiter, such as the block of one of them, and `dfg` its graph under the configuration's
    /// module and mode. The configuration is set up, and `expr` isn't empty, its nodes writable. Answers what the written
    /// instructions need from outside the function.
    ///
    /// What is written reads as a body again: the operators before the block, the written instructions, the operators behind
    /// the block. With a tree's own term, as `get_expr` lays it out, the block has the same trees again and is in order.
    /// Where the block is in order, whatever its instructions, and the term evaluates as the whole tree, then wherever the
    /// block's own run ends or traps the written one does the same, apart from requested globals.
    ///
    /// `NoMutationsApplicable`, before anything else, exactly where the meaning is to be preserved and the block's
    /// operators would not keep their order: what is written then is of a block in order. The configuration is then as it
    /// was, the generator too. `CannotUnfold` and `GlobalIndex` as by `expr2wasm`, where the term is written; `Memory` where
    /// an allocation was refused. After each of these the sink holds its old bytes.
    pub fn build_function<R: Rng + Drop>(
        alloc: Global,
        config: &mut WasmMutate<'_, R>,
        insertion_point: usize,
        expr: &RecExpr<Lang>,
        operators: &[OperatorAndByteOffset],
        basicblock: &BBlock,
        newfunc: &mut Function,
        dfg: &MiniDFG,
        input_wasm: &[u8],
    ) -> Result<Vec<ResourceRequest>, Error>
        requires set_up { IsTrue (is_some config.old.setup) }
        requires some { 0 < length expr.now }
        requires writable { AreWritable expr.now }
        requires body { IsBodyIn input_wasm.now operators.now }
        requires block { IsBlockIn operators.now basicblock.now }
        requires graph { IfSome (info_of config.old) (λ info.
            IsGraphOf (source_of info config.old.preserving operators.now basicblock.now)
            (graph_of dfg.now)) }
        // The bytes outside the block, and between them its forest with the term.
        ensures written { IfOk result (λ _. IfSome (setting_of R.stream config.old) (λ s.
            AppendsBody s (site_at input_wasm.now operators.now basicblock.now insertion_point)
            (term_in expr.now) newfunc.old newfunc.new)) }
        // It reads as a body again; where the term changes no tree, as the same block, in order; and it runs as before.
        ensures reads_again { IfOk result (λ _. IfSome (setting_of R.stream config.old) (λ s.
            AppendsReadable s (site_at input_wasm.now operators.now basicblock.now insertion_point)
            (term_in expr.now) newfunc.old newfunc.new)) }
        ensures reread { IfOk result (λ _. IfSome (info_of config.old) (λ m.
            RereadsOwnTrees m (site_at input_wasm.now operators.now basicblock.now insertion_point)
            (graph_of dfg.now) (term_in expr.now) newfunc.old newfunc.new)) }
        ensures same_run { IfOk result (λ _. IfSome (setting_of R.stream config.old) (λ s.
            AppendsSameRun s (site_at input_wasm.now operators.now basicblock.now insertion_point)
            (graph_of dfg.now) (term_in expr.now) newfunc.old newfunc.new)) }
        // What the term asks for, and where the generator then stands; nothing, where it isn't written.
        ensures requests { IfOk result (λ requests. IfSome (info_of config.old) (λ m. requests.items
            ≡ term_requests m (site_at input_wasm.now operators.now basicblock.now insertion_point)
            (term_in expr.now))) }
        ensures generator { IfOk result (λ _. IfSome (setting_of R.stream config.old) (λ s.
            StandsBehind s (site_at input_wasm.now operators.now basicblock.now insertion_point)
            (term_in expr.now) (setting_of R.stream config.new))) }
        // While preserving, a block out of order is refused; otherwise the term's expansion refuses, or memory does.
        ensures order { IfSome (info_of config.old) (λ m.
            KeepsOrder config.old.preserving (block_shapes m
            (site_at input_wasm.now operators.now basicblock.now insertion_point)) result) }
        ensures refusal { IfErr result (λ e. IfSome (setting_of R.stream config.old) (λ s.
            RefusesBody s (site_at input_wasm.now operators.now basicblock.now insertion_point)
            (term_in expr.now) e)) }
        // After a refusal the sink holds its old bytes; after one for the order nothing has been drawn. Of the configuration
        // the generator alone changes.
        ensures restored { OnErr result (newfunc.new ≡ newfunc.old) }
        ensures undrawn { IfErr result (λ e. e ≡ Error.NoMutationsApplicable
            → config.new ≡ config.old) }
        ensures unchanged { ChangesGeneratorAlone config.old config.new }
    {
        if config.preserves_semantics() && !dfg.keeps_order() {
            return Err(Error::NoMutationsApplicable);
        }
        code_spells();
        let outside = Outside::of(input_wasm, operators, basicblock.range());
        let old_len = newfunc.len();
        let mut requests = Vec::new(alloc);
        let globals = config.info().get_global_count();
        let rng = config.rng();
        let mut writer = Writer {
            alloc,
            globals,
            rng: &mut *rng,
            sink: newfunc,
            requests: &mut requests,
        };
        match writer.write_body(insertion_point, expr.as_ref(), dfg, &outside) {
            Ok(()) => Ok(requests),
            Err(refusal) => {
                newfunc.truncate(old_len);
                Err(refusal)
            }
        }
    }
}
