//! The body with the term in it.

ghost use Rattle.std.specs.Prelude.{◌≡◌, ◌<◌, map, length, is_some, IsTrue, IfOk, IfErr};
ghost use Rattle.mutate_base.specs.Config.{ChangesGeneratorAlone};
ghost use Rattle.mutate_base.specs.declared.error.Error.TheVariants.{Memory};
ghost use Rattle.peephole_lang.specs.Node.{node_of};
ghost use Rattle.peephole_terms.specs.Expansion.{term_in};
ghost use Rattle.peephole_commands.specs.Graphs.{setting_in, site_of, IsPlaceInBlock, IsGraphAt, AnswersAs};
ghost use Rattle.peephole_graphs.specs.Block.{IsBlockIn};
ghost use Rattle.peephole_graphs.specs.Layout.{AreWritable};
ghost use Rattle.peephole_commands.specs.Writing.{output, term_output, written_output};

use crate::graphs::Refusal;
use crate::place::Place;
use given_words::LentWords;
use mutate_base::{Error, WasmMutate};
use peephole_lang::{Lang, RecExpr};
use peephole_terms::laws::{faults_are_found, order_is_decided, own_trees_are_kept};
use peephole_terms::{Encoder, MiniDFG, ResourceRequest};
use std::alloc::Global;
use wasm_code::Function;

/// A body that is written, and the globals that it asks for.
#[derive(Drop)]
pub struct Written {
    pub body: Function,
    pub requests: Vec<ResourceRequest>,
}

// An expression for a point at which no operator of the block stands: it is written nowhere.
#[tactic(auto, unfolding(peephole_lang::specs::Lang::ids_of, peephole_lang::specs::Lang::payload_of))]
fn unwritten(alloc: Global) -> Result<RecExpr<Lang>, Error>
    ensures some { IfOk result (λ expr. 0 < length expr) }
    ensures writable { IfOk result AreWritable }
    ensures refused { IfErr result (λ e. e ≡ Memory) }
{
    let mut expr = RecExpr::new(alloc);
    expr.add(Lang::Undef)?;
    Ok(expr)
}

// The body with the term of an expression in place of the tree of the operator at the point, if the block has one there.
fn write_term(
    alloc: Global,
    config: &mut WasmMutate<'_, LentWords<'_>>,
    place: &Place,
    expr: &RecExpr<Lang>,
    graph: &MiniDFG,
) -> Result<Written, Refusal>
    requires set_up { IsTrue (is_some config.old.setup) }
    requires block { IsBlockIn place.now.body.now.operators place.now.block.now }
    requires some { 0 < length expr.now }
    requires writable { AreWritable expr.now }
    requires graph { IsGraphAt config.old place.now graph.now }
    ensures answer { AnswersAs (λ w. output w.body w.requests.items)
        (term_output (setting_in config.old) config.old.preserving
        (site_of place.now) (term_in expr.now)) result }
    ensures unchanged { ChangesGeneratorAlone config.old config.new }
{
    order_is_decided();
    let mut body = Function::new(alloc);
    match Encoder::build_function(
        alloc,
        config,
        place.point,
        expr,
        place.body.operators(),
        place.block,
        &mut body,
        graph,
        place.body.bytes(),
    ) {
        Ok(requests) => Ok(Written { body, requests }),
        Err(error) => Err(Refusal::Refused(error)),
    }
}

/// The body with the nodes' term in place of the tree of the operator at the point; without nodes with its own trees.
/// Conditions: the configuration is set up, the nodes are writable, and the graph is that of the place's block.
pub fn write_nodes(
    alloc: Global,
    config: &mut WasmMutate<'_, LentWords<'_>>,
    place: &Place,
    nodes: &RecExpr<Lang>,
    graph: &MiniDFG,
) -> Result<Written, Refusal>
    requires set_up { IsTrue (is_some config.old.setup) }
    requires place { IsPlaceInBlock place.now }
    requires writable { AreWritable nodes.now }
    requires graph { IsGraphAt config.old place.now graph.now }
    ensures answer { AnswersAs (λ w. output w.body w.requests.items)
        (written_output (setting_in config.old) config.old.preserving
        (site_of place.now) (map node_of nodes.now)) result }
    ensures unchanged { ChangesGeneratorAlone config.old config.new }
{
    faults_are_found();
    own_trees_are_kept();
    if nodes.len() > 0 {
        return write_term(alloc, config, place, nodes, graph);
    }
    let behind = Place {
        body: place.body,
        point: place.block.range().end,
        block: place.block,
    };
    let expr = unwritten(alloc)?;
    write_term(alloc, config, &behind, &expr, graph)
}
