//! The type of the result of the operator at the point.

ghost use Rattle.std.specs.Prelude.{◌≡◌, ◌⊎◌, IsSome, Ok, Err, IfSome, MatchResult};
ghost use Rattle.mutate_base.specs.declared.error.Error.TheVariants.{Memory};
ghost use Rattle.peephole_lang.specs.Term.{tree_at};
ghost use Rattle.peephole_analysis.specs.TermTypes.{term_type};
ghost use Rattle.peephole_graphs.specs.Dfg.{graph_of};
ghost use Rattle.peephole_graphs.specs.Layout.{entry_nodes};
ghost use Rattle.peephole_commands.specs.Graphs.{IsPlaceInBlock};
ghost use Rattle.peephole_commands.specs.Results.{TellsPointType};

use crate::graphs::Refusal;
use crate::place::Place;
use mutate_base::Error;
use peephole_analysis::PeepholeMutationAnalysis;
use peephole_terms::MiniDFG;
use peephole_terms::laws::{
    entries_have_trees, faults_are_found, own_trees_are_kept, terms_stand_for_trees,
};
use std::alloc::Global;
use wasm_types::PrimitiveTypeInfo;

// The type of the result of the tree of an operator of a graph.
fn own_type(
    alloc: Global,
    analysis: &PeepholeMutationAnalysis,
    graph: &MiniDFG,
    at: usize,
) -> Result<PrimitiveTypeInfo, Error>
    requires { IsSome ((graph_of graph.now).own_entry at) }
    ensures { IfSome ((graph_of graph.now).own_entry at) (λ i.
        let said = term_type analysis.now (tree_at (entry_nodes (graph_of graph.now).entries) i) in
        MatchResult result (λ t. said ≡ Ok t) (λ e. (e ≡ Memory) ⊎ (said ≡ Err e))) }
{
    let own = graph.get_expr(alloc, at)?;
    analysis.type_of(&own)
}

/// The type of the result of the operator at the point, by the graph of its block.
pub fn point_type(
    alloc: Global,
    analysis: &PeepholeMutationAnalysis,
    graph: &MiniDFG,
    place: &Place,
) -> Result<PrimitiveTypeInfo, Refusal>
    requires place { IsPlaceInBlock place.now }
    requires there { IsSome ((graph_of graph.now).own_entry place.now.point) }
    ensures { TellsPointType analysis.now graph.now place.now result }
{
    faults_are_found();
    entries_have_trees();
    own_trees_are_kept();
    terms_stand_for_trees();
    match own_type(alloc, analysis, graph, place.point) {
        Ok(ty) => Ok(ty),
        Err(error) => Err(Refusal::Refused(error)),
    }
}
