//! The forest of the point's block, as text.

ghost use Rattle.std.specs.Prelude.{◌≡◌, ◌<◌, ◌++◌, length, IfOk, MatchResult, string_bytes};
ghost use Rattle.mutate_base.specs.declared.error.Error.TheVariants.{Memory};
ghost use Rattle.peephole_graphs.specs.Dfg.{graph_of};
ghost use Rattle.peephole_graphs.specs.ForestText.{default_text};
ghost use Rattle.peephole_commands.specs.Show.{yes_or_no, verdicts, ShowsGraph};

use mutate_base::Error;
use peephole_terms::MiniDFG;
use peephole_terms::laws::{faults_are_found, graph_shows_the_forest, order_is_decided};
use std::alloc::{AllocError, Global};

fn yes_or_no(answer: bool) -> &'static str
    ensures { result.now ≡ yes_or_no answer }
{
    if answer { "yes" } else { "no" }
}

// The two verdicts behind a forest.
fn verdicts(alloc: Global, in_order: bool, consistent: bool) -> Result<String, AllocError>
    ensures { IfOk result (λ text. string_bytes text ≡ verdicts in_order consistent) }
{
    let in_order = yes_or_no(in_order);
    let consistent = yes_or_no(consistent);
    format!(in alloc; "in order {in_order}\nconsistent {consistent}\n")
}

// The text of a graph, and the two verdicts behind it.
fn with_verdicts(
    alloc: Global,
    graph: &MiniDFG,
    in_order: bool,
    consistent: bool,
) -> Result<String, Error>
    ensures { MatchResult result
        (λ text. string_bytes text
        ≡ default_text (graph_of graph.now).entries (graph_of graph.now).parents
        ++ verdicts in_order consistent)
        (λ e. e ≡ Memory) }
{
    let mut text = graph.pretty_print_default(alloc)?;
    let verdicts = verdicts(alloc, in_order, consistent)?;
    text.push_str(verdicts.as_str())?;
    Ok(text)
}

/// The forest of a block by its graph, then whether the block is in order, and whether the tree of its last operator has one
/// colour.
pub fn show_graph(alloc: Global, graph: &MiniDFG) -> Result<String, Error>
    requires { 0 < length (graph_of graph.now).entries }
    ensures { MatchResult result (λ text. ShowsGraph graph.now (string_bytes text))
        (λ e. e ≡ Memory) }
{
    faults_are_found();
    order_is_decided();
    graph_shows_the_forest();
    let in_order = graph.keeps_order();
    let consistent = graph.is_subtree_consistent_from_root();
    with_verdicts(alloc, graph, in_order, consistent)
}
