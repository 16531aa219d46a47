//! The graph of the point's block.

ghost use Rattle.std.specs.Prelude.{◌≡◌, ◌⊎◌, Err, IfOk, IfErr, IfSome};
ghost use Rattle.mutate_base.specs.declared.error.Error.TheVariants.{Memory};
ghost use Rattle.peephole_commands.specs.declared.graphs.Refusal.TheVariants.{Refused};
ghost use Rattle.peephole_commands.specs.Graphs.{shapes_or_refusal, site_of, IsPlaceInBlock, IsGraphIn};

use crate::place::Place;
use given_words::LentWords;
use mutate_base::{Error, WasmMutate};
use peephole_terms::laws::faults_are_found;
use peephole_terms::{DFGBuilder, MiniDFG};
use std::alloc::Global;
use wasm_types::ModuleInfo;

/// Why a command has no answer.
#[derive(Clone, Copy)]
pub enum Refusal {
    /// The block has no graph.
    NoGraph,
    /// A call refused.
    Refused(Error),
}

impl From<Error> for Refusal {
    ghost use Rattle.std.specs.Prelude.{◌≡◌};
    ghost use Rattle.peephole_commands.specs.declared.graphs.Refusal.TheVariants.{Refused};

    ghost from_gives = { λ e r. r ≡ Refused e };

    fn from(error: Error) -> Refusal {
        Refusal::Refused(error)
    }
}

/// The graph of the place's block in a module and a mode: the one that is kept, or one that is made.
pub fn point_graph(
    alloc: Global,
    kept: Option<MiniDFG>,
    info: &ModuleInfo,
    preserving: bool,
    place: &Place,
) -> Result<MiniDFG, Refusal>
    requires place { IsPlaceInBlock place.now }
    requires kept { IfSome kept (IsGraphIn info.now preserving place.now) }
    ensures graph { IfOk result (IsGraphIn info.now preserving place.now) }
    ensures refused { IfErr result (λ r. (r ≡ Refused Memory)
        ⊎ (shapes_or_refusal info.now preserving (site_of place.now) ≡ Err r)) }
{
    match kept {
        Some(graph) => Ok(graph),
        None => make_graph(alloc, info, preserving, place),
    }
}

fn make_graph(
    alloc: Global,
    info: &ModuleInfo,
    preserving: bool,
    place: &Place,
) -> Result<MiniDFG, Refusal>
    requires { IsPlaceInBlock place.now }
    ensures graph { IfOk result (IsGraphIn info.now preserving place.now) }
    ensures refused { IfErr result (λ r. (r ≡ Refused Memory)
        ⊎ (shapes_or_refusal info.now preserving (site_of place.now) ≡ Err r)) }
{
    faults_are_found();
    let mut config: WasmMutate<'_, LentWords<'_>> = WasmMutate::new();
    config.preserve_semantics(preserving);
    let mut builder = DFGBuilder::new(&config);
    match builder.get_dfg(alloc, info, place.body.operators(), place.block) {
        Ok(Some(graph)) => Ok(graph),
        Ok(None) => Err(Refusal::NoGraph),
        Err(error) => Err(Refusal::Refused(error)),
    }
}
