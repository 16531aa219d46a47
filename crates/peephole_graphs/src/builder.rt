//! Blocks and their graphs.

ghost use Rattle.std.specs.Prelude.{◌≡◌, ◌+◌, ◌^◌, ◌<◌, ◌≤◌, length, IsTrue, IfOk, IfSome, IfNone, IfErr, MatchOption, MatchResult};
ghost use Rattle.peephole_graphs.specs.Block.{IsDelimiterAt, IsBlockIn, IsBlockOf};
ghost use Rattle.peephole_graphs.specs.Source.{Source, source_of};
ghost use Rattle.peephole_graphs.specs.Dfg.{graph_of};
ghost use Rattle.peephole_graphs.specs.Contiguous.{HasContiguousTrees};
ghost use Rattle.peephole_graphs.specs.GraphOf.{IsGraphOf, HasNoGraph, IsRefused};
ghost use Rattle.peephole_graphs.specs.Building.{HasGrown};

use crate::block::BBlock;
use crate::dfg::MiniDFG;
use crate::growing::{Growing, add_operator, start_graph};
use crate::shape::{Judged, judge_operator};
use mutate_base::{Error, WasmMutate};
use std::alloc::Global;
use std::marker::Model;
use wasm_code::OperatorAndByteOffset;
use wasm_types::ModuleInfo;

/// What finds blocks and makes their graphs. It keeps the mode alone: whether the order of effects is to be preserved.
#[derive(Drop)]
pub struct DFGBuilder {
    preserving: bool,
}

impl Model for DFGBuilder {
    ghost use Rattle.peephole_graphs.specs.GraphOf.{Mode};

    ghost Value = { Mode };

    ghost view = { λ b. record { preserving = b.preserving } };
}

// The graph of the operators of a block whose first one has the index `first`; none at an operator that no graph holds,
// and refused at a call of a function that isn't known.
fn build(
    alloc: Global,
    info: &ModuleInfo,
    operators: &[OperatorAndByteOffset],
    first: usize,
    preserving: bool,
) -> Result<Option<Growing>, Error>
    requires { first + length operators.now < 2 ^ 64 }
    ensures { let s : Source = record {
      info = info.now;
      preserving = preserving;
      first = first;
      operators = operators.now;
    } in MatchResult result (λ o. MatchOption o (HasNoGraph s) (HasGrown s)) (IsRefused s) }
{
    let mut growing = start_graph(alloc, first, operators.len())?;
    for (number, operator) in operators.iter().enumerate() {
        match judge_operator(info, &operator.0) {
            Judged::Fits(shape) => add_operator(
                alloc,
                &mut growing,
                shape,
                first + number,
                preserving,
            )?,
            Judged::Unfit => return Ok(None),
            Judged::Unknown(function) => return Err(Error::UnknownFunction(function)),
        }
    }
    Ok(Some(growing))
}

impl DFGBuilder {
    /// A builder in the configuration's mode.
    pub fn new<R: Drop>(config: &WasmMutate<R>) -> DFGBuilder
        ensures { result.preserving ≡ config.now.preserving }
    {
        DFGBuilder {
            preserving: config.preserves_semantics(),
        }
    }

    /// The block of the operator at `index`, as `BBlock::of_operator` finds it.
    pub fn get_bb_from_operator(
        &self,
        index: usize,
        operators: &[OperatorAndByteOffset],
    ) -> Option<BBlock>
        requires { index < length operators.now }
        ensures block { IfSome result (λ b. IsBlockOf operators.now index b.start b.end) }
        ensures inside { IfSome result (λ b. IsBlockIn operators.now b) }
        ensures none { IfNone result (IsDelimiterAt operators.now index) }
    {
        BBlock::of_operator(index, operators)
    }

    /// The graph of a block of `operators`, made anew at each call. An operator `call` takes as many operands as its function
    /// in `info` has parameters, and has a result where the function has one. The builder stays as it was.
    /// While preserving, the operators of a tree whose entries have one colour follow one another in the body.
    ///
    /// The first operator at fault decides. None where no graph holds it: a `call` of a function with more than one result,
    /// `call_indirect`, a `select` that is no instruction, or a delimiter where the block was cut from another list.
    /// `UnknownFunction` with the function's index where it is a `call` and `info` doesn't have the function or its type.
    /// `TooLarge` where the index of its entry would pass 32 bits, or its colour would be 4294967295 or more. Else `Memory`,
    /// where an allocation was refused.
    ///
    /// Condition: the block's range lies in `operators`.
    pub fn get_dfg(
        &mut self,
        alloc: Global,
        info: &ModuleInfo,
        operators: &[OperatorAndByteOffset],
        block: &BBlock,
    ) -> Result<Option<MiniDFG>, Error>
        requires within { block.now.end ≤ length operators.now }
        ensures graph { let s = source_of info.now self.old.preserving operators.now block.now in
            IfOk result (λ o. IfSome o (λ g. IsGraphOf s (graph_of g))) }
        ensures none { let s = source_of info.now self.old.preserving operators.now block.now in
            IfOk result (λ o. IfNone o (HasNoGraph s)) }
        ensures refused { let s = source_of info.now self.old.preserving operators.now block.now in
            IfErr result (IsRefused s) }
        ensures contiguous { IsTrue self.old.preserving
            → IfOk result (λ o. IfSome o (λ g. HasContiguousTrees (graph_of g).entries)) }
        ensures same { self.new ≡ self.old }
    {
        let range = block.range();
        let growing = build(
            alloc,
            info,
            &operators[range.start..range.end],
            range.start,
            self.preserving,
        )?;
        match growing {
            None => Ok(None),
            Some(growing) => {
                let Growing {
                    map,
                    entries,
                    parents,
                    subtrees,
                    ..
                } = growing;
                Ok(Some(MiniDFG::of_parts(map, entries, parents, subtrees)))
            }
        }
    }
}
