//! Blocks, their graphs, and the trees in these, laid out.

ghost use Rattle.std.specs.Prelude.{IfOk, IfSome};
ghost use Rattle.peephole_graphs.specs.Block.{IsBlockIn};
ghost use Rattle.peephole_terms.specs.Written.{IsBodyIn};

use crate::parts::{Refusal, bytes_in, field_of, info_with, number_in, types_of};
use crate::terms::nodes_text;
use peephole_terms::{
    BBlock, DFGBuilder, Language, MiniDFG, ModuleInfo, OperatorAndByteOffset, WasmMutate, Words,
    read_body,
};
use std::alloc::Global;
use std::fmt::Write;

/// The operators of a body.
pub fn operators_of(alloc: Global, bytes: &[u8]) -> Result<Vec<OperatorAndByteOffset>, Refusal>
    ensures { IfOk result (λ operators. IsBodyIn bytes.now operators.items) }
{
    match read_body(alloc, bytes, 0, bytes.len()) {
        Ok(operators) => Ok(operators),
        Err(_) => Err(Refusal::Unreadable),
    }
}

/// The block of the operator `last` of a case, if it has one.
pub fn block_of(
    builder: &DFGBuilder,
    operators: &[OperatorAndByteOffset],
    case: &str,
) -> Result<Option<BBlock>, Refusal>
    ensures { IfOk result (λ found. IfSome found (λ block. IsBlockIn operators.now block)) }
{
    let last = number_in(case, "last")? as usize;
    if last >= operators.len() {
        return Err(Refusal::Unreadable);
    }
    Ok(builder.get_bb_from_operator(last, operators))
}

// Where the operators of a body begin, or the range of a block, or none.
fn of_body(alloc: Global, call: &str, case: &str) -> Result<String, Refusal> {
    let bytes = bytes_in(alloc, case, "body")?;
    let operators = operators_of(alloc, &bytes)?;
    if call == "offsets" {
        let offsets: Vec<usize> = operators.iter().map(|(_, offset)| *offset).collect(alloc)?;
        return Ok(format!(in alloc; "{offsets:?}")?);
    }
    let config: WasmMutate<Words> = WasmMutate::new();
    match block_of(&DFGBuilder::new(&config), &operators, case)? {
        Some(block) => {
            let range = block.range();
            let (start, end) = (range.start, range.end);
            Ok(format!(in alloc; "{start}..{end}")?)
        }
        None => Ok(String::from_str(alloc, "none")?),
    }
}

// The graph of the block that ends with the operator `last` of a case's body, if the block has one, in a module whose function 0 has the
// type that the case gives, `function i32 -> i64`, or has none if it gives none.
fn graph_of(alloc: Global, case: &str) -> Result<Option<MiniDFG>, Refusal> {
    let bytes = bytes_in(alloc, case, "body")?;
    let operators = operators_of(alloc, &bytes)?;
    let info = match field_of(case, "function").split_once("->") {
        Some((params, returns)) => {
            info_with(
                alloc,
                &types_of(alloc, params)?,
                &types_of(alloc, returns)?,
                false,
            )?
        }
        None => ModuleInfo::new(alloc, &[]),
    };
    let mut config: WasmMutate<Words> = WasmMutate::new();
    config.preserve_semantics(field_of(case, "preserving") == "yes");
    let mut builder = DFGBuilder::new(&config);
    match block_of(&builder, &operators, case)? {
        Some(block) => Ok(builder.get_dfg(alloc, &info, &operators, &block)?),
        None => Err(Refusal::Unreadable),
    }
}

// Adds a line of an entry: what it is, where the graph finds its operator, and whether a copy of it is the same.
fn push_entry(text: &mut String, graph: &MiniDFG, index: usize) -> Result<(), Refusal> {
    if index >= graph.entries().len() || index >= graph.parents().len() {
        return Err(Refusal::Unreadable);
    }
    let entry = &graph.entries()[index];
    let node = &entry.operator;
    let children = node.children();
    let (at, color) = (entry.operator_idx, entry.color);
    let copy = entry.clone()?;
    let same = copy.operator == *node && copy.operator_idx == at && copy.color == color;
    let parent = graph.parents()[index];
    let (count, flag) = (graph.subtree_len(index), graph.is_subtree_consistent(index));
    let own = graph.map().get(at);
    write!(
        text,
        "\n{node} {children:?} at {at}, color {color}, parent {parent:?}"
    )?;
    write!(
        text,
        ", tree of {count}, one color {flag}, own entry {own:?}, copied {same}"
    )?;
    Ok(())
}

// Whether the block is in order, whether its last entry's tree has one colour, and a line for each entry.
fn graph_text(alloc: Global, graph: &MiniDFG) -> Result<String, Refusal> {
    if graph.entries().is_empty() {
        return Err(Refusal::Unreadable);
    }
    let (order, flag) = (graph.keeps_order(), graph.is_subtree_consistent_from_root());
    let mut text = format!(in alloc; "in order {order}, last tree of one color {flag}")?;
    for index in 0..graph.entries().len() {
        push_entry(&mut text, graph, index)?;
    }
    Ok(text)
}

// The operator of each entry.
fn operators_text(alloc: Global, graph: &MiniDFG) -> Result<String, Refusal> {
    let entries = graph.entries().iter();
    let operators: Vec<usize> = entries.map(|entry| entry.operator_idx).collect(alloc)?;
    Ok(format!(in alloc; "{operators:?}")?)
}

// The forest, with texts that the caller makes.
fn forest_by(alloc: Global, graph: &MiniDFG) -> Result<String, Refusal> {
    let text = graph.pretty_print(alloc, |entry| {
        let operator = &entry.operator;
        Ok(format!(in alloc; "{operator}")?)
    })?;
    Ok(text)
}

// The tree of the operator `last`, laid out.
fn own_tree(alloc: Global, graph: &MiniDFG, case: &str) -> Result<String, Refusal> {
    let at = number_in(case, "last")? as usize;
    if graph.map().get(at).is_none() {
        return Err(Refusal::Unreadable);
    }
    nodes_text(alloc, &graph.get_expr(alloc, at)?)
}

// How many entries there are, in all and in the last one's tree, and what the tree of the operator `last` is, laid out: how many nodes,
// and the children of its root.
fn sizes(alloc: Global, graph: &MiniDFG, case: &str) -> Result<String, Refusal> {
    let at = number_in(case, "last")? as usize;
    let count = graph.entries().len();
    if count == 0 || graph.map().get(at).is_none() {
        return Err(Refusal::Unreadable);
    }
    let tree = graph.subtree_len(count - 1);
    let (order, flag) = (graph.keeps_order(), graph.is_subtree_consistent_from_root());
    let mut text = format!(in alloc;
        "entries {count}, last tree of {tree}, in order {order}, of one color {flag}"
    )?;
    let expr = graph.get_expr(alloc, at)?;
    if let Some(root) = expr.as_ref().last() {
        let (laid, children) = (expr.len(), root.children());
        write!(text, ", laid out {laid}, root {children:?}")?;
    }
    Ok(text)
}

/// What a call on a body, or on a graph of one of its blocks, answers.
pub fn answered(alloc: Global, call: &str, case: &str) -> Result<String, Refusal> {
    if call == "offsets" || call == "block" {
        return of_body(alloc, call, case);
    }
    let Some(graph) = graph_of(alloc, case)? else {
        return Ok(String::from_str(alloc, "no graph")?);
    };
    match call {
        "graph" => graph_text(alloc, &graph),
        "copy" => graph_text(alloc, &graph.clone()?),
        "entries" => operators_text(alloc, &graph),
        "forest" => Ok(format!(in alloc; "{graph}")?),
        "forest_default" => Ok(graph.pretty_print_default(alloc)?),
        "forest_by" => forest_by(alloc, &graph),
        "own_tree" => own_tree(alloc, &graph, case),
        "sizes" => sizes(alloc, &graph, case),
        _ => Err(Refusal::Unreadable),
    }
}
