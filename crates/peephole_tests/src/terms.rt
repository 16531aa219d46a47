//! Terms, given by their nodes: the text of each and the places of its children, `i32.const.1; i32.const.2; i32.add 0 1`; and a second
//! kind of nodes, through the trait alone.

ghost use Rattle.std.specs.Prelude.{◌≡◌, ◌<◌, All, IfOk, length, true};
ghost use Rattle.peephole_graphs.specs.Layout.{AreWritable};
ghost use Rattle.peephole_lang.specs.Term.{numbers_of};

use crate::parts::{Refusal, field_of, number_in};
use peephole_examples::{Arith, set_first, tree_of};
use peephole_terms::{Id, Lang, Language, RecExpr, build_expr};
use std::alloc::Global;
use std::cell::Cell;
use std::fmt::Write;

/// The node of a text.
pub fn node_of<L: Language>(alloc: Global, told: &str) -> Result<L, Refusal> {
    let (name, ids) = told.split_once(' ').unwrap_or((told, ""));
    let mut children = Vec::new(alloc);
    for id in ids.split_whitespace() {
        let place = id.parse::<u32>().ok().ok_or(Refusal::Unreadable)?;
        children.push(Id(place))?;
    }
    match L::from_op_str(name, children) {
        Ok(node) => Ok(node),
        Err(error) => Err(Refusal::NoNode(error)),
    }
}

// Whether the ids are below the place.
fn are_ids_below(ids: &[Id], place: usize) -> bool
    ensures { result ≡ true → All (λ id. id.0 < place) ids.now }
{
    ids.iter().all(|id| (id.0 as usize) < place)
}

// The same, said of the places that the children name.
fn are_below(children: &[Id], place: usize) -> bool
    ensures { result ≡ true → All (λ child. child < place) (numbers_of children.now) }
{
    are_ids_below(children, place)
}

/// The term of the nodes.
pub fn term_of<L: Language>(alloc: Global, told: &str) -> Result<RecExpr<L>, Refusal> {
    let mut term = RecExpr::new(alloc);
    for part in told.split(';') {
        let node: L = node_of(alloc, part.trim())?;
        if !are_below(node.children(), term.len()) {
            return Err(Refusal::Unreadable);
        }
        term.add(node)?;
    }
    Ok(term)
}

/// The same of nodes that can be written, one at least.
pub fn writable_term(alloc: Global, told: &str) -> Result<RecExpr<Lang>, Refusal>
    ensures some { IfOk result (λ term. 0 < length term) }
    ensures writable { IfOk result AreWritable }
{
    let term: RecExpr<Lang> = term_of(alloc, told)?;
    if term.len() == 0 || !term.as_ref().iter().all(|node| node.is_writable()) {
        return Err(Refusal::Unreadable);
    }
    Ok(term)
}

/// The nodes of an expression, a line each.
pub fn nodes_text<L: Language>(alloc: Global, expr: &RecExpr<L>) -> Result<String, Refusal> {
    let mut text = String::new(alloc);
    for node in expr.as_ref() {
        let children = node.children();
        writeln!(text, "{node} {children:?}")?;
    }
    Ok(text)
}

// The tree at a node of an expression.
fn tree_at<L: Language>(alloc: Global, expr: &RecExpr<L>, case: &str) -> Result<String, Refusal> {
    let root = number_in(case, "root")?;
    if root as usize >= expr.len() {
        return Err(Refusal::Unreadable);
    }
    nodes_text(alloc, &tree_of(alloc, expr, Id(root))?)
}

// The text of the copy of a node, and whether that matches the node.
fn copied(alloc: Global, node: &Arith) -> Result<String, Refusal> {
    let copy = node.clone_node()?;
    let matches = node.matches(&copy);
    Ok(format!(in alloc; "{copy}, matches {matches}")?)
}

// The children of a node, with the first one replaced, and whether it matches another node.
fn first_set(alloc: Global, mut node: Arith, case: &str) -> Result<String, Refusal> {
    let other: Arith = node_of(alloc, field_of(case, "other"))?;
    set_first(&mut node, Id(number_in(case, "first")?));
    let children = node.children();
    let matches = node.matches(&other);
    Ok(format!(in alloc; "{children:?}, matches {matches}")?)
}

// A sum far from the first id: the tree, and how often a node is asked for.
fn far_sum(alloc: Global) -> Result<String, Refusal> {
    let sum = Arith::Add([Id(7), Id(3999999999)]);
    let one = Arith::Num(1);
    let two = Arith::Num(2);
    let calls = Cell::new(0u32);
    let tree = build_expr(alloc, Id(4000000000), |id: Id| {
        calls.set(calls.get().saturating_add(1));
        match id.0 {
            4000000000 => &sum,
            7 => &one,
            _ => &two,
        }
    })?;
    let mut text = nodes_text(alloc, &tree)?;
    let count = calls.get();
    write!(text, "{count} calls")?;
    Ok(text)
}

/// What a call on a node or on a term answers.
pub fn answered(alloc: Global, call: &str, case: &str) -> Result<String, Refusal> {
    let nodes = field_of(case, "nodes");
    match call {
        "node" => copied(alloc, &node_of(alloc, nodes)?),
        "set_first" => first_set(alloc, node_of(alloc, nodes)?, case),
        "far_sum" => far_sum(alloc),
        "nodes" => nodes_text::<Lang>(alloc, &term_of(alloc, nodes)?),
        "tree" => tree_at::<Lang>(alloc, &term_of(alloc, nodes)?, case),
        _ => tree_at::<Arith>(alloc, &term_of(alloc, nodes)?, case),
    }
}
