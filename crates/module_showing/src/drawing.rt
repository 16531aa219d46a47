//! Operators drawn as trees: each above its operands, which stand further to the right.

use crate::texts::OperatorText;
use body_rewrites::{Tree, trees_of};
use std::alloc::{AllocError, Global};
use wasm_code::{Operator, OperatorAndByteOffset};
use wasm_execution::operand_count;
use wasm_types::{ModuleInfo, PrimitiveTypeInfo};

// The most operators that are drawn: a deep tree's drawing grows with the square of its depth.
const MOST_DRAWN: usize = 256;

// Of each operator where it begins with its operands, and how many operators it stands below.
#[derive(Drop)]
struct Forest {
    starts: Vec<usize>,
    depths: Vec<usize>,
}

/// Where the operator begins with its operands, as far as these are trees right before it.
pub(crate) fn beginning(
    info: &ModuleInfo<'_>,
    operators: &[OperatorAndByteOffset],
    trees: &[Option<Tree>],
    at: usize,
) -> usize {
    if let Some(Some(tree)) = trees.get(at) {
        return tree.start;
    }
    let Some((Operator::Instr(instr), _)) = operators.get(at) else {
        return at;
    };
    let mut start = at;
    for _ in 0..operand_count(info, instr) {
        if start == 0 {
            return start;
        }
        match trees.get(start - 1) {
            Some(Some(tree)) => start = tree.start,
            _ => return start,
        }
    }
    start
}

// Where each operator begins with its operands.
fn starts_of(
    alloc: Global,
    info: &ModuleInfo<'_>,
    locals: &[PrimitiveTypeInfo],
    operators: &[OperatorAndByteOffset],
) -> Result<Vec<usize>, AllocError> {
    let trees = trees_of(alloc, locals, info, operators)?;
    let mut starts = Vec::new(alloc);
    for at in 0..operators.len() {
        starts.push(beginning(info, operators, &trees, at))?;
    }
    Ok(starts)
}

// So many zeros.
fn zeros(alloc: Global, count: usize) -> Result<Vec<usize>, AllocError> {
    let mut list = Vec::new(alloc);
    for _ in 0..count {
        list.push(0)?;
    }
    Ok(list)
}

// How many operators each one stands below: those that begin at or before it, and stand behind it.
fn depths_of(alloc: Global, starts: &[usize]) -> Result<Vec<usize>, AllocError> {
    let mut counts = zeros(alloc, starts.len())?;
    for start in starts {
        if let Some(count) = counts.get_mut(*start) {
            *count = count.saturating_add(1);
        }
    }
    let mut depths = Vec::new(alloc);
    // Those that begin before or here, and don't stand before this.
    let mut open: usize = 0;
    for count in &counts {
        open = open.saturating_add(*count).saturating_sub(1);
        depths.push(open)?;
    }
    Ok(depths)
}

impl Forest {
    // The forest of the operators.
    fn new(
        alloc: Global,
        info: &ModuleInfo<'_>,
        locals: &[PrimitiveTypeInfo],
        operators: &[OperatorAndByteOffset],
    ) -> Result<Forest, AllocError> {
        let starts = starts_of(alloc, info, locals, operators)?;
        let depths = depths_of(alloc, &starts)?;
        Ok(Forest { starts, depths })
    }

    // How many operators the one with that index stands below.
    fn depth(&self, at: usize) -> usize {
        self.depths.get(at).copied().unwrap_or(0)
    }

    // Whether the operator is the last operand of the one that it stands below, which then comes next.
    fn is_last(&self, at: usize) -> bool {
        self.depth(at.saturating_add(1)) < self.depth(at)
    }

    // The operators in the order in which they are drawn, each right before its operands: before it are drawn those that stand
    // before the first of these, and those that it stands below.
    fn order(&self, alloc: Global) -> Result<Vec<usize>, AllocError> {
        let mut order = zeros(alloc, self.starts.len())?;
        for at in 0..self.starts.len() {
            let place = self.starts[at].saturating_add(self.depth(at));
            if let Some(drawn) = order.get_mut(place) {
                *drawn = at;
            }
        }
        Ok(order)
    }
}

// Adds what leads to an operator below others: for each of these below another one a line that goes on to further operands, where
// there are some, and a line to its own text. `lasts` says of each, and of it, whether it is a last operand.
fn add_edges(text: &mut String, lasts: &[bool]) -> Result<(), AllocError> {
    let Some((own, above)) = lasts.split_last() else {
        return Ok(());
    };
    for last in above {
        text.push_str(if *last { "    " } else { "│   " })?;
    }
    text.push_str(if *own { "└──" } else { "├──" })
}

// Adds the operator's text, and the end of its line.
fn add_operator(
    text: &mut String,
    operators: &[OperatorAndByteOffset],
    at: usize,
) -> Result<(), AllocError> {
    if let Some((operator, _)) = operators.get(at) {
        writeln!(text, "{}", OperatorText(*operator))?;
    }
    Ok(())
}

// Adds the lines of the forest.
fn add_forest(
    alloc: Global,
    text: &mut String,
    operators: &[OperatorAndByteOffset],
    forest: &Forest,
) -> Result<(), AllocError> {
    // For each depth but 0 whether the operator there that was drawn last is a last operand.
    let mut lasts = Vec::new(alloc);
    for at in &forest.order(alloc)? {
        let depth = forest.depth(*at);
        lasts.truncate(depth.saturating_sub(1));
        if depth > 0 {
            lasts.push(forest.is_last(*at))?;
        }
        text.push_str("    ")?;
        add_edges(text, &lasts)?;
        add_operator(text, operators, *at)?;
    }
    Ok(())
}

// Adds the operators, one a line.
fn add_lines(text: &mut String, operators: &[OperatorAndByteOffset]) -> Result<(), AllocError> {
    for at in 0..operators.len() {
        text.push_str("    ")?;
        add_operator(text, operators, at)?;
    }
    Ok(())
}

/// Adds the lines of the operators, drawn as trees, one behind another: an operator whose operands are known stands above these. Where
/// they are more than 256, they stand one a line, and where there are none, `nothing`.
pub(crate) fn add_drawn(
    alloc: Global,
    text: &mut String,
    info: &ModuleInfo<'_>,
    locals: &[PrimitiveTypeInfo],
    operators: &[OperatorAndByteOffset],
) -> Result<(), AllocError> {
    if operators.is_empty() {
        return text.push_str("    nothing\n");
    }
    if operators.len() > MOST_DRAWN {
        return add_lines(text, operators);
    }
    let forest = Forest::new(alloc, info, locals, operators)?;
    add_forest(alloc, text, operators, &forest)
}
