//! `x` in control flow of its own → `x`.
ghost use Rattle.std.specs.Prelude.{◌≡◌, ◌↔◌, ◌+◌, Some, None, slice_get, ◌<◌, ◌≤◌, ℕ, IfNone, IfSome, IsTrue, length};
ghost use Rattle.wasm_execution.specs.Values.{Context};
ghost use Rattle.wasm_code.specs.declared.immediate.BlockType.TheVariants.{Value};
ghost use Rattle.body_splices.specs.OwnBytes.{without_offsets};
ghost use Rattle.rewrite_rules.specs.Wrap.{IsItem, back_of};
ghost use Rattle.rewrite_rules.specs.declared.wrap.WrapItem.TheVariants as item;
ghost use Rattle.rewrite_rules.specs.declared.table.Own.TheVariants.{Unwrap};
ghost use Rattle.body_rewrites.specs.Trees.{AreTrees};
ghost use Rattle.body_rewrites.specs.Own.{HasItem, HaveItems};
ghost use Rattle.body_rewrites.specs.OwnSites.{IsConstantItem, IsConstantOperator, IsSiteOf, IsWrapRound};

use crate::cutting::{number_of, tree_at};
use crate::own::{Made, Site};
use crate::trees::Tree;
use rewrite_rules::{Wrap, WrapItem, value_of};
use wasm_code::{BlockType, Operator, OperatorAndByteOffset, ValType};
use wasm_execution::IntegerType;

// Whether a block gives a value of the type.
fn gives(block: BlockType, t: ValType) -> bool
    ensures { IsTrue result ↔ (block ≡ Value t) }
{
    match block {
        BlockType::Value(u) => u == t,
        _ => false,
    }
}

// Whether the operator is a block of the type.
fn is_block(operator: &Operator, t: ValType) -> bool
    ensures { IsTrue result ↔ IsItem item.Block t operator.now }
{
    match operator {
        Operator::Block(block) => gives(*block, t),
        _ => false,
    }
}

// Whether it is a loop of the type.
fn is_loop(operator: &Operator, t: ValType) -> bool
    ensures { IsTrue result ↔ IsItem item.Loop t operator.now }
{
    match operator {
        Operator::Loop(block) => gives(*block, t),
        _ => false,
    }
}

// Whether it is a conditional of the type.
fn is_if(operator: &Operator, t: ValType) -> bool
    ensures { IsTrue result ↔ IsItem item.If t operator.now }
{
    match operator {
        Operator::If(block) => gives(*block, t),
        _ => false,
    }
}

// Whether it is a branch to the innermost label.
fn is_branch(operator: &Operator, t: ValType) -> bool
    ensures { IsTrue result ↔ IsItem item.Branch t operator.now }
{
    match operator {
        Operator::Br(label) => *label == 0,
        _ => false,
    }
}

// Whether it is one under a condition.
fn is_branch_if(operator: &Operator, t: ValType) -> bool
    ensures { IsTrue result ↔ IsItem item.BranchIf t operator.now }
{
    match operator {
        Operator::BrIf(label) => *label == 0,
        _ => false,
    }
}

// The number of the `i32` constant that it is.
fn constant_in(operator: &Operator) -> Option<u64>
    ensures some { IfSome result (IsConstantOperator operator.now) }
    ensures none { IfNone result ((n : ℕ) → ¬ (IsConstantOperator operator.now n)) }
{
    match operator {
        Operator::Instr(instr) => number_of(instr, IntegerType::I32),
        _ => None,
    }
}

// Whether it is a constant, which is zero where that is asked, or isn't where that is.
fn is_constant(operator: &Operator, t: ValType, item: WrapItem) -> bool
    requires { IsConstantItem item }
    ensures { IsTrue result ↔ IsItem item t operator.now }
{
    let Some(number) = constant_in(operator) else {
        return false;
    };
    match item {
        WrapItem::Zero => number == 0,
        WrapItem::NonZero => number > 0,
        _ => true,
    }
}

// Whether the operator is the item, in code that gives a value of the type.
fn is_item(operator: &Operator, item: WrapItem, t: ValType) -> bool
    ensures { IsTrue result ↔ IsItem item t operator.now }
{
    match item {
        WrapItem::Block => is_block(operator, t),
        WrapItem::Loop => is_loop(operator, t),
        WrapItem::If => is_if(operator, t),
        WrapItem::Else => matches!(operator, Operator::Else),
        WrapItem::End => matches!(operator, Operator::End),
        WrapItem::Branch => is_branch(operator, t),
        WrapItem::BranchIf => is_branch_if(operator, t),
        WrapItem::Unreachable => matches!(operator, Operator::Unreachable),
        WrapItem::Zero => is_constant(operator, t, item),
        WrapItem::NonZero => is_constant(operator, t, item),
        WrapItem::Any => is_constant(operator, t, item),
    }
}

// The operator that stands there.
pub(crate) fn operator_at(operators: &[OperatorAndByteOffset], at: usize) -> Option<Operator>
    ensures some { IfSome result (λ o. slice_get (without_offsets operators.now) at ≡ Some o) }
    ensures none { IfNone result (slice_get (without_offsets operators.now) at ≡ None) }
{
    match operators.get(at) {
        Some((operator, _)) => Some(*operator),
        None => None,
    }
}

// Whether the item stands there.
pub(crate) fn has_item(
    operators: &[OperatorAndByteOffset],
    at: usize,
    item: WrapItem,
    t: ValType,
) -> bool
    ensures same { IsTrue result → HasItem operators.now at item t }
    ensures only { HasItem operators.now at item t → IsTrue result }
{
    match operator_at(operators, at) {
        Some(operator) => is_item(&operator, item, t),
        None => false,
    }
}

// Whether these stand there, one behind another.
fn have_items(
    operators: &[OperatorAndByteOffset],
    start: usize,
    items: &[WrapItem],
    t: ValType,
) -> bool
    requires { start + length items.now ≤ length operators.now }
    ensures same { IsTrue result → HaveItems operators.now start items.now t }
    ensures only { HaveItems operators.now start items.now t → IsTrue result }
{
    for i in 0..items.len() {
        if !has_item(operators, start + i, items[i], t) {
            return false;
        }
    }
    true
}

// Where the code begins that is wrapped so round the tree, which ends before the operator at `end`; none where none is.
fn start_of(
    operators: &[OperatorAndByteOffset],
    tree: Tree,
    end: usize,
    wrap: Wrap,
) -> Option<usize>
    requires { end + length (back_of wrap) ≤ length operators.now }
    ensures some { IfSome result (λ start. IsWrapRound operators.now wrap tree end start) }
    ensures none { IfNone result ((start : ℕ)
        → ¬ (IsWrapRound operators.now wrap tree end start)) }
{
    let (front, back) = (wrap.front(), wrap.back());
    if tree.start < front.len() || tree.start > end {
        return None;
    }
    let start = tree.start - front.len();
    let Some(value) = value_of(tree.gives) else {
        return None;
    };
    if !have_items(operators, start, front, value) {
        return None;
    }
    if !have_items(operators, end, back, value) {
        return None;
    }
    Some(start)
}

// Where the rule applies at the operator, and what it makes there.
pub(crate) fn find(
    operators: &[OperatorAndByteOffset],
    trees: &[Option<Tree>],
    at: usize,
    wrap: Wrap,
) -> Option<Site>
    ensures { (context : Context) → AreTrees context operators.now trees.now
        → IsSiteOf context operators.now (Unwrap wrap) at result }
{
    let behind = wrap.back().len();
    if at >= operators.len() || at + 1 >= operators.len() || at < behind {
        return None;
    }
    let end = at + 1 - behind;
    let Some(tree) = tree_at(trees, end - 1) else {
        return None;
    };
    let Some(start) = start_of(operators, tree, end, wrap) else {
        return None;
    };
    Some(Site {
        start,
        made: Made::Inner(tree.start, end),
    })
}
