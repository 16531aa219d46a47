//! What has to stand at an operator where a line of the table applies, and what stands there.
ghost use Rattle.std.specs.Prelude.{◌≡◌, ◌≤◌};
ghost use Rattle.rewrite_rules.specs.declared.pattern.Operator.TheVariants as operator;
ghost use Rattle.rewrite_rules.specs.Instance.{row_number};
ghost use Rattle.body_rewrites.specs.Roots.{class_of, IsClassAt, one_row, constant_root, step_root, first_root, conversion_root, side_root, access_root, own_root, root_of, fits};
ghost use Rattle.body_rewrites.specs.Places.{left_parts};

use crate::parts::count_of;
use crate::places::Line;
use crate::root::Root;
use crate::trees::instr_at;
use rewrite_rules::{
    Access, AccessKind, AccessSide, Conversion, Operator, Own, Step, Widths, access_at,
};
use wasm_code::OperatorAndByteOffset;
use wasm_execution::{IntegerType, Operation};

// The class of the instructions of a row of the instruction table, of which there are 446: its number; and one more for what is none.
fn class_of(row: u16) -> usize
    ensures is { result ≡ class_of row }
    ensures small { result ≤ 446 }
{
    if row < 446 { row as usize } else { 446 }
}

/// The class of the instruction that stands at the operator; any where none does.
pub(crate) fn class_at(operators: &[OperatorAndByteOffset], at: usize) -> usize
    ensures is { IsClassAt operators.now at result }
    ensures small { result ≤ 446 }
{
    match instr_at(operators, at) {
        Some(instr) => class_of(instr.row()),
        None => 446,
    }
}

// An instruction of the row.
fn one_row(row: u16) -> Root
    ensures { result ≡ one_row row }
{
    let class = class_of(row);
    Root::Classes(class, class)
}

// A constant of the type.
fn constant_root(t: IntegerType) -> Root
    ensures { result ≡ constant_root t }
{
    match t {
        IntegerType::I32 => Root::Classes(36, 36),
        IntegerType::I64 => Root::Classes(37, 37),
    }
}

// An operation.
fn one_operation(operation: Operation) -> Root
    ensures { result ≡ one_row (row_number (operator.Whole operation)) }
{
    one_row(Operator::Whole(operation).row())
}

// Where the step stands last, for the width.
fn step_root(step: Step, width: IntegerType) -> Root
    ensures { result ≡ step_root width step }
{
    match step {
        Step::Operand(_) => Root::Tree,
        Step::Constant(_) => constant_root(width),
        Step::Drawn => Root::Any,
        Step::Binary(operator) => one_operation(Operation::Binary(width, operator)),
        Step::Compare(comparison) => one_operation(Operation::Compare(width, comparison)),
        Step::Eqz => one_operation(Operation::Eqz(width)),
        Step::Select => one_row(3),
        Step::Whole(operation) => one_operation(operation),
        Step::Exact(row, _) => one_row(row),
        Step::End => Root::Any,
    }
}

// The last instruction of a conversion; of none, one of the row.
fn conversion_root(row: u16, conversion: Conversion) -> Root
    ensures { result ≡ conversion_root row conversion }
{
    match conversion {
        Conversion::Nothing => one_row(row),
        Conversion::By(operator) => one_row(operator.row()),
        Conversion::With(_, _, operator) => one_row(operator.row()),
    }
}

// The last instruction of a side.
fn side_root(kind: AccessKind, side: AccessSide) -> Root
    ensures { result ≡ side_root kind side }
{
    match kind {
        AccessKind::Load => conversion_root(side.row, side.conversion),
        AccessKind::Store => one_row(side.row),
        AccessKind::Constant => conversion_root(side.row, side.conversion),
    }
}

// Where the access applies, if there is one.
fn access_root(access: Option<Access>) -> Root
    ensures { result ≡ access_root access }
{
    match access {
        Some(access) => side_root(access.kind, access.left),
        None => Root::Any,
    }
}

// Where a rule beside the table applies.
fn own_root(own: Own) -> Root
    ensures { result ≡ own_root own }
{
    match own {
        Own::Unfold => Root::Classes(36, 37),
        Own::ThroughGlobal => Root::Tree,
        Own::WithNop => Root::Tree,
        Own::Fold => Root::Classes(40, 446),
        Own::Forget => Root::Classes(2, 2),
        Own::TeeToSet => Root::Classes(6, 6),
        Own::DropNop => Root::Classes(0, 0),
        Own::SetToTee => Root::Classes(4, 4),
        Own::Access(number) => access_root(access_at(number)),
        Own::Wrap(_) => Root::Tree,
        Own::Unwrap(_) => Root::Classes(446, 446),
        Own::SelectToIf => Root::Classes(3, 3),
        Own::IfToSelect => Root::Classes(446, 446),
        Own::TestCondition => Root::Tree,
        Own::DropConditionTest => Root::Classes(42, 42),
        Own::DoubleCondition => Root::Tree,
        Own::DropDoubleCondition => Root::Classes(40, 40),
        Own::PutDead => Root::Classes(446, 446),
        Own::DropDead => Root::Classes(2, 2),
        Own::BoundIndex => Root::Tree,
        Own::DropIndexBound => Root::Classes(3, 3),
        Own::BrIfToIf => Root::Classes(446, 446),
        Own::IfToBrIf => Root::Classes(446, 446),
    }
}

// Where the line's left side stands.
fn left_root(line: &Line) -> Root
    ensures { result ≡ first_root (left_parts line.now) }
{
    let side = line.row.left();
    let count = count_of(side);
    if count == 0 {
        return Root::Any;
    }
    step_root(side[count - 1], line.width)
}

/// Where the line applies.
pub(crate) fn root_of(line: &Line) -> Root
    ensures { result ≡ root_of line.now }
{
    match line.row.widths() {
        Widths::Own(own) => own_root(own),
        Widths::Both => left_root(line),
        Widths::Only(_) => left_root(line),
        Widths::Any => left_root(line),
        Widths::Operands(_, _, _) => left_root(line),
    }
}

/// Whether it may stand there, by the instruction's class and whether a tree ends with it.
pub(crate) fn fits(root: Root, class: usize, is_tree: bool) -> bool
    ensures { result ≡ fits class is_tree root }
{
    match root {
        Root::Classes(first, last) => first <= class && class <= last,
        Root::Tree => is_tree,
        Root::Any => true,
    }
}
