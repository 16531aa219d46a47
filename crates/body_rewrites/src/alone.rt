//! Lines whose left side is an operand alone.
ghost use Rattle.std.specs.Prelude.{◌≡◌};
ghost use Rattle.wasm_execution.specs.Values.{type_of};
ghost use Rattle.body_rewrites.specs.Alone.{are_alone, doubles, form_of, takes, alone_growth};

use crate::asked::Form;
use crate::growth::Growth;
use crate::trees::Tree;
use rewrite_rules::{Side, Step, TableRow, Widths, holes_of};
use wasm_execution::IntegerType;
use wasm_types::PrimitiveTypeInfo;

// Whether the side is an operand alone.
fn are_alone(side: &Side) -> bool
    ensures { result ≡ are_alone side.now }
{
    match (side[0], side[1]) {
        (Step::Operand(index), Step::End) => index == 0,
        _ => false,
    }
}

// Whether the row's right side has an operand more than once, where it has one alone.
fn doubles(row: &TableRow) -> bool
    ensures { result ≡ doubles row.now }
{
    holes_of(row.right()).len() > 1
}

/// What the row's lines are.
pub(crate) fn form_of(row: &TableRow) -> Form
    ensures { result ≡ form_of row.now }
{
    if let Widths::Own(own) = row.widths() {
        return Form::Own(own);
    }
    if let Widths::Operands(_, _, _) = row.widths() {
        return Form::Other;
    }
    if are_alone(row.left()) {
        return Form::Alone(doubles(row));
    }
    Form::Other
}

// The type of the width.
fn type_of(width: IntegerType) -> PrimitiveTypeInfo
    ensures { result ≡ type_of width }
{
    match width {
        IntegerType::I32 => PrimitiveTypeInfo::I32,
        IntegerType::I64 => PrimitiveTypeInfo::I64,
    }
}

/// Whether the tree's value has the width's type, and it neither writes nor asks the world where it is doubled.
pub(crate) fn takes(width: IntegerType, doubles: bool, tree: Tree) -> bool
    ensures { result ≡ takes width doubles tree }
{
    tree.gives == type_of(width) && !(doubles && (tree.writes || tree.asks))
}

/// What a line for the width, whose left side is an operand alone, does to the number of operators where such a tree stands; none where
/// it makes nothing, or none stands there.
pub(crate) fn alone_growth(width: IntegerType, doubles: bool, tree: Option<Tree>) -> Option<Growth>
    ensures { result ≡ alone_growth width doubles tree }
{
    let tree = tree?;
    takes(width, doubles, tree).then_some(Growth::Grows)
}
