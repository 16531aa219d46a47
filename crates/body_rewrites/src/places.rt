//! Where a line of the table applies in a body.
ghost use Rattle.std.specs.Prelude.{◌≡◌, ◌≤◌, ℕ, List, length, IfSome, IfNone};
ghost use Rattle.wasm_code.specs.declared.operator.Operator.{Operator as BodyOperator};
ghost use Rattle.wasm_execution.specs.Values.{Context};
ghost use Rattle.rewrite_rules.specs.declared.pattern.Part.{Part};
ghost use Rattle.body_rewrites.specs.Trees.{AreTrees};
ghost use Rattle.body_rewrites.specs.Cutting.{AreCut};
ghost use Rattle.body_rewrites.specs.Matching.{begin_of};
ghost use Rattle.body_rewrites.specs.Places.{context_of, HasItsLists, IsLine, IsFoundPlaceOf, HasSomePlace, meant, hole_places_told, type_told, effects_told, AreKnown};

use crate::blocks::Blocks;
use crate::laws::lefts_are_instances;
use crate::matching::{find, operand, operand_at};
use crate::parts::Parts;
use crate::trees::Tree;
use rewrite_rules::laws::{holes_are_told, parts_are_the_code, sides_are_parts, table_is_right};
use rewrite_rules::{Effects, Found, TableRow};
use wasm_code::OperatorAndByteOffset;
use wasm_execution::IntegerType;
use wasm_types::{ModuleInfo, PrimitiveTypeInfo};

/// A line of the table: a row, for one of its widths.
#[derive(Drop)]
pub struct Line {
    pub row: TableRow,
    pub width: IntegerType,
}

/// Where a line's left side stands in a body.
#[derive(Clone, Copy, Debug, PartialEq, Eq)]
pub struct Place {
    /// The first operator of it.
    pub start: usize,
    /// For each hole the first operator of the operand in it, and the one behind the last; 0 and 0 where the line has no such hole.
    pub operands: [(usize, usize); 3],
    /// The numbers of the constants, and 0 where the line has no such constant.
    pub numbers: [u64; 2],
}

/// A body: the module, the types of the function's parameters and locals, the operators, their trees (see `trees_of`), and the
/// blocks (see `blocks_of`).
#[derive(Clone, Copy)]
pub struct Body<'a> {
    pub info: &'a ModuleInfo<'a>,
    pub locals: &'a [PrimitiveTypeInfo],
    pub operators: &'a [OperatorAndByteOffset],
    pub trees: &'a [Option<Tree>],
    pub blocks: &'a Blocks,
}

// What is known of the operands in the holes.
#[derive(Clone, Copy)]
struct Known {
    types: [Option<PrimitiveTypeInfo>; 3],
    effects: [Effects; 3],
}

// What the code of an operand may do; nothing where there is no operand.
fn effects_of(tree: Option<Tree>) -> Effects
    ensures { result ≡ effects_told tree }
{
    match tree {
        Some(tree) => Effects {
            writes: tree.writes,
            traps: tree.traps,
            asks: tree.asks,
        },
        None => Effects {
            writes: false,
            traps: false,
            asks: false,
        },
    }
}

// The type of an operand's value.
fn type_of(tree: Option<Tree>) -> Option<PrimitiveTypeInfo>
    ensures { result ≡ type_told tree }
{
    match tree {
        Some(tree) => Some(tree.gives),
        None => None,
    }
}

// Which operators stand in each hole.
fn operands_of(parts: &Parts<'_>, starts: &[usize], end: usize) -> [(usize, usize); 3]
    requires { length starts.now ≡ length parts.now }
    ensures { result ≡ hole_places_told parts.now starts.now end }
{
    [
        operand_at(parts, starts, end, 0),
        operand_at(parts, starts, end, 1),
        operand_at(parts, starts, end, 2),
    ]
}

// What is known of the operands in the holes, which stand there.
fn known_of(trees: &[Option<Tree>], operands: [(usize, usize); 3]) -> Known
    ensures { (context : Context) (operators : List (BodyOperator × ℕ))
        (parts : List Part) (starts : List ℕ) (end : ℕ)
        → operands ≡ hole_places_told parts starts end
        → AreTrees context operators trees.now
        → AreCut context operators parts starts end
        → AreKnown context operators parts starts end result.types result.effects }
{
    let one = operand(trees, operands[0]);
    let two = operand(trees, operands[1]);
    let three = operand(trees, operands[2]);
    Known {
        types: [type_of(one), type_of(two), type_of(three)],
        effects: [effects_of(one), effects_of(two), effects_of(three)],
    }
}

// Where the first part begins; where there is none, the end.
fn start_of(starts: &[usize], end: usize) -> usize
    ensures { result ≡ begin_of starts.now end }
{
    match starts.last() {
        Some(start) => *start,
        None => end,
    }
}

/// Whether what runs the body's module is exact.
pub(crate) fn is_exact(body: &Body<'_>) -> bool
    ensures { result ≡ (context_of body.now).info.exact }
{
    let info = body.info;
    info.exact
}

/// Where the line stands in the body before `end`, and applies; none where it doesn't. The operands in its holes are trees.
///
/// It takes time linear in what stands in a hole that stands twice, and else none that depends on the body.
pub fn place_of(body: &Body<'_>, line: &Line, end: usize) -> Option<Place>
    requires lists { HasItsLists body.now }
    requires line { IsLine line.now }
    requires inside { end ≤ length body.now.operators.now }
    ensures some { IfSome result (λ place.
        IsFoundPlaceOf (context_of body.now) body.now.operators.now line.now end place) }
    ensures none { IfNone result
        (¬ (HasSomePlace (context_of body.now) body.now.operators.now (meant line.now) end)) }
{
    table_is_right();
    holes_are_told();
    sides_are_parts();
    parts_are_the_code();
    lefts_are_instances();
    let parts = Parts::new(line.row.left(), line.width);
    let Some(found) = find(body.operators, body.trees, &parts, end) else {
        return None;
    };
    let starts = found.starts.as_slice();
    let operands = operands_of(&parts, starts, end);
    let known = known_of(body.trees, operands);
    let told = Found {
        types: &known.types,
        effects: &known.effects,
        numbers: &found.numbers,
        exact: is_exact(body),
    };
    if !line.row.applies(line.width, &told) {
        return None;
    }
    Some(Place {
        start: start_of(starts, end),
        operands,
        numbers: found.numbers,
    })
}
