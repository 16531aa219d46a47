//! What a line of the table does to the number of operators at an operator.
ghost use Rattle.std.specs.Prelude.{◌≡◌, ◌<◌, length, slice_range, IfSome, IfNone};
ghost use Rattle.body_rewrites.specs.Asking.{IsAskedSo, IsHere};
ghost use Rattle.body_rewrites.specs.Listing.{LineGrows};
ghost use Rattle.body_rewrites.specs.Places.{context_of, HasItsLists, IsLine};
ghost use Rattle.body_splices.specs.OwnBytes.{without_offsets};
ghost use Rattle.rewrite_rules.specs.Table.{parts_for};
ghost use Rattle.body_rewrites.specs.Rewrites.{MakesNothing, growth_by_sizes};
ghost use Rattle.body_rewrites.specs.Writing.{part_count, parts_count};
ghost use Rattle.body_rewrites.specs.LineMaking.{LineMakesNothing, LineChangeGrows};

use crate::alone::alone_growth;
use crate::asked::{Asked, Form};
use crate::cutting::tree_at;
use crate::growth::Growth;
use crate::here::Here;
use crate::laws::{lefts_are_instances, trees_leave};
use crate::line_making::changes;
use crate::own::growing::own_growth;
use crate::places::{Body, Line, Place, place_of};
use crate::roots::fits;
use crate::writing::operand_in;
use rewrite_rules::laws::{
    holes_are_told, parts_are_the_code, sides_are_parts, table_is_right, types_are_told,
};
use rewrite_rules::{Part, Step};
use wasm_code::OperatorAndByteOffset;
use wasm_execution::IntegerType;

// How many operators of the body stand from `start` to before `end`.
fn count_in(operators: &[OperatorAndByteOffset], start: usize, end: usize) -> usize
    ensures { result ≡ length (slice_range (without_offsets operators.now) start end) }
{
    end.min(operators.len()).saturating_sub(start)
}

// How many operators the part of a right side is.
fn part_count(operators: &[OperatorAndByteOffset], place: &Place, part: Part) -> usize
    ensures { result ≡ part_count operators.now place.now.operands part }
{
    match part {
        Part::Hole(index) => {
            let (start, end) = operand_in(place, index);
            count_in(operators, start, end)
        }
        _ => 1,
    }
}

// What becomes of a number of which so many are left.
fn rest_growth(left: usize) -> Growth
    ensures { result ≡ growth_by_sizes left 0 }
{
    if left == 0 {
        return Growth::Keeps;
    }
    Growth::Shrinks
}

// What becomes of the number where the side stands for so many operators.
fn side_growth(
    operators: &[OperatorAndByteOffset],
    side: &[Step],
    width: IntegerType,
    place: &Place,
    old: usize,
) -> Growth
    ensures { result ≡ growth_by_sizes old
        (parts_count operators.now place.now.operands (parts_for width side.now)) }
{
    let mut left = old;
    for i in 0..side.len() {
        let Some(part) = side[i].part(width) else {
            return rest_growth(left);
        };
        let count = part_count(operators, place, part);
        if count > left {
            return Growth::Grows;
        }
        left -= count;
    }
    rest_growth(left)
}

// What a line that is none of the others does.
fn other_growth(body: &Body<'_>, line: &Line, at: usize) -> Option<Growth>
    requires lists { HasItsLists body.now }
    requires line { IsLine line.now }
    requires inside { at < length body.now.operators.now }
    ensures some { IfSome result (λ growth.
        LineChangeGrows (context_of body.now) body.now.operators.now line.now at growth) }
    ensures none { IfNone result (LineMakesNothing body.now line.now at) }
{
    let Some(place) = place_of(body, line, at + 1) else {
        return None;
    };
    let old = (at + 1).saturating_sub(place.start);
    match side_growth(body.operators, line.row.right(), line.width, &place, old) {
        Growth::Shrinks => Some(Growth::Shrinks),
        Growth::Keeps => {
            if !changes(body, line, at + 1, &place) {
                return None;
            }
            Some(Growth::Keeps)
        }
        Growth::Grows => Some(Growth::Grows),
    }
}

// What the line does to the number of operators at the operator; none where it makes nothing there.
fn line_growth(body: &Body<'_>, asked: &Asked, at: usize) -> Option<Growth>
    requires lists { HasItsLists body.now }
    requires asked { IsAskedSo asked.now }
    requires inside { at < length body.now.operators.now }
    ensures some { IfSome result (λ growth.
        LineGrows (context_of body.now) body.now.operators.now asked.now.line at growth) }
    ensures none { IfNone result (MakesNothing body.now asked.now.line at) }
{
    types_are_told();
    holes_are_told();
    table_is_right();
    sides_are_parts();
    parts_are_the_code();
    lefts_are_instances();
    trees_leave();
    match asked.form {
        Form::Own(own) => own_growth(body, own, at),
        Form::Alone(doubles) => { alone_growth(asked.line.width, doubles, tree_at(body.trees, at)) }
        Form::Other => other_growth(body, &asked.line, at),
    }
}

/// What the line does to the number of operators at the operator; none where it makes nothing there.
pub(crate) fn growth_here(body: &Body<'_>, asked: &Asked, here: Here) -> Option<Growth>
    requires lists { HasItsLists body.now }
    requires asked { IsAskedSo asked.now }
    requires here { IsHere (context_of body.now) body.now.operators.now here }
    ensures some { IfSome result (λ growth. LineGrows
        (context_of body.now) body.now.operators.now asked.now.line here.at growth) }
    ensures none { IfNone result (MakesNothing body.now asked.now.line here.at) }
{
    if !fits(asked.root, here.class, here.is_tree) {
        return None;
    }
    line_growth(body, asked, here.at)
}
