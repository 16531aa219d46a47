//! What a line of the table makes of an operator.
ghost use Rattle.std.specs.Prelude.{◌↔◌, ◌<◌, length, IfSome, IfNone, IsTrue};
ghost use Rattle.body_rewrites.specs.Places.{context_of, HasItsLists, IsLine, IsFoundPlaceOf};
ghost use Rattle.body_rewrites.specs.Rewrites.{Differ};
ghost use Rattle.body_rewrites.specs.Writing.{by_line};
ghost use Rattle.body_rewrites.specs.LineMaking.{IsLineCodeOf, LineMakesNothing};

use crate::changes::NewCode;
use crate::differing::differ;
use crate::places::{Body, Line, Place, place_of};
use crate::writing::line_code;

/// Whether the line writes other operators in its place, which ends before `end`, than stand there.
pub(crate) fn changes(body: &Body<'_>, line: &Line, end: usize, place: &Place) -> bool
    requires lists { HasItsLists body.now }
    requires line { IsLine line.now }
    requires place { IsFoundPlaceOf
        (context_of body.now) body.now.operators.now line.now end place.now }
    ensures { IsTrue result ↔ Differ body.now.operators.now place.now.start end
        ((by_line line.now place.now).pieces 0) }
{
    let code = line_code(line, place, 0);
    differ(body.operators, body.trees, code.start, end, &code.pieces)
}

// What the line makes at the operator, by the word; none where it makes nothing.
pub(crate) fn line_made(body: &Body<'_>, line: &Line, at: usize, word: u64) -> Option<NewCode>
    requires lists { HasItsLists body.now }
    requires line { IsLine line.now }
    requires inside { at < length body.now.operators.now }
    ensures some { IfSome result (λ code. IsLineCodeOf body.now line.now at word code) }
    ensures none { IfNone result (LineMakesNothing body.now line.now at) }
{
    let Some(place) = place_of(body, line, at + 1) else {
        return None;
    };
    if !changes(body, line, at + 1, &place) {
        return None;
    }
    Some(line_code(line, &place, word))
}
