//! What a row of the table makes of an operator.
ghost use Rattle.std.specs.Prelude.{◌<◌, length, IfSome, IfNone};
ghost use Rattle.body_rewrites.specs.Places.{HasItsLists};
ghost use Rattle.body_rewrites.specs.Rewrites.{HasLine, IsCodeOf, MakesNothing};

use crate::changes::NewCode;
use crate::line_making::line_made;
use crate::own::rewriting::own_code;
use crate::places::{Body, Line};
use rewrite_rules::Widths;

/// What the line makes at the operator, by the word; none where it makes nothing.
pub fn made(body: &Body<'_>, line: &Line, at: usize, word: u64) -> Option<NewCode>
    requires lists { HasItsLists body.now }
    requires line { HasLine line.now }
    requires inside { at < length body.now.operators.now }
    ensures some { IfSome result (λ code. IsCodeOf body.now line.now at word code) }
    ensures none { IfNone result (MakesNothing body.now line.now at) }
{
    match line.row.widths() {
        Widths::Own(own) => own_code(body, own, at, word),
        Widths::Both => line_made(body, line, at, word),
        Widths::Only(_) => line_made(body, line, at, word),
        Widths::Any => line_made(body, line, at, word),
        Widths::Operands(_, _, _) => line_made(body, line, at, word),
    }
}
