//! The lines on control flow.
ghost use Rattle.std.specs.Prelude.{◌≡◌, slice_get};
ghost use Rattle.rewrite_rules.specs.Lines.{shown_at};

use crate::lines::line_in;
use crate::table::TableLine;
use crate::table::control::CONTROL;

// The lines of each constant, each of which stands once in memory.
static CONTROL_LINES: [TableLine; CONTROL.len()] = CONTROL;

// The line with that number among those of each constant.
pub(crate) fn in_control(number: usize) -> Option<&'static TableLine>
    ensures { shown_at result ≡ slice_get CONTROL number }
{
    line_in(&CONTROL_LINES, number)
}
