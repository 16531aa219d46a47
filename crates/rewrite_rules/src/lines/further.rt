//! The rows behind all others.
ghost use Rattle.std.specs.Prelude.{◌≡◌, slice_get};
ghost use Rattle.rewrite_rules.specs.Lines.{shown_at};

use crate::lines::line_in;
use crate::table::TableLine;
use crate::table::further::FURTHER;

// The lines of each constant, each of which stands once in memory.
static FURTHER_LINES: [TableLine; FURTHER.len()] = FURTHER;

// The line with that number among those of each constant.
pub(crate) fn in_further(number: usize) -> Option<&'static TableLine>
    ensures { shown_at result ≡ slice_get FURTHER number }
{
    line_in(&FURTHER_LINES, number)
}
