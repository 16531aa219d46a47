//! The lines on loads, stores and constants.
ghost use Rattle.std.specs.Prelude.{◌≡◌, slice_get};
ghost use Rattle.rewrite_rules.specs.Lines.{shown_at};

use crate::lines::line_in;
use crate::table::TableLine;
use crate::table::accesses::{
    ACCESS_BITS, ACCESS_WIDTHS, ALIGNMENTS, CONSTANT_BITS, CONSTANTS, LOAD_SIGNS, STORE_SIGNS,
    WIDE_ACCESSES,
};

// The lines of each constant, each of which stands once in memory.
static ACCESS_BITS_LINES: [TableLine; ACCESS_BITS.len()] = ACCESS_BITS;

static ACCESS_WIDTHS_LINES: [TableLine; ACCESS_WIDTHS.len()] = ACCESS_WIDTHS;

static LOAD_SIGNS_LINES: [TableLine; LOAD_SIGNS.len()] = LOAD_SIGNS;

static STORE_SIGNS_LINES: [TableLine; STORE_SIGNS.len()] = STORE_SIGNS;

static ALIGNMENTS_LINES: [TableLine; ALIGNMENTS.len()] = ALIGNMENTS;

static CONSTANTS_LINES: [TableLine; CONSTANTS.len()] = CONSTANTS;

static CONSTANT_BITS_LINES: [TableLine; CONSTANT_BITS.len()] = CONSTANT_BITS;

static WIDE_ACCESSES_LINES: [TableLine; WIDE_ACCESSES.len()] = WIDE_ACCESSES;

// The line with that number among those of each constant.
pub(crate) fn in_access_bits(number: usize) -> Option<&'static TableLine>
    ensures { shown_at result ≡ slice_get ACCESS_BITS number }
{
    line_in(&ACCESS_BITS_LINES, number)
}

pub(crate) fn in_access_widths(number: usize) -> Option<&'static TableLine>
    ensures { shown_at result ≡ slice_get ACCESS_WIDTHS number }
{
    line_in(&ACCESS_WIDTHS_LINES, number)
}

pub(crate) fn in_load_signs(number: usize) -> Option<&'static TableLine>
    ensures { shown_at result ≡ slice_get LOAD_SIGNS number }
{
    line_in(&LOAD_SIGNS_LINES, number)
}

pub(crate) fn in_store_signs(number: usize) -> Option<&'static TableLine>
    ensures { shown_at result ≡ slice_get STORE_SIGNS number }
{
    line_in(&STORE_SIGNS_LINES, number)
}

pub(crate) fn in_alignments(number: usize) -> Option<&'static TableLine>
    ensures { shown_at result ≡ slice_get ALIGNMENTS number }
{
    line_in(&ALIGNMENTS_LINES, number)
}

pub(crate) fn in_constants(number: usize) -> Option<&'static TableLine>
    ensures { shown_at result ≡ slice_get CONSTANTS number }
{
    line_in(&CONSTANTS_LINES, number)
}

pub(crate) fn in_wide_accesses(number: usize) -> Option<&'static TableLine>
    ensures { shown_at result ≡ slice_get WIDE_ACCESSES number }
{
    line_in(&WIDE_ACCESSES_LINES, number)
}

pub(crate) fn in_constant_bits(number: usize) -> Option<&'static TableLine>
    ensures { shown_at result ≡ slice_get CONSTANT_BITS number }
{
    line_in(&CONSTANT_BITS_LINES, number)
}
