//! The rows on vectors.
ghost use Rattle.std.specs.Prelude.{◌≡◌, slice_get};
ghost use Rattle.rewrite_rules.specs.Lines.{shown_at};

use crate::lines::line_in;
use crate::table::TableLine;
use crate::table::vectors::{
    LANE_COUNTS, LANE_FLOATS, LANE_MAGNITUDES, LANE_NEGATIVES, LANE_SHIFTS, LANE_SUMS, LANE_TURNS,
    LANE_ZEROS, SATURATED_LANES, SWIZZLES, VECTOR_BITS, VECTOR_DECIDED, VECTOR_FORMS,
};

// The lines of each constant, each of which stands once in memory.
static VECTOR_BITS_LINES: [TableLine; VECTOR_BITS.len()] = VECTOR_BITS;

static VECTOR_FORMS_LINES: [TableLine; VECTOR_FORMS.len()] = VECTOR_FORMS;

static LANE_SUMS_LINES: [TableLine; LANE_SUMS.len()] = LANE_SUMS;

static LANE_NEGATIVES_LINES: [TableLine; LANE_NEGATIVES.len()] = LANE_NEGATIVES;

static LANE_ZEROS_LINES: [TableLine; LANE_ZEROS.len()] = LANE_ZEROS;

static LANE_MAGNITUDES_LINES: [TableLine; LANE_MAGNITUDES.len()] = LANE_MAGNITUDES;

static LANE_SHIFTS_LINES: [TableLine; LANE_SHIFTS.len()] = LANE_SHIFTS;

static LANE_TURNS_LINES: [TableLine; LANE_TURNS.len()] = LANE_TURNS;

static LANE_FLOATS_LINES: [TableLine; LANE_FLOATS.len()] = LANE_FLOATS;

static VECTOR_DECIDED_LINES: [TableLine; VECTOR_DECIDED.len()] = VECTOR_DECIDED;

static SATURATED_LANES_LINES: [TableLine; SATURATED_LANES.len()] = SATURATED_LANES;

static LANE_COUNTS_LINES: [TableLine; LANE_COUNTS.len()] = LANE_COUNTS;

static SWIZZLES_LINES: [TableLine; SWIZZLES.len()] = SWIZZLES;

// The line with that number among those of each constant.
pub(crate) fn in_vector_bits(number: usize) -> Option<&'static TableLine>
    ensures { shown_at result ≡ slice_get VECTOR_BITS number }
{
    line_in(&VECTOR_BITS_LINES, number)
}

pub(crate) fn in_vector_forms(number: usize) -> Option<&'static TableLine>
    ensures { shown_at result ≡ slice_get VECTOR_FORMS number }
{
    line_in(&VECTOR_FORMS_LINES, number)
}

pub(crate) fn in_lane_sums(number: usize) -> Option<&'static TableLine>
    ensures { shown_at result ≡ slice_get LANE_SUMS number }
{
    line_in(&LANE_SUMS_LINES, number)
}

pub(crate) fn in_lane_negatives(number: usize) -> Option<&'static TableLine>
    ensures { shown_at result ≡ slice_get LANE_NEGATIVES number }
{
    line_in(&LANE_NEGATIVES_LINES, number)
}

pub(crate) fn in_lane_zeros(number: usize) -> Option<&'static TableLine>
    ensures { shown_at result ≡ slice_get LANE_ZEROS number }
{
    line_in(&LANE_ZEROS_LINES, number)
}

pub(crate) fn in_lane_magnitudes(number: usize) -> Option<&'static TableLine>
    ensures { shown_at result ≡ slice_get LANE_MAGNITUDES number }
{
    line_in(&LANE_MAGNITUDES_LINES, number)
}

pub(crate) fn in_lane_shifts(number: usize) -> Option<&'static TableLine>
    ensures { shown_at result ≡ slice_get LANE_SHIFTS number }
{
    line_in(&LANE_SHIFTS_LINES, number)
}

pub(crate) fn in_lane_turns(number: usize) -> Option<&'static TableLine>
    ensures { shown_at result ≡ slice_get LANE_TURNS number }
{
    line_in(&LANE_TURNS_LINES, number)
}

pub(crate) fn in_lane_floats(number: usize) -> Option<&'static TableLine>
    ensures { shown_at result ≡ slice_get LANE_FLOATS number }
{
    line_in(&LANE_FLOATS_LINES, number)
}

pub(crate) fn in_vector_decided(number: usize) -> Option<&'static TableLine>
    ensures { shown_at result ≡ slice_get VECTOR_DECIDED number }
{
    line_in(&VECTOR_DECIDED_LINES, number)
}

pub(crate) fn in_saturated_lanes(number: usize) -> Option<&'static TableLine>
    ensures { shown_at result ≡ slice_get SATURATED_LANES number }
{
    line_in(&SATURATED_LANES_LINES, number)
}

pub(crate) fn in_lane_counts(number: usize) -> Option<&'static TableLine>
    ensures { shown_at result ≡ slice_get LANE_COUNTS number }
{
    line_in(&LANE_COUNTS_LINES, number)
}

pub(crate) fn in_swizzles(number: usize) -> Option<&'static TableLine>
    ensures { shown_at result ≡ slice_get SWIZZLES number }
{
    line_in(&SWIZZLES_LINES, number)
}
