//! The rows on lanes that are moved or converted.
ghost use Rattle.std.specs.Prelude.{◌≡◌, slice_get};
ghost use Rattle.rewrite_rules.specs.Lines.{shown_at};

use crate::lines::line_in;
use crate::table::TableLine;
use crate::table::lane_moves::{
    EXTENDED_LANES, LANE_BITS, LANE_CONVERSIONS, LANE_SPLATS, MASKED_LANES, NARROWED_LANES,
    REPLACED_BITS, SIGNED_LANES, SPLAT_BITS, UNMASKED_LANES,
};

// The lines of each constant, each of which stands once in memory.
static LANE_SPLATS_LINES: [TableLine; LANE_SPLATS.len()] = LANE_SPLATS;

static LANE_BITS_LINES: [TableLine; LANE_BITS.len()] = LANE_BITS;

static SPLAT_BITS_LINES: [TableLine; SPLAT_BITS.len()] = SPLAT_BITS;

static SIGNED_LANES_LINES: [TableLine; SIGNED_LANES.len()] = SIGNED_LANES;

static EXTENDED_LANES_LINES: [TableLine; EXTENDED_LANES.len()] = EXTENDED_LANES;

static NARROWED_LANES_LINES: [TableLine; NARROWED_LANES.len()] = NARROWED_LANES;

static LANE_CONVERSIONS_LINES: [TableLine; LANE_CONVERSIONS.len()] = LANE_CONVERSIONS;

static REPLACED_BITS_LINES: [TableLine; REPLACED_BITS.len()] = REPLACED_BITS;

static MASKED_LANES_LINES: [TableLine; MASKED_LANES.len()] = MASKED_LANES;

static UNMASKED_LANES_LINES: [TableLine; UNMASKED_LANES.len()] = UNMASKED_LANES;

// The line with that number among those of each constant.
pub(crate) fn in_lane_splats(number: usize) -> Option<&'static TableLine>
    ensures { shown_at result ≡ slice_get LANE_SPLATS number }
{
    line_in(&LANE_SPLATS_LINES, number)
}

pub(crate) fn in_lane_bits(number: usize) -> Option<&'static TableLine>
    ensures { shown_at result ≡ slice_get LANE_BITS number }
{
    line_in(&LANE_BITS_LINES, number)
}

pub(crate) fn in_splat_bits(number: usize) -> Option<&'static TableLine>
    ensures { shown_at result ≡ slice_get SPLAT_BITS number }
{
    line_in(&SPLAT_BITS_LINES, number)
}

pub(crate) fn in_signed_lanes(number: usize) -> Option<&'static TableLine>
    ensures { shown_at result ≡ slice_get SIGNED_LANES number }
{
    line_in(&SIGNED_LANES_LINES, number)
}

pub(crate) fn in_extended_lanes(number: usize) -> Option<&'static TableLine>
    ensures { shown_at result ≡ slice_get EXTENDED_LANES number }
{
    line_in(&EXTENDED_LANES_LINES, number)
}

pub(crate) fn in_narrowed_lanes(number: usize) -> Option<&'static TableLine>
    ensures { shown_at result ≡ slice_get NARROWED_LANES number }
{
    line_in(&NARROWED_LANES_LINES, number)
}

pub(crate) fn in_lane_conversions(number: usize) -> Option<&'static TableLine>
    ensures { shown_at result ≡ slice_get LANE_CONVERSIONS number }
{
    line_in(&LANE_CONVERSIONS_LINES, number)
}

pub(crate) fn in_replaced_bits(number: usize) -> Option<&'static TableLine>
    ensures { shown_at result ≡ slice_get REPLACED_BITS number }
{
    line_in(&REPLACED_BITS_LINES, number)
}

pub(crate) fn in_masked_lanes(number: usize) -> Option<&'static TableLine>
    ensures { shown_at result ≡ slice_get MASKED_LANES number }
{
    line_in(&MASKED_LANES_LINES, number)
}

pub(crate) fn in_unmasked_lanes(number: usize) -> Option<&'static TableLine>
    ensures { shown_at result ≡ slice_get UNMASKED_LANES number }
{
    line_in(&UNMASKED_LANES_LINES, number)
}
