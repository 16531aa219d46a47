//! The rows on comparisons of lanes.
ghost use Rattle.std.specs.Prelude.{◌≡◌, slice_get};
ghost use Rattle.rewrite_rules.specs.Lines.{shown_at};

use crate::lines::line_in;
use crate::table::TableLine;
use crate::table::lane_tests::{
    FLOAT_LANE_BOUNDS, FLOAT_LANE_CHOICES, FLOAT_LANE_OPPOSITES, FLOAT_LANE_ORDERS, LANE_BOUNDS,
    LANE_CHOICES, LANE_COMPLEMENTS, LANE_OPPOSITES, LANE_ORDERS, LANE_REPEATS, WIDE_COMPLEMENTS,
    WIDE_OPPOSITES, WIDE_ORDERS,
};

// The lines of each constant, each of which stands once in memory.
static LANE_ORDERS_LINES: [TableLine; LANE_ORDERS.len()] = LANE_ORDERS;

static WIDE_ORDERS_LINES: [TableLine; WIDE_ORDERS.len()] = WIDE_ORDERS;

static LANE_OPPOSITES_LINES: [TableLine; LANE_OPPOSITES.len()] = LANE_OPPOSITES;

static WIDE_OPPOSITES_LINES: [TableLine; WIDE_OPPOSITES.len()] = WIDE_OPPOSITES;

static LANE_COMPLEMENTS_LINES: [TableLine; LANE_COMPLEMENTS.len()] = LANE_COMPLEMENTS;

static WIDE_COMPLEMENTS_LINES: [TableLine; WIDE_COMPLEMENTS.len()] = WIDE_COMPLEMENTS;

static LANE_BOUNDS_LINES: [TableLine; LANE_BOUNDS.len()] = LANE_BOUNDS;

static LANE_REPEATS_LINES: [TableLine; LANE_REPEATS.len()] = LANE_REPEATS;

static LANE_CHOICES_LINES: [TableLine; LANE_CHOICES.len()] = LANE_CHOICES;

static FLOAT_LANE_ORDERS_LINES: [TableLine; FLOAT_LANE_ORDERS.len()] = FLOAT_LANE_ORDERS;

static FLOAT_LANE_OPPOSITES_LINES: [TableLine; FLOAT_LANE_OPPOSITES.len()] = FLOAT_LANE_OPPOSITES;

static FLOAT_LANE_CHOICES_LINES: [TableLine; FLOAT_LANE_CHOICES.len()] = FLOAT_LANE_CHOICES;

static FLOAT_LANE_BOUNDS_LINES: [TableLine; FLOAT_LANE_BOUNDS.len()] = FLOAT_LANE_BOUNDS;

// The line with that number among those of each constant.
pub(crate) fn in_lane_orders(number: usize) -> Option<&'static TableLine>
    ensures { shown_at result ≡ slice_get LANE_ORDERS number }
{
    line_in(&LANE_ORDERS_LINES, number)
}

pub(crate) fn in_wide_orders(number: usize) -> Option<&'static TableLine>
    ensures { shown_at result ≡ slice_get WIDE_ORDERS number }
{
    line_in(&WIDE_ORDERS_LINES, number)
}

pub(crate) fn in_lane_opposites(number: usize) -> Option<&'static TableLine>
    ensures { shown_at result ≡ slice_get LANE_OPPOSITES number }
{
    line_in(&LANE_OPPOSITES_LINES, number)
}

pub(crate) fn in_wide_opposites(number: usize) -> Option<&'static TableLine>
    ensures { shown_at result ≡ slice_get WIDE_OPPOSITES number }
{
    line_in(&WIDE_OPPOSITES_LINES, number)
}

pub(crate) fn in_lane_complements(number: usize) -> Option<&'static TableLine>
    ensures { shown_at result ≡ slice_get LANE_COMPLEMENTS number }
{
    line_in(&LANE_COMPLEMENTS_LINES, number)
}

pub(crate) fn in_wide_complements(number: usize) -> Option<&'static TableLine>
    ensures { shown_at result ≡ slice_get WIDE_COMPLEMENTS number }
{
    line_in(&WIDE_COMPLEMENTS_LINES, number)
}

pub(crate) fn in_lane_bounds(number: usize) -> Option<&'static TableLine>
    ensures { shown_at result ≡ slice_get LANE_BOUNDS number }
{
    line_in(&LANE_BOUNDS_LINES, number)
}

pub(crate) fn in_lane_repeats(number: usize) -> Option<&'static TableLine>
    ensures { shown_at result ≡ slice_get LANE_REPEATS number }
{
    line_in(&LANE_REPEATS_LINES, number)
}

pub(crate) fn in_lane_choices(number: usize) -> Option<&'static TableLine>
    ensures { shown_at result ≡ slice_get LANE_CHOICES number }
{
    line_in(&LANE_CHOICES_LINES, number)
}

pub(crate) fn in_float_lane_orders(number: usize) -> Option<&'static TableLine>
    ensures { shown_at result ≡ slice_get FLOAT_LANE_ORDERS number }
{
    line_in(&FLOAT_LANE_ORDERS_LINES, number)
}

pub(crate) fn in_float_lane_opposites(number: usize) -> Option<&'static TableLine>
    ensures { shown_at result ≡ slice_get FLOAT_LANE_OPPOSITES number }
{
    line_in(&FLOAT_LANE_OPPOSITES_LINES, number)
}

pub(crate) fn in_float_lane_choices(number: usize) -> Option<&'static TableLine>
    ensures { shown_at result ≡ slice_get FLOAT_LANE_CHOICES number }
{
    line_in(&FLOAT_LANE_CHOICES_LINES, number)
}

pub(crate) fn in_float_lane_bounds(number: usize) -> Option<&'static TableLine>
    ensures { shown_at result ≡ slice_get FLOAT_LANE_BOUNDS number }
{
    line_in(&FLOAT_LANE_BOUNDS_LINES, number)
}
