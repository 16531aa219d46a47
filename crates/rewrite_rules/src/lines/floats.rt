//! The rows on floats.
ghost use Rattle.std.specs.Prelude.{◌≡◌, slice_get};
ghost use Rattle.rewrite_rules.specs.Lines.{shown_at};

use crate::lines::line_in;
use crate::table::TableLine;
use crate::table::floats::{
    CONVERSIONS, FLOAT_BITS, FLOAT_COPIES, FLOAT_ORDERS, FLOAT_SELVES, FLOAT_SIGNS, FLOAT_TESTS,
    FLOAT_TURNS, FLOATS,
};

// The lines of each constant, each of which stands once in memory.
static FLOATS_LINES: [TableLine; FLOATS.len()] = FLOATS;

static FLOAT_BITS_LINES: [TableLine; FLOAT_BITS.len()] = FLOAT_BITS;

static FLOAT_SIGNS_LINES: [TableLine; FLOAT_SIGNS.len()] = FLOAT_SIGNS;

static FLOAT_COPIES_LINES: [TableLine; FLOAT_COPIES.len()] = FLOAT_COPIES;

static FLOAT_TESTS_LINES: [TableLine; FLOAT_TESTS.len()] = FLOAT_TESTS;

static FLOAT_SELVES_LINES: [TableLine; FLOAT_SELVES.len()] = FLOAT_SELVES;

static FLOAT_TURNS_LINES: [TableLine; FLOAT_TURNS.len()] = FLOAT_TURNS;

static FLOAT_ORDERS_LINES: [TableLine; FLOAT_ORDERS.len()] = FLOAT_ORDERS;

static CONVERSIONS_LINES: [TableLine; CONVERSIONS.len()] = CONVERSIONS;

// The line with that number among those of each constant.
pub(crate) fn in_floats(number: usize) -> Option<&'static TableLine>
    ensures { shown_at result ≡ slice_get FLOATS number }
{
    line_in(&FLOATS_LINES, number)
}

pub(crate) fn in_float_bits(number: usize) -> Option<&'static TableLine>
    ensures { shown_at result ≡ slice_get FLOAT_BITS number }
{
    line_in(&FLOAT_BITS_LINES, number)
}

pub(crate) fn in_float_signs(number: usize) -> Option<&'static TableLine>
    ensures { shown_at result ≡ slice_get FLOAT_SIGNS number }
{
    line_in(&FLOAT_SIGNS_LINES, number)
}

pub(crate) fn in_float_copies(number: usize) -> Option<&'static TableLine>
    ensures { shown_at result ≡ slice_get FLOAT_COPIES number }
{
    line_in(&FLOAT_COPIES_LINES, number)
}

pub(crate) fn in_float_tests(number: usize) -> Option<&'static TableLine>
    ensures { shown_at result ≡ slice_get FLOAT_TESTS number }
{
    line_in(&FLOAT_TESTS_LINES, number)
}

pub(crate) fn in_float_selves(number: usize) -> Option<&'static TableLine>
    ensures { shown_at result ≡ slice_get FLOAT_SELVES number }
{
    line_in(&FLOAT_SELVES_LINES, number)
}

pub(crate) fn in_float_turns(number: usize) -> Option<&'static TableLine>
    ensures { shown_at result ≡ slice_get FLOAT_TURNS number }
{
    line_in(&FLOAT_TURNS_LINES, number)
}

pub(crate) fn in_float_orders(number: usize) -> Option<&'static TableLine>
    ensures { shown_at result ≡ slice_get FLOAT_ORDERS number }
{
    line_in(&FLOAT_ORDERS_LINES, number)
}

pub(crate) fn in_conversions(number: usize) -> Option<&'static TableLine>
    ensures { shown_at result ≡ slice_get CONVERSIONS number }
{
    line_in(&CONVERSIONS_LINES, number)
}
