//! The rows on integers.
ghost use Rattle.std.specs.Prelude.{◌≡◌, slice_get};
ghost use Rattle.rewrite_rules.specs.Lines.{shown_at};

use crate::lines::line_in;
use crate::table::TableLine;
use crate::table::integers::{
    ABSORBED, AGAIN, ALONE, BACK, COUNTED, EQUALS, EXTENSION_MASKS, EXTENSION_MOVES, EXTENSIONS,
    FORMS, FRONT, GROUPS, HALVES, LONGER, NEUTRAL, OPPOSITES, ORDERS, PARTS, POWER_TESTS, POWERS,
    SETTLED, SHORTER, SIGN_TESTS, SIGNS, TESTS, TURNED, TWICE, UNDONE, ZERO_COUNTS,
};

// The lines of each constant, each of which stands once in memory.
static ORDERS_LINES: [TableLine; ORDERS.len()] = ORDERS;

static GROUPS_LINES: [TableLine; GROUPS.len()] = GROUPS;

static LONGER_LINES: [TableLine; LONGER.len()] = LONGER;

static FORMS_LINES: [TableLine; FORMS.len()] = FORMS;

static NEUTRAL_LINES: [TableLine; NEUTRAL.len()] = NEUTRAL;

static POWERS_LINES: [TableLine; POWERS.len()] = POWERS;

static TWICE_LINES: [TableLine; TWICE.len()] = TWICE;

static ALONE_LINES: [TableLine; ALONE.len()] = ALONE;

static TESTS_LINES: [TableLine; TESTS.len()] = TESTS;

static OPPOSITES_LINES: [TableLine; OPPOSITES.len()] = OPPOSITES;

static PARTS_LINES: [TableLine; PARTS.len()] = PARTS;

static SHORTER_LINES: [TableLine; SHORTER.len()] = SHORTER;

static BACK_LINES: [TableLine; BACK.len()] = BACK;

static FRONT_LINES: [TableLine; FRONT.len()] = FRONT;

static AGAIN_LINES: [TableLine; AGAIN.len()] = AGAIN;

static SIGNS_LINES: [TableLine; SIGNS.len()] = SIGNS;

static EQUALS_LINES: [TableLine; EQUALS.len()] = EQUALS;

static COUNTED_LINES: [TableLine; COUNTED.len()] = COUNTED;

static TURNED_LINES: [TableLine; TURNED.len()] = TURNED;

static ABSORBED_LINES: [TableLine; ABSORBED.len()] = ABSORBED;

static SETTLED_LINES: [TableLine; SETTLED.len()] = SETTLED;

static EXTENSIONS_LINES: [TableLine; EXTENSIONS.len()] = EXTENSIONS;

static EXTENSION_MASKS_LINES: [TableLine; EXTENSION_MASKS.len()] = EXTENSION_MASKS;

static EXTENSION_MOVES_LINES: [TableLine; EXTENSION_MOVES.len()] = EXTENSION_MOVES;

static SIGN_TESTS_LINES: [TableLine; SIGN_TESTS.len()] = SIGN_TESTS;

static POWER_TESTS_LINES: [TableLine; POWER_TESTS.len()] = POWER_TESTS;

static ZERO_COUNTS_LINES: [TableLine; ZERO_COUNTS.len()] = ZERO_COUNTS;

static HALVES_LINES: [TableLine; HALVES.len()] = HALVES;

static UNDONE_LINES: [TableLine; UNDONE.len()] = UNDONE;

// The line with that number among those of each constant.
pub(crate) fn in_orders(number: usize) -> Option<&'static TableLine>
    ensures { shown_at result ≡ slice_get ORDERS number }
{
    line_in(&ORDERS_LINES, number)
}

pub(crate) fn in_groups(number: usize) -> Option<&'static TableLine>
    ensures { shown_at result ≡ slice_get GROUPS number }
{
    line_in(&GROUPS_LINES, number)
}

pub(crate) fn in_longer(number: usize) -> Option<&'static TableLine>
    ensures { shown_at result ≡ slice_get LONGER number }
{
    line_in(&LONGER_LINES, number)
}

pub(crate) fn in_forms(number: usize) -> Option<&'static TableLine>
    ensures { shown_at result ≡ slice_get FORMS number }
{
    line_in(&FORMS_LINES, number)
}

pub(crate) fn in_neutral(number: usize) -> Option<&'static TableLine>
    ensures { shown_at result ≡ slice_get NEUTRAL number }
{
    line_in(&NEUTRAL_LINES, number)
}

pub(crate) fn in_powers(number: usize) -> Option<&'static TableLine>
    ensures { shown_at result ≡ slice_get POWERS number }
{
    line_in(&POWERS_LINES, number)
}

pub(crate) fn in_twice(number: usize) -> Option<&'static TableLine>
    ensures { shown_at result ≡ slice_get TWICE number }
{
    line_in(&TWICE_LINES, number)
}

pub(crate) fn in_alone(number: usize) -> Option<&'static TableLine>
    ensures { shown_at result ≡ slice_get ALONE number }
{
    line_in(&ALONE_LINES, number)
}

pub(crate) fn in_tests(number: usize) -> Option<&'static TableLine>
    ensures { shown_at result ≡ slice_get TESTS number }
{
    line_in(&TESTS_LINES, number)
}

pub(crate) fn in_opposites(number: usize) -> Option<&'static TableLine>
    ensures { shown_at result ≡ slice_get OPPOSITES number }
{
    line_in(&OPPOSITES_LINES, number)
}

pub(crate) fn in_parts(number: usize) -> Option<&'static TableLine>
    ensures { shown_at result ≡ slice_get PARTS number }
{
    line_in(&PARTS_LINES, number)
}

pub(crate) fn in_shorter(number: usize) -> Option<&'static TableLine>
    ensures { shown_at result ≡ slice_get SHORTER number }
{
    line_in(&SHORTER_LINES, number)
}

pub(crate) fn in_back(number: usize) -> Option<&'static TableLine>
    ensures { shown_at result ≡ slice_get BACK number }
{
    line_in(&BACK_LINES, number)
}

pub(crate) fn in_front(number: usize) -> Option<&'static TableLine>
    ensures { shown_at result ≡ slice_get FRONT number }
{
    line_in(&FRONT_LINES, number)
}

pub(crate) fn in_again(number: usize) -> Option<&'static TableLine>
    ensures { shown_at result ≡ slice_get AGAIN number }
{
    line_in(&AGAIN_LINES, number)
}

pub(crate) fn in_signs(number: usize) -> Option<&'static TableLine>
    ensures { shown_at result ≡ slice_get SIGNS number }
{
    line_in(&SIGNS_LINES, number)
}

pub(crate) fn in_equals(number: usize) -> Option<&'static TableLine>
    ensures { shown_at result ≡ slice_get EQUALS number }
{
    line_in(&EQUALS_LINES, number)
}

pub(crate) fn in_counted(number: usize) -> Option<&'static TableLine>
    ensures { shown_at result ≡ slice_get COUNTED number }
{
    line_in(&COUNTED_LINES, number)
}

pub(crate) fn in_turned(number: usize) -> Option<&'static TableLine>
    ensures { shown_at result ≡ slice_get TURNED number }
{
    line_in(&TURNED_LINES, number)
}

pub(crate) fn in_absorbed(number: usize) -> Option<&'static TableLine>
    ensures { shown_at result ≡ slice_get ABSORBED number }
{
    line_in(&ABSORBED_LINES, number)
}

pub(crate) fn in_settled(number: usize) -> Option<&'static TableLine>
    ensures { shown_at result ≡ slice_get SETTLED number }
{
    line_in(&SETTLED_LINES, number)
}

pub(crate) fn in_extensions(number: usize) -> Option<&'static TableLine>
    ensures { shown_at result ≡ slice_get EXTENSIONS number }
{
    line_in(&EXTENSIONS_LINES, number)
}

pub(crate) fn in_extension_masks(number: usize) -> Option<&'static TableLine>
    ensures { shown_at result ≡ slice_get EXTENSION_MASKS number }
{
    line_in(&EXTENSION_MASKS_LINES, number)
}

pub(crate) fn in_extension_moves(number: usize) -> Option<&'static TableLine>
    ensures { shown_at result ≡ slice_get EXTENSION_MOVES number }
{
    line_in(&EXTENSION_MOVES_LINES, number)
}

pub(crate) fn in_sign_tests(number: usize) -> Option<&'static TableLine>
    ensures { shown_at result ≡ slice_get SIGN_TESTS number }
{
    line_in(&SIGN_TESTS_LINES, number)
}

pub(crate) fn in_power_tests(number: usize) -> Option<&'static TableLine>
    ensures { shown_at result ≡ slice_get POWER_TESTS number }
{
    line_in(&POWER_TESTS_LINES, number)
}

pub(crate) fn in_zero_counts(number: usize) -> Option<&'static TableLine>
    ensures { shown_at result ≡ slice_get ZERO_COUNTS number }
{
    line_in(&ZERO_COUNTS_LINES, number)
}

pub(crate) fn in_halves(number: usize) -> Option<&'static TableLine>
    ensures { shown_at result ≡ slice_get HALVES number }
{
    line_in(&HALVES_LINES, number)
}

pub(crate) fn in_undone(number: usize) -> Option<&'static TableLine>
    ensures { shown_at result ≡ slice_get UNDONE number }
{
    line_in(&UNDONE_LINES, number)
}
