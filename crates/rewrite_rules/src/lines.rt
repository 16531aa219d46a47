//! The lines of the table by their numbers.
ghost use Rattle.std.specs.Prelude.{◌≡◌, ◌<◌, ◌≤◌, ◌+◌, ℕ, length, get_or, map, option_map, slice_get};
ghost use Rattle.rewrite_rules.specs.declared.lines.TheConstants.{STARTS};
ghost use Rattle.rewrite_rules.specs.Table.{part_at, entries, ROWS};
ghost use Rattle.rewrite_rules.specs.Lines.{shown, shown_at};
ghost use Rattle.rewrite_rules.specs.Names.{begin_at};

mod accesses;
mod control;
mod floats;
mod further;
mod integers;
mod lane_moves;
mod lane_tests;
mod vectors;

use crate::lines::accesses::{
    in_access_bits, in_access_widths, in_alignments, in_constant_bits, in_constants, in_load_signs,
    in_store_signs, in_wide_accesses,
};
use crate::lines::control::in_control;
use crate::lines::floats::{
    in_conversions, in_float_bits, in_float_copies, in_float_orders, in_float_selves,
    in_float_signs, in_float_tests, in_float_turns, in_floats,
};
use crate::lines::further::in_further;
use crate::lines::integers::{
    in_absorbed, in_again, in_alone, in_back, in_counted, in_equals, in_extension_masks,
    in_extension_moves, in_extensions, in_forms, in_front, in_groups, in_halves, in_longer,
    in_neutral, in_opposites, in_orders, in_parts, in_power_tests, in_powers, in_settled,
    in_shorter, in_sign_tests, in_signs, in_tests, in_turned, in_twice, in_undone, in_zero_counts,
};
use crate::lines::lane_moves::{
    in_extended_lanes, in_lane_bits, in_lane_conversions, in_lane_splats, in_masked_lanes,
    in_narrowed_lanes, in_replaced_bits, in_signed_lanes, in_splat_bits, in_unmasked_lanes,
};
use crate::lines::lane_tests::{
    in_float_lane_bounds, in_float_lane_choices, in_float_lane_opposites, in_float_lane_orders,
    in_lane_bounds, in_lane_choices, in_lane_complements, in_lane_opposites, in_lane_orders,
    in_lane_repeats, in_wide_complements, in_wide_opposites, in_wide_orders,
};
use crate::lines::vectors::{
    in_lane_counts, in_lane_floats, in_lane_magnitudes, in_lane_negatives, in_lane_shifts,
    in_lane_sums, in_lane_turns, in_lane_zeros, in_saturated_lanes, in_swizzles, in_vector_bits,
    in_vector_decided, in_vector_forms,
};
use crate::table::further::FURTHER;
use crate::table::{Row, TableLine};

// The line with that number among these.
fn line_in(lines: &'static [TableLine], number: usize) -> Option<&'static TableLine>
    ensures { shown_at result ≡ slice_get (map shown lines.now) number }
{
    lines.get(number)
}

// The same, by the number of the constant.
fn line_of(part: usize, number: usize) -> Option<&'static TableLine>
    ensures { shown_at result ≡ slice_get (part_at part) number }
{
    match part {
        0 => in_orders(number),
        1 => in_groups(number),
        2 => in_longer(number),
        3 => in_forms(number),
        4 => in_neutral(number),
        5 => in_powers(number),
        6 => in_twice(number),
        7 => in_alone(number),
        8 => in_tests(number),
        9 => in_opposites(number),
        10 => in_parts(number),
        11 => in_shorter(number),
        12 => in_back(number),
        13 => in_front(number),
        14 => in_again(number),
        15 => in_signs(number),
        16 => in_equals(number),
        17 => in_counted(number),
        18 => in_turned(number),
        19 => in_absorbed(number),
        20 => in_settled(number),
        21 => in_floats(number),
        22 => in_float_bits(number),
        23 => in_float_signs(number),
        24 => in_float_copies(number),
        25 => in_float_tests(number),
        26 => in_float_selves(number),
        27 => in_float_turns(number),
        28 => in_float_orders(number),
        29 => in_vector_bits(number),
        30 => in_vector_forms(number),
        31 => in_lane_sums(number),
        32 => in_lane_negatives(number),
        33 => in_lane_zeros(number),
        34 => in_lane_magnitudes(number),
        35 => in_lane_orders(number),
        36 => in_wide_orders(number),
        37 => in_lane_opposites(number),
        38 => in_wide_opposites(number),
        39 => in_lane_complements(number),
        40 => in_wide_complements(number),
        41 => in_lane_bounds(number),
        42 => in_lane_repeats(number),
        43 => in_lane_choices(number),
        44 => in_lane_shifts(number),
        45 => in_lane_turns(number),
        46 => in_lane_floats(number),
        47 => in_lane_splats(number),
        48 => in_lane_bits(number),
        49 => in_splat_bits(number),
        50 => in_signed_lanes(number),
        51 => in_extended_lanes(number),
        52 => in_vector_decided(number),
        53 => in_access_bits(number),
        54 => in_access_widths(number),
        55 => in_load_signs(number),
        56 => in_store_signs(number),
        57 => in_alignments(number),
        58 => in_constants(number),
        59 => in_extensions(number),
        60 => in_extension_masks(number),
        61 => in_extension_moves(number),
        62 => in_sign_tests(number),
        63 => in_power_tests(number),
        64 => in_zero_counts(number),
        65 => in_halves(number),
        66 => in_undone(number),
        67 => in_float_lane_orders(number),
        68 => in_float_lane_opposites(number),
        69 => in_float_lane_choices(number),
        70 => in_saturated_lanes(number),
        71 => in_lane_counts(number),
        72 => in_narrowed_lanes(number),
        73 => in_lane_conversions(number),
        74 => in_conversions(number),
        75 => in_replaced_bits(number),
        76 => in_masked_lanes(number),
        77 => in_unmasked_lanes(number),
        78 => in_swizzles(number),
        79 => in_wide_accesses(number),
        80 => in_float_lane_bounds(number),
        81 => in_control(number),
        82 => in_constant_bits(number),
        83 => in_further(number),
        _ => None,
    }
}

// Where the lines of each constant begin in the table.
const STARTS: [usize; 84] = [
    0, 15, 25, 35, 46, 62, 70, 77, 83, 95, 105, 120, 126, 137, 148, 165, 181, 196, 212, 216, 230,
    249, 269, 289, 307, 319, 339, 351, 375, 387, 406, 424, 445, 469, 489, 505, 525, 541, 561, 577,
    597, 613, 625, 649, 673, 697, 721, 741, 765, 789, 809, 833, 857, 871, 887, 913, 933, 953, 1001,
    1007, 1032, 1052, 1060, 1070, 1074, 1080, 1084, 1094, 1106, 1114, 1122, 1140, 1164, 1172, 1188,
    1208, 1232, 1256, 1280, 1282, 1290, 1298, 1330, 1334,
];

// The number of the constant among whose lines one with that number stands; behind them all, the last one.
fn part_of(number: usize) -> usize
    ensures inside { result < length STARTS }
    ensures begins { get_or STARTS result 0 ≤ number }
    ensures ends { (after : ℕ) → after ≡ result + 1 → after < length STARTS
        → number < get_or STARTS after 0 }
{
    let mut low = 0;
    let mut high = STARTS.len();
    while high - low > 1 {
        let middle = low + (high - low) / 2;
        if STARTS[middle] <= number {
            low = middle;
        } else {
            high = middle;
        }
    }
    low
}

// The line with that number in the table.
pub(crate) fn line_at(number: usize) -> Option<&'static TableLine>
    ensures { shown_at result ≡ slice_get entries number }
{
    let part = part_of(number);
    line_of(part, number - STARTS[part])
}

/// The row with that number, from 0 on; none where there are fewer.
pub fn row_at(number: usize) -> Option<Row>
    ensures { result ≡ slice_get ROWS number }
{
    let (_, widths, condition, left, right) = *line_at(number)?;
    Some(Row {
        widths,
        condition,
        left,
        right,
    })
}

// The name of the rule that begins with the line with that number, where one does.
pub(crate) fn name_at(number: usize) -> Option<&'static str>
    ensures { option_map (λ name. name.now) result ≡ begin_at number }
{
    line_at(number)?.0
}

// How many lines there are.
const LINE_COUNT: usize = 1334 + FURTHER.len();

/// How many rows there are.
pub fn row_count() -> usize
    ensures { result ≡ length ROWS }
{
    LINE_COUNT
}
