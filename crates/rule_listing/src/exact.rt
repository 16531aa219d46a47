//! Whether a rule needs an engine that is exact: that does what the standard says on floats, vectors and memories.
ghost use Rattle.std.specs.Prelude.{◌≡◌, ◌↔◌, ℕ, Some, IsTrue, slice_get};
ghost use Rattle.rewrite_rules.specs.declared.table.Row.{Row};
ghost use Rattle.rewrite_rules.specs.Names.{rule_of};
ghost use Rattle.rewrite_rules.specs.Table.{ROWS};
ghost use Rattle.rule_listing.specs.Listing.{NeedsExact, is_exact_row, exact_word, exact_cell};

use crate::growth::is_of;
use rewrite_rules::{TableRow, Widths, row_count};

/// The word for it, behind others.
pub(crate) fn exact_word(exact: bool) -> &'static str
    ensures { result.now ≡ exact_word exact }
{
    if exact { " --exact" } else { "" }
}

/// The same in a cell of a table.
pub(crate) fn exact_cell(exact: bool) -> &'static str
    ensures { result.now ≡ exact_cell exact }
{
    if exact { "`--exact` " } else { "" }
}

// Whether the row does.
fn is_exact_row(row: &TableRow) -> bool
    ensures { result ≡ is_exact_row row.now }
{
    match row.widths() {
        Widths::Own(own) => own.needs_exact(),
        Widths::Both => row.needs_exact(),
        Widths::Only(_) => row.needs_exact(),
        Widths::Any => row.needs_exact(),
        Widths::Operands(_, _, _) => row.needs_exact(),
    }
}

// Whether the row with that index, if it is one of the rule, does.
fn row_needs_exact(rules: &[u16], index: usize, rule: usize) -> bool
    requires { (n : ℕ) → slice_get rules.now n ≡ rule_of n }
    ensures { IsTrue result ↔ ((row : Row) → rule_of index ≡ Some rule
        → slice_get ROWS index ≡ Some row → IsTrue (is_exact_row row)) }
{
    if !is_of(rules, index, rule) {
        return true;
    }
    match TableRow::numbered(index) {
        Some(row) => is_exact_row(&row),
        None => true,
    }
}

/// Whether each row of the rule does.
pub(crate) fn rule_needs_exact(rules: &[u16], rule: usize) -> bool
    requires { (n : ℕ) → slice_get rules.now n ≡ rule_of n }
    ensures { IsTrue result ↔ NeedsExact rule }
{
    for index in 0..row_count() {
        if !row_needs_exact(rules, index, rule) {
            return false;
        }
    }
    true
}
