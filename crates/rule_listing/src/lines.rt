//! The texts of a rule's rows.
ghost use Rattle.std.specs.Prelude.{◌≡◌, ℕ, length, IfOk, slice_get};
ghost use Rattle.rewrite_rules.specs.Names.{rule_of};
ghost use Rattle.rewrite_rules.specs.Table.{ROWS};
ghost use Rattle.rule_listing.specs.Listing.{rows_among};

use crate::growth::is_of;
use rewrite_rules::{row_at, row_count};
use std::alloc::{AllocError, Global};

// The text of the row with that index.
fn row_text(alloc: Global, index: usize) -> Result<String, AllocError> {
    match row_at(index) {
        Some(row) => format!(in alloc; "{row}"),
        None => Ok(String::new(alloc)),
    }
}

/// The texts of the rule's rows, in their order.
pub(crate) fn lines_of(alloc: Global, rules: &[u16], rule: usize) -> Result<Vec<String>, AllocError>
    requires { (n : ℕ) → slice_get rules.now n ≡ rule_of n }
    ensures { IfOk result (λ lines. length lines.items ≡ rows_among rule (length ROWS)) }
{
    let mut lines = Vec::new(alloc);
    for index in 0..row_count() {
        if is_of(rules, index, rule) {
            lines.push(row_text(alloc, index)?)?;
        }
    }
    Ok(lines)
}
