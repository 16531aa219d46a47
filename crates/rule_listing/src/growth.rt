//! What a rule does to the number of instructions.
ghost use Rattle.std.specs.Prelude.{◌≡◌, ◌≢◌, ◌↔◌, ℕ, Some, IsTrue, slice_get};
ghost use Rattle.rewrite_rules.specs.declared.growth.Growth.TheVariants.{Grows};
ghost use Rattle.rewrite_rules.specs.declared.table.Row.{Row as TableRow};
ghost use Rattle.rewrite_rules.specs.Growing.{GrowsAs};
ghost use Rattle.rewrite_rules.specs.Names.{rule_of};
ghost use Rattle.rewrite_rules.specs.Table.{ROWS};
ghost use Rattle.rule_listing.specs.Listing.{growth_word};

use rewrite_rules::{Growth, row_at, row_count};

/// The word for it.
pub(crate) fn growth_word(growth: Growth) -> &'static str
    ensures { result.now ≡ growth_word growth }
{
    match growth {
        Growth::Shrinks => "shrinks",
        Growth::Keeps => "keeps",
        Growth::Grows => "grows",
    }
}

/// Whether the row with that index is one of the rule.
pub(crate) fn is_of(rules: &[u16], index: usize, rule: usize) -> bool
    requires { (n : ℕ) → slice_get rules.now n ≡ rule_of n }
    ensures { IsTrue result ↔ (rule_of index ≡ Some rule) }
{
    match rules.get(index) {
        Some(number) => *number as usize == rule,
        None => false,
    }
}

// Whether the row with that index, if it is one of the rule, does that.
fn grows_as(rules: &[u16], index: usize, rule: usize, growth: Growth) -> bool
    requires { (n : ℕ) → slice_get rules.now n ≡ rule_of n }
    ensures { (row : TableRow) → IsTrue result → rule_of index ≡ Some rule
        → slice_get ROWS index ≡ Some row → GrowsAs row growth }
{
    if !is_of(rules, index, rule) {
        return true;
    }
    match row_at(index) {
        Some(row) => row.growth() == growth,
        None => true,
    }
}

// Whether each row of the rule does that.
fn all_grow_as(rules: &[u16], rule: usize, growth: Growth) -> bool
    requires { (n : ℕ) → slice_get rules.now n ≡ rule_of n }
    ensures { (n : ℕ) (row : TableRow) → IsTrue result → rule_of n ≡ Some rule
        → slice_get ROWS n ≡ Some row → GrowsAs row growth }
{
    for index in 0..row_count() {
        if !grows_as(rules, index, rule, growth) {
            return false;
        }
    }
    true
}

/// What each row of the rule does; `Grows` where they aren't alike.
pub(crate) fn rule_growth(rules: &[u16], rule: usize) -> Growth
    requires { (n : ℕ) → slice_get rules.now n ≡ rule_of n }
    ensures { (n : ℕ) (row : TableRow) → rule_of n ≡ Some rule → slice_get ROWS n ≡ Some row
        → result ≢ Grows → GrowsAs row result }
{
    if all_grow_as(rules, rule, Growth::Shrinks) {
        return Growth::Shrinks;
    }
    if all_grow_as(rules, rule, Growth::Keeps) {
        return Growth::Keeps;
    }
    Growth::Grows
}
