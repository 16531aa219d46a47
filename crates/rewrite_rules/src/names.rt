//! The names of the rules by their numbers.
ghost use Rattle.std.specs.Prelude.{◌≡◌, ◌≢◌, ◌<◌, ℕ, Some, IfSome, IfNone, IfOk, length, map, option_map, slice_get};
ghost use Rattle.rewrite_rules.specs.Names.{names, rule_of};
ghost use Rattle.rewrite_rules.specs.Rule.{AreAllRules};

use crate::lines::{name_at, row_count};
use crate::rule::Rule;
use std::alloc::{AllocError, Global};

/// How many rules there are.
pub fn rule_count() -> usize
    ensures { result ≡ length names }
{
    let mut count = 0;
    for index in 0..row_count() {
        if let Some(_) = name_at(index) {
            count += 1;
        }
    }
    count
}

// The name with that number, where there is one.
pub(crate) fn name_of(number: usize) -> Option<&'static str>
    ensures { option_map (λ name. name.now) result ≡ slice_get names number }
{
    let mut count = 0;
    for index in 0..row_count() {
        if let Some(name) = name_at(index) {
            if count == number {
                return Some(name);
            }
            count += 1;
        }
    }
    None
}

// The number of the rule with that name, where there is one.
pub(crate) fn number_of(name: &str) -> Option<usize>
    ensures some { IfSome result (λ number. slice_get names number ≡ Some name.now) }
    ensures none { IfNone result ((number : ℕ) → slice_get names number ≢ Some name.now) }
{
    let mut count = 0;
    for index in 0..row_count() {
        if let Some(known) = name_at(index) {
            if known == name {
                return Some(count);
            }
            count += 1;
        }
    }
    None
}

// The number of the rule that the row with the index is of, where there is such a row.
pub(crate) fn number_of_row(row: usize) -> Option<usize>
    ensures is { result ≡ rule_of row }
    ensures below { IfSome result (λ number. number < length names) }
{
    if row >= row_count() {
        return None;
    }
    let mut count: usize = 0;
    for index in 0..row + 1 {
        if let Some(_) = name_at(index) {
            count += 1;
        }
    }
    Some(count.saturating_sub(1))
}

/// The names of all rules, by their numbers: for what names many of them, since `Rule::name` takes as long as a pass over the table.
/// The only error is that memory was refused.
pub fn rule_names(alloc: Global) -> Result<Vec<&'static str>, AllocError>
    ensures { IfOk result (λ list. map (λ name. name.now) list.items ≡ names) }
{
    let mut list = Vec::new(alloc);
    for index in 0..row_count() {
        if let Some(name) = name_at(index) {
            list.push(name)?;
        }
    }
    Ok(list)
}

/// For each row of the table the number of the rule that it is of. The only error is that memory was refused.
pub fn rules_of_rows(alloc: Global) -> Result<Vec<u16>, AllocError>
    ensures { IfOk result (λ rules. (n : ℕ) → slice_get rules.items n ≡ rule_of n) }
{
    let mut rules = Vec::new(alloc);
    let mut count: u16 = 0;
    for index in 0..row_count() {
        if let Some(_) = name_at(index) {
            count += 1;
        }
        rules.push(count.saturating_sub(1))?;
    }
    Ok(rules)
}

/// All rules, by their numbers. The only error is that memory was refused.
pub fn all_rules(alloc: Global) -> Result<Vec<Rule>, AllocError>
    ensures { IfOk result (λ rules. AreAllRules rules.items) }
{
    let mut rules = Vec::new(alloc);
    for number in 0..rule_count() {
        rules.push(Rule::numbered(number as u16))?;
    }
    Ok(rules)
}
