//! A rule as rows of a table of Markdown.
ghost use Rattle.std.specs.Prelude.{◌≡◌, ◌++◌, map, string_bytes, OnOk};
ghost use Rattle.rule_listing.specs.Listing.{between, table_cell_text, cells, rule_rows};
ghost use Rattle.rule_listing.specs.ListedRule.{told_in};

use crate::exact::exact_cell;
use crate::growth::growth_word;
use crate::rule::ListedRule;
use std::alloc::AllocError;

// What stands before the text with that index.
fn between(index: usize) -> &'static str
    ensures { result.now ≡ between index }
{
    if index == 0 { "" } else { " |\n| | | | | " }
}

// Adds the text with that index.
fn add_cell(text: &mut String, index: usize, line: &str) -> Result<(), AllocError>
    ensures { OnOk result (string_bytes text.new ≡ string_bytes text.old
        ++ table_cell_text index line.now) }
{
    text.push_str(between(index))?;
    text.push_str("`")?;
    text.push_str(line)?;
    text.push_str("`")
}

// Adds the texts, each of which but the first has a row of its own.
fn add_cells(text: &mut String, lines: &[String]) -> Result<(), AllocError>
    ensures { OnOk result (string_bytes text.new ≡ string_bytes text.old
        ++ cells 0 (map (λ line. string_bytes line) lines.now)) }
{
    for index in 0..lines.len() {
        add_cell(text, index, &lines[index])?;
    }
    Ok(())
}

/// Adds the rule's rows.
#[tactic(auto, unfolding(crate::specs::Listing::rule_rows))]
pub(crate) fn add_rows(text: &mut String, rule: &ListedRule<'_>) -> Result<(), AllocError>
    ensures { OnOk result (string_bytes text.new ≡ string_bytes text.old
        ++ rule_rows rule.now.number rule.now.name.now (told_in rule.now)) }
{
    let number = rule.number;
    let name = rule.name;
    let growth = growth_word(rule.growth);
    let exact = exact_cell(rule.exact);
    write!(text, "| {number} | `{name}` | {growth} | {exact}| ")?;
    add_cells(text, rule.lines)?;
    text.push_str(" |\n")
}
