//! A rule as text for people.
ghost use Rattle.std.specs.Prelude.{◌≡◌, ◌++◌, map, string_bytes, OnOk};
ghost use Rattle.rule_listing.specs.Listing.{rule_block, text_line, text_lines};
ghost use Rattle.rule_listing.specs.ListedRule.{told_in};

use crate::exact::exact_word;
use crate::growth::growth_word;
use crate::rule::ListedRule;
use std::alloc::AllocError;

// Adds a line, indented.
fn add_line(text: &mut String, line: &str) -> Result<(), AllocError>
    ensures { OnOk result (string_bytes text.new ≡ string_bytes text.old ++ text_line line.now) }
{
    text.push_str("  ")?;
    text.push_str(line)?;
    text.push_str("\n")
}

// Adds the lines, one under the other.
fn add_lines(text: &mut String, lines: &[String]) -> Result<(), AllocError>
    ensures { OnOk result (string_bytes text.new ≡ string_bytes text.old
        ++ text_lines (map (λ line. string_bytes line) lines.now)) }
{
    for index in 0..lines.len() {
        add_line(text, &lines[index])?;
    }
    Ok(())
}

/// Adds the rule's line, and those under it.
#[tactic(auto, unfolding(crate::specs::Listing::rule_block))]
pub(crate) fn add_block(text: &mut String, rule: &ListedRule<'_>) -> Result<(), AllocError>
    ensures { OnOk result (string_bytes text.new ≡ string_bytes text.old
        ++ rule_block rule.now.number rule.now.name.now (told_in rule.now)) }
{
    let number = rule.number;
    let name = rule.name;
    let growth = growth_word(rule.growth);
    let exact = exact_word(rule.exact);
    write!(text, "{number} {name} {growth}{exact}\n")?;
    add_lines(text, rule.lines)
}
