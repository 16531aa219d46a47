//! The list of all rules.
ghost use Rattle.std.specs.Prelude.{◌≡◌, ◌++◌, ℕ, List, slice_get, string_bytes, IfErr, IfOk, OnOk};
ghost use Rattle.std.specs.Io.KnownBytes.{Appends};
ghost use Rattle.rewrite_rules.specs.Names.{rule_of};
ghost use Rattle.rule_listing.specs.Listing.{Told, RuleIsTold, AreTold, head_text, rule_text, listing};
ghost use Rattle.rule_listing.specs.ListedRule.{told_in};
ghost use Rattle.rule_listing.specs.declared.error.ListError.TheVariants.{Memory, Output};

use crate::error::ListError;
use crate::exact::rule_needs_exact;
use crate::form::Form;
use crate::growth::rule_growth;
use crate::json::add_object;
use crate::lines::lines_of;
use crate::markdown::add_rows;
use crate::rule::ListedRule;
use crate::text::add_block;
use rewrite_rules::{rule_names, rules_of_rows};
use std::alloc::{AllocError, Global};
use std::io::Write;

// What stands in front of the rules.
fn head_text(form: Form) -> &'static str
    ensures { result.now ≡ head_text form }
{
    match form {
        Form::Text => "",
        Form::Json => "",
        Form::Markdown =>
            "| Number | Rule | Instructions | Needs | Lines |\n|---|---|---|---|---|\n",
    }
}

// Adds the rule.
fn add_rule(text: &mut String, form: Form, rule: &ListedRule<'_>) -> Result<(), AllocError>
    ensures { OnOk result (string_bytes text.new ≡ string_bytes text.old
        ++ rule_text form rule.now.number rule.now.name.now (told_in rule.now)) }
{
    let alloc = *text.allocator();
    match form {
        Form::Text => add_block(text, rule),
        Form::Json => add_object(alloc, text, rule),
        Form::Markdown => add_rows(text, rule),
    }
}

// Adds the rule with that number and name. `rules` has for each row the number of its rule.
fn add_numbered(
    text: &mut String,
    form: Form,
    rules: &[u16],
    number: usize,
    name: &str,
) -> Result<(), AllocError>
    requires { (n : ℕ) → slice_get rules.now n ≡ rule_of n }
    ensures { OnOk result ((told : Told) × RuleIsTold number told × (string_bytes text.new
        ≡ string_bytes text.old ++ rule_text form number name.now told)) }
{
    let lines = lines_of(*text.allocator(), rules, number)?;
    let rule = ListedRule {
        number,
        name,
        growth: rule_growth(rules, number),
        exact: rule_needs_exact(rules, number),
        lines: &lines,
    };
    add_rule(text, form, &rule)
}

// The list.
fn text_of(alloc: Global, form: Form) -> Result<String, AllocError>
    ensures { IfOk result (λ s. (told : List Told) × AreTold told
        × (string_bytes s ≡ listing form told)) }
{
    let rule_names = rule_names(alloc)?;
    let rules = rules_of_rows(alloc)?;
    let mut text = String::new(alloc);
    text.push_str(head_text(form))?;
    for number in 0..rule_names.len() {
        add_numbered(&mut text, form, &rules, number, rule_names[number])?;
    }
    Ok(text)
}

// Writes the text.
fn write_text<W: Write>(output: &mut W, text: &str) -> Result<(), ListError>
    ensures text { OnOk result (Appends (W.contents output.old) (W.contents output.new)
        text.now) }
    ensures fails { IfErr result (λ e. e ≡ Output) }
{
    write!(output, "{text}")?;
    Ok(())
}

/// Writes all rules, in the order of their numbers: each with its number, its name, what its rewrites do to the number of instructions
/// (`shrinks`, `keeps`, or `grows` where neither can be said of all of them), whether it needs an engine that is exact (`--exact`, or `exact`
/// in JSON; so it is where each of its rows does), and its lines, as the table's rows print them.
///
/// Nothing is written for want of memory (`Memory`).
pub fn write_rules<W: Write>(alloc: Global, output: &mut W, form: Form) -> Result<(), ListError>
    // What is written is the list of all rules. The rows' own texts are told by no clause.
    ensures written { OnOk result ((told : List Told) × AreTold told
        × Appends (W.contents output.old) (W.contents output.new) (listing form told)) }
    // Nothing is written where no memory was left.
    ensures unwritten { IfErr result (λ e. e ≡ Memory → output.new ≡ output.old) }
{
    let text = text_of(alloc, form)?;
    write_text(output, text.as_str())
}
