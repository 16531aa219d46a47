//! A rule as an object of JSON.
ghost use Rattle.std.specs.Prelude.{◌≡◌, ◌++◌, false, map, string_bytes, IfOk, OnOk};
ghost use Rattle.serde_json.specs.Data.{string};
ghost use Rattle.serde_json.specs.View.{view};
ghost use Rattle.serde_json.specs.Written.{compact_text, has_float};
ghost use Rattle.rule_listing.specs.Listing.{rule_object, object_line};
ghost use Rattle.rule_listing.specs.ListedRule.{told_in};

use crate::growth::growth_word;
use crate::rule::ListedRule;
use serde_json::{Value, json};
use std::alloc::{AllocError, Global};

// The texts as strings.
fn items_of(alloc: Global, lines: &[String]) -> Result<Vec<Value>, AllocError>
    ensures { IfOk result (λ v.
        map view v.items ≡ map string (map (λ line. string_bytes line) lines.now)) }
{
    let mut items = Vec::new(alloc);
    for line in lines {
        items.push(Value::String(line.clone()?))?;
    }
    Ok(items)
}

// The rule's object.
fn value_of(alloc: Global, rule: &ListedRule<'_>) -> Result<Value, AllocError>
    ensures { IfOk result (λ v. view v
        ≡ rule_object rule.now.number rule.now.name.now (told_in rule.now)) }
{
    let exact = rule.exact;
    let growth = growth_word(rule.growth);
    let lines = Value::Array(items_of(alloc, rule.lines)?);
    let name = rule.name;
    let number = rule.number;
    json!(in alloc; {"exact": exact, "growth": growth, "lines": lines, "name": name, "number": number})
}

// The value as text.
fn text_of(alloc: Global, value: &Value) -> Result<String, AllocError>
    requires { has_float (view value.now) ≡ false }
    ensures { IfOk result (λ text. string_bytes text ≡ compact_text (view value.now)) }
{
    value.to_string(alloc)
}

/// Adds the rule's line.
#[tactic(auto, unfolding(crate::specs::Listing::object_line))]
pub(crate) fn add_object(
    alloc: Global,
    text: &mut String,
    rule: &ListedRule<'_>,
) -> Result<(), AllocError>
    ensures { OnOk result (string_bytes text.new ≡ string_bytes text.old
        ++ object_line rule.now.number rule.now.name.now (told_in rule.now)) }
{
    let value = value_of(alloc, rule)?;
    let line = text_of(alloc, &value)?;
    text.push_str(&line)?;
    text.push_str("\n")
}
