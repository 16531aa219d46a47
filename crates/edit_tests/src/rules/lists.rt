//! Every rewrite that there is of a body by rules, which operators they reach, and which rewrite words choose.

ghost use Rattle.body_rewrites.specs.Places.{HasItsLists};

use super::body_calls::Asked;
use super::printing::add_item;
use super::unreadable::Unreadable;
use body_notation::words_of;
use body_rewrites::{Body, Growth, Rewrite, choose, reached_operators, rewrites_of_body};
use given_words::Words;
use rewrite_rules::Rule;
use std::alloc::{AllocError, Global};

// The rules of these names.
fn rules_of(alloc: Global, names: &str) -> Result<Vec<Rule>, Unreadable> {
    let mut rules = Vec::new(alloc);
    for name in names.split_whitespace() {
        rules.push(Rule::from_name(name).ok_or(Unreadable)?)?;
    }
    Ok(rules)
}

// What may become of the number of operators, of these names.
fn growths_of(alloc: Global, names: &str) -> Result<Vec<Growth>, Unreadable> {
    let mut growths = Vec::new(alloc);
    for name in names.split_whitespace() {
        growths.push(match name {
            "shrinks" => Growth::Shrinks,
            "keeps" => Growth::Keeps,
            "grows" => Growth::Grows,
            _ => return Err(Unreadable),
        })?;
    }
    Ok(growths)
}

// The operator of each rewrite, and its rule's name.
fn rewrites_text(alloc: Global, list: &[Rewrite]) -> Result<String, AllocError> {
    let mut text = String::new(alloc);
    for rewrite in list {
        let rule = Rule::of_row(rewrite.row).map_or("no rule", |rule| rule.name());
        let item = format!(in alloc; "{} {rule}", rewrite.operator)?;
        add_item(&mut text, "; ", &item)?;
    }
    if text.is_empty() {
        text.push_str("nothing")?;
    }
    Ok(text)
}

/// The rewrites of the body by the rules, of those that do what is wanted; of `reached_operators` for each operator whether there is
/// one; of `choose` the one that the words choose.
pub fn list_text(alloc: Global, body: &Body<'_>, asked: &Asked<'_>) -> Result<String, Unreadable>
    requires lists { HasItsLists body.now }
{
    let rules = rules_of(alloc, asked.with)?;
    let growths = growths_of(alloc, asked.first)?;
    if asked.call == "reached_operators" {
        let marks = reached_operators(alloc, body, &rules, &growths)?;
        return Ok(format!(in alloc; "{marks:?}")?);
    }
    let mut list = Vec::new(alloc);
    if asked.call == "choose" {
        let mut words = Words::new(words_of(alloc, asked.second)?);
        if let Some(rewrite) = choose(alloc, &mut words, body, &rules, &growths)? {
            list.push(rewrite)?;
        }
    } else {
        list = rewrites_of_body(alloc, body, &rules, &growths)?;
    }
    Ok(rewrites_text(alloc, &list)?)
}
