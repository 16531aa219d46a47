//! The rules, the changes and the operators that options name.
ghost use Rattle.std.specs.Prelude.{◌≡◌, ◌⊎◌, ◌↔◌, codes, map, IfErr, IfOk, IsTrue, Some};
ghost use Rattle.clap.specs.Matches.{found_of};
ghost use Rattle.clap.specs.Walk.{all_of, one_of, rows_of, texts};
ghost use Rattle.rewrite_rules.specs.Rule.{rule_name};
ghost use Rattle.body_rewrites.specs.Listing.{AreThose};
ghost use Rattle.module_options.specs.Flags.{first_of};
ghost use Rattle.module_options.specs.Misuse.{AreMisused};
ghost use Rattle.module_options.specs.Named.{AreChanges, AreNamedRules, AreWantedRules, IsChangePlace, IsWanted, NamesNoChange, NamesNone, is_named, placed};
ghost use Rattle.module_options.specs.Values.{IsNumberOf};

use crate::flags::{is_placed, text_of};
use crate::misuse::Misuse;
use crate::values::size_of;
use body_changes::{CHANGES, Change};
use clap::ArgMatches;
use module_changes::ChangeAt;
use rewrite_rules::{Rule, all_rules};
use std::alloc::{AllocError, Global};

// The rules that are named, one for each name; `UnknownRule` where a name is no rule's.
fn named_rules(alloc: Global, names: &[&str]) -> Result<Vec<Rule>, Misuse>
    ensures named { IfOk result (λ rules. map rule_name rules.items ≡ texts names.now) }
    ensures unknown { IfErr result (λ e. e ≡ Misuse.Memory ⊎ (e ≡ Misuse.UnknownRule
        × NamesNone (texts names.now))) }
{
    let mut rules = Vec::new(alloc);
    for name in names {
        let Some(rule) = Rule::from_name(name) else {
            return Err(Misuse::UnknownRule);
        };
        rules.push(rule)?;
    }
    Ok(rules)
}

// The rules that are named, or all where none is.
fn rules_of(alloc: Global, matches: &ArgMatches<'_>) -> Result<Vec<Rule>, Misuse>
    ensures rules { IfOk result (λ rules. AreNamedRules
        (all_of (codes "rule") (rows_of (found_of matches.now))) rules.items) }
    ensures unknown { IfErr result (AreMisused (rows_of (found_of matches.now))) }
{
    match matches.get_strs("rule") {
        Some(names) => named_rules(alloc, names),
        None => Ok(all_rules(alloc)?),
    }
}

// Whether one of the names is the rule's.
fn is_named(names: &[&str], rule: Rule) -> bool
    ensures { result ≡ is_named (texts names.now) rule }
{
    // A rule's name is looked up in the table: not where there is none to compare it with.
    if names.is_empty() {
        return false;
    }
    let own = rule.name();
    for name in names {
        if *name == own {
            return true;
        }
    }
    false
}

// Whether none of the names is the rule's.
fn is_wanted(others: &[&str], rule: Rule) -> bool
    ensures { IsTrue result ↔ IsWanted (texts others.now) rule }
{
    !is_named(others, rule)
}

// The rules of which that is so.
fn wanted_of(alloc: Global, rules: &[Rule], others: &[&str]) -> Result<Vec<Rule>, AllocError>
    ensures { IfOk result (λ wanted.
        AreThose (IsWanted (texts others.now)) rules.now wanted.items) }
{
    let mut wanted = Vec::new(alloc);
    for rule in rules {
        if is_wanted(others, *rule) {
            wanted.push(*rule)?;
        }
    }
    Ok(wanted)
}

/// The rules that the options name, or all, without those that they exclude.
pub fn wanted_rules(alloc: Global, matches: &ArgMatches<'_>) -> Result<Vec<Rule>, Misuse>
    ensures rules { IfOk result (λ rules. AreWantedRules
        (all_of (codes "rule") (rows_of (found_of matches.now)))
        (all_of (codes "not-rule") (rows_of (found_of matches.now))) rules.items) }
    ensures unknown { IfErr result (AreMisused (rows_of (found_of matches.now))) }
{
    let given = rules_of(alloc, matches)?;
    match matches.get_strs("not-rule") {
        Some(others) => Ok(wanted_of(alloc, &given, others)?),
        None => Ok(wanted_of(alloc, &given, &[])?),
    }
}

// The change of that name.
fn change_of(alloc: Global, name: &str) -> Result<Vec<Change>, Misuse>
    ensures changes { IfOk result (λ changes. AreChanges (Some name.now) changes.items) }
    ensures unknown { IfErr result (λ e. e ≡ Misuse.Memory ⊎ (e ≡ Misuse.UnknownChange
        × NamesNoChange name.now)) }
{
    if name == "any" {
        return Ok(Vec::from_slice(alloc, &CHANGES)?);
    }
    let Some(change) = Change::from_name(name) else {
        return Err(Misuse::UnknownChange);
    };
    Ok(Vec::from_slice(alloc, &[change])?)
}

/// The changes that the name stands for that is given, or all.
pub fn changes_of(alloc: Global, matches: &ArgMatches<'_>) -> Result<Vec<Change>, Misuse>
    ensures changes { IfOk result (λ changes. AreChanges
        (first_of (codes "change") (rows_of (found_of matches.now))) changes.items) }
    ensures unknown { IfErr result (AreMisused (rows_of (found_of matches.now))) }
{
    match text_of(matches, "change") {
        Some(name) => change_of(alloc, name),
        None => Ok(Vec::from_slice(alloc, &CHANGES)?),
    }
}

// The change of the function's operators from the one that is given up to the other one, where there is one change and a function.
fn placed(
    changes: &[Change],
    function: Option<usize>,
    from: Option<usize>,
    to: Option<usize>,
) -> Option<ChangeAt>
    ensures { result ≡ placed changes.now function from to }
{
    match (changes, function) {
        ([change], Some(function)) => Some(ChangeAt {
            change: *change,
            function,
            first: from.unwrap_or(0),
            end: to.unwrap_or(usize::MAX).saturating_add(1),
        }),
        _ => None,
    }
}

/// The operators that are changed, where any are named.
pub fn place_of(
    matches: &ArgMatches<'_>,
    changes: &[Change],
    function: Option<usize>,
) -> Result<Option<ChangeAt>, Misuse>
    requires changes { AreChanges
        (first_of (codes "change") (rows_of (found_of matches.now))) changes.now }
    requires function { IsNumberOf
        (one_of (codes "function") (rows_of (found_of matches.now))) function }
    ensures place { IfOk result (IsChangePlace (rows_of (found_of matches.now)) changes.now
        function) }
    ensures misuse { IfErr result (AreMisused (rows_of (found_of matches.now))) }
{
    let from = size_of(matches, "from");
    let to = size_of(matches, "to");
    if !is_placed(matches) {
        return Ok(None);
    }
    match placed(changes, function, from, to) {
        Some(place) => Ok(Some(place)),
        None => Err(Misuse::Unplaced),
    }
}
