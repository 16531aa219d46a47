//! How many rewrites of a body there are by each rule that do each thing to the number of operators.
ghost use Rattle.std.specs.Prelude.{◌≡◌, ◌↔◌, ◌<◌, ◌*◌, ◌≤◌, ◌∷◌, [], List, length, replicate, slice_get, Some, IfOk, IfSome, IfNone, IsTrue};
ghost use Rattle.std.specs.List.{filter};
ghost use Rattle.rewrite_rules.specs.Names.{names, rule_of};
ghost use Rattle.rewrite_rules.specs.Rule.{rule_number};
ghost use Rattle.rewrite_rules.specs.Table.{ROWS};
ghost use Rattle.body_rewrites.specs.declared.rewrite.Rewrite.{Rewrite};
ghost use Rattle.body_rewrites.specs.Places.{context_of, HasItsLists};
ghost use Rattle.body_rewrites.specs.Rewrites.{asked_below, by_rows};
ghost use Rattle.body_rewrites.specs.Asking.{all_asked, rewrite_of, rewrites_of, AreAsked, IsAskedSo, IsHere};
ghost use Rattle.body_rewrites.specs.Listing.{AreThose, AreRules, HasGrowth};
ghost use Rattle.body_rewrites.specs.Choice.{IsOf};
ghost use Rattle.body_rewrites.specs.Counting.{growth_number, slot_of, slot_in, slots_in, alone_told, AddsCounts, count_in, HaveRoom, HasCount, AreCounts, CountsFound, AreFor, is_number, is_of, asked_of, FindsIn};

use crate::asked::{Asked, add_numbered};
use crate::counter::Counter;
use crate::cutting::tree_at;
use crate::found::Found;
use crate::growth::{Growth, same_growth};
use crate::here::{Here, here_at};
use crate::laws::{lefts_are_instances, one_change, trees_leave};
use crate::line_growth::growth_here;
use crate::places::Body;
use crate::rewrite::Rewrite;
use rewrite_rules::laws::{
    exact_rows_are_told, holes_are_told, parts_are_the_code, rows_are_few, rules_are_named,
    sides_are_parts, table_is_right, types_are_told,
};
use rewrite_rules::{Rule, row_count};
use std::alloc::{AllocError, Global};

// The number of what becomes of the number of operators.
fn growth_number(growth: Growth) -> usize
    ensures is { result ≡ growth_number growth }
    ensures small { result < 3 }
{
    match growth {
        Growth::Shrinks => 0,
        Growth::Keeps => 1,
        Growth::Grows => 2,
    }
}

/// The place of the count for the rule with the number.
pub(crate) fn slot_of(number: u16, growth: Growth) -> usize
    ensures { result ≡ slot_of number growth }
{
    3 * number as usize + growth_number(growth)
}

// The place of the count for what is found; `rows` are the rules of the rows.
fn slot_in(rows: &[u16], found: Found) -> Option<usize>
    requires { AreRules rows.now }
    ensures { result ≡ slot_in found }
{
    match rule_at(rows, found.rewrite.row) {
        Some(number) => Some(slot_of(number, found.growth)),
        None => None,
    }
}

// Counts one more for what is found.
fn count_one(rows: &[u16], found: Found, counts: &mut [u128])
    requires rules { AreRules rows.now }
    requires room { HaveRoom 1 counts.old }
    ensures { AddsCounts (count_in (found ∷ [])) counts.old counts.new }
{
    if let Some(slot) = slot_in(rows, found) {
        if slot < counts.len() {
            counts[slot] += 1;
        }
    }
}

// Counts what the line makes at the operator.
fn count_line(body: &Body<'_>, rows: &[u16], asked: &Asked, here: Here, counts: &mut [u128])
    requires lists { HasItsLists body.now }
    requires rules { AreRules rows.now }
    requires asked { IsAskedSo asked.now }
    requires here { IsHere (context_of body.now) body.now.operators.now here }
    requires room { HaveRoom 1 counts.old }
    ensures { CountsFound (context_of body.now) body.now.operators.now
        (rewrite_of here.at asked.now ∷ []) counts.old counts.new }
{
    if let Some(growth) = growth_here(body, asked, here) {
        let rewrite = asked.rewrite_at(here.at);
        count_one(rows, Found { rewrite, growth }, counts);
    }
}

// Counts what the lines make at the operator.
fn count_lines(body: &Body<'_>, rows: &[u16], lines: &[Asked], here: Here, counts: &mut [u128])
    requires lists { HasItsLists body.now }
    requires rules { AreRules rows.now }
    requires lines { AreAsked lines.now }
    requires here { IsHere (context_of body.now) body.now.operators.now here }
    requires room { HaveRoom (length lines.now) counts.old }
    ensures { CountsFound (context_of body.now) body.now.operators.now
        (rewrites_of here.at lines.now) counts.old counts.new }
{
    for asked in lines {
        count_line(body, rows, asked, here, counts);
    }
}

// Counts one more at the place.
fn count_slot(slot: usize, counts: &mut [u128])
    requires { HaveRoom 1 counts.old }
    ensures { AddsCounts (slots_in (slot ∷ [])) counts.old counts.new }
{
    if slot < counts.len() {
        counts[slot] += 1;
    }
}

// Counts one more at each of the places.
fn count_slots(slots: &[usize], counts: &mut [u128])
    requires { HaveRoom (length slots.now) counts.old }
    ensures { AddsCounts (slots_in slots.now) counts.old counts.new }
{
    for slot in slots {
        count_slot(*slot, counts);
    }
}

// Counts what lines of an operand alone make of the operator's tree.
fn count_alone(body: &Body<'_>, counter: &Counter, at: usize, counts: &mut [u128])
    requires { HaveRoom 65536 counts.old }
    ensures { AddsCounts (slots_in (alone_told body.now.trees.now at)) counts.old counts.new }
{
    if let Some(tree) = tree_at(body.trees, at) {
        if let Some(slots) = counter.slots(tree) {
            count_slots(slots, counts);
        }
    }
}

// Counts all rewrites of the operator.
fn count_at(body: &Body<'_>, counter: &Counter, at: usize, counts: &mut [u128])
    requires lists { HasItsLists body.now }
    requires laid { AreFor (context_of body.now) body.now.operators.now counter.now }
    requires inside { at < length body.now.operators.now }
    requires room { HaveRoom 131072 counts.old }
    ensures { CountsFound (context_of body.now) body.now.operators.now
        (by_rows at 0 ROWS) counts.old counts.new }
{
    types_are_told();
    holes_are_told();
    table_is_right();
    sides_are_parts();
    parts_are_the_code();
    lefts_are_instances();
    trees_leave();
    exact_rows_are_told();
    let here = here_at(body, at);
    let lines = counter.candidates(here.class);
    count_lines(body, counter.rules(), lines, here, counts);
    count_alone(body, counter, at, counts);
}

// Counts all rewrites of the body.
fn count_body(body: &Body<'_>, counter: &Counter, counts: &mut [u128])
    requires lists { HasItsLists body.now }
    requires laid { AreFor (context_of body.now) body.now.operators.now counter.now }
    requires counts { AreCounts (context_of body.now) body.now.operators.now 0 counts.old }
    ensures { AreCounts (context_of body.now) body.now.operators.now
        (length body.now.operators.now) counts.new }
{
    one_change();
    rows_are_few();
    for at in 0..body.operators.len() {
        count_at(body, counter, at, counts);
    }
}

// The number of the rule that the row is of, where there is such a row; `rows` are the rules of the rows.
fn rule_at(rows: &[u16], row: usize) -> Option<u16>
    requires { AreRules rows.now }
    ensures { result ≡ rule_of row }
{
    rows.get(row).copied()
}

// How many rules there are; `rows` are the rules of the rows.
fn rule_count(rows: &[u16]) -> usize
    requires { AreRules rows.now }
    ensures { result ≡ length names }
{
    match rule_at(rows, row_count() - 1) {
        Some(last) => last as usize + 1,
        None => 0,
    }
}

// A zero for each rule and each thing that becomes of the number of operators; `rows` are the rules of the rows.
fn zeros(alloc: Global, rows: &[u16]) -> Result<Vec<u128>, AllocError>
    requires { AreRules rows.now }
    ensures { IfOk result (λ zeros. zeros.items ≡ replicate (3 * length names) 0) }
{
    rows_are_few();
    vec![in alloc; 0; 3 * rule_count(rows)]
}

/// How many rewrites of the body there are by each rule that do each thing to the number of operators. They are of 128 bits, since
/// there may be many at an operator. The only error is that memory was refused.
pub(crate) fn counts_of_body(
    alloc: Global,
    body: &Body<'_>,
    counter: &Counter,
) -> Result<Vec<u128>, AllocError>
    requires lists { HasItsLists body.now }
    requires laid { AreFor (context_of body.now) body.now.operators.now counter.now }
    ensures { IfOk result (λ counts. AreCounts (context_of body.now) body.now.operators.now
        (length body.now.operators.now) counts.items) }
{
    rules_are_named();
    let mut counts = zeros(alloc, counter.rules())?;
    count_body(body, counter, &mut counts);
    Ok(counts)
}

// The place of the count for the rule.
fn rule_slot(growth: Growth, rule: Rule) -> usize
    ensures { result ≡ slot_of (rule_number rule) growth }
{
    rules_are_named();
    rows_are_few();
    3 * rule.number() + growth_number(growth)
}

/// What is counted for the rule and for what becomes of the number of operators.
pub(crate) fn count_of(counts: &[u128], growth: Growth, rule: Rule) -> u128
    requires { length counts.now ≡ 3 * length names }
    ensures { HasCount counts.now growth rule result }
{
    rules_are_named();
    counts[rule_slot(growth, rule)]
}

// Whether the row with the number is of the rule; `rows` are the rules of the rows.
fn is_of(rows: &[u16], row: usize, rule: Rule) -> bool
    requires { AreRules rows.now }
    ensures { result ≡ is_number (rule_number rule) (rule_of row) }
{
    match rule_at(rows, row) {
        Some(number) => number as usize == rule.number(),
        None => false,
    }
}

// The lines of the rule.
fn lines_of(alloc: Global, counter: &Counter, rule: Rule) -> Result<Vec<Asked>, AllocError>
    ensures { IfOk result (λ list. list.items ≡ filter (is_of rule) all_asked) }
{
    let mut list = Vec::new(alloc);
    for number in 0..row_count() {
        if is_of(counter.rules(), number, rule) {
            add_numbered(number, &mut list)?;
        }
    }
    Ok(list)
}

// Whether the line makes something at the operator that does that to the number of operators.
fn makes(body: &Body<'_>, asked: &Asked, here: Here, growth: Growth) -> bool
    requires lists { HasItsLists body.now }
    requires asked { IsAskedSo asked.now }
    requires here { IsHere (context_of body.now) body.now.operators.now here }
    ensures same { IsTrue result → HasGrowth (context_of body.now) body.now.operators.now
        growth (rewrite_of here.at asked.now) }
    ensures only { HasGrowth (context_of body.now) body.now.operators.now growth
        (rewrite_of here.at asked.now) → IsTrue result }
{
    one_change();
    match growth_here(body, asked, here) {
        Some(other) => same_growth(other, growth),
        None => false,
    }
}

// What of these lines does at the operator.
fn rewrites_here(
    alloc: Global,
    body: &Body<'_>,
    lines: &[Asked],
    here: Here,
    growth: Growth,
) -> Result<Vec<Rewrite>, AllocError>
    requires lists { HasItsLists body.now }
    requires lines { AreAsked lines.now }
    requires here { IsHere (context_of body.now) body.now.operators.now here }
    ensures { IfOk result (λ list. AreThose
        (HasGrowth (context_of body.now) body.now.operators.now growth)
        (rewrites_of here.at lines.now) list.items) }
{
    let mut list = Vec::new(alloc);
    for asked in lines {
        if makes(body, asked, here, growth) {
            list.push(asked.rewrite_at(here.at))?;
        }
    }
    Ok(list)
}

// The rewrite with the number among these, or the number that is left behind all of them.
fn find_in(list: &[Rewrite], number: u128) -> Result<Rewrite, u128>
    ensures { FindsIn number list.now result }
{
    let count = list.len() as u128;
    if number < count {
        return Ok(list[number as usize]);
    }
    Err(number - count)
}

// The rewrite with the number, among those that the lines make of the body and that do that to the number of operators; none where
// there are fewer.
fn find_rewrite(
    alloc: Global,
    body: &Body<'_>,
    lines: &[Asked],
    growth: Growth,
    number: u128,
) -> Result<Option<Rewrite>, AllocError>
    requires lists { HasItsLists body.now }
    requires lines { AreAsked lines.now }
    ensures some { IfOk result (λ o. IfSome o (λ r. (those : List Rewrite)
        → AreThose (HasGrowth (context_of body.now) body.now.operators.now growth)
        (asked_of lines.now (length body.now.operators.now)) those
        → slice_get those number ≡ Some r)) }
    ensures none { IfOk result (λ o. IfNone o ((those : List Rewrite)
        → AreThose (HasGrowth (context_of body.now) body.now.operators.now growth)
        (asked_of lines.now (length body.now.operators.now)) those → length those ≤ number)) }
{
    let mut left = number;
    for at in 0..body.operators.len() {
        let found = rewrites_here(alloc, body, lines, here_at(body, at), growth)?;
        match find_in(found.as_slice(), left) {
            Ok(rewrite) => return Ok(Some(rewrite)),
            Err(behind) => left = behind,
        }
    }
    Ok(None)
}

/// The rewrite with the number, among those of the body by the rule that do that to the number of operators; none where there are
/// fewer. The only error is that memory was refused.
pub(crate) fn rewrite_with_number(
    alloc: Global,
    body: &Body<'_>,
    counter: &Counter,
    growth: Growth,
    rule: Rule,
    number: u128,
) -> Result<Option<Rewrite>, AllocError>
    requires lists { HasItsLists body.now }
    ensures some { IfOk result (λ o. IfSome o (λ r. (those : List Rewrite)
        → AreThose (IsOf (context_of body.now) body.now.operators.now growth rule)
        (asked_below (length body.now.operators.now)) those
        → slice_get those number ≡ Some r)) }
    ensures none { IfOk result (λ o. IfNone o ((those : List Rewrite)
        → AreThose (IsOf (context_of body.now) body.now.operators.now growth rule)
        (asked_below (length body.now.operators.now)) those → length those ≤ number)) }
{
    let lines = lines_of(alloc, counter, rule)?;
    find_rewrite(alloc, body, lines.as_slice(), growth, number)
}
