//! Every rewrite that there is of a body.
ghost use Rattle.std.specs.Prelude.{◌≡◌, ◌<◌, ◌++◌, [], ◌∷◌, length, IfOk, OnOk};
ghost use Rattle.rewrite_rules.specs.Table.{ROWS};
ghost use Rattle.body_rewrites.specs.Places.{context_of, HasItsLists};
ghost use Rattle.body_rewrites.specs.Rewrites.{by_rows, asked_below};
ghost use Rattle.body_rewrites.specs.Asking.{ready_lines, rewrite_of, IsAskedSo, IsHere};
ghost use Rattle.body_rewrites.specs.Listing.{AreThose, IsWantedBy, AreFound, AddsFound, passing, has_number, is_by, is_wanted};

use crate::asked::{Asked, ready_lines};
use crate::found::Found;
use crate::growth::{Growth, has_growth};
use crate::here::{Here, here_at};
use crate::laws::one_change;
use crate::line_growth::growth_here;
use crate::places::Body;
use crate::rewrite::Rewrite;
use crate::roots::fits;
use rewrite_rules::laws::{exact_rows_are_told, table_is_right};
use rewrite_rules::{Rule, rules_of_rows};
use std::alloc::{AllocError, Global};

// Adds what the line makes at the operator. Most lines fit none, and that is seen at once.
fn ask(body: &Body<'_>, asked: &Asked, here: Here, list: &mut Vec<Found>) -> Result<(), AllocError>
    requires lists { HasItsLists body.now }
    requires asked { IsAskedSo asked.now }
    requires here { IsHere (context_of body.now) body.now.operators.now here }
    ensures { OnOk result (AddsFound (context_of body.now) body.now.operators.now
        (rewrite_of here.at asked.now ∷ []) list.old.items list.new.items) }
{
    if !fits(asked.root, here.class, here.is_tree) {
        return Ok(());
    }
    match growth_here(body, asked, here) {
        Some(growth) => {
            list.push(Found {
                rewrite: asked.rewrite_at(here.at),
                growth,
            })?;
            Ok(())
        }
        None => Ok(()),
    }
}

/// What the lines that are ready make at an operator: each rewrite of it, and what it does to the number of operators, in their order.
/// The only error is that memory was refused.
pub(crate) fn rewrites_at(
    alloc: Global,
    body: &Body<'_>,
    lines: &[Asked],
    at: usize,
) -> Result<Vec<Found>, AllocError>
    requires lists { HasItsLists body.now }
    requires lines { lines.now ≡ ready_lines (context_of body.now).info.exact }
    requires inside { at < length body.now.operators.now }
    ensures { IfOk result (λ list. AreFound (context_of body.now) body.now.operators.now
        (by_rows at 0 ROWS) list.items) }
{
    table_is_right();
    exact_rows_are_told();
    let here = here_at(body, at);
    let mut list = Vec::new(alloc);
    for asked in lines {
        ask(body, asked, here, &mut list)?;
    }
    Ok(list)
}

// Whether a rule has the number.
fn has_number(rules: &[Rule], number: usize) -> bool
    ensures { result ≡ has_number rules.now number }
{
    for rule in rules {
        if rule.number() == number {
            return true;
        }
    }
    false
}

// Whether what is found is by one of the rules; `rows` are the rules of the rows.
fn is_by(rows: &[u16], rules: &[Rule], found: Found) -> bool
    ensures { result ≡ is_by rows.now rules.now found }
{
    match rows.get(found.rewrite.row).copied() {
        Some(number) => has_number(rules, number as usize),
        None => false,
    }
}

/// Whether what is found is by one of the rules, and does one of the wanted things; `rows` are the rules of the rows.
pub(crate) fn is_wanted(rows: &[u16], rules: &[Rule], wanted: &[Growth], found: Found) -> bool
    ensures { result ≡ is_wanted rows.now rules.now wanted.now found }
{
    if has_growth(wanted, found.growth) {
        is_by(rows, rules, found)
    } else {
        false
    }
}

// Adds those that are so.
fn add_wanted(
    rows: &[u16],
    rules: &[Rule],
    wanted: &[Growth],
    found: &[Found],
    list: &mut Vec<Rewrite>,
) -> Result<(), AllocError>
    ensures { OnOk result (list.new.items ≡ list.old.items
        ++ passing (is_wanted rows.now rules.now wanted.now) found.now) }
{
    for found in found {
        if is_wanted(rows, rules, wanted, *found) {
            list.push(found.rewrite)?;
        }
    }
    Ok(())
}

/// Every rewrite of a body by one of the rules that does one of the wanted things to the number of operators, in the order of the
/// operators, the rows and the widths.
///
/// It takes time linear in the body, times the lines of the table, but for operands that are compared: in a hole that stands twice, and
/// where they change places. These are only compared where both are of one length, which adds no more than the logarithm of the body's
/// length as a factor. The only error is that memory was refused.
pub fn rewrites_of_body(
    alloc: Global,
    body: &Body<'_>,
    rules: &[Rule],
    wanted: &[Growth],
) -> Result<Vec<Rewrite>, AllocError>
    requires lists { HasItsLists body.now }
    ensures { IfOk result (λ list. AreThose
        (IsWantedBy (context_of body.now) body.now.operators.now rules.now wanted.now)
        (asked_below (length body.now.operators.now)) list.items) }
{
    one_change();
    let lines = ready_lines(alloc, body)?;
    let rows = rules_of_rows(alloc)?;
    let mut list = Vec::new(alloc);
    for at in 0..body.operators.len() {
        let found = rewrites_at(alloc, body, lines.as_slice(), at)?;
        add_wanted(rows.as_slice(), rules, wanted, found.as_slice(), &mut list)?;
    }
    Ok(list)
}
