//! Which operators of a body rules reach.
ghost use Rattle.std.specs.Prelude.{◌≡◌, IfOk};
ghost use Rattle.body_rewrites.specs.Places.{context_of, HasItsLists};
ghost use Rattle.body_rewrites.specs.Reached.{AreReached, has_wanted};

use crate::asked::ready_lines;
use crate::found::Found;
use crate::growth::Growth;
use crate::laws::one_change;
use crate::listing::{is_wanted, rewrites_at};
use crate::places::Body;
use rewrite_rules::{Rule, rules_of_rows};
use std::alloc::{AllocError, Global};

// Whether one that is found is by one of the rules, and does one of the wanted things; `rows` are the rules of the rows.
fn has_wanted(rows: &[u16], rules: &[Rule], wanted: &[Growth], found: &[Found]) -> bool
    ensures { result ≡ has_wanted rows.now rules.now wanted.now found.now }
{
    for i in 0..found.len() {
        if is_wanted(rows, rules, wanted, found[i]) {
            return true;
        }
    }
    false
}

/// A mark for each operator of a body: whether there is a rewrite of it by one of the rules that does one of the wanted things to the
/// number of operators.
///
/// No rewrite is listed: a mark takes a byte. It takes the time of `rewrites_of_body`. The only error is that memory was refused.
pub fn reached_operators(
    alloc: Global,
    body: &Body<'_>,
    rules: &[Rule],
    wanted: &[Growth],
) -> Result<Vec<bool>, AllocError>
    requires lists { HasItsLists body.now }
    ensures { IfOk result (λ marks.
        AreReached (context_of body.now) body.now.operators.now rules.now wanted.now marks.items) }
{
    one_change();
    let lines = ready_lines(alloc, body)?;
    let rows = rules_of_rows(alloc)?;
    let mut marks = Vec::new(alloc);
    for at in 0..body.operators.len() {
        let found = rewrites_at(alloc, body, lines.as_slice(), at)?;
        marks.push(has_wanted(rows.as_slice(), rules, wanted, found.as_slice()))?;
    }
    Ok(marks)
}
