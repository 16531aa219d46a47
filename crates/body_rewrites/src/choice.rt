//! The rewrite of a body that three words of a generator choose.
ghost use Rattle.std.specs.Prelude.{◌≡◌, ◌↔◌, ◌<◌, ◌*◌, ◌%◌, [], length, slice_get, Some, IfOk, OnErr, IfNone, IfSome, IsTrue};
ghost use Rattle.rand_core.specs.Stream.{next_u64};
ghost use Rattle.rewrite_rules.specs.Names.{names};
ghost use Rattle.body_rewrites.specs.Places.{context_of, HasItsLists};
ghost use Rattle.body_rewrites.specs.Rewrites.{asked_below};
ghost use Rattle.body_rewrites.specs.Listing.{AreThose, IsWantedBy};
ghost use Rattle.body_rewrites.specs.Choice.{after_word, Chooses, after_choice, IsBegun};
ghost use Rattle.body_rewrites.specs.Counting.{IsOpenBy, HasOpenBy};

use crate::counter::Counter;
use crate::counts::{count_of, counts_of_body, rewrite_with_number};
use crate::growth::Growth;
use crate::places::{Body, is_exact};
use crate::rewrite::Rewrite;
use rand_core::Rng;
use rewrite_rules::Rule;
use std::alloc::{AllocError, Global};

// Whether a rewrite by the rule is counted that does that to the number of operators.
fn is_open(rule: Rule, growth: Growth, counts: &[u128]) -> bool
    requires { length counts.now ≡ 3 * length names }
    ensures { IsTrue result ↔ IsOpenBy counts.now growth rule }
{
    count_of(counts, growth, rule) > 0
}

// Whether one by one of the rules is.
fn has_open(rules: &[Rule], growth: Growth, counts: &[u128]) -> bool
    requires { length counts.now ≡ 3 * length names }
    ensures { IsTrue result ↔ HasOpenBy counts.now rules.now growth }
{
    for rule in rules {
        if is_open(*rule, growth, counts) {
            return true;
        }
    }
    false
}

// What the rewrites that are counted for the rules do to the number of operators, of what is wanted.
fn open_growths(
    alloc: Global,
    rules: &[Rule],
    wanted: &[Growth],
    counts: &[u128],
) -> Result<Vec<Growth>, AllocError>
    requires { length counts.now ≡ 3 * length names }
    ensures { IfOk result (λ list.
        AreThose (HasOpenBy counts.now rules.now) wanted.now list.items) }
{
    let mut list = Vec::new(alloc);
    for growth in wanted {
        if has_open(rules, *growth, counts) {
            list.push(*growth)?;
        }
    }
    Ok(list)
}

// The rules for which rewrites are counted that do that to the number of operators.
fn open_rules(
    alloc: Global,
    rules: &[Rule],
    growth: Growth,
    counts: &[u128],
) -> Result<Vec<Rule>, AllocError>
    requires { length counts.now ≡ 3 * length names }
    ensures { IfOk result (λ list. AreThose (IsOpenBy counts.now growth) rules.now list.items) }
{
    let mut list = Vec::new(alloc);
    for rule in rules {
        if is_open(*rule, growth, counts) {
            list.push(*rule)?;
        }
    }
    Ok(list)
}

// The item of the list that the generator's next word names. Condition: there is one.
fn draw<T: Copy, R: Rng>(generator: &mut R, list: &[T]) -> T
    requires { 0 < length list.now }
    ensures drawn { slice_get list.now
        ((next_u64 (R.stream generator.old)).0 % length list.now) ≡ Some result }
    ensures after { R.stream generator.new ≡ after_word (R.stream generator.old) }
{
    let word = generator.next_u64();
    list[(word % list.len() as u64) as usize]
}

// A number below the count: the generator's next word, modulo the count. Condition: there is one.
fn draw_below<R: Rng>(generator: &mut R, count: u128) -> u128
    requires { 0 < count }
    ensures drawn { result ≡ (next_u64 (R.stream generator.old)).0 % count }
    ensures below { result < count }
    ensures after { R.stream generator.new ≡ after_word (R.stream generator.old) }
{
    let word = generator.next_u64();
    word as u128 % count
}

/// The rewrite of the body by one of the rules that the generator's next three words choose, of those that do one of the wanted things
/// to the number of operators. The first one names what becomes of that number, of what is wanted and some rewrite does, in the order of
/// `wanted`. The second one names a rule, of those that have a rewrite that does that, in the order of `rules`; the third one a rewrite,
/// of all of that rule that do that, in the order of the operators, the rows and the widths. So, as far as words are even and no rule
/// stands twice, each rule has the same chance as any other that does the same, and each of its rewrites the same as any other. None
/// only where there is no such rewrite, and then nothing is drawn.
///
/// It asks the operators of the body for all rewrites, and once more for those of one rule, and keeps none. The only error is that memory was refused; then up to
/// three words may have been drawn.
pub fn choose<R: Rng>(
    alloc: Global,
    generator: &mut R,
    body: &Body<'_>,
    rules: &[Rule],
    wanted: &[Growth],
) -> Result<Option<Rewrite>, AllocError>
    requires lists { HasItsLists body.now }
    ensures chosen { IfOk result (λ o. IfSome o (λ r. Chooses (context_of body.now)
        (R.stream generator.old) rules.now wanted.now body.now.operators.now r)) }
    ensures after { IfOk result (λ o. IfSome o (λ r.
        R.stream generator.new ≡ after_choice (R.stream generator.old))) }
    ensures none { IfOk result (λ o. IfNone o (AreThose
        (IsWantedBy (context_of body.now) body.now.operators.now rules.now wanted.now)
        (asked_below (length body.now.operators.now)) [])) }
    ensures kept { IfOk result (λ o. IfNone o (generator.new ≡ generator.old)) }
    ensures refused { OnErr result (IsBegun (R.stream generator.old) (R.stream generator.new)) }
{
    let counter = Counter::new(alloc, body.operators, is_exact(body))?;
    let counted = counts_of_body(alloc, body, &counter)?;
    let counts = counted.as_slice();
    let kinds = open_growths(alloc, rules, wanted, counts)?;
    if kinds.is_empty() {
        return Ok(None);
    }
    let growth = draw(generator, kinds.as_slice());
    let ways = open_rules(alloc, rules, growth, counts)?;
    let rule = draw(generator, ways.as_slice());
    let count = count_of(counts, growth, rule);
    let number = draw_below(generator, count);
    match rewrite_with_number(alloc, body, &counter, growth, rule, number)? {
        Some(rewrite) => Ok(Some(rewrite)),
        None => unreachable!(),
    }
}
