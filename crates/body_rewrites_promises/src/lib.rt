//! Promises of `body_rewrites`, each beside wrong bodies that the check refuses.
//!
//! Each function here has the clauses of the call that it is named after, and a body that only calls it. So what these clauses refuse,
//! those of the call refuse too, and a wrong body is tried without the proofs of `body_rewrites`.
//!
//! To add one: write the call here, if it isn't, with its clauses word by word; then a wrong body as an edit in `must-fail`, which says
//! first on what it goes wrong, and how; and for each clause that it breaks an answer in `proofs` that only searches, so that the refusal
//! comes at once. Of a body of several lines each one replaces the mark at the end of the line before it.
#![tactic(auto)]

ghost use Rattle.std.specs.Prelude.{◌≡◌, ◌<◌, ◌≤◌, [], length, IfNone, IfOk, IfSome, OnErr};
ghost use Rattle.wasm_execution.specs.Values.{Context};
ghost use Rattle.body_rewrites.specs.Changes.{Change, IsWritten};
ghost use Rattle.body_rewrites.specs.Choice.{Chooses, after_choice, IsBegun};
ghost use Rattle.body_rewrites.specs.Listing.{AreThose, IsWantedBy};
ghost use Rattle.body_rewrites.specs.Own.{IsOwnChange};
ghost use Rattle.body_rewrites.specs.Places.{AreListsOf, context_of, HasItsLists, HasSomePlace, IsFoundPlaceOf, IsLine, meant};
ghost use Rattle.body_rewrites.specs.Rewrites.{asked_below, HasLine, IsCodeOf, MakesNothing};

use body_rewrites::{Body, Growth, Line, NewCode, Place, Rewrite};
use rand_core::Rng;
use rewrite_rules::{Own, Rule};
use std::alloc::{AllocError, Global};

/// As `place_of`.
pub fn place_of(body: &Body<'_>, line: &Line, end: usize) -> Option<Place>
    requires lists { HasItsLists body.now }
    requires line { IsLine line.now }
    requires inside { end ≤ length body.now.operators.now }
    ensures some { IfSome result (λ place.
        IsFoundPlaceOf (context_of body.now) body.now.operators.now line.now end place) }
    ensures none { IfNone result
        (¬ (HasSomePlace (context_of body.now) body.now.operators.now (meant line.now) end)) }
{
    body_rewrites::place_of(body, line, end)
}

/// As `made`.
pub fn made(body: &Body<'_>, line: &Line, at: usize, word: u64) -> Option<NewCode>
    requires lists { HasItsLists body.now }
    requires line { HasLine line.now }
    requires inside { at < length body.now.operators.now }
    ensures some { IfSome result (λ code. IsCodeOf body.now line.now at word code) }
    ensures none { IfNone result (MakesNothing body.now line.now at) }
{
    body_rewrites::made(body, line, at, word)
}

/// As `own_code`.
pub fn own_code(body: &Body<'_>, own: Own, at: usize, word: u64) -> Option<NewCode>
    ensures some { IfSome result (λ code. (context : Context)
        → context.info ≡ body.now.info.now
        → AreListsOf context body.now
        → (change : Change) × IsOwnChange context body.now.operators.now own at change
        × IsWritten change word code) }
    ensures none { IfNone result ((context : Context)
        → context.info ≡ body.now.info.now
        → AreListsOf context body.now
        → (change : Change) → ¬ (IsOwnChange context body.now.operators.now own at change)) }
{
    body_rewrites::own_code(body, own, at, word)
}

/// As `rewrites_of_body`.
pub fn rewrites_of_body(
    alloc: Global,
    body: &Body<'_>,
    rules: &[Rule],
    wanted: &[Growth],
) -> Result<Vec<Rewrite>, AllocError>
    requires lists { HasItsLists body.now }
    ensures { IfOk result (λ list. AreThose
        (IsWantedBy (context_of body.now) body.now.operators.now rules.now wanted.now)
        (asked_below (length body.now.operators.now)) list.items) }
{
    body_rewrites::rewrites_of_body(alloc, body, rules, wanted)
}

/// As `choose`.
pub fn choose<R: Rng>(
    alloc: Global,
    generator: &mut R,
    body: &Body<'_>,
    rules: &[Rule],
    wanted: &[Growth],
) -> Result<Option<Rewrite>, AllocError>
    requires lists { HasItsLists body.now }
    ensures chosen { IfOk result (λ o. IfSome o (λ r. Chooses (context_of body.now)
        (R.stream generator.old) rules.now wanted.now body.now.operators.now r)) }
    ensures after { IfOk result (λ o. IfSome o (λ r.
        R.stream generator.new ≡ after_choice (R.stream generator.old))) }
    ensures none { IfOk result (λ o. IfNone o (AreThose
        (IsWantedBy (context_of body.now) body.now.operators.now rules.now wanted.now)
        (asked_below (length body.now.operators.now)) [])) }
    ensures kept { IfOk result (λ o. IfNone o (generator.new ≡ generator.old)) }
    ensures refused { OnErr result (IsBegun (R.stream generator.old) (R.stream generator.new)) }
{
    body_rewrites::choose(alloc, generator, body, rules, wanted)
}
