//! A module rewritten, or why nothing of it is.
ghost use Rattle.std.specs.Prelude.{◌≡◌, ◌<◌, All, IfErr, IfOk, IsTrue, Some, length};
ghost use Rattle.module_rewrites.specs.Dose.{IsOneOrMore};
ghost use Rattle.rewrite_rules.specs.Names.{rule_of};
ghost use Rattle.teddertempo_c.specs.Options.{AreBad, are_zero, rules_of};
ghost use Rattle.teddertempo_c.specs.Outcome.{outcome_number};
ghost use Rattle.teddertempo_c.specs.Reported.{IsBadCall, IsMade, IsNone};
ghost use Rattle.teddertempo_c.specs.Reports.{IsOutcomeFor, IsRewrittenSo, TellsRewrites, asked_of_options};
ghost use Rattle.teddertempo_c.specs.Rules.{every_rule};
ghost use Rattle.teddertempo_c.specs.Writes.{Fits, HasRule, IsOfSomeRule, IsRefusedFor, IsRewrittenBy, once};

use crate::options::{
    EXACT, Options, SHRINK, are_bad, dose_of, function_of, has_flag, most_of, rules_of,
};
use crate::outcome::{Outcome, Refusal, refusal_by, without_place};
use crate::report::{Made, Report, report_of};
use module_rewrites::{
    Dose, MadeRewrite, Reason, RewrittenModule, Scope, Unwatched, count_of_dose, rewrite_module,
};
use rand::rngs::StdRng;
use rand_core::SeedableRng;
use rewrite_rules::Rule;
use std::alloc::Global;

// The module rewritten with the generator of the seed: it has bytes, and no more than it may. Condition: the dose is more than none.
fn rewritten(
    alloc: Global,
    bytes: &[u8],
    seed: u64,
    scope: &Scope<'_>,
    dose: Dose,
) -> Result<RewrittenModule, Reason>
    requires some { IsOneOrMore dose }
    ensures rewritten { IfOk result (λ m. IsRewrittenBy
        (record { seed = seed; scope = scope.now; dose = dose })
        bytes.now m.made.items m.bytes.items) }
    ensures fits { IfOk result (λ m. Fits scope.now.most m.made.items m.bytes.items) }
    ensures refused { IfErr result (IsRefusedFor
        (record { seed = seed; scope = scope.now; dose = dose }) bytes.now) }
{
    let count = match count_of_dose(alloc, bytes, scope, dose) {
        Ok(count) => count,
        Err(reason) => return Err(reason),
    };
    let mut generator = StdRng::seed_from_u64(seed);
    let mut unwatched = Unwatched;
    rewrite_module(alloc, bytes, &mut generator, scope, count, &mut unwatched)
}

/// The module rewritten once by these rules, in any function, to at most `room` bytes.
pub fn rewritten_once(
    alloc: Global,
    bytes: &[u8],
    seed: u64,
    rules: &[Rule],
    room: usize,
) -> Result<RewrittenModule, Reason>
    requires rules { rules.now ≡ every_rule }
    ensures rewritten { IfOk result (λ m. IsRewrittenBy
        (once seed room) bytes.now m.made.items m.bytes.items) }
    ensures fits { IfOk result (λ m. Fits room m.made.items m.bytes.items) }
    ensures refused { IfErr result (IsRefusedFor (once seed room) bytes.now) }
{
    let scope = Scope {
        rules,
        function: None,
        max_size: room,
        shrinking: false,
        exact: false,
    };
    rewritten(alloc, bytes, seed, &scope, Dose::Times(1))
}

// The module rewritten by these rules, and for the rest as the options say.
fn rewritten_by(
    alloc: Global,
    bytes: &[u8],
    options: &Options,
    rules: &[Rule],
    room: usize,
) -> Result<RewrittenModule, Reason>
    requires rules { rules.now ≡ rules_of options.now }
    ensures rewritten { IfOk result (λ m. IsRewrittenBy
        (asked_of_options options.now (length bytes.now) room)
        bytes.now m.made.items m.bytes.items) }
    ensures fits { IfOk result (λ m. Fits room m.made.items m.bytes.items) }
    ensures refused { IfErr result
        (IsRefusedFor (asked_of_options options.now (length bytes.now) room) bytes.now) }
{
    let scope = Scope {
        rules,
        function: function_of(options.only),
        max_size: most_of(options.growth, options.flags, bytes.len(), room),
        shrinking: has_flag(options.flags, SHRINK),
        exact: has_flag(options.flags, EXACT),
    };
    rewritten(alloc, bytes, options.seed, &scope, dose_of(options))
}

// The number of the rule that a row of the table is of.
fn rule_number(row: usize) -> u32
    requires { IsOfSomeRule row }
    ensures { rule_of row ≡ Some result }
{
    match Rule::of_row(row) {
        Some(rule) => rule.number() as u32,
        None => 0,
    }
}

// The report on these rewrites.
fn report_of_rewrites(made: &[MadeRewrite]) -> Report
    requires some { 0 < length made.now }
    requires named { All HasRule made.now }
    ensures outcome { result.outcome ≡ outcome_number Outcome.Done }
    ensures tells { TellsRewrites made.now result }
    ensures reserved { IsTrue (are_zero result.reserved) }
{
    let last = made[made.len() - 1];
    report_of(
        Outcome::Done,
        rule_number(last.rewrite.row),
        last.function,
        made.len(),
        0,
    )
}

/// The module that the first `size` bytes of the buffer are, rewritten as the options say, and the report on it, or why nothing of it is.
#[tactic(auto, using(crate::proofs::ReportedLemmas::none_bad, crate::proofs::RefusalLemmas::none_memory))]
pub fn attempt(
    alloc: Global,
    buffer: &[u8],
    size: usize,
    options: &Options,
) -> Result<Made, Refusal>
    ensures made { IfOk result (IsMade (IsRewrittenSo options.now size buffer.now)
        (IsBadCall (AreBad options.now) size buffer.now) (length buffer.now)) }
    ensures refused { IfErr result (IsNone (IsOutcomeFor options.now size buffer.now)
        (IsBadCall (AreBad options.now) size buffer.now)) }
{
    if size > buffer.len() || are_bad(options) {
        return Err(without_place(Outcome::BadOptions));
    }
    let rules = match rules_of(alloc, options) {
        Ok(rules) => rules,
        Err(_) => return Err(without_place(Outcome::NoMemory)),
    };
    match rewritten_by(alloc, &buffer[..size], options, &rules, buffer.len()) {
        Ok(module) => Ok(Made {
            report: report_of_rewrites(&module.made),
            bytes: module.bytes,
        }),
        Err(reason) => Err(refusal_by(reason)),
    }
}
