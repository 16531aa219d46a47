//! All rules.
ghost use Rattle.std.specs.Prelude.{◌≡◌, IfOk};
ghost use Rattle.teddertempo_c.specs.Rules.{every_rule};

use rewrite_rules::{Rule, all_rules};
use std::alloc::{AllocError, Global};

/// All rules, by their numbers. The only error is that memory was refused.
#[tactic(auto, using(crate::proofs::RuleLemmas::are_every_rule))]
pub fn every_rule(alloc: Global) -> Result<Vec<Rule>, AllocError>
    ensures { IfOk result (λ rules. rules.items ≡ every_rule) }
{
    let rules = all_rules(alloc)?;
    Ok(rules)
}
