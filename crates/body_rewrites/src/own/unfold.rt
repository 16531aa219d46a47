//! A constant → the sum of a drawn number and of what is left.
ghost use Rattle.wasm_execution.specs.Values.{Context};
ghost use Rattle.rewrite_rules.specs.declared.table.Own.TheVariants.{Unfold};
ghost use Rattle.body_rewrites.specs.OwnSites.{IsSiteOf};

use crate::instructions::constant_at;
use crate::own::{Made, Site};
use wasm_code::OperatorAndByteOffset;

// Where the rule applies at the operator, and what it makes there.
pub(crate) fn find(operators: &[OperatorAndByteOffset], at: usize) -> Option<Site>
    ensures { (context : Context) → IsSiteOf context operators.now Unfold at result }
{
    let Some((t, number)) = constant_at(operators, at) else {
        return None;
    };
    Some(Site {
        start: at,
        made: Made::Sum(t, number),
    })
}
