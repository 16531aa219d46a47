//! A tee of a local → a set and a get.
ghost use Rattle.wasm_execution.specs.Values.{Context};
ghost use Rattle.rewrite_rules.specs.declared.table.Own.TheVariants.{TeeToSet};
ghost use Rattle.body_rewrites.specs.OwnSites.{IsSiteOf};

use crate::instructions::index_at;
use crate::own::{Made, Site};
use wasm_code::OperatorAndByteOffset;

// Where the rule applies at the operator, and what it makes there.
pub(crate) fn find(operators: &[OperatorAndByteOffset], at: usize) -> Option<Site>
    ensures { (context : Context) → IsSiteOf context operators.now TeeToSet at result }
{
    let Some(local) = index_at(operators, at, 6) else {
        return None;
    };
    Some(Site {
        start: at,
        made: Made::SetAndGet(local),
    })
}
