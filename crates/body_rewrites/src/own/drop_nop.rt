//! A nop → nothing.
ghost use Rattle.wasm_execution.specs.Values.{Context};
ghost use Rattle.rewrite_rules.specs.declared.table.Own.TheVariants.{DropNop};
ghost use Rattle.body_rewrites.specs.OwnSites.{IsSiteOf};

use crate::instructions::is_bare_at;
use crate::own::{Made, Site};
use wasm_code::OperatorAndByteOffset;

// Where the rule applies at the operator, and what it makes there.
pub(crate) fn find(operators: &[OperatorAndByteOffset], at: usize) -> Option<Site>
    ensures { (context : Context) → IsSiteOf context operators.now DropNop at result }
{
    if !is_bare_at(operators, at, 0) {
        return None;
    }
    Some(Site {
        start: at,
        made: Made::Nothing,
    })
}
