//! A set and a get of a local → a tee.
ghost use Rattle.wasm_execution.specs.Values.{Context};
ghost use Rattle.rewrite_rules.specs.declared.table.Own.TheVariants.{SetToTee};
ghost use Rattle.body_rewrites.specs.OwnSites.{IsSiteOf};

use crate::instructions::index_at;
use crate::own::{Made, Site};
use wasm_code::OperatorAndByteOffset;

// Where the rule applies at the operator, and what it makes there.
pub(crate) fn find(operators: &[OperatorAndByteOffset], at: usize) -> Option<Site>
    ensures { (context : Context) → IsSiteOf context operators.now SetToTee at result }
{
    if at == 0 {
        return None;
    }
    let Some(got) = index_at(operators, at, 4) else {
        return None;
    };
    let Some(set) = index_at(operators, at - 1, 5) else {
        return None;
    };
    if set != got {
        return None;
    }
    Some(Site {
        start: at - 1,
        made: Made::Tee(got),
    })
}
