//! A condition → the same, compared with zero.
ghost use Rattle.wasm_execution.specs.Values.{Context};
ghost use Rattle.rewrite_rules.specs.declared.table.Own.TheVariants.{TestCondition};
ghost use Rattle.body_rewrites.specs.Trees.{AreTrees};
ghost use Rattle.body_rewrites.specs.OwnSites.{IsSiteOf};

use crate::own::conditions::asked;
use crate::own::{Made, Site};
use crate::trees::Tree;
use wasm_code::OperatorAndByteOffset;

// Where the rule applies at the operator, and what it makes there.
pub(crate) fn find(
    operators: &[OperatorAndByteOffset],
    trees: &[Option<Tree>],
    at: usize,
) -> Option<Site>
    ensures { (context : Context) → AreTrees context operators.now trees.now
        → IsSiteOf context operators.now TestCondition at result }
{
    if at >= operators.len() {
        return None;
    }
    let Some(start) = asked(operators, trees, at, at + 1) else {
        return None;
    };
    Some(Site {
        start,
        made: Made::Tested,
    })
}
