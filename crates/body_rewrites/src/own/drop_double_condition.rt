//! A condition that is compared with zero twice → the same without that.
ghost use Rattle.wasm_execution.specs.Values.{Context};
ghost use Rattle.rewrite_rules.specs.declared.table.Own.TheVariants.{DropDoubleCondition};
ghost use Rattle.body_rewrites.specs.Trees.{AreTrees};
ghost use Rattle.body_rewrites.specs.OwnSites.{IsSiteOf};

use crate::instructions::is_bare_at;
use crate::own::conditions::asked;
use crate::own::{Made, Site};
use crate::trees::Tree;
use wasm_code::OperatorAndByteOffset;

// Where the rule applies at the operator, and what it makes there.
pub(crate) fn find(
    operators: &[OperatorAndByteOffset],
    trees: &[Option<Tree>],
    at: usize,
) -> Option<Site>
    ensures { (context : Context) → AreTrees context operators.now trees.now
        → IsSiteOf context operators.now DropDoubleCondition at result }
{
    if at >= operators.len() || at < 2 {
        return None;
    }
    if !is_bare_at(operators, at, 40) {
        return None;
    }
    if !is_bare_at(operators, at - 1, 40) {
        return None;
    }
    let Some(start) = asked(operators, trees, at - 2, at + 1) else {
        return None;
    };
    Some(Site {
        start,
        made: Made::Inner(start, at - 1),
    })
}
