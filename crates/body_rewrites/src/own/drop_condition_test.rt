//! A condition that is compared with zero → the same without that.
ghost use Rattle.wasm_execution.specs.Values.{Context};
ghost use Rattle.rewrite_rules.specs.declared.table.Own.TheVariants.{DropConditionTest};
ghost use Rattle.body_rewrites.specs.Trees.{AreTrees};
ghost use Rattle.body_rewrites.specs.OwnSites.{IsSiteOf};

use crate::instructions::is_bare_at;
use crate::own::conditions::asked;
use crate::own::unwrap::has_item;
use crate::own::{Made, Site};
use crate::trees::Tree;
use rewrite_rules::WrapItem;
use wasm_code::{OperatorAndByteOffset, ValType};

// Where the rule applies at the operator, and what it makes there.
pub(crate) fn find(
    operators: &[OperatorAndByteOffset],
    trees: &[Option<Tree>],
    at: usize,
) -> Option<Site>
    ensures { (context : Context) → AreTrees context operators.now trees.now
        → IsSiteOf context operators.now DropConditionTest at result }
{
    if at >= operators.len() || at < 2 {
        return None;
    }
    if !is_bare_at(operators, at, 42) {
        return None;
    }
    if !has_item(operators, at - 1, WrapItem::Zero, ValType::I32) {
        return None;
    }
    let Some(start) = asked(operators, trees, at - 2, at + 1) else {
        return None;
    };
    Some(Site {
        start,
        made: Made::Inner(start, at - 1),
    })
}
