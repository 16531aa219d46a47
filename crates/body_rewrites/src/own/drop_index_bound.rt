//! The index of a branch by a table that is bounded by the number of labels → the same without that.
ghost use Rattle.wasm_execution.specs.Values.{Context};
ghost use Rattle.rewrite_rules.specs.declared.table.Own.TheVariants.{DropIndexBound};
ghost use Rattle.body_rewrites.specs.Trees.{AreTrees};
ghost use Rattle.body_rewrites.specs.OwnSites.{IsSiteOf};

use crate::matching::are_same;
use crate::own::indices::{bound_at, has_number, settled_before};
use crate::own::leaves::read_before;
use crate::own::{Made, Site};
use crate::trees::Tree;
use wasm_code::OperatorAndByteOffset;

// Where the rule applies at the operator, and what it makes there.
pub(crate) fn find(
    operators: &[OperatorAndByteOffset],
    trees: &[Option<Tree>],
    at: usize,
) -> Option<Site>
    ensures { (context : Context) → AreTrees context operators.now trees.now
        → IsSiteOf context operators.now DropIndexBound at result }
{
    let Some((place, count)) = bound_at(operators, at) else {
        return None;
    };
    let Some(copy) = read_before(trees, place) else {
        return None;
    };
    if copy == 0 {
        return None;
    }
    if copy > place {
        return None;
    }
    let end = copy - 1;
    if !has_number(operators, end, count) {
        return None;
    }
    let Some(start) = settled_before(trees, end) else {
        return None;
    };
    if start > end {
        return None;
    }
    if !are_same(operators, (start, end), (copy, place)) {
        return None;
    }
    Some(Site {
        start,
        made: Made::Inner(start, end),
    })
}
