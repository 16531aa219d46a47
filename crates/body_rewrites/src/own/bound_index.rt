//! The index of a branch by a table → the same, and the number of labels where it isn't below that.
ghost use Rattle.wasm_execution.specs.Values.{Context};
ghost use Rattle.rewrite_rules.specs.declared.table.Own.TheVariants.{BoundIndex};
ghost use Rattle.body_rewrites.specs.Trees.{AreTrees};
ghost use Rattle.body_rewrites.specs.OwnSites.{IsSiteOf};

use crate::instructions::is_bare_at;
use crate::own::indices::{settled_before, table_at};
use crate::own::{Made, Site};
use crate::trees::Tree;
use wasm_code::OperatorAndByteOffset;

// Where the rule applies at the operator, and what it makes there. A select is bounded already, it may be: the index is written twice, so
// that it would double each time.
pub(crate) fn find(
    operators: &[OperatorAndByteOffset],
    trees: &[Option<Tree>],
    at: usize,
) -> Option<Site>
    ensures { (context : Context) → AreTrees context operators.now trees.now
        → IsSiteOf context operators.now BoundIndex at result }
{
    if at >= operators.len() {
        return None;
    }
    let Some(count) = table_at(operators, at + 1) else {
        return None;
    };
    if is_bare_at(operators, at, 3) {
        return None;
    }
    let Some(start) = settled_before(trees, at + 1) else {
        return None;
    };
    Some(Site {
        start,
        made: Made::Bounded(count),
    })
}
