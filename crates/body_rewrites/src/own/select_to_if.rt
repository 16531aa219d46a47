//! A select of constants or variables → a conditional.
ghost use Rattle.wasm_execution.specs.Values.{Context};
ghost use Rattle.rewrite_rules.specs.declared.table.Own.TheVariants.{SelectToIf};
ghost use Rattle.body_rewrites.specs.Trees.{AreTrees};
ghost use Rattle.body_rewrites.specs.Blocks.{AreBlocks};
ghost use Rattle.body_rewrites.specs.OwnSites.{IsSiteOf};

use crate::blocks::Blocks;
use crate::instructions::is_bare_at;
use crate::own::leaves::{leaves_at, read_before};
use crate::own::{Made, Site};
use crate::trees::Tree;
use wasm_code::OperatorAndByteOffset;

// Where the rule applies at the operator, and what it makes there.
pub(crate) fn find(
    operators: &[OperatorAndByteOffset],
    trees: &[Option<Tree>],
    blocks: &Blocks,
    at: usize,
) -> Option<Site>
    ensures { (context : Context) → AreTrees context operators.now trees.now
        → AreBlocks operators.now blocks.now → IsSiteOf context operators.now SelectToIf at result }
{
    if !blocks.has_room() {
        return None;
    }
    if !is_bare_at(operators, at, 3) {
        return None;
    }
    let Some(condition) = read_before(trees, at) else {
        return None;
    };
    if condition < 2 {
        return None;
    }
    let Some(value) = leaves_at(operators, trees, condition - 2, condition - 1) else {
        return None;
    };
    Some(Site {
        start: condition - 2,
        made: Made::Conditional(value, condition),
    })
}
