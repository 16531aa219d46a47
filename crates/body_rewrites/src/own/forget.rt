//! `x` and a drop → nothing, where `x` neither writes nor traps.
ghost use Rattle.wasm_execution.specs.Values.{Context};
ghost use Rattle.rewrite_rules.specs.declared.table.Own.TheVariants.{Forget};
ghost use Rattle.body_rewrites.specs.Trees.{AreTrees};
ghost use Rattle.body_rewrites.specs.OwnSites.{IsSiteOf};

use crate::cutting::tree_at;
use crate::instructions::is_bare_at;
use crate::own::{Made, Site};
use crate::trees::Tree;
use wasm_code::OperatorAndByteOffset;

// Where the rule applies at the operator, and what it makes there.
pub(crate) fn find(
    operators: &[OperatorAndByteOffset],
    trees: &[Option<Tree>],
    at: usize,
) -> Option<Site>
    ensures { (context : Context) → AreTrees context operators.now trees.now
        → IsSiteOf context operators.now Forget at result }
{
    if at == 0 {
        return None;
    }
    if !is_bare_at(operators, at, 2) {
        return None;
    }
    let Some(tree) = tree_at(trees, at - 1) else {
        return None;
    };
    if tree.writes {
        return None;
    }
    if tree.traps {
        return None;
    }
    Some(Site {
        start: tree.start,
        made: Made::Nothing,
    })
}
