//! `x` → a nop and `x`.
ghost use Rattle.std.specs.Prelude.{ℕ, List};
ghost use Rattle.wasm_code.specs.declared.operator.Operator.{Operator};
ghost use Rattle.wasm_execution.specs.Values.{Context};
ghost use Rattle.rewrite_rules.specs.declared.table.Own.TheVariants.{WithNop};
ghost use Rattle.body_rewrites.specs.Trees.{AreTrees};
ghost use Rattle.body_rewrites.specs.OwnSites.{IsSiteOf};

use crate::cutting::tree_at;
use crate::own::{Made, Site};
use crate::trees::Tree;

// Where the rule applies at the operator, and what it makes there.
pub(crate) fn find(trees: &[Option<Tree>], at: usize) -> Option<Site>
    ensures { (context : Context) (operators : List (Operator × ℕ))
        → AreTrees context operators trees.now → IsSiteOf context operators WithNop at result }
{
    let Some(tree) = tree_at(trees, at) else {
        return None;
    };
    Some(Site {
        start: tree.start,
        made: Made::Nop,
    })
}
