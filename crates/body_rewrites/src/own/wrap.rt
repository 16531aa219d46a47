//! `x` → `x` in control flow of its own.
ghost use Rattle.std.specs.Prelude.{ℕ, List};
ghost use Rattle.wasm_code.specs.declared.operator.Operator.{Operator};
ghost use Rattle.wasm_execution.specs.Values.{Context};
ghost use Rattle.rewrite_rules.specs.declared.table.Own.TheVariants.{Wrap as WrapRule};
ghost use Rattle.body_rewrites.specs.Trees.{AreTrees};
ghost use Rattle.body_rewrites.specs.Blocks.{AreBlocks};
ghost use Rattle.body_rewrites.specs.OwnSites.{IsSiteOf};

use crate::blocks::Blocks;
use crate::cutting::tree_at;
use crate::own::{Made, Site};
use crate::trees::Tree;
use rewrite_rules::{Wrap, value_of};

// Where the rule applies at the operator, and what it makes there.
pub(crate) fn find(trees: &[Option<Tree>], blocks: &Blocks, at: usize, wrap: Wrap) -> Option<Site>
    ensures { (context : Context) (operators : List (Operator × ℕ))
        → AreTrees context operators trees.now → AreBlocks operators blocks.now
        → IsSiteOf context operators (WrapRule wrap) at result }
{
    if !blocks.has_room() {
        return None;
    }
    let Some(tree) = tree_at(trees, at) else {
        return None;
    };
    let Some(value) = value_of(tree.gives) else {
        return None;
    };
    Some(Site {
        start: tree.start,
        made: Made::Wrapped(wrap, value),
    })
}
