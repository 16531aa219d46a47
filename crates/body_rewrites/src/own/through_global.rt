//! `x` → `x`, and its value through a further global.
ghost use Rattle.std.specs.Prelude.{◌≡◌, ℕ, List};
ghost use Rattle.wasm_code.specs.declared.operator.Operator.{Operator};
ghost use Rattle.wasm_execution.specs.Values.{Context};
ghost use Rattle.rewrite_rules.specs.declared.table.Own.TheVariants.{ThroughGlobal};
ghost use Rattle.body_rewrites.specs.Trees.{AreTrees};
ghost use Rattle.body_rewrites.specs.Own.{is_number};
ghost use Rattle.body_rewrites.specs.OwnSites.{IsSiteOf};

use crate::cutting::tree_at;
use crate::own::{Made, Site};
use crate::trees::Tree;
use wasm_types::{ModuleInfo, PrimitiveTypeInfo};

// Whether its values are numbers, and no vectors.
fn is_number(t: PrimitiveTypeInfo) -> bool
    ensures { result ≡ is_number t }
{
    match t {
        PrimitiveTypeInfo::I32 => true,
        PrimitiveTypeInfo::I64 => true,
        PrimitiveTypeInfo::F32 => true,
        PrimitiveTypeInfo::F64 => true,
        _ => false,
    }
}

// Where the rule applies at the operator, and what it makes there.
pub(crate) fn find(info: &ModuleInfo<'_>, trees: &[Option<Tree>], at: usize) -> Option<Site>
    ensures { (context : Context) (operators : List (Operator × ℕ))
        → context.info ≡ info.now → AreTrees context operators trees.now
        → IsSiteOf context operators ThroughGlobal at result }
{
    let Some(tree) = tree_at(trees, at) else {
        return None;
    };
    if !is_number(tree.gives) {
        return None;
    }
    let count = info.get_global_count();
    if count > 0xFFFF_FFFF {
        return None;
    }
    Some(Site {
        start: tree.start,
        made: Made::Global(tree.gives, count as u32),
    })
}
