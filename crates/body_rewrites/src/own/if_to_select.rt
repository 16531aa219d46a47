//! A conditional each part of which is a constant or a variable → a select.
ghost use Rattle.std.specs.Prelude.{◌+◌, ◌<◌, IsTrue, length};
ghost use Rattle.wasm_execution.specs.Values.{Context};
ghost use Rattle.rewrite_rules.specs.declared.table.Own.TheVariants.{IfToSelect};
ghost use Rattle.body_rewrites.specs.Trees.{AreTrees};
ghost use Rattle.body_rewrites.specs.Own.{IsChoice};
ghost use Rattle.body_rewrites.specs.OwnSites.{IsSiteOf};

use crate::own::leaves::{leaves_at, read_before};
use crate::own::unwrap::has_item;
use crate::own::{Made, Site};
use crate::trees::Tree;
use rewrite_rules::WrapItem;
use wasm_code::{OperatorAndByteOffset, ValType};

// Whether a conditional stands there whose parts are one operator each.
fn is_choice(operators: &[OperatorAndByteOffset], place: usize, t: ValType) -> bool
    requires { place + 4 < length operators.now }
    ensures same { IsTrue result → IsChoice operators.now place t }
    ensures only { IsChoice operators.now place t → IsTrue result }
{
    if !has_item(operators, place, WrapItem::If, t) {
        return false;
    }
    if !has_item(operators, place + 2, WrapItem::Else, t) {
        return false;
    }
    has_item(operators, place + 4, WrapItem::End, t)
}

// Where the rule applies at the operator, and what it makes there.
pub(crate) fn find(
    operators: &[OperatorAndByteOffset],
    trees: &[Option<Tree>],
    at: usize,
) -> Option<Site>
    ensures { (context : Context) → AreTrees context operators.now trees.now
        → IsSiteOf context operators.now IfToSelect at result }
{
    if at >= operators.len() || at + 1 >= operators.len() || at < 4 {
        return None;
    }
    let place = at - 4;
    let Some(value) = leaves_at(operators, trees, place + 1, place + 3) else {
        return None;
    };
    if !is_choice(operators, place, value) {
        return None;
    }
    let Some(start) = read_before(trees, place) else {
        return None;
    };
    Some(Site {
        start,
        made: Made::Selected,
    })
}
