//! An operator behind which nothing is reached → the same, and a constant that is dropped.
ghost use Rattle.std.specs.Prelude.{◌≡◌, IsTrue};
ghost use Rattle.wasm_execution.specs.Values.{Context};
ghost use Rattle.wasm_equivalence.specs.control.Standard.{asks_beyond};
ghost use Rattle.wrapped_code.specs.Dead.{never_goes_on};
ghost use Rattle.rewrite_rules.specs.declared.table.Own.TheVariants.{PutDead};
ghost use Rattle.body_rewrites.specs.Own.{HasLeave, HasPlainLeave};
ghost use Rattle.body_rewrites.specs.OwnSites.{IsSiteOf};

use crate::own::unwrap::operator_at;
use crate::own::{Made, Site};
use wasm_code::{Operator, OperatorAndByteOffset};

// Whether nothing is reached right behind the operator.
fn never_goes_on(operator: &Operator) -> bool
    ensures { result ≡ never_goes_on operator.now }
{
    match operator {
        Operator::Br(_) => true,
        Operator::BrTable(_) => true,
        Operator::Return => true,
        Operator::Unreachable => true,
        _ => false,
    }
}

// Whether the operator asks more than it carries.
fn asks_beyond(operator: &Operator) -> bool
    ensures { result ≡ asks_beyond operator.now }
{
    match operator {
        Operator::BrTable(_) => true,
        Operator::CallIndirect { .. } => true,
        Operator::Other(_) => true,
        _ => false,
    }
}

// Whether an operator stands there behind which nothing is reached.
pub(crate) fn has_leave(operators: &[OperatorAndByteOffset], at: usize) -> bool
    ensures same { IsTrue result → HasLeave operators.now at }
    ensures only { HasLeave operators.now at → IsTrue result }
{
    match operator_at(operators, at) {
        Some(operator) => never_goes_on(&operator),
        None => false,
    }
}

// Whether one stands there that carries all that it asks.
fn has_plain_leave(operators: &[OperatorAndByteOffset], at: usize) -> bool
    ensures same { IsTrue result → HasPlainLeave operators.now at }
    ensures only { HasPlainLeave operators.now at → IsTrue result }
{
    let Some(operator) = operator_at(operators, at) else {
        return false;
    };
    if asks_beyond(&operator) {
        return false;
    }
    never_goes_on(&operator)
}

// Where the rule applies at the operator, and what it makes there.
pub(crate) fn find(operators: &[OperatorAndByteOffset], at: usize) -> Option<Site>
    ensures { (context : Context) → IsSiteOf context operators.now PutDead at result }
{
    if !has_plain_leave(operators, at) {
        return None;
    }
    Some(Site {
        start: at,
        made: Made::Dead,
    })
}
