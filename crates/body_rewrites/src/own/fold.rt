//! An operator on constants → the constant of its value.
ghost use Rattle.std.specs.Prelude.{◌≡◌, ◌↔◌, ◌<◌, ◌^◌, ℕ, [], ◌∷◌, IsTrue, IfSome, IfNone};
ghost use mir.Val.{bits};
ghost use Rattle.wasm_execution.specs.declared.operation.Operation.{Operation as WholeOperation};
ghost use Rattle.wasm_execution.specs.Values.{Context, type_of, width_of};
ghost use Rattle.rewrite_rules.specs.declared.pattern.Operator.TheVariants.{Whole};
ghost use Rattle.rewrite_rules.specs.Instance.{operator_code};
ghost use Rattle.rewrite_rules.specs.declared.table.Own.TheVariants.{Fold};
ghost use Rattle.body_rewrites.specs.OwnSites.{IsSiteOf, HasOperation, IsValueOn, IsFoldOf};

use crate::instructions::constant_at;
use crate::own::{Made, Site};
use crate::trees::instr_at;
use wasm_code::{Imm, Instr, OperatorAndByteOffset};
use wasm_execution::{IntegerType, Operation};
use wasm_types::PrimitiveTypeInfo;

// The operator that the instruction is.
fn operation_in(instr: &Instr) -> Option<Operation>
    ensures some { IfSome result (λ f. instr.now ≡ operator_code (Whole f)) }
    ensures none { IfNone result ((f : WholeOperation)
        → ¬ (instr.now ≡ operator_code (Whole f))) }
{
    let row = instr.row();
    if row > 226 {
        return None;
    }
    match instr.imm() {
        Imm::Nothing => Operation::from_byte(row as u8 + 29),
        _ => None,
    }
}

// The operator that stands there.
fn operation_at(operators: &[OperatorAndByteOffset], at: usize) -> Option<Operation>
    ensures some { IfSome result (λ f. HasOperation operators.now at f) }
    ensures none { IfNone result ((f : WholeOperation) → ¬ (HasOperation operators.now at f)) }
{
    let instr = instr_at(operators, at)?;
    operation_in(&instr)
}

// Whether the constant's type is the operand's.
fn is_type(t: IntegerType, operand: PrimitiveTypeInfo) -> bool
    ensures { IsTrue result ↔ (type_of t ≡ operand) }
{
    match (t, operand) {
        (IntegerType::I32, PrimitiveTypeInfo::I32) => true,
        (IntegerType::I64, PrimitiveTypeInfo::I64) => true,
        _ => false,
    }
}

// Its value on a constant, where it takes one of that type.
fn value_on_one(operation: Operation, one: (IntegerType, u64)) -> Option<u64>
    requires { one.1 < 2 ^ bits (width_of one.0) }
    ensures some { IfSome result (λ n. IsValueOn operation (one ∷ []) n) }
    ensures none { IfNone result ((n : ℕ) → ¬ (IsValueOn operation (one ∷ []) n)) }
{
    let operands = operation.operands();
    if operands.len() != 1 {
        return None;
    }
    if !is_type(one.0, operands[0]) {
        return None;
    }
    operation.value(&[one.1])
}

// Its value on two constants, where it takes two of these types.
fn value_on_two(
    operation: Operation,
    one: (IntegerType, u64),
    two: (IntegerType, u64),
) -> Option<u64>
    requires one { one.1 < 2 ^ bits (width_of one.0) }
    requires two { two.1 < 2 ^ bits (width_of two.0) }
    ensures some { IfSome result (λ n. IsValueOn operation (one ∷ two ∷ []) n) }
    ensures none { IfNone result ((n : ℕ) → ¬ (IsValueOn operation (one ∷ two ∷ []) n)) }
{
    let operands = operation.operands();
    if operands.len() != 2 {
        return None;
    }
    if !is_type(one.0, operands[0]) {
        return None;
    }
    if !is_type(two.0, operands[1]) {
        return None;
    }
    operation.value(&[one.1, two.1])
}

// What the operator, which stands there, gives on the constant right before it.
fn on_one(operators: &[OperatorAndByteOffset], at: usize, operation: Operation) -> Option<Site>
    requires { HasOperation operators.now at operation }
    ensures { IsFoldOf operators.now 1 at result }
{
    if at < 1 {
        return None;
    }
    let Some(one) = constant_at(operators, at - 1) else {
        return None;
    };
    let Some(value) = value_on_one(operation, one) else {
        return None;
    };
    Some(Site {
        start: at - 1,
        made: Made::Constant(operation.result(), value),
    })
}

// What the operator, which stands there, gives on the two constants right before it.
fn on_two(operators: &[OperatorAndByteOffset], at: usize, operation: Operation) -> Option<Site>
    requires { HasOperation operators.now at operation }
    ensures { IsFoldOf operators.now 2 at result }
{
    if at < 2 {
        return None;
    }
    let Some(one) = constant_at(operators, at - 2) else {
        return None;
    };
    let Some(two) = constant_at(operators, at - 1) else {
        return None;
    };
    let Some(value) = value_on_two(operation, one, two) else {
        return None;
    };
    Some(Site {
        start: at - 2,
        made: Made::Constant(operation.result(), value),
    })
}

// Where the rule applies at the operator, and what it makes there.
pub(crate) fn find(operators: &[OperatorAndByteOffset], at: usize) -> Option<Site>
    ensures { (context : Context) → IsSiteOf context operators.now Fold at result }
{
    let Some(operation) = operation_at(operators, at) else {
        return None;
    };
    let one = on_one(operators, at, operation);
    if one.is_some() {
        return one;
    }
    on_two(operators, at, operation)
}
