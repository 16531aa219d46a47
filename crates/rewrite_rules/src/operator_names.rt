//! The names of operators, as WebAssembly's text format has them.

use wasm_execution::{Binary, Comparison, IntegerType, Operation, Unary};

/// The type's name.
pub(crate) fn type_name(t: IntegerType) -> &'static str {
    match t {
        IntegerType::I32 => "i32",
        IntegerType::I64 => "i64",
    }
}

// The name of an operator on one number, without its type.
fn unary_name(operator: Unary) -> &'static str {
    match operator {
        Unary::Clz => "clz",
        Unary::Ctz => "ctz",
        Unary::Popcnt => "popcnt",
    }
}

/// The name of an operator on two numbers, without its type.
pub(crate) fn binary_name(operator: Binary) -> &'static str {
    match operator {
        Binary::Add => "add",
        Binary::Sub => "sub",
        Binary::Mul => "mul",
        Binary::DivS => "div_s",
        Binary::DivU => "div_u",
        Binary::RemS => "rem_s",
        Binary::RemU => "rem_u",
        Binary::And => "and",
        Binary::Or => "or",
        Binary::Xor => "xor",
        Binary::Shl => "shl",
        Binary::ShrS => "shr_s",
        Binary::ShrU => "shr_u",
        Binary::Rotl => "rotl",
        Binary::Rotr => "rotr",
    }
}

/// The name of a comparison, without its type.
pub(crate) fn comparison_name(comparison: Comparison) -> &'static str {
    match comparison {
        Comparison::Eq => "eq",
        Comparison::Ne => "ne",
        Comparison::LtS => "lt_s",
        Comparison::LtU => "lt_u",
        Comparison::GtS => "gt_s",
        Comparison::GtU => "gt_u",
        Comparison::LeS => "le_s",
        Comparison::LeU => "le_u",
        Comparison::GeS => "ge_s",
        Comparison::GeU => "ge_u",
    }
}

/// The operator's name behind the dot.
pub(crate) fn name_behind(operation: Operation) -> &'static str {
    match operation {
        Operation::Eqz(_) => "eqz",
        Operation::Compare(_, comparison) => comparison_name(comparison),
        Operation::Unary(_, operator) => unary_name(operator),
        Operation::Binary(_, operator) => binary_name(operator),
        Operation::WrapI64 => "wrap_i64",
        Operation::ExtendI32S => "extend_i32_s",
        Operation::ExtendI32U => "extend_i32_u",
        Operation::Extend8S(_) => "extend8_s",
        Operation::Extend16S(_) => "extend16_s",
        Operation::Extend32S => "extend32_s",
    }
}

/// The type in front of the dot in the operator's name.
pub(crate) fn type_in_front(operation: Operation) -> IntegerType {
    match operation {
        Operation::Eqz(t) => t,
        Operation::Compare(t, _) => t,
        _ => operation.result(),
    }
}
