//! Whether operands have the types of the holes that they stand in.
ghost use Rattle.std.specs.Prelude.{◌≡◌};
ghost use Rattle.wasm_execution.specs.Values.{type_of};
ghost use Rattle.wasm_execution.specs.IntegerRow.{is_numeric};
ghost use Rattle.rewrite_rules.specs.Pattern.{hole_kind_of};
ghost use Rattle.rewrite_rules.specs.Table.{kinds_for};
ghost use Rattle.rewrite_rules.specs.Operands.{fixed_in, select_type, has_type, have_types, types_fit};

use crate::standing::TableRow;
use crate::table::Widths;
use wasm_execution::IntegerType;
use wasm_types::PrimitiveTypeInfo;

// A number's or a vector's.
fn is_numeric(t: PrimitiveTypeInfo) -> bool
    ensures { result ≡ is_numeric t }
{
    match t {
        PrimitiveTypeInfo::FuncRef => false,
        PrimitiveTypeInfo::ExternRef => false,
        PrimitiveTypeInfo::Empty => false,
        _ => true,
    }
}

// The type of the width.
fn type_of(width: IntegerType) -> PrimitiveTypeInfo
    ensures { result ≡ type_of width }
{
    match width {
        IntegerType::I32 => PrimitiveTypeInfo::I32,
        IntegerType::I64 => PrimitiveTypeInfo::I64,
    }
}

// The type of the hole with the index, where it is not any.
fn fixed_type(widths: Widths, width: IntegerType, index: usize) -> Option<PrimitiveTypeInfo>
    ensures { result ≡ fixed_in (hole_kind_of (kinds_for widths width) index) }
{
    match (widths, index) {
        (Widths::Any, 2) => Some(PrimitiveTypeInfo::I32),
        (Widths::Any, _) => None,
        (Widths::Operands(t, _, _), 0) => Some(t),
        (Widths::Operands(_, t, _), 1) => Some(t),
        (Widths::Operands(_, _, t), 2) => Some(t),
        (_, 0 | 1 | 2) => Some(type_of(width)),
        _ => None,
    }
}

// The type that a select is of: that of the first operand whose hole may have any.
fn select_type(
    widths: Widths,
    width: IntegerType,
    types: &[Option<PrimitiveTypeInfo>],
) -> PrimitiveTypeInfo
    ensures { result ≡ select_type (kinds_for widths width) 0 types.now }
{
    for i in 0..types.len() {
        if let Some(t) = types[i] {
            if fixed_type(widths, width, i).is_none() {
                return t;
            }
        }
    }
    PrimitiveTypeInfo::I32
}

// Whether the operand has its hole's type, where there is one, and a select is of the type `select`.
fn has_type(
    widths: Widths,
    width: IntegerType,
    index: usize,
    operand: Option<PrimitiveTypeInfo>,
    select: PrimitiveTypeInfo,
) -> bool
    ensures { result ≡ has_type select (kinds_for widths width) index operand }
{
    match operand {
        Some(t) => match fixed_type(widths, width, index) {
            Some(fixed) => t == fixed,
            None => t == select,
        },
        None => true,
    }
}

// Whether each operand has.
fn have_types(
    widths: Widths,
    width: IntegerType,
    types: &[Option<PrimitiveTypeInfo>],
    select: PrimitiveTypeInfo,
) -> bool
    ensures { result ≡ have_types select (kinds_for widths width) 0 types.now }
{
    for i in 0..types.len() {
        if !has_type(widths, width, i, types[i], select) {
            return false;
        }
    }
    true
}

impl TableRow {
    /// Whether operands of these types have those of the row's holes, for the width; `types` has for each hole the type of the operand in
    /// it, or none where the row has no such hole.
    pub fn types_fit(&self, width: IntegerType, types: &[Option<PrimitiveTypeInfo>]) -> bool
        ensures { result ≡ types_fit (kinds_for self.now.widths width) types.now }
    {
        let widths = self.widths();
        let select = select_type(widths, width, types);
        is_numeric(select) && have_types(widths, width, types, select)
    }
}
