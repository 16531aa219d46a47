//! The type that the result column of the instruction table tells.
ghost use Rattle.std.specs.Prelude.{◌≡◌, slice_get};
ghost use Rattle.wasm_execution.specs.OtherRow.{first_index};
ghost use Rattle.wasm_execution.specs.ResultColumn.{results_in, the_one, column_type};
ghost use Rattle.wasm_execution.specs.Row.{list_of};
ghost use Rattle.wasm_execution.specs.Values.{context_in};

use crate::other_types::{first_index, results};
use wasm_code::{Imm, Instr, ResultKind, row_info};
use wasm_types::{ModuleInfo, PrimitiveTypeInfo};

// The type of the variable that the immediate names.
fn variable_at(types: &[PrimitiveTypeInfo], imm: Imm) -> Option<PrimitiveTypeInfo>
    ensures { result ≡ slice_get types.now (first_index imm) }
{
    types.get(first_index(imm) as usize).copied()
}

// What the column says, where `first` is the type of the first operand.
fn type_by_column(
    info: &ModuleInfo<'_>,
    locals: &[PrimitiveTypeInfo],
    imm: Imm,
    column: ResultKind,
    first: Option<PrimitiveTypeInfo>,
) -> Option<PrimitiveTypeInfo>
    ensures { result
        ≡ the_one (results_in (context_in info.now locals.now) imm (list_of first) column) }
{
    match column {
        ResultKind::Local => variable_at(locals, imm),
        ResultKind::Global => variable_at(&info.global_types, imm),
        ResultKind::First => first,
        _ => results(info, imm, column).flatten(),
    }
}

/// The type of the one value that an instruction leaves, as the result column of its row tells it: the row's own type, that of
/// what the immediate names, or that of the first operand, where this is known to be `first` (WebAssembly Core Specification
/// 3.0, Validation, Instructions). None where what is named isn't there, where the first operand decides and isn't known, and
/// where it leaves nothing or several values.
pub fn column_type(
    info: &ModuleInfo<'_>,
    locals: &[PrimitiveTypeInfo],
    instr: &Instr,
    first: Option<PrimitiveTypeInfo>,
) -> Option<PrimitiveTypeInfo>
    ensures { result
        ≡ column_type (context_in info.now locals.now) instr.now (list_of first) }
{
    let row = row_info(instr.row())?;
    type_by_column(info, locals, instr.imm(), row.result, first)
}
