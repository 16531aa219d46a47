//! What the instructions take and give that are no integer rows.
ghost use Rattle.std.specs.Prelude.{◌≡◌, Some, option_map, option_and_then, option_copied};
ghost use Rattle.wasm_types.specs.Module.{merged};
ghost use Rattle.wasm_execution.specs.declared.operand.OperandColumn.{OperandColumn};
ghost use Rattle.wasm_execution.specs.declared.operand.OperandColumn.TheVariants as column;
ghost use Rattle.wasm_execution.specs.OtherRow.{address_in, address_type, element_type, first_index, index_in, named_type, names_in, operand_by, operands_in, parameters, reference_type, results_by, returned, second_index, smaller, typed, value_type};
ghost use Rattle.wasm_execution.specs.Values.{accepts, is_reference, other_types};
ghost use Rattle.wasm_execution.specs.Row.{accept_in, accept_parameters, at_most_one, column_count, operand_count_in, element_in};

use crate::operand::{OperandColumn, OperandKind, operand_column};
use crate::row::{same_type, same_types};
use wasm_code::{AbstractHeapType, HeapType, Imm, Instr, ResultKind, ValType, row_info};
use wasm_types::{ElementType, MemoryType, ModuleInfo, PrimitiveTypeInfo, TableType, TypeInfo};

fn value_type(t: ValType) -> PrimitiveTypeInfo
    ensures { result ≡ value_type t }
{
    match t {
        ValType::I32 => PrimitiveTypeInfo::I32,
        ValType::I64 => PrimitiveTypeInfo::I64,
        ValType::F32 => PrimitiveTypeInfo::F32,
        ValType::F64 => PrimitiveTypeInfo::F64,
        ValType::V128 => PrimitiveTypeInfo::V128,
        ValType::FuncRef => PrimitiveTypeInfo::FuncRef,
        ValType::ExternRef => PrimitiveTypeInfo::ExternRef,
    }
}

fn reference_type(heap: HeapType) -> PrimitiveTypeInfo
    ensures { result ≡ reference_type heap }
{
    match heap {
        HeapType::Abstract {
            ty: AbstractHeapType::Func,
        } => PrimitiveTypeInfo::FuncRef,
        HeapType::Abstract {
            ty: AbstractHeapType::Extern,
        } => PrimitiveTypeInfo::ExternRef,
    }
}

// The type of an address: i64 where it has 64 bits, i32 where it has 32.
fn address_type(wide: bool) -> PrimitiveTypeInfo
    ensures { result ≡ address_type wide }
{
    if wide {
        PrimitiveTypeInfo::I64
    } else {
        PrimitiveTypeInfo::I32
    }
}

fn element_type(element: ElementType) -> PrimitiveTypeInfo
    ensures { result ≡ element_type element }
{
    match element {
        ElementType::Func => PrimitiveTypeInfo::FuncRef,
        ElementType::Extern => PrimitiveTypeInfo::ExternRef,
        ElementType::Other => PrimitiveTypeInfo::Empty,
    }
}

fn address_in(memories: &[MemoryType], index: u32) -> Option<PrimitiveTypeInfo>
    ensures { result ≡ address_in memories.now index }
{
    let memory = memories.get(index as usize)?;
    Some(address_type(memory.memory64))
}

fn index_in(tables: &[TableType], index: u32) -> Option<PrimitiveTypeInfo>
    ensures { result ≡ index_in tables.now index }
{
    let table = tables.get(index as usize)?;
    Some(address_type(table.table64))
}

fn element_in(tables: &[TableType], index: u32) -> Option<PrimitiveTypeInfo>
    ensures { result ≡ element_in tables.now index }
{
    let table = tables.get(index as usize)?;
    Some(element_type(table.element_type))
}

// The memory, table or function that an immediate names.
pub(crate) fn first_index(imm: Imm) -> u32
    ensures { result ≡ first_index imm }
{
    match imm {
        Imm::Index(i) => i,
        Imm::Pair(i, _) => i,
        Imm::Mem(m) => m.memory,
        Imm::MemLane(m, _) => m.memory,
        _ => 0,
    }
}

fn second_index(imm: Imm) -> u32
    ensures { result ≡ second_index imm }
{
    match imm {
        Imm::Pair(_, j) => j,
        _ => 0,
    }
}

// The type as the module has it: `Empty` for each reference where it has one type of them.
fn merged(one_reference: bool, t: PrimitiveTypeInfo) -> PrimitiveTypeInfo
    ensures { result ≡ merged one_reference t }
{
    match t {
        PrimitiveTypeInfo::FuncRef if one_reference => PrimitiveTypeInfo::Empty,
        PrimitiveTypeInfo::ExternRef if one_reference => PrimitiveTypeInfo::Empty,
        _ => t,
    }
}

fn named_type(info: &ModuleInfo<'_>, imm: Imm) -> Option<PrimitiveTypeInfo>
    ensures { result ≡ option_map (merged info.now.one_reference) (named_type imm) }
{
    match imm {
        Imm::Heap(heap) => Some(merged(info.one_reference, reference_type(heap))),
        Imm::Val(t) => Some(merged(info.one_reference, value_type(t))),
        _ => None,
    }
}

// Of two addresses one with 64 bits only where both have them.
fn smaller(t: Option<PrimitiveTypeInfo>, u: Option<PrimitiveTypeInfo>) -> Option<PrimitiveTypeInfo>
    ensures { result ≡ smaller t u }
{
    match t {
        Some(PrimitiveTypeInfo::I64) => u,
        _ => t,
    }
}

// `Empty` stands for each type of a module that isn't one of the others: these are references.
fn is_reference(t: PrimitiveTypeInfo) -> bool
    ensures { result ≡ is_reference t }
{
    match t {
        PrimitiveTypeInfo::FuncRef => true,
        PrimitiveTypeInfo::ExternRef => true,
        PrimitiveTypeInfo::Empty => true,
        _ => false,
    }
}

// Whether the type is there and is that.
fn is_that(t: Option<PrimitiveTypeInfo>, u: PrimitiveTypeInfo) -> bool
    ensures { result ≡ accepts (typed t) u }
{
    match t {
        Some(t) => same_type(t, u),
        None => false,
    }
}

// Whether an operand may have the type.
fn accepts(info: &ModuleInfo<'_>, imm: Imm, kind: OperandKind, t: PrimitiveTypeInfo) -> bool
    ensures { result ≡ accepts (operand_by (names_in info.now imm) kind) t }
{
    match kind {
        OperandKind::Of(u) => is_that(Some(u), t),
        OperandKind::Reference => is_reference(t),
        OperandKind::Address => is_that(address_in(&info.memory_types, first_index(imm)), t),
        OperandKind::OtherAddress => is_that(address_in(&info.memory_types, second_index(imm)), t),
        OperandKind::SmallerAddress => {
            let first = address_in(&info.memory_types, first_index(imm));
            let second = address_in(&info.memory_types, second_index(imm));
            is_that(smaller(first, second), t)
        }
        OperandKind::Index => is_that(index_in(&info.table_types, first_index(imm)), t),
        OperandKind::OtherIndex => is_that(index_in(&info.table_types, second_index(imm)), t),
        OperandKind::SmallerIndex => {
            let first = index_in(&info.table_types, first_index(imm));
            let second = index_in(&info.table_types, second_index(imm));
            is_that(smaller(first, second), t)
        }
        OperandKind::Element => is_that(element_in(&info.table_types, first_index(imm)), t),
        OperandKind::Named => is_that(named_type(info, imm), t),
    }
}

// Whether the function has these parameters.
fn accept_parameters(function: Option<&TypeInfo>, types: &[PrimitiveTypeInfo]) -> bool
    ensures { result ≡ accept_parameters (option_copied function.entry) types.now }
{
    match function {
        Some(TypeInfo::Func(function)) => same_types(&function.params, types),
        Some(TypeInfo::Other) => false,
        None => false,
    }
}

// Whether the operands may have the types.
fn accept(
    info: &ModuleInfo<'_>,
    imm: Imm,
    column: OperandColumn,
    types: &[PrimitiveTypeInfo],
) -> bool
    ensures { result ≡ accept_in (names_in info.now imm) column types.now }
{
    match column {
        OperandColumn::Unknown => false,
        OperandColumn::Parameters => {
            accept_parameters(info.get_functype_idx(first_index(imm)), types)
        }
        OperandColumn::Zero => types.is_empty(),
        OperandColumn::One(a) => accept_one(info, imm, a, types),
        OperandColumn::Two(a, b) => accept_two(info, imm, a, b, types),
        OperandColumn::Three(a, b, c) => accept_three(info, imm, a, b, c, types),
    }
}

fn accept_one(info: &ModuleInfo<'_>, imm: Imm, a: OperandKind, types: &[PrimitiveTypeInfo]) -> bool
    ensures { result ≡ accept_in (names_in info.now imm) (column.One a) types.now }
{
    match types {
        [t] => accepts(info, imm, a, *t),
        _ => false,
    }
}

fn accept_two(
    info: &ModuleInfo<'_>,
    imm: Imm,
    a: OperandKind,
    b: OperandKind,
    types: &[PrimitiveTypeInfo],
) -> bool
    ensures { result ≡ accept_in (names_in info.now imm) (column.Two a b) types.now }
{
    match types {
        [t, u] => {
            let first = accepts(info, imm, a, *t);
            let second = accepts(info, imm, b, *u);
            first && second
        }
        _ => false,
    }
}

fn accept_three(
    info: &ModuleInfo<'_>,
    imm: Imm,
    a: OperandKind,
    b: OperandKind,
    c: OperandKind,
    types: &[PrimitiveTypeInfo],
) -> bool
    ensures { result ≡ accept_in (names_in info.now imm) (column.Three a b c) types.now }
{
    match types {
        [t, u, v] => {
            let first = accepts(info, imm, a, *t);
            let second = accepts(info, imm, b, *u);
            let third = accepts(info, imm, c, *v);
            first && (second && third)
        }
        _ => false,
    }
}

// The types of a list of at most one.
fn at_most_one(types: &[PrimitiveTypeInfo]) -> Option<Option<PrimitiveTypeInfo>>
    ensures { result ≡ at_most_one types.now }
{
    match types {
        [] => Some(None),
        [t] => Some(Some(*t)),
        _ => None,
    }
}

fn returned(function: Option<&TypeInfo>) -> Option<Option<PrimitiveTypeInfo>>
    ensures { result ≡ option_and_then at_most_one (returned (option_copied function.entry)) }
{
    match function {
        Some(TypeInfo::Func(function)) => at_most_one(&function.returns),
        Some(TypeInfo::Other) => None,
        None => None,
    }
}

// The type, where it is there.
fn one_type(t: Option<PrimitiveTypeInfo>) -> Option<Option<PrimitiveTypeInfo>>
    ensures { result ≡ option_map (λ u. Some u) t }
{
    match t {
        Some(t) => Some(Some(t)),
        None => None,
    }
}

// What the table's column says of the result.
pub(crate) fn results(
    info: &ModuleInfo<'_>,
    imm: Imm,
    column: ResultKind,
) -> Option<Option<PrimitiveTypeInfo>>
    ensures { result ≡ option_and_then at_most_one (results_by (names_in info.now imm) column) }
{
    match column {
        ResultKind::Nothing => Some(None),
        ResultKind::Fixed(t) => Some(Some(merged(info.one_reference, value_type(t)))),
        ResultKind::Call => returned(info.get_functype_idx(first_index(imm))),
        ResultKind::Memory => one_type(address_in(&info.memory_types, first_index(imm))),
        ResultKind::Table => one_type(index_in(&info.table_types, first_index(imm))),
        ResultKind::Element => one_type(element_in(&info.table_types, first_index(imm))),
        ResultKind::Immediate => one_type(named_type(info, imm)),
        _ => None,
    }
}

/// What an instruction that is no integer row gives on operands of these types: one type or, as `Some(None)`, nothing. None
/// where these are not its operand types, where what it names isn't there, and for a call with several results.
#[tactic(auto, unfolding(crate::specs::OtherRow::other_type))]
pub fn other_types(
    info: &ModuleInfo<'_>,
    instr: &Instr,
    operands: &[PrimitiveTypeInfo],
) -> Option<Option<PrimitiveTypeInfo>>
    ensures { result
        ≡ option_and_then at_most_one (other_types info.now instr.now operands.now) }
{
    let row = row_info(instr.row())?;
    let accepted = accept(info, instr.imm(), operand_column(instr.row()), operands);
    if accepted {
        results(info, instr.imm(), row.result)
    } else {
        None
    }
}

// How many parameters the function has; 0 where it isn't there.
fn parameter_count(function: Option<&TypeInfo>) -> usize
    ensures { result ≡ operand_count_in (parameters (option_copied function.entry)) }
{
    match function {
        Some(TypeInfo::Func(function)) => function.params.len(),
        Some(TypeInfo::Other) => 0,
        None => 0,
    }
}

// How many operands the column tells; 0 where it doesn't tell.
fn column_count(info: &ModuleInfo<'_>, imm: Imm, column: OperandColumn) -> usize
    ensures { result ≡ operand_count_in (operands_in (names_in info.now imm) column) }
{
    match column {
        OperandColumn::Unknown => 0,
        OperandColumn::Parameters => parameter_count(info.get_functype_idx(first_index(imm))),
        OperandColumn::Zero => 0,
        OperandColumn::One(..) => 1,
        OperandColumn::Two(..) => 2,
        OperandColumn::Three(..) => 3,
    }
}

/// How many operands an instruction takes that is no integer row: on any other number of them it has no types. 0 of one that has
/// no types on any operands.
pub(crate) fn other_count(info: &ModuleInfo<'_>, instr: &Instr) -> usize
    ensures { result ≡ column_count info.now instr.now }
{
    column_count(info, instr.imm(), operand_column(instr.row()))
}
