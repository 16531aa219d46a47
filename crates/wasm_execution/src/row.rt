//! What an instruction is to the machine, and the types that it takes and gives.
ghost use Rattle.std.specs.Prelude.{◌≡◌, ◌&&◌, [], ◌∷◌, IfSome, option_map};
ghost use Rattle.wasm_types.specs.Module.{Module};
ghost use Rattle.wasm_types.specs.declared.types.PrimitiveTypeInfo.TheVariants.{I32};
ghost use Rattle.wasm_execution.specs.Values.{context_in, type_of, same_type, same_types};
ghost use Rattle.wasm_execution.specs.Integer.{select_operator};
ghost use Rattle.wasm_execution.specs.IntegerRow.{bare_row, variable_row, typed_select, byte_row, row_or_other, integer_row, is_other, if_typed, variable_type, is_numeric, operand_count, row_types};
ghost use Rattle.wasm_execution.specs.Row.{HasOperandCount, instruction_count, instruction_types, variable_of, row_of, list_of, instruction_byte, get_types, set_types, tee_types, drop_types, select_types};

use crate::integer::IntegerType;
use crate::operation::Operation;
use crate::other_types::{other_count, other_types};
use wasm_code::{Imm, Instr, ValType};
use wasm_types::{ModuleInfo, PrimitiveTypeInfo};

/// A variable, by its number.
#[derive(Clone, Copy, Debug, PartialEq, Eq)]
pub enum Variable {
    /// A local.
    Local(u32),
    /// A global.
    Global(u32),
}

/// What an instruction is to the machine (WebAssembly Core Specification 3.0, Structure, Instructions).
#[derive(Clone, Copy, Debug, PartialEq, Eq)]
pub enum Row {
    /// A constant of the type: the bits of its number.
    Constant(IntegerType, u64),
    /// An operator on whole numbers without an immediate.
    Operation(Operation),
    /// The select whose type is written, of the type.
    TypedSelect(IntegerType),
    /// The value of the variable.
    Get(Variable),
    /// The variable is set to the operand.
    Set(Variable),
    /// The same, and the operand stays.
    Tee(Variable),
    /// The operand is dropped.
    Drop,
    /// The select whose type isn't written.
    Select,
    /// Nothing.
    Nop,
    /// Every other instruction.
    Other,
}

/// The opcode of an instruction, where it is one byte (WebAssembly Core Specification 3.0, Binary Format,
/// Instructions).
pub fn opcode_byte(instr: &Instr) -> Option<u8>
    ensures { result ≡ instruction_byte instr.now }
{
    let row = instr.row();
    match row {
        0 => Some(0x01),
        1 => Some(0x10),
        2..=3 => Some(row as u8 + 0x18),
        4..=10 => Some(row as u8 + 0x1C),
        11..=167 => Some(row as u8 + 0x1D),
        168..=170 => Some(row as u8 + 0x28),
        445 => Some(0x1C),
        _ => None,
    }
}

/// What an instruction is to the machine. A constant's number is in two's complement.
#[tactic(auto, unfolding(crate::specs::IntegerRow::integer_row))]
pub fn integer_row(instr: &Instr) -> Row
    ensures { row_or_other instr.now (row_of result) ≡ integer_row instr.now }
{
    match opcode_byte(instr) {
        Some(byte) => byte_row(byte, instr.imm()),
        None => Row::Other,
    }
}

/// Whether an instruction is no integer row, and so does as the world says: a load, a store, a call, one on floats or vectors, and
/// every other that is not among those of `Row`.
pub fn asks_world(instr: &Instr) -> bool
    ensures { result ≡ is_other (integer_row instr.now) }
{
    match integer_row(instr) {
        Row::Other => true,
        _ => false,
    }
}

// Of an opcode of one byte, with its immediate.
fn byte_row(byte: u8, imm: Imm) -> Row
    ensures { row_of result ≡ byte_row byte imm }
{
    match imm {
        Imm::Nothing => bare_row(byte),
        Imm::Index(index) => variable_row(byte, index),
        Imm::I32(z) => {
            if byte == 0x41 {
                Row::Constant(IntegerType::I32, z.cast_unsigned() as u64)
            } else {
                Row::Other
            }
        }
        Imm::I64(z) => {
            if byte == 0x42 {
                Row::Constant(IntegerType::I64, z.cast_unsigned())
            } else {
                Row::Other
            }
        }
        Imm::Val(t) => {
            if byte == 0x1C {
                typed_select(t)
            } else {
                Row::Other
            }
        }
        _ => Row::Other,
    }
}

// Without an immediate.
fn bare_row(byte: u8) -> Row
    ensures { row_of result ≡ bare_row byte }
{
    match byte {
        0x01 => Row::Nop,
        0x1A => Row::Drop,
        0x1B => Row::Select,
        _ => match Operation::from_byte(byte) {
            Some(operation) => Row::Operation(operation),
            None => Row::Other,
        },
    }
}

// With an index.
fn variable_row(byte: u8, index: u32) -> Row
    ensures { row_of result ≡ variable_row byte index }
{
    match byte {
        0x20 => Row::Get(Variable::Local(index)),
        0x21 => Row::Set(Variable::Local(index)),
        0x22 => Row::Tee(Variable::Local(index)),
        0x23 => Row::Get(Variable::Global(index)),
        0x24 => Row::Set(Variable::Global(index)),
        _ => Row::Other,
    }
}

// The select whose type is written.
fn typed_select(t: ValType) -> Row
    ensures { row_of result ≡ typed_select t }
{
    match t {
        ValType::I32 => Row::TypedSelect(IntegerType::I32),
        ValType::I64 => Row::TypedSelect(IntegerType::I64),
        _ => Row::Other,
    }
}

fn type_of(t: IntegerType) -> PrimitiveTypeInfo
    ensures { result ≡ type_of t }
{
    match t {
        IntegerType::I32 => PrimitiveTypeInfo::I32,
        IntegerType::I64 => PrimitiveTypeInfo::I64,
    }
}

// A number's or a vector's.
fn is_numeric(t: PrimitiveTypeInfo) -> bool
    ensures { result ≡ is_numeric t }
{
    match t {
        PrimitiveTypeInfo::FuncRef => false,
        PrimitiveTypeInfo::ExternRef => false,
        PrimitiveTypeInfo::Empty => false,
        _ => true,
    }
}

pub(crate) fn same_type(t: PrimitiveTypeInfo, u: PrimitiveTypeInfo) -> bool
    ensures { result ≡ same_type t u }
{
    t == u
}

pub(crate) fn same_types(types: &[PrimitiveTypeInfo], others: &[PrimitiveTypeInfo]) -> bool
    ensures { result ≡ same_types types.now others.now }
{
    types == others
}

// The type of a variable, where it is there.
fn variable_type(
    info: &ModuleInfo<'_>,
    locals: &[PrimitiveTypeInfo],
    variable: Variable,
) -> Option<PrimitiveTypeInfo>
    ensures { result ≡ variable_type (context_in info.now locals.now) (variable_of variable) }
{
    match variable {
        Variable::Local(index) => locals.get(index as usize).copied(),
        Variable::Global(index) => info.global_types.get(index as usize).copied(),
    }
}

// The operands of the select whose type is written.
fn select_operands(t: IntegerType) -> &'static [PrimitiveTypeInfo]
    ensures { result.now ≡ (select_operator t).operands }
{
    match t {
        IntegerType::I32 => &[
            PrimitiveTypeInfo::I32,
            PrimitiveTypeInfo::I32,
            PrimitiveTypeInfo::I32,
        ],
        IntegerType::I64 => &[
            PrimitiveTypeInfo::I64,
            PrimitiveTypeInfo::I64,
            PrimitiveTypeInfo::I32,
        ],
    }
}

/// The type that an integer row gives on operands of these types, or `Some(None)` where it gives nothing; none where these
/// are not the row's operand types, or its variable isn't there (WebAssembly Core Specification 3.0, Validation,
/// Instructions).
pub fn row_types(
    info: &ModuleInfo<'_>,
    locals: &[PrimitiveTypeInfo],
    row: Row,
    operands: &[PrimitiveTypeInfo],
) -> Option<Option<PrimitiveTypeInfo>>
    ensures { IfSome (row_of row) (λ r.
        option_map list_of result ≡ row_types (context_in info.now locals.now) r operands.now) }
{
    match row {
        Row::Constant(t, _) => operands.is_empty().then_some(Some(type_of(t))),
        Row::Operation(operation) => {
            operator_types(operation.operands(), operation.result(), operands)
        }
        Row::TypedSelect(t) => operator_types(select_operands(t), t, operands),
        Row::Get(variable) => get_types(variable_type(info, locals, variable), operands),
        Row::Set(variable) => set_types(variable_type(info, locals, variable), operands),
        Row::Tee(variable) => tee_types(variable_type(info, locals, variable), operands),
        Row::Drop => drop_types(operands),
        Row::Select => select_types(operands),
        Row::Nop => operands.is_empty().then_some(None),
        Row::Other => None,
    }
}

fn operator_types(
    wanted: &[PrimitiveTypeInfo],
    gives: IntegerType,
    operands: &[PrimitiveTypeInfo],
) -> Option<Option<PrimitiveTypeInfo>>
    ensures { result ≡ if_typed (same_types operands.now wanted.now) (Some (type_of gives)) }
{
    same_types(operands, wanted).then_some(Some(type_of(gives)))
}

fn get_types(
    variable: Option<PrimitiveTypeInfo>,
    operands: &[PrimitiveTypeInfo],
) -> Option<Option<PrimitiveTypeInfo>>
    ensures { option_map list_of result ≡ get_types variable operands.now }
{
    match operands {
        [] => Some(Some(variable?)),
        _ => None,
    }
}

fn set_types(
    variable: Option<PrimitiveTypeInfo>,
    operands: &[PrimitiveTypeInfo],
) -> Option<Option<PrimitiveTypeInfo>>
    ensures { option_map list_of result ≡ set_types variable operands.now }
{
    match operands {
        [t] => same_type(*t, variable?).then_some(None),
        _ => None,
    }
}

fn tee_types(
    variable: Option<PrimitiveTypeInfo>,
    operands: &[PrimitiveTypeInfo],
) -> Option<Option<PrimitiveTypeInfo>>
    ensures { option_map list_of result ≡ tee_types variable operands.now }
{
    match operands {
        [t] => same_type(*t, variable?).then_some(Some(*t)),
        _ => None,
    }
}

fn drop_types(operands: &[PrimitiveTypeInfo]) -> Option<Option<PrimitiveTypeInfo>>
    ensures { option_map list_of result ≡ drop_types operands.now }
{
    match operands {
        [_] => Some(None),
        _ => None,
    }
}

fn select_types(operands: &[PrimitiveTypeInfo]) -> Option<Option<PrimitiveTypeInfo>>
    ensures { option_map list_of result ≡ select_types operands.now }
{
    match operands {
        [t, u, condition] => has_select_types(*t, *u, *condition).then_some(Some(*t)),
        _ => None,
    }
}

// Whether the select whose type isn't written takes operands of these types.
fn has_select_types(
    t: PrimitiveTypeInfo,
    u: PrimitiveTypeInfo,
    condition: PrimitiveTypeInfo,
) -> bool
    ensures { result ≡ (is_numeric t && same_types (u ∷ condition ∷ []) (t ∷ I32 ∷ [])) }
{
    is_numeric(t) && same_types(&[u, condition], &[t, PrimitiveTypeInfo::I32])
}

/// The type that an instruction gives on operands of these types, or `Some(None)` where it gives nothing; none where these are
/// not its operand types, where what it names isn't there, and for a call with several results (WebAssembly Core Specification
/// 3.0, Validation, Instructions).
pub fn instruction_types(
    info: &ModuleInfo<'_>,
    locals: &[PrimitiveTypeInfo],
    instr: &Instr,
    operands: &[PrimitiveTypeInfo],
) -> Option<Option<PrimitiveTypeInfo>>
    ensures { result ≡ instruction_types (context_in info.now locals.now) instr.now operands.now }
{
    let row = integer_row(instr);
    match row {
        Row::Other => other_types(info, instr, operands),
        _ => row_types(info, locals, row, operands),
    }
}

// How many operands an integer row takes; 0 of another instruction.
fn row_count(row: Row) -> usize
    ensures { (info : Module) → IfSome (row_of row) (λ r. operand_count info r ≡ result) }
{
    match row {
        Row::Constant(..) => 0,
        Row::Operation(operation) => operation.operands().len(),
        Row::TypedSelect(t) => select_operands(t).len(),
        Row::Get(_) => 0,
        Row::Set(_) => 1,
        Row::Tee(_) => 1,
        Row::Drop => 1,
        Row::Select => 3,
        Row::Nop => 0,
        Row::Other => 0,
    }
}

/// How many operands an instruction takes: on any other number of them it has no types (WebAssembly Core Specification 3.0,
/// Validation, Instructions). 0 of an instruction that has no types on any operands.
pub fn operand_count(info: &ModuleInfo<'_>, instr: &Instr) -> usize
    ensures count { result ≡ instruction_count info.now instr.now }
    ensures only { HasOperandCount info.now instr.now result }
{
    let row = integer_row(instr);
    match row {
        Row::Other => other_count(info, instr),
        _ => row_count(row),
    }
}
