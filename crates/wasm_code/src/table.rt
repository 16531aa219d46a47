//! The instruction table: opcode, kind of immediate, operands, result and change of each row.
ghost use Rattle.std.specs.Prelude.{◌≡◌, ℕ, Some, IfSome, slice_get};
ghost use Rattle.wasm_code.specs.Table.{row_at, row_info_of, HasOpcode};
ghost use Rattle.wasm_code.specs.Finding.{row_with};
ghost use Rattle.wasm_code.specs.Dense.{cell, dense_row};

use crate::dense::{BYTE_ROWS, FC_ROWS, FD_ROWS};
use crate::immediate::ValType;
use crate::rows::ROWS;

/// What names an instruction in the bytes.
#[derive(Clone, Copy, Debug, PartialEq, Eq)]
pub enum Opcode {
    /// One byte.
    Byte(u8),
    /// The byte FC and this number.
    Fc(u32),
    /// The byte FD and this number.
    Fd(u32),
}

/// What immediate an instruction has.
#[derive(Clone, Copy, Debug, PartialEq, Eq)]
pub enum Kind {
    /// None.
    Nothing,
    /// An index.
    Index,
    /// Two indexes.
    Pair,
    /// A place in a memory.
    Mem,
    /// A place in a memory and a lane.
    MemLane,
    /// A lane.
    Lane,
    /// A constant of type i32.
    I32,
    /// A constant of type i64.
    I64,
    /// A constant of type f32.
    F32,
    /// A constant of type f64.
    F64,
    /// A constant of type v128.
    V128,
    /// Sixteen lanes.
    Shuffle,
    /// The type of what a reference refers to.
    Heap,
    /// One type of a value.
    Val,
}

/// What decides the type of an instruction's result.
#[derive(Clone, Copy, Debug, PartialEq, Eq)]
pub enum ResultKind {
    /// It has no result.
    Nothing,
    /// The row.
    Fixed(ValType),
    /// The type of the local that the immediate names.
    Local,
    /// The type of the global that the immediate names.
    Global,
    /// The type of the function that the immediate names.
    Call,
    /// The address type of the memory that the immediate names.
    Memory,
    /// The address type of the table that the immediate names.
    Table,
    /// The element type of the table that the immediate names.
    Element,
    /// The type of the first operand.
    First,
    /// The type that the immediate names: a function reference for `Func`, an external one for `Extern`, or the value
    /// type itself.
    Immediate,
}

/// What a row of the table says of its instruction.
#[derive(Clone, Copy, Debug, PartialEq, Eq)]
pub struct RowInfo {
    /// How many operands it takes. None where the function that is called decides.
    pub operands: Option<u8>,
    /// What decides the type of its result.
    pub result: ResultKind,
    /// By how much the colour rises after it while the meaning is preserved. For `call`, whose function decides, it is 0.
    pub change: u8,
}

/// A row of the table; its number is its place there.
#[derive(Clone, Copy, Debug, PartialEq, Eq)]
pub struct Row {
    pub opcode: Opcode,
    pub kind: Kind,
    pub info: RowInfo,
}

fn row_in(rows: &[Row], number: usize) -> Option<Row>
    ensures { result ≡ slice_get rows.now number }
{
    rows.get(number).copied()
}

/// The row with that number, or none.
#[inline(always)]
#[tactic(auto, using(crate::proofs::TableLemmas::same_rows), unfolding(crate::specs::Table::row_at))]
pub fn find_row(number: u16) -> Option<Row>
    ensures { result ≡ row_at number }
{
    row_in(&ROWS, number as usize)
}

fn cell_at(cells: &[u16], n: u32) -> Option<u16>
    ensures { result ≡ cell cells.now n }
{
    match cells.get(n as usize) {
        Some(row) if *row != 65535 => Some(*row),
        _ => None,
    }
}

#[tactic(auto, unfolding(crate::specs::Dense::dense_row))]
fn number_of(op: Opcode) -> Option<u16>
    ensures { result ≡ dense_row op }
{
    match op {
        Opcode::Byte(b) => cell_at(&BYTE_ROWS, b as u32),
        Opcode::Fc(n) => cell_at(&FC_ROWS, n),
        Opcode::Fd(n) => cell_at(&FD_ROWS, n),
    }
}

/// The row that has the opcode and its number, or none.
pub fn row_by_opcode(op: Opcode) -> Option<(u16, Row)>
    ensures gives { result ≡ row_with op }
    ensures in_table { IfSome result (λ p. row_at p.0 ≡ Some p.1) }
{
    let number = number_of(op)?;
    let row = find_row(number)?;
    Some((number, row))
}

/// What the table says of the row numbered `row`, or none where the table has no such row.
///
/// Rows are numbered from 0: one-byte opcodes ascending, then those behind FC, then those behind FD (WebAssembly Core
/// Specification 3.0, Binary Format, Instructions). Row 445 is the select with one value type.
#[tactic(auto, unfolding(crate::specs::Table::row_info_of))]
pub fn row_info(row: u16) -> Option<RowInfo>
    ensures { result ≡ row_info_of row }
{
    find_row(row).map(|found| found.info)
}

/// The number of the row that has the opcode, or none where no row has it.
pub fn row_of(op: Opcode) -> Option<u16>
    ensures some { IfSome result (λ r. HasOpcode r op) }
    ensures only { (r : ℕ) → HasOpcode r op → result ≡ Some r }
{
    number_of(op)
}
