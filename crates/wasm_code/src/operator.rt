//! Instructions and operators as values.
ghost use Rattle.std.specs.Prelude.{◌≡◌, true, IsFalse, IfSome, IfNone};
ghost use Rattle.wasm_code.specs.Table.{row_at};
ghost use Rattle.wasm_code.specs.Instruction.{Instruction, IsInstruction, InRange, is_of_kind, fits_row};
ghost use Rattle.wasm_code.specs.Operator.{is_delimiter};

use crate::immediate::{BlockType, Imm, ValType};
use crate::other::Other;
use crate::packed::{Packed, pack};
use crate::table::{Kind, find_row};
use std::fmt;
use std::marker::Model;

const _: () = prove!(size_of::<Operator>() <= 24);

#[inline(always)]
fn is_of(kind: Kind, imm: Imm) -> bool
    ensures kind { result ≡ is_of_kind kind imm }
    ensures in_range { result ≡ true → InRange imm }
{
    match (kind, imm) {
        (Kind::Nothing, Imm::Nothing) => true,
        (Kind::Index, Imm::Index(_)) => true,
        (Kind::Pair, Imm::Pair(_, _)) => true,
        (Kind::Mem, Imm::Mem(m)) => m.align < 64,
        (Kind::MemLane, Imm::MemLane(m, _)) => m.align < 64,
        (Kind::Lane, Imm::Lane(_)) => true,
        (Kind::I32, Imm::I32(_)) => true,
        (Kind::I64, Imm::I64(_)) => true,
        (Kind::F32, Imm::F32(_)) => true,
        (Kind::F64, Imm::F64(_)) => true,
        (Kind::V128, Imm::V128(_)) => true,
        (Kind::Shuffle, Imm::Shuffle(_)) => true,
        (Kind::Heap, Imm::Heap(_)) => true,
        (Kind::Val, Imm::Val(_)) => true,
        _ => false,
    }
}

/// A row of the table, with an immediate of its kind.
#[derive(Clone, Copy, PartialEq, Eq)]
pub struct Instr {
    packed: Packed,
}

impl Model for Instr {
    ghost use Rattle.std.proofs.Common.{ap};
    ghost use Rattle.wasm_code.specs.Instruction.{Instruction};

    ghost Value = { Instruction };

    ghost use Rattle.wasm_code.specs.Packed.{packed_of, instruction_of, IsPacked};

    ghost view = { λ s. instruction_of s.packed };

    ghost inverse = { λ i. record { packed = packed_of i.row i.imm } };

    ghost inverse_ok = { λ s h. ap (λ p. record { packed = p }) h.one };

    ghost invariant = { λ s. IsPacked s.packed };
}

impl Instr {
    /// The instruction of row `row` (see `row_info`) with the immediate `imm`, or none where the table has no such row,
    /// the immediate isn't of the row's kind, or the exponent of its alignment is 64 or more.
    #[inline(always)]
    pub fn new(row: u16, imm: Imm) -> Option<Instr>
        ensures some { IfSome result (λ i. (i ≡ record { row = row; imm = imm })
            × IsInstruction i) }
        ensures none { IfNone result (IsFalse (fits_row (row_at row) imm)) }
    {
        match find_row(row) {
            Some(found) => {
                if is_of(found.kind, imm) {
                    Some(Instr::of_row(row, imm))
                } else {
                    None
                }
            }
            None => None,
        }
    }

    /// The instruction of row `row` with the immediate `imm`, which has to be of the row's kind.
    #[inline(always)]
    pub(crate) fn of_row(row: u16, imm: Imm) -> Instr
        requires { IsInstruction (record { row = row; imm = imm }) }
        ensures { result ≡ record { row = row; imm = imm } }
    {
        Instr {
            packed: pack(row, imm),
        }
    }

    /// The number of its row.
    #[inline(always)]
    pub fn row(&self) -> u16
        ensures row { result ≡ self.now.row }
        ensures instruction { IsInstruction self.now }
    {
        self.packed.row()
    }

    /// Its immediate.
    #[inline(always)]
    pub fn imm(&self) -> Imm
        ensures { result ≡ self.now.imm }
    {
        self.packed.imm()
    }
}

impl fmt::Debug for Instr {
    fn fmt<W: fmt::Write>(&self, f: &mut fmt::Formatter<W>) -> fmt::Result {
        f.debug_struct("Instr")
            .field("row", &self.row())
            .field("imm", &self.imm())
            .finish()
    }
}

/// One operator of a body.
#[derive(Clone, Copy, Debug, PartialEq, Eq)]
pub enum Operator {
    /// An instruction of the table.
    Instr(Instr),
    /// A block.
    Block(BlockType),
    /// A loop.
    Loop(BlockType),
    /// A conditional.
    If(BlockType),
    /// The other part of a conditional.
    Else,
    /// The end of the body, or of a block inside it.
    End,
    /// A branch to this label.
    Br(u32),
    /// A branch to this label under a condition.
    BrIf(u32),
    /// A branch by a table with so many labels, the default one not counted.
    BrTable(u32),
    /// A return.
    Return,
    /// What is never reached.
    Unreachable,
    /// A call through a table.
    CallIndirect {
        /// The index of the function's type.
        type_index: u32,
        /// The index of the table.
        table_index: u32,
    },
    /// A selection with so many value types, any number of them but one (that one is an instruction).
    TypedSelect {
        /// How many value types it names.
        count: u32,
        /// The first of them.
        first: Option<ValType>,
    },
    /// Another operator of the standard, of which the opcode alone is kept: one that is neither an instruction of the
    /// table nor one of the above, or a `ref.null` or `select` with a type that these don't have.
    Other(Other),
}

impl Operator {
    /// Whether it ends a basic block: true for all but `Instr`, `CallIndirect` and `TypedSelect`.
    pub fn is_delimiter(&self) -> bool
        ensures { result ≡ is_delimiter self.now }
    {
        !matches!(
            self,
            Operator::Instr(_) | Operator::CallIndirect { .. } | Operator::TypedSelect { .. }
        )
    }
}
