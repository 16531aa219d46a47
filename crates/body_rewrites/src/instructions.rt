//! Single instructions, in a body and new ones.
ghost use Rattle.std.specs.Prelude.{◌≡◌, ◌↔◌, ℕ, IsTrue, IfSome, IfNone};
ghost use Rattle.wasm_code.specs.Instruction.{fits_row};
ghost use Rattle.wasm_code.specs.Table.{row_at};
ghost use Rattle.wasm_code.specs.declared.immediate.Imm.TheVariants as imm;
ghost use Rattle.wasm_execution.specs.declared.integer.IntegerType.{IntegerType as WholeType};
ghost use Rattle.rewrite_rules.specs.Instance.{constant_code};
ghost use Rattle.body_rewrites.specs.Cutting.{IsConstant};
ghost use Rattle.body_rewrites.specs.Own.{HasConstant};
ghost use Rattle.body_rewrites.specs.OwnSites.{HasBare, HasIndexed};

use crate::trees::instr_at;
use wasm_code::{Imm, Instr, OperatorAndByteOffset};
use wasm_execution::IntegerType;

// Whether it is the row's instruction, without an immediate.
fn is_bare(instr: &Instr, row: u16) -> bool
    ensures { IsTrue result ↔ (instr.now ≡ record { row = row; imm = imm.Nothing }) }
{
    let found = instr.row();
    match instr.imm() {
        Imm::Nothing => found == row,
        _ => false,
    }
}

// Whether the row's instruction without an immediate stands at the operator.
pub(crate) fn is_bare_at(operators: &[OperatorAndByteOffset], at: usize, row: u16) -> bool
    ensures { IsTrue result ↔ HasBare operators.now at row }
{
    match instr_at(operators, at) {
        Some(instr) => is_bare(&instr, row),
        None => false,
    }
}

// The index of the row's instruction.
fn index_in(instr: &Instr, row: u16) -> Option<u32>
    ensures some { IfSome result (λ n. instr.now ≡ record { row = row; imm = imm.Index n }) }
    ensures none { IfNone result ((n : ℕ)
        → ¬ (instr.now ≡ record { row = row; imm = imm.Index n })) }
{
    let found = instr.row();
    match instr.imm() {
        Imm::Index(index) if found == row => Some(index),
        _ => None,
    }
}

// The index of the row's instruction at the operator.
pub(crate) fn index_at(operators: &[OperatorAndByteOffset], at: usize, row: u16) -> Option<u32>
    ensures some { IfSome result (λ n. HasIndexed operators.now at row n) }
    ensures none { IfNone result ((n : ℕ) → ¬ (HasIndexed operators.now at row n)) }
{
    let instr = instr_at(operators, at)?;
    index_in(&instr, row)
}

// The type and the number of a constant.
fn constant_in(instr: &Instr) -> Option<(IntegerType, u64)>
    ensures some { IfSome result (λ c. IsConstant c.0 instr.now c.1) }
    ensures none { IfNone result ((t : WholeType) (n : ℕ) → ¬ (IsConstant t instr.now n)) }
{
    let row = instr.row();
    match instr.imm() {
        Imm::I32(z) if row == 36 => Some((IntegerType::I32, z.cast_unsigned() as u64)),
        Imm::I64(z) if row == 37 => Some((IntegerType::I64, z.cast_unsigned())),
        _ => None,
    }
}

// The type and the number of the constant at the operator.
pub(crate) fn constant_at(
    operators: &[OperatorAndByteOffset],
    at: usize,
) -> Option<(IntegerType, u64)>
    ensures some { IfSome result (λ c. HasConstant operators.now at c.0 c.1) }
    ensures none { IfNone result ((t : WholeType) (n : ℕ)
        → ¬ (HasConstant operators.now at t n)) }
{
    let instr = instr_at(operators, at)?;
    constant_in(&instr)
}

// The row's instruction with an immediate that fits it.
pub(crate) fn instr(row: u16, imm: Imm) -> Instr
    requires { IsTrue (fits_row (row_at row) imm) }
    ensures { result ≡ record { row = row; imm = imm } }
{
    match Instr::new(row, imm) {
        Some(instr) => instr,
        None => unreachable!(),
    }
}

// The constant of the type whose value has the low bits of the number.
#[tactic(auto, using(crate::proofs::OwnRowLemmas::i32_const_row, crate::proofs::OwnRowLemmas::i64_const_row))]
pub(crate) fn constant(t: IntegerType, number: u64) -> Instr
    ensures { result ≡ constant_code t number }
{
    match t {
        IntegerType::I32 => instr(
            36,
            Imm::I32(((number % 0x1_0000_0000) as u32).cast_signed()),
        ),
        IntegerType::I64 => instr(37, Imm::I64(number.cast_signed())),
    }
}
