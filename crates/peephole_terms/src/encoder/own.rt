//! What a node itself adds, behind its children.

use super::holds::Holds;
use super::node_kind::NumberType;
use super::request::ResourceRequest;
use super::rows::{
    F32_CONST, F64_CONST, GLOBAL_GET, GLOBAL_SET, I32_ADD, I32_CONST, I64_ADD, I64_CONST,
};
use super::writer::Writer;
use mutate_base::Error;
use peephole_lang::{Lang, Payload};
use rand::RngExt;
use rand_core::Rng;
use wasm_code::{Imm, Instr};
use wasm_execution::IntegerType;

impl<R: Rng> Writer<'_, R> {
    ghost use Rattle.std.specs.Prelude.{◌<◌, [], ◌∷◌, All, IsTrue, length};
    ghost use Rattle.wasm_code.specs.Instruction.{fits_row};
    ghost use Rattle.wasm_code.specs.Table.{row_at};
    ghost use Rattle.peephole_lang.specs.Node.{children_of};
    ghost use Rattle.peephole_lang.specs.Term.{AreBelow};
    ghost use Rattle.peephole_terms.specs.Expansion.{constant_of};
    ghost use Rattle.peephole_terms.specs.EncoderSteps.{draw, emit, nodes_in, own_step_in, split, split_step_in, store};
    ghost use Rattle.peephole_terms.specs.Writer.{IsSame, Takes};

    // Writes the instruction of a row. The immediate is of the row's kind.
    fn put(&mut self, row: u16, imm: Imm) -> Result<(), Error>
        requires fits { IsTrue (fits_row (row_at row) imm) }
        ensures taken { Takes R.stream (emit (record { row = row; imm = imm }) ∷ [])
            self.old self.new result }
        ensures same { IsSame self.old self.new }
    {
        match Instr::new(row, imm) {
            Some(instr) => self.sink.instruction(&instr)?,
            None => unreachable!(),
        }
        Ok(())
    }

    // Writes a constant of a drawn word.
    #[tactic(auto, using(crate::proofs::RowLemmas::i32_const_row, crate::proofs::RowLemmas::i64_const_row, crate::proofs::RowLemmas::f32_const_row, crate::proofs::RowLemmas::f64_const_row))]
    fn write_random(&mut self, tpe: NumberType) -> Result<(), Error>
        ensures taken { Takes R.stream (draw tpe ∷ []) self.old self.new result }
        ensures same { IsSame self.old self.new }
    {
        match tpe {
            NumberType::I32 => {
                let word = self.rng.random::<u32>().cast_signed();
                self.put(I32_CONST, Imm::I32(word))
            }
            NumberType::I64 => {
                let word = self.rng.random::<u64>().cast_signed();
                self.put(I64_CONST, Imm::I64(word))
            }
            NumberType::F32 => {
                let word = self.rng.random::<u32>();
                self.put(F32_CONST, Imm::F32(word))
            }
            NumberType::F64 => {
                let word = self.rng.random::<u64>();
                self.put(F64_CONST, Imm::F64(word))
            }
        }
    }

    // Writes a constant as the sum of a drawn word and the rest.
    #[tactic(auto, using(crate::proofs::RowLemmas::i32_const_row, crate::proofs::RowLemmas::i64_const_row, crate::proofs::RowLemmas::i32_add_row, crate::proofs::RowLemmas::i64_add_row))]
    fn write_sum(&mut self, tpe: IntegerType, constant: Payload) -> Result<(), Error>
        ensures taken { Takes R.stream (split tpe (constant_of tpe constant) ∷ [])
            self.old self.new result }
        ensures same { IsSame self.old self.new }
    {
        match (tpe, constant) {
            (IntegerType::I32, Payload::I32(number)) => {
                let word = self.rng.random::<u32>().cast_signed();
                self.put(I32_CONST, Imm::I32(word))?;
                self.put(I32_CONST, Imm::I32(number.wrapping_sub(word)))?;
                self.put(I32_ADD, Imm::Nothing)
            }
            (IntegerType::I64, Payload::I64(number)) => {
                let word = self.rng.random::<u64>().cast_signed();
                self.put(I64_CONST, Imm::I64(word))?;
                self.put(I64_CONST, Imm::I64(number.wrapping_sub(word)))?;
                self.put(I64_ADD, Imm::Nothing)
            }
            _ => Err(Error::CannotUnfold),
        }
    }

    // Writes an unfold, whose one child is the constant.
    fn write_unfold<N: Holds>(
        &mut self,
        tpe: IntegerType,
        nodes: &[N],
        node: &Lang,
    ) -> Result<(), Error>
        requires before { AreBelow (nodes_in N.held nodes.now) }
        requires below { All (λ k. k < length nodes.now) (children_of node.now) }
        ensures taken { Takes R.stream (split_step_in tpe (nodes_in N.held nodes.now) node.now ∷ [])
            self.old self.new result }
        ensures same { IsSame self.old self.new }
    {
        match node.children() {
            [child] => {
                let constant = nodes[child.0 as usize].node().payload();
                self.write_sum(tpe, constant)
            }
            _ => Err(Error::CannotUnfold),
        }
    }

    // Stores in a new global, which is requested, and takes from it.
    #[tactic(auto, using(crate::proofs::RowLemmas::global_get_row, crate::proofs::RowLemmas::global_set_row))]
    fn write_through(&mut self, tpe: NumberType) -> Result<(), Error>
        ensures taken { Takes R.stream (store tpe ∷ []) self.old self.new result }
        ensures same { IsSame self.old self.new }
    {
        let most = u32::MAX as usize;
        let (globals, requested) = (self.globals, self.requests.len());
        if globals > most || requested > most - globals {
            return Err(Error::GlobalIndex);
        }
        let index = (globals + requested) as u32;
        self.put(GLOBAL_SET, Imm::Index(index))?;
        self.put(GLOBAL_GET, Imm::Index(index))?;
        self.requests.push(ResourceRequest::Global {
            tpe: tpe.primitive(),
            mutable: true,
            shared: false,
        })?;
        Ok(())
    }

    /// Writes what a node itself adds: its instruction, or what its variant says where it has none.
    #[tactic(auto, using(crate::proofs::TermOfLemmas::row_kind), unfolding(peephole_lang::specs::Lang::place_of))]
    pub(crate) fn write_own<N: Holds>(&mut self, nodes: &[N], node: &Lang) -> Result<(), Error>
        requires before { AreBelow (nodes_in N.held nodes.now) }
        requires below { All (λ k. k < length nodes.now) (children_of node.now) }
        ensures taken { Takes R.stream (own_step_in (nodes_in N.held nodes.now) node.now ∷ [])
            self.old self.new result }
        ensures same { IsSame self.old self.new }
    {
        if let Some(instr) = node.instr() {
            self.sink.instruction(&instr)?;
            return Ok(());
        }
        match node {
            Lang::RandI32 => self.write_random(NumberType::I32),
            Lang::RandI64 => self.write_random(NumberType::I64),
            Lang::RandF32 => self.write_random(NumberType::F32),
            Lang::RandF64 => self.write_random(NumberType::F64),
            Lang::UnfoldI32(_) => self.write_unfold(IntegerType::I32, nodes, node),
            Lang::UnfoldI64(_) => self.write_unfold(IntegerType::I64, nodes, node),
            Lang::I32UseGlobal(_) => self.write_through(NumberType::I32),
            Lang::I64UseGlobal(_) => self.write_through(NumberType::I64),
            Lang::F32UseGlobal(_) => self.write_through(NumberType::F32),
            Lang::F64UseGlobal(_) => self.write_through(NumberType::F64),
            _ => Ok(()),
        }
    }
}
