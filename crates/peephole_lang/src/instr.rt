//! A node's instruction, and the node of an instruction.
ghost use Rattle.std.specs.Prelude.{◌≡◌, IfOk, IfSome, Some, is_some, length};
ghost use Rattle.peephole_lang.specs.Lang.{payload_of, ids_of};
ghost use Rattle.peephole_lang.specs.Node.{instr_of, takes_children};
ghost use Rattle.peephole_nodes.specs.Payload.{imm_of, is_writable};

use crate::lang::Lang;
use crate::making::{make, make_in, make_of_imm, make_operation};
use crate::names::variant_row_at;
use peephole_nodes::Id;
use std::alloc::{AllocError, Global};
use wasm_code::{Imm, Instr};

impl Lang {
    /// False exactly where the node has a memory argument whose `align` is 64 or more: such a node has no bytes (WebAssembly
    /// Core Specification 3.0, Binary Format, Instructions).
    pub fn is_writable(&self) -> bool
        ensures { result ≡ is_writable (payload_of self.now) }
    {
        self.payload().is_writable()
    }

    /// The node's instruction, or None for a node without one, and where the node isn't writable.
    #[inline(always)]
    pub fn instr(&self) -> Option<Instr>
        ensures { result ≡ instr_of self.now }
    {
        let place = self.place();
        if place < 12 {
            return None;
        }
        Instr::new(place - 12, self.imm())
    }

    // The immediate that stands for the payload.
    #[inline(always)]
    #[tactic(auto, unfolding(crate::specs::Lang::payload_of))]
    fn imm(&self) -> Imm
        ensures { result ≡ imm_of (payload_of self.now) }
    {
        match self {
            Lang::Numeric(_) => Imm::Nothing,
            Lang::LocalGet(index) => Imm::Index(*index),
            Lang::I32(number) => Imm::I32(*number),
            Lang::Simd(node) => node.payload().imm(),
            _ => self.payload().imm(),
        }
    }

    /// The node of an instruction with these children, the first operand first, or None where the number of the children
    /// isn't the row's number of operands; `call` takes any number.
    pub fn of_instr(instr: &Instr, children: Vec<Id>) -> Option<Lang>
        ensures instruction { IfSome result (λ l. instr_of l ≡ Some instr.now) }
        ensures children { IfSome result (λ l. ids_of l ≡ children.items) }
        ensures complete { is_some result ≡ takes_children instr.now.row (length children.items) }
    {
        let variant = variant_row_at(12 + instr.row())?;
        let payload = variant.payload.of_imm(instr.imm())?;
        make(variant.place, payload, children)
    }

    /// As `of_instr`, with the children in a slice: memory is taken for the list of a `call` alone.
    #[inline(always)]
    pub fn of_instr_in(
        alloc: Global,
        instr: &Instr,
        children: &[Id],
    ) -> Result<Option<Lang>, AllocError>
        ensures instruction { IfOk result (λ made. IfSome made (λ l. instr_of l ≡ Some instr.now)) }
        ensures children { IfOk result (λ made. IfSome made (λ l. ids_of l ≡ children.now)) }
        ensures complete { IfOk result (λ made.
            is_some made ≡ takes_children instr.now.row (length children.now)) }
    {
        let place = 12 + instr.row();
        if let Some(node) = make_operation(place, children) {
            return Ok(Some(node));
        }
        if let Some(node) = make_of_imm(place, instr.imm(), children) {
            return Ok(Some(node));
        }
        let Some(variant) = variant_row_at(place) else {
            return Ok(None);
        };
        let Some(payload) = variant.payload.of_imm(instr.imm()) else {
            return Ok(None);
        };
        make_in(alloc, variant.place, payload, children)
    }
}
