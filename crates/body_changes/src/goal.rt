//! What is still to be drawn, and what was drawn for it.
ghost use Rattle.std.specs.Prelude.{◌≡◌, length};
ghost use Rattle.body_changes.specs.Goals.{operand_types_in};

use wasm_code::Instr;
use wasm_types::PrimitiveTypeInfo;

/// The words for one instruction: the one that chooses it, and two for its constant, the first of which also cuts the room among its
/// operands.
#[derive(Clone, Copy)]
pub(crate) struct Words {
    pub choice: u64,
    pub low: u64,
    pub high: u64,
}

/// A value that is still to be drawn: its type, and of how many instructions at most.
#[derive(Clone, Copy)]
pub(crate) struct Goal {
    pub wanted: PrimitiveTypeInfo,
    pub size: usize,
}

/// The types of an instruction's operands, the first one first.
#[derive(Clone, Copy)]
pub(crate) enum Operands {
    Zero,
    One(PrimitiveTypeInfo),
    Two(PrimitiveTypeInfo, PrimitiveTypeInfo),
    Three(PrimitiveTypeInfo, PrimitiveTypeInfo, PrimitiveTypeInfo),
}

/// An instruction, and the types of its operands.
#[derive(Clone, Copy)]
pub(crate) struct Chosen {
    pub instr: Instr,
    pub operands: Operands,
}

impl Operands {
    /// How many there are.
    pub fn count(self) -> usize
        ensures { result ≡ length (operand_types_in self) }
    {
        match self {
            Operands::Zero => 0,
            Operands::One(_) => 1,
            Operands::Two(..) => 2,
            Operands::Three(..) => 3,
        }
    }
}
