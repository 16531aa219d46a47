//! What is put in the place of a body's operators.

use crate::control::Control;
use wasm_code::Instr;

/// A piece of a body's new code.
#[derive(Clone, Copy, Debug, PartialEq, Eq)]
pub enum Piece {
    /// Operators of the body with the bytes that they have there.
    Kept {
        /// The index of the first one.
        start: usize,
        /// The index behind that of the last one.
        end: usize,
    },
    /// A new instruction.
    New(Instr),
    /// A new structural operator.
    Structural(Control),
}

impl Default for Piece {
    /// No operators.
    fn default() -> Piece {
        Piece::Kept { start: 0, end: 0 }
    }
}
