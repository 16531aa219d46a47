//! What a rule writes in the place of code.

use arrayvec::ArrayVec;
use body_splices::Piece;
use wasm_types::PrimitiveTypeInfo;

/// New code for an operator and operators right before it.
#[derive(Drop)]
pub struct NewCode {
    /// The first operator that is replaced; the last one is the operator that is rewritten.
    pub start: usize,
    /// What is written.
    pub pieces: ArrayVec<Piece, 7>,
    /// The type of the global that it asks for, behind the module's, if it does.
    pub asks: Option<PrimitiveTypeInfo>,
}
