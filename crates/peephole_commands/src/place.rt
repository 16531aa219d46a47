//! Where `show`, `result` and `write` work.

use crate::body::Body;
use peephole_terms::BBlock;

/// A body, the index of the operator that is the point, and its block.
#[derive(Drop)]
pub struct Place<'a> {
    pub body: &'a Body,
    pub point: usize,
    pub block: &'a BBlock,
}
