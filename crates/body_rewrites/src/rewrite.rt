//! A rewrite of a body.

use wasm_execution::IntegerType;

/// A rewrite of a body: of the operator with that index, by that row of the table, for that width.
#[derive(Clone, Copy, Debug, PartialEq, Eq)]
pub struct Rewrite {
    pub operator: usize,
    pub row: usize,
    pub width: IntegerType,
}
