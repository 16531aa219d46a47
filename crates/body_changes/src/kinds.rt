//! What each change makes of a unit.

pub(crate) mod accesses;
pub(crate) mod constants;
pub(crate) mod copies;
pub(crate) mod drawn;
pub(crate) mod memory_arguments;
pub(crate) mod operands;
pub(crate) mod operators;
pub(crate) mod statements;

use crate::copied::Copied;
use crate::source::Source;
use crate::units::Unit;
use wasm_code::Instr;

/// The unit of an operator.
#[derive(Clone, Copy)]
pub(crate) struct Place<'a> {
    /// The body, and the units of its operators.
    pub source: Source<'a>,
    pub units: &'a [Option<Unit>],
    /// The operator, and its unit.
    pub at: usize,
    pub unit: Unit,
    /// The code that may be copied.
    pub copied: Copied<'a>,
}

/// Code that may come in the place of the operators from `start` up to the one whose unit it is.
#[derive(Drop)]
pub(crate) struct Proposal {
    pub start: usize,
    pub code: Vec<Instr>,
}
