//! The rows of the instructions that are written for nodes without a row, by the instructions' names. The law
//! `written_instructions` says that they have these names' opcodes.

pub(crate) const GLOBAL_GET: u16 = 7;

pub(crate) const GLOBAL_SET: u16 = 8;

pub(crate) const I32_CONST: u16 = 36;

pub(crate) const I64_CONST: u16 = 37;

pub(crate) const F32_CONST: u16 = 38;

pub(crate) const F64_CONST: u16 = 39;

pub(crate) const I32_ADD: u16 = 77;

pub(crate) const I64_ADD: u16 = 95;
