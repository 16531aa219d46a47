//! Why bytes are no body, and why a sink took nothing.
ghost use Rattle.std.specs.Prelude.{◌≡◌};
ghost use Rattle.wasm_code.specs.Fault.{kind_name, sink_error_name};
ghost use Rattle.wasm_code.specs.declared.fault.SinkError.TheVariants.{Memory};

use std::alloc::AllocError;
use thiserror::Error;

/// Why bytes begin with no operator, or with no number or value type.
#[derive(Clone, Copy, Debug, PartialEq, Eq)]
pub enum Cause {
    /// The bytes end inside the operator.
    Truncated,
    /// The table has no such opcode.
    UnknownOpcode,
    /// A number has too many bytes, or doesn't fit its type.
    BadInteger,
    /// A whole immediate names no alignment, no block type, no heap type or no value type.
    BadImmediate,
}

/// Why bytes are no body.
#[derive(Clone, Copy, Debug, PartialEq, Eq, Error)]
pub enum ReadKind {
    /// The bytes end inside an operator.
    #[error("Truncated")]
    Truncated,
    /// No instruction of the table and no control operator has the opcode.
    #[error("UnknownOpcode")]
    UnknownOpcode,
    /// A number has too many bytes, or doesn't fit its type.
    #[error("BadInteger")]
    BadInteger,
    /// A whole immediate names no alignment, no block type, no heap type or no value type.
    #[error("BadImmediate")]
    BadImmediate,
    /// The last operator isn't `end`, or there is none.
    #[error("NoEnd")]
    NoEnd,
    /// No memory was left for the operators.
    #[error("Memory")]
    Memory,
}

impl ReadKind {
    /// The variant's name.
    pub fn name(&self) -> &'static str
        ensures { result.now ≡ kind_name self.now }
    {
        match self {
            ReadKind::Truncated => "Truncated",
            ReadKind::UnknownOpcode => "UnknownOpcode",
            ReadKind::BadInteger => "BadInteger",
            ReadKind::BadImmediate => "BadImmediate",
            ReadKind::NoEnd => "NoEnd",
            ReadKind::Memory => "Memory",
        }
    }
}

/// The first fault of a body, and where the operator at fault starts.
#[derive(Clone, Copy, Debug, PartialEq, Eq, Error)]
#[error("{kind}")]
pub struct ReadError {
    /// What is wrong.
    pub kind: ReadKind,
    /// The start of the operator at fault, counted in bytes from the start of the whole slice; for `NoEnd` the end of
    /// the body, for `Memory` its start.
    pub offset: usize,
}

impl ReadError {
    /// The name of the kind.
    pub fn name(&self) -> &'static str
        ensures { result.now ≡ kind_name self.now.kind }
    {
        self.kind.name()
    }
}

/// Why a sink took nothing.
#[derive(Clone, Copy, Debug, PartialEq, Eq, Error)]
pub enum SinkError {
    /// No memory was left for the bytes.
    #[error("Memory")]
    Memory,
}

impl SinkError {
    /// The variant's name.
    pub fn name(&self) -> &'static str
        ensures { result.now ≡ sink_error_name self.now }
    {
        match self {
            SinkError::Memory => "Memory",
        }
    }
}

impl From<AllocError> for SinkError {
    ghost from_gives = { λ _ e. e ≡ Memory };

    fn from(_e: AllocError) -> SinkError {
        SinkError::Memory
    }
}
