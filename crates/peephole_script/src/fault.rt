//! Why a line, or the whole run, gave no answer.

ghost use Rattle.std.specs.Prelude.{◌≡◌};
ghost use Rattle.peephole_script.specs.Faults.{line_fault_name, run_error_name};

use peephole_payloads::TermError;
use std::alloc::{AllocError, AllocFailed};
use std::error::Error;
use std::fmt;
use wasm_code::ReadKind;

/// Why the run ended without an answer. It displays as its name.
#[derive(Clone, Copy, Debug, PartialEq, Eq)]
pub enum RunError {
    /// No memory was left for the input.
    Memory,
    /// The reader failed.
    Input,
    /// The input has more bytes than are read.
    TooLong,
    /// The writer failed.
    Output,
}

impl RunError {
    /// The variant's name.
    pub fn name(&self) -> &'static str
        ensures { result.now ≡ run_error_name self.now }
    {
        match self {
            RunError::Memory => "Memory",
            RunError::Input => "Input",
            RunError::TooLong => "TooLong",
            RunError::Output => "Output",
        }
    }
}

impl fmt::Display for RunError {
    fn fmt<W: fmt::Write>(&self, f: &mut fmt::Formatter<W>) -> fmt::Result {
        f.write_str(self.name())
    }
}

impl Error for RunError {}

/// Why a line is faulty. It displays as its name.
#[derive(Clone, Copy, Debug, PartialEq, Eq)]
pub enum Fault {
    /// A byte of the line is neither a space nor a printable character of ASCII.
    Text,
    /// The first word is no command's name.
    UnknownCommand,
    /// The words behind the name are not what the command takes.
    BadArgument,
    /// There is no body yet.
    NoBody,
    /// The body has no operator of that number.
    OutOfRange,
    /// There is no point yet, or no block at it.
    NoBlock,
    /// The bytes are no body.
    Read(ReadKind),
    /// No earlier node has that number.
    BadChild,
    /// The text with these children is no node.
    Term(TermError),
    /// The node cannot be written.
    Unwritable,
    /// The node's number passes 32 bits.
    TooLarge,
    /// No memory was left for the line.
    Memory,
}

impl Fault {
    /// The name that the report of a faulty line gives.
    pub fn name(&self) -> &'static str
        ensures { result.now ≡ line_fault_name self.now }
    {
        match self {
            Fault::Text => "Text",
            Fault::UnknownCommand => "UnknownCommand",
            Fault::BadArgument => "BadArgument",
            Fault::NoBody => "NoBody",
            Fault::OutOfRange => "OutOfRange",
            Fault::NoBlock => "NoBlock",
            Fault::Read(kind) => kind.name(),
            Fault::BadChild => "BadChild",
            Fault::Term(error) => error.name(),
            Fault::Unwritable => "Unwritable",
            Fault::TooLarge => "TooLarge",
            Fault::Memory => "Memory",
        }
    }
}

impl fmt::Display for Fault {
    fn fmt<W: fmt::Write>(&self, f: &mut fmt::Formatter<W>) -> fmt::Result {
        f.write_str(self.name())
    }
}

impl Error for Fault {}

impl From<AllocError> for Fault {
    ghost use Rattle.std.specs.Prelude.{◌≡◌};
    ghost use Rattle.peephole_script.specs.declared.fault.Fault.TheVariants.{Memory};

    ghost from_gives = { λ _ f. f ≡ Memory };

    fn from(_refused: AllocError) -> Fault {
        Fault::Memory
    }
}

impl<T: Drop> From<AllocFailed<T>> for Fault {
    ghost use Rattle.std.specs.Prelude.{◌≡◌};
    ghost use Rattle.peephole_script.specs.declared.fault.Fault.TheVariants.{Memory};

    ghost from_gives = { λ _ f. f ≡ Memory };

    fn from(_refused: AllocFailed<T>) -> Fault {
        Fault::Memory
    }
}
