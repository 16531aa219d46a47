ghost use Rattle.std.specs.Prelude.{◌≡◌};
ghost use Rattle.mutate_base.specs.Error.{error_name};

use std::alloc::{AllocError, AllocFailed};
use thiserror::Error as ThisError;
use wasm_code::SinkError;

/// Why a call on a module, a graph or a term was refused. It displays as its name.
#[derive(Clone, Copy, Debug, PartialEq, Eq, ThisError)]
pub enum Error {
    /// An allocation was refused.
    #[error("Memory")]
    Memory,
    /// While the meaning is to be preserved, the trees of the block don't lie one after another.
    #[error("NoMutationsApplicable")]
    NoMutationsApplicable,
    /// The module has no function with this index, or no type for it.
    #[error("UnknownFunction")]
    UnknownFunction(u32),
    /// The function has no local with this index.
    #[error("UnknownLocal")]
    UnknownLocal(u32),
    /// The module has no global with this index.
    #[error("UnknownGlobal")]
    UnknownGlobal(u32),
    /// The module has no table with this index.
    #[error("UnknownTable")]
    UnknownTable(u32),
    /// The module has no memory with this index.
    #[error("UnknownMemory")]
    UnknownMemory(u32),
    /// The type of an operand that decides the result's isn't known.
    #[error("UnknownOperand")]
    UnknownOperand,
    /// What is to be unfolded is no constant of the type that is asked for.
    #[error("CannotUnfold")]
    CannotUnfold,
    /// A requested global would need an index of more than 32 bits.
    #[error("GlobalIndex")]
    GlobalIndex,
    /// A place would need more than 32 bits, or an operator's colour would be 4294967295 or more.
    #[error("TooLarge")]
    TooLarge,
}

impl Error {
    /// The variant's name, as `Memory`.
    pub fn name(&self) -> &'static str
        ensures { result.now ≡ error_name self.now }
    {
        match self {
            Error::Memory => "Memory",
            Error::NoMutationsApplicable => "NoMutationsApplicable",
            Error::UnknownFunction(_) => "UnknownFunction",
            Error::UnknownLocal(_) => "UnknownLocal",
            Error::UnknownGlobal(_) => "UnknownGlobal",
            Error::UnknownTable(_) => "UnknownTable",
            Error::UnknownMemory(_) => "UnknownMemory",
            Error::UnknownOperand => "UnknownOperand",
            Error::CannotUnfold => "CannotUnfold",
            Error::GlobalIndex => "GlobalIndex",
            Error::TooLarge => "TooLarge",
        }
    }
}

impl From<AllocError> for Error {
    ghost use Rattle.std.specs.Prelude.{◌≡◌};
    ghost use Rattle.mutate_base.specs.declared.error.Error.TheVariants.{Memory};

    ghost from_gives = { λ _ e. e ≡ Memory };

    fn from(_refused: AllocError) -> Error {
        Error::Memory
    }
}

impl<T: Drop> From<AllocFailed<T>> for Error {
    ghost use Rattle.std.specs.Prelude.{◌≡◌};
    ghost use Rattle.mutate_base.specs.declared.error.Error.TheVariants.{Memory};

    ghost from_gives = { λ _ e. e ≡ Memory };

    fn from(_refused: AllocFailed<T>) -> Error {
        Error::Memory
    }
}

impl From<SinkError> for Error {
    ghost use Rattle.std.specs.Prelude.{◌≡◌};
    ghost use Rattle.mutate_base.specs.declared.error.Error.TheVariants.{Memory};

    ghost from_gives = { λ _ e. e ≡ Memory };

    fn from(_refused: SinkError) -> Error {
        Error::Memory
    }
}
