//! Why a module isn't changed.

use std::alloc::{AllocError, AllocFailed};
use thiserror::Error as ErrorTexts;
use wasm_module::ModuleError;

/// Why nothing of a module is changed, or nothing more.
#[derive(Clone, Copy, Debug, PartialEq, Eq, ErrorTexts)]
pub enum Refusal {
    /// The bytes are no module that can be read.
    #[error("{0}")]
    Read(ModuleError),
    /// The module has no function of its own with this index.
    #[error("the module has no function {0} of its own")]
    NoFunction(usize),
    /// A function is named, and an import isn't known, so that no function's index is.
    #[error("an import isn't known, and so no function's index is: {0}")]
    UnknownImport(ModuleError),
    /// By the words that were drawn, or of the operators that are named, no change makes anything in the functions that may be changed and
    /// can be read, or there is none.
    #[error("nothing can be changed")]
    NoChange,
    /// What changes made had more bytes than it may, or 32 bits don't hold a size of it.
    #[error("the changed module has more bytes than it may")]
    TooLarge,
    /// No memory was left.
    #[error("Memory")]
    Memory,
}

impl From<AllocError> for Refusal {
    ghost use Rattle.std.specs.Prelude.{◌≡◌};
    ghost use Rattle.module_changes.specs.declared.refusal.Refusal.TheVariants.{Memory};

    ghost from_gives = { λ _ e. e ≡ Memory };

    fn from(_e: AllocError) -> Refusal {
        Refusal::Memory
    }
}

impl<T: Drop> From<AllocFailed<T>> for Refusal {
    ghost use Rattle.std.specs.Prelude.{◌≡◌};
    ghost use Rattle.module_changes.specs.declared.refusal.Refusal.TheVariants.{Memory};

    ghost from_gives = { λ _ e. e ≡ Memory };

    fn from(_error: AllocFailed<T>) -> Refusal {
        Refusal::Memory
    }
}
