//! Why a module is not written.

use std::alloc::AllocError;
use thiserror::Error;
use wasm_sections::WriteError as SectionError;

/// Why a module is not written.
#[derive(Clone, Copy, Debug, PartialEq, Eq, Error)]
pub enum WriteError {
    /// 32 bits don't hold a size or a number.
    #[error("TooLarge")]
    TooLarge,
    /// A requested global has the type `Empty`, which is no type of a global.
    #[error("EmptyType")]
    EmptyType,
    /// No memory was left for the bytes.
    #[error("Memory")]
    Memory,
}

impl From<SectionError> for WriteError {
    ghost use Rattle.std.specs.Prelude.{◌≡◌};
    ghost use Rattle.wasm_module.specs.Refusal.{by_section};

    ghost from_gives = { λ e refusal. refusal ≡ by_section e };

    fn from(e: SectionError) -> WriteError {
        match e {
            SectionError::TooLarge => WriteError::TooLarge,
            SectionError::Memory => WriteError::Memory,
        }
    }
}

impl From<AllocError> for WriteError {
    ghost use Rattle.std.specs.Prelude.{◌≡◌};
    ghost use Rattle.wasm_module.specs.declared.refusal.WriteError.TheVariants.{Memory};

    ghost from_gives = { λ _ refusal. refusal ≡ Memory };

    fn from(_e: AllocError) -> WriteError {
        WriteError::Memory
    }
}
