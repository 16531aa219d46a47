//! Why a rewrite isn't shown.

use std::alloc::AllocError;
use std::io;
use thiserror::Error as ErrorTexts;

/// Why a rewrite isn't shown.
#[derive(Clone, Copy, Debug, PartialEq, Eq, ErrorTexts)]
pub enum ShowError {
    /// The output can't be written.
    #[error("the output can't be written")]
    Output,
    /// No memory is left.
    #[error("no memory is left")]
    Memory,
}

impl From<AllocError> for ShowError {
    ghost use Rattle.std.specs.Prelude.{◌≡◌};
    ghost use Rattle.module_showing.specs.declared.error.ShowError.TheVariants.{Memory};

    ghost from_gives = { λ _ e. e ≡ Memory };

    fn from(_error: AllocError) -> ShowError {
        ShowError::Memory
    }
}

impl From<io::Error> for ShowError {
    ghost use Rattle.std.specs.Prelude.{◌≡◌};
    ghost use Rattle.module_showing.specs.declared.error.ShowError.TheVariants.{Output};

    ghost from_gives = { λ _ e. e ≡ Output };

    fn from(_error: io::Error) -> ShowError {
        ShowError::Output
    }
}
