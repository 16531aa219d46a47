//! Why the rules aren't listed.

use std::alloc::AllocError;
use std::io;
use thiserror::Error as ErrorTexts;

/// Why the rules aren't listed.
#[derive(Clone, Copy, Debug, PartialEq, Eq, ErrorTexts)]
pub enum ListError {
    /// The output can't be written.
    #[error("the output can't be written")]
    Output,
    /// No memory is left.
    #[error("no memory is left")]
    Memory,
}

impl From<AllocError> for ListError {
    ghost use Rattle.std.specs.Prelude.{◌≡◌};
    ghost use Rattle.rule_listing.specs.declared.error.ListError.TheVariants.{Memory};

    ghost from_gives = { λ _ e. e ≡ Memory };

    fn from(_error: AllocError) -> ListError {
        ListError::Memory
    }
}

impl From<io::Error> for ListError {
    ghost use Rattle.std.specs.Prelude.{◌≡◌};
    ghost use Rattle.rule_listing.specs.declared.error.ListError.TheVariants.{Output};

    ghost from_gives = { λ _ e. e ≡ Output };

    fn from(_error: io::Error) -> ListError {
        ListError::Output
    }
}
