//! Why a run has no success, and its exit status.

use module_commands::Failure;
use std::alloc::AllocError;
use std::io;
use thiserror::Error;

/// Why a run has no success. Its text goes on behind the name of the file that is at fault.
#[derive(Debug, Drop, Error)]
pub enum Trouble {
    /// The run itself has none.
    #[error("{0}")]
    Run(Failure),
    /// The file of the input can't be opened.
    #[error("can't be opened: {0}")]
    Input(io::Error),
    /// The output can't be found, made or written.
    #[error("can't be written: {0}")]
    Output(io::Error),
    /// The file that was written beside the output can't take its place.
    #[error("can't be replaced: {0}; what was written beside it is removed")]
    Replacement(io::Error),
    /// The output is a folder.
    #[error("can't be written: it is a folder")]
    Folder,
    /// Nobody may write the file of the output.
    #[error("can't be written: it is read-only")]
    ReadOnly,
    /// The links behind the output lead back to one of them, or are too many.
    #[error("can't be written: a loop of links, or more than 40 of them")]
    Links,
    /// Each name that the file beside the output may have is taken.
    #[error("can't be written: there are 1000 files beside it, from .new-0 on; remove them")]
    Crowded,
    /// The output is a terminal, and a module would go there.
    #[error("a module isn't written to a terminal: name a file with -o")]
    Terminal,
}

impl Trouble {
    /// The exit status.
    pub fn status(&self) -> u8 {
        match self {
            Trouble::Run(failure) => failure.status(),
            Trouble::Terminal => 64,
            _ => 1,
        }
    }

    /// Whether the output is at fault, and not the input.
    pub fn is_of_output(&self) -> bool {
        match self {
            Trouble::Run(failure) => *failure == Failure::Output,
            Trouble::Input(_) => false,
            _ => true,
        }
    }
}

impl From<Failure> for Trouble {
    fn from(failure: Failure) -> Trouble {
        Trouble::Run(failure)
    }
}

impl From<AllocError> for Trouble {
    fn from(_error: AllocError) -> Trouble {
        Trouble::Run(Failure::Memory)
    }
}

impl From<io::Error> for Trouble {
    fn from(error: io::Error) -> Trouble {
        Trouble::Output(error)
    }
}
