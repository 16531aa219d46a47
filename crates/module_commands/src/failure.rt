//! Why a run has no success, and its exit status.
ghost use Rattle.std.specs.Prelude.{◌≡◌};
ghost use Rattle.module_commands.specs.Status.{status_for, status_for_change, status_of};

use crate::messages::{write_reason, write_refusal};
use module_changes::Refusal;
use module_rewrites::Reason;
use std::alloc::AllocError;
use std::error::Error;
use std::{fmt, io};

/// Why a run has no success. Its text is the message on standard error.
#[derive(Clone, Copy, Debug, PartialEq, Eq)]
pub enum Failure {
    /// Nothing of the module is rewritten or listed, for this reason.
    Nothing(Reason),
    /// Nothing of the module is changed, for this reason.
    Unchanged(Refusal),
    /// The input can't be read.
    Input,
    /// The input is longer than `LIMIT`.
    TooLong,
    /// The input is a component, and no core module.
    Component,
    /// The input is the text of a module or a component.
    TextFormat,
    /// What runs the module isn't exact: threads share one of its memories.
    SharedMemory,
    /// The output can't be written.
    Output,
    /// No memory is left.
    Memory,
}

// The exit status for a reason.
fn status_for(reason: &Reason) -> u8
    ensures { result ≡ status_for reason.now }
{
    match reason {
        Reason::NoRule | Reason::NoOwnFunction => 2,
        Reason::Unreadable(_) | Reason::NoFunction(_) | Reason::UnknownImport(_) => 3,
        Reason::Refused(_) => 1,
    }
}

// The exit status where nothing is changed.
fn status_for_change(refusal: &Refusal) -> u8
    ensures { result ≡ status_for_change refusal.now }
{
    match refusal {
        Refusal::NoChange => 2,
        Refusal::NoFunction(_) | Refusal::UnknownImport(_) => 3,
        Refusal::Read(_) | Refusal::TooLarge | Refusal::Memory => 1,
    }
}

impl Failure {
    /// The exit status: 2 where no rule applies, nothing can be changed, or the module has no function of its own; 3 where none of the functions that are
    /// looked at can be read, or there is none with the index that is named; else 1.
    pub fn status(&self) -> u8
        ensures { result ≡ status_of self.now }
    {
        match self {
            Failure::Nothing(reason) => status_for(reason),
            Failure::Unchanged(refusal) => status_for_change(refusal),
            _ => 1,
        }
    }
}

// The message on a failure that holds no reason.
fn sentence(failure: &Failure) -> &'static str {
    match failure {
        Failure::Nothing(_) => "",
        Failure::Unchanged(_) => "",
        Failure::Input => "the input can't be read",
        Failure::TooLong => "the input has more than 1 GiB",
        Failure::Component =>
            "BadVersion at 0x4: it is a component, and no core module: take out the modules that it holds",
        Failure::TextFormat =>
            "BadMagic at 0x0: it is the text of a module: wat2wasm or wasm-tools parse writes its bytes",
        Failure::SharedMemory =>
            "--exact: threads share a memory of the module, and another one may write there: leave it out",
        Failure::Output => "the output can't be written",
        Failure::Memory => "no memory is left",
    }
}

impl fmt::Display for Failure {
    fn fmt<W: fmt::Write>(&self, f: &mut fmt::Formatter<W>) -> fmt::Result {
        match self {
            Failure::Nothing(reason) => write_reason(f, reason),
            Failure::Unchanged(refusal) => write_refusal(f, refusal),
            _ => f.write_str(sentence(self)),
        }
    }
}

impl Error for Failure {}

impl From<Reason> for Failure {
    ghost use Rattle.std.specs.Prelude.{◌≡◌};
    ghost use Rattle.module_commands.specs.declared.failure.Failure.TheVariants.{Nothing};

    ghost from_gives = { λ reason failure. failure ≡ Nothing reason };

    fn from(reason: Reason) -> Failure {
        Failure::Nothing(reason)
    }
}

impl From<AllocError> for Failure {
    ghost use Rattle.std.specs.Prelude.{◌≡◌};
    ghost use Rattle.module_commands.specs.declared.failure.Failure.TheVariants.{Memory};

    ghost from_gives = { λ _ failure. failure ≡ Memory };

    fn from(_error: AllocError) -> Failure {
        Failure::Memory
    }
}

impl From<io::Error> for Failure {
    ghost use Rattle.std.specs.Prelude.{◌≡◌};
    ghost use Rattle.module_commands.specs.declared.failure.Failure.TheVariants.{Output};

    ghost from_gives = { λ _ failure. failure ≡ Output };

    fn from(_error: io::Error) -> Failure {
        Failure::Output
    }
}
