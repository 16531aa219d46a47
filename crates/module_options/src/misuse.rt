//! Why a command line says no options.
ghost use Rattle.std.specs.Prelude.{◌≡◌};
ghost use Rattle.module_options.specs.Misuse.{kind_for};
ghost use Rattle.module_options.specs.declared.misuse.Misuse.TheVariants.{Memory};

use crate::flags::text_of;
use crate::nearest::text_on_unknown;
use body_changes::CHANGES;
use clap::ArgMatches;
use clap::error::ErrorKind;
use std::alloc::{AllocError, AllocFailed, Global};

/// Why the matches of a command line are no options.
#[derive(Clone, Copy, Debug, PartialEq, Eq)]
pub enum Misuse {
    /// These two options can't be used together.
    Conflict(&'static str, &'static str),
    /// JSON is asked for, and nothing that is written in it.
    NothingToTell,
    /// A plus stands before a number.
    Plus,
    /// The seed is no number.
    NoSeed,
    /// The count is none, or 0.
    NoCount,
    /// There is no list of the rules in a form of that name.
    NoForm,
    /// A name is no rule's.
    UnknownRule,
    /// The name is no change's.
    UnknownChange,
    /// Operators are named, and no change or function of theirs is.
    Unplaced,
    /// No memory is left.
    Memory,
}

impl From<AllocError> for Misuse {
    ghost from_gives = { λ _ misuse. misuse ≡ Memory };

    fn from(_error: AllocError) -> Misuse {
        Misuse::Memory
    }
}

impl<T: Drop> From<AllocFailed<T>> for Misuse {
    ghost from_gives = { λ _ misuse. misuse ≡ Memory };

    fn from(_error: AllocFailed<T>) -> Misuse {
        Misuse::Memory
    }
}

/// The kind of error that clap has for it.
pub fn kind_for(misuse: Misuse) -> ErrorKind
    ensures { result ≡ kind_for misuse }
{
    match misuse {
        Misuse::Conflict(_, _) => ErrorKind::ArgumentConflict,
        Misuse::NothingToTell => ErrorKind::MissingRequiredArgument,
        Misuse::Plus => ErrorKind::ValueValidation,
        Misuse::NoSeed => ErrorKind::ValueValidation,
        Misuse::NoCount => ErrorKind::ValueValidation,
        Misuse::NoForm => ErrorKind::InvalidValue,
        Misuse::UnknownRule => ErrorKind::InvalidValue,
        Misuse::UnknownChange => ErrorKind::InvalidValue,
        Misuse::Unplaced => ErrorKind::MissingRequiredArgument,
        Misuse::Memory => ErrorKind::OutOfMemory,
    }
}

// The option as the command line has it.
fn option_text(alloc: Global, name: &str) -> Result<String, AllocError> {
    if name == "input" {
        format!(in alloc; "INPUT")
    } else {
        format!(in alloc; "--{name}")
    }
}

// The message on a name that is no change's.
fn change_text(alloc: Global, matches: &ArgMatches<'_>) -> Result<String, AllocError> {
    let name = text_of(matches, "change").unwrap_or("");
    let mut names = Vec::new(alloc);
    for change in CHANGES {
        names.push(change.name())?;
    }
    let given = format!(in alloc; "--change={name}")?;
    text_on_unknown(alloc, &given, name, "change", &names)
}

/// The message.
pub fn text_for(
    alloc: Global,
    misuse: Misuse,
    matches: &ArgMatches<'_>,
) -> Result<String, AllocError> {
    let text = match misuse {
        Misuse::Conflict(one, other) => {
            let one = option_text(alloc, one)?;
            let other = option_text(alloc, other)?;
            return format!(in alloc; "{one} and {other} can't be used together");
        }
        Misuse::UnknownChange => return change_text(alloc, matches),
        Misuse::NothingToTell =>
            "--json needs --list, --blocks, --list-changes, --stats or --reach",
        Misuse::Plus => "a number is written without a plus sign",
        Misuse::NoSeed =>
            "--seed needs a number below 2^64, decimal, or hexadecimal with 0x in front",
        Misuse::NoCount =>
            "--count needs a number from 1 to 2^64 - 1, a percentage from 1% on, as in 20%, or each",
        Misuse::NoForm =>
            "--list-rules has the forms text, json and markdown, as in --list-rules=json",
        Misuse::UnknownRule => "--rule names no rule",
        Misuse::Unplaced =>
            "--from and --to need --change with a name, as in --change=delete, and --function",
        Misuse::Memory => "no memory is left",
    };
    String::from_str(alloc, text)
}
