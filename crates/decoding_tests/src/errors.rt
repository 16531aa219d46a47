//! Errors, kinds of faults, types and sections by their names.

use crate::inputs::{Text, field, unreadable};
use mutate_base::Error;
use peephole_payloads::TermError;
use peephole_script::{Fault, RunError};
use std::alloc::Global;
use wasm_code::{ReadError, ReadKind, SinkError, ValType};
use wasm_sections::{ModuleFault, SectionId, WriteError};

/// How the one at that place is displayed, and its name.
macro_rules! named {
    ($alloc:ident, $place:ident, $($error:expr),*) => {
        match [$($error),*].get($place) {
            Some(error) => format!(in $alloc; "{error} {}", error.name()),
            None => unreadable($alloc),
        }
    };
}

/// Answers how the error of that kind at that place is displayed, and its name, or what type has a name.
pub fn answer(alloc: Global, fields: &[&str]) -> Text {
    let second = field(fields, 1);
    let place = second.parse::<usize>().unwrap_or(usize::MAX);
    match field(fields, 0) {
        "Error" => named! {
            alloc, place, Error::Memory, Error::NoMutationsApplicable, Error::UnknownFunction(1), Error::UnknownFunction(7),
            Error::UnknownLocal(2), Error::UnknownLocal(7), Error::UnknownGlobal(3), Error::UnknownGlobal(7), Error::UnknownTable(4),
            Error::UnknownTable(7), Error::UnknownMemory(5), Error::UnknownMemory(7), Error::UnknownOperand, Error::CannotUnfold,
            Error::GlobalIndex, Error::TooLarge
        },
        "TermError" => named! {
            alloc, place, TermError::InvalidToken, TermError::ExpectedZeroChildren, TermError::ExpectedOneChild(3),
            TermError::ExpectedChildren(2), TermError::MissingInfo, TermError::TooMuchInfo, TermError::BadInteger,
            TermError::WrongLanes, TermError::BadBits, TermError::BadRefType, TermError::BadValType
        },
        "RunError" =>
            named! { alloc, place, RunError::Memory, RunError::Input, RunError::TooLong, RunError::Output },
        "Fault" => named! {
            alloc, place, Fault::Text, Fault::UnknownCommand, Fault::BadArgument, Fault::NoBody, Fault::OutOfRange, Fault::NoBlock,
            Fault::Read(ReadKind::Truncated), Fault::Read(ReadKind::UnknownOpcode), Fault::Read(ReadKind::BadInteger),
            Fault::Read(ReadKind::BadImmediate), Fault::Read(ReadKind::NoEnd), Fault::Read(ReadKind::Memory), Fault::BadChild,
            Fault::Term(TermError::InvalidToken), Fault::Term(TermError::ExpectedOneChild(3)), Fault::Term(TermError::BadValType),
            Fault::Unwritable, Fault::TooLarge, Fault::Memory
        },
        "ReadKind" => named! {
            alloc, place, ReadKind::Truncated, ReadKind::UnknownOpcode, ReadKind::BadInteger, ReadKind::BadImmediate, ReadKind::NoEnd,
            ReadKind::Memory
        },
        "ReadError" => named! {
            alloc, place, of_kind(ReadKind::Truncated), of_kind(ReadKind::UnknownOpcode), of_kind(ReadKind::BadInteger),
            of_kind(ReadKind::BadImmediate), of_kind(ReadKind::NoEnd), of_kind(ReadKind::Memory)
        },
        "SinkError" => named! { alloc, place, SinkError::Memory },
        "SectionId::name" => SectionId::DataCount.name().to_string(alloc),
        "ModuleFault::name" => ModuleFault::OutOfOrder.name().to_string(alloc),
        "WriteError::name" => WriteError::TooLarge.name().to_string(alloc),
        "ValType" => value_type(alloc, second, field(fields, 2)),
        _ => unreadable(alloc),
    }
}

/// An error of that kind.
fn of_kind(kind: ReadKind) -> ReadError {
    ReadError { kind, offset: 7 }
}

/// The type of a name, its name again, and whether it is below the type of another name.
fn value_type(alloc: Global, name: &str, other: &str) -> Text {
    match (ValType::from_name(name), ValType::from_name(other)) {
        (Some(found), Some(other)) => {
            format!(in alloc; "{found:?} {} {}", found.name(), found < other)
        }
        _ => format!(in alloc; "none"),
    }
}
