//! What is told of a module's faults.

use module_changes::Refusal;
use module_rewrites::{BodyError, FunctionError, MutationError, Reason};
use std::fmt;
use wasm_module::{ModuleError, ModuleFault};

// What is wrong.
fn sentence(fault: ModuleFault) -> &'static str {
    match fault {
        ModuleFault::BadMagic => "the bytes don't begin with \\0asm",
        ModuleFault::BadVersion => "the version isn't 1",
        ModuleFault::Truncated =>
            "the bytes end inside a section, or a section's contents inside what they list",
        ModuleFault::BadInteger => "a number has too many bytes, or doesn't fit its type",
        ModuleFault::UnknownSection => "no section has the id",
        ModuleFault::OutOfOrder =>
            "a section stands behind one that it has to precede, or is there twice",
        ModuleFault::Linkable =>
            "it is a linkable object, whose relocations name places in the code",
        ModuleFault::UnknownForm => "what a section lists is of a form that isn't known",
        ModuleFault::UnknownOpcode => "an initialiser has an operator that isn't known",
        ModuleFault::TrailingBytes => "more bytes stand in a section behind what it lists",
        ModuleFault::CodeCount => "there are not as many code entries as functions",
        ModuleFault::TooManyLocals => "a function has more than 50,000 parameters and locals",
        ModuleFault::Memory => "no memory is left",
    }
}

// Writes the fault, and where it is.
fn write_fault<W: fmt::Write>(f: &mut fmt::Formatter<W>, error: &ModuleError) -> fmt::Result {
    let name = error.kind.name();
    let offset = error.offset;
    let told = sentence(error.kind);
    write!(f, "{name} at {offset:#x}: {told}")
}

// Writes the fault of a body, where it is, and the operator that isn't known, with its family.
fn write_body_fault<W: fmt::Write>(f: &mut fmt::Formatter<W>, error: &BodyError) -> fmt::Result {
    let name = error.fault.kind.name();
    let offset = error.fault.offset;
    write!(f, "{name} at {offset:#x}")?;
    match error.operator {
        None => Ok(()),
        Some(code) => {
            let family = code.family().name();
            write!(f, ": operator {code} ({family})")
        }
    }
}

// Writes why a function can't be read.
fn write_function_fault<W: fmt::Write>(
    f: &mut fmt::Formatter<W>,
    error: &FunctionError,
) -> fmt::Result {
    match error {
        FunctionError::Unknown(e) => write_fault(f, e),
        FunctionError::UnknownType => f.write_str("UnknownType: the module has no type for it"),
        FunctionError::Locals(e) => write_fault(f, e),
        FunctionError::Body(e) => write_body_fault(f, e),
    }
}

/// Writes the reason, and of a fault of the module or of a function what is wrong.
pub fn write_reason<W: fmt::Write>(f: &mut fmt::Formatter<W>, reason: &Reason) -> fmt::Result {
    match reason {
        Reason::UnknownImport(e) => {
            f.write_str("an import isn't known, and so no function's index is: ")?;
            write_fault(f, e)
        }
        Reason::Unreadable(e) => {
            f.write_str("no function can be read, the first one for ")?;
            write_function_fault(f, e)
        }
        Reason::Refused(MutationError::Read(e)) => write_fault(f, e),
        _ => write!(f, "{reason}"),
    }
}

/// Writes why nothing is changed, and of a fault of the module what is wrong.
pub fn write_refusal<W: fmt::Write>(f: &mut fmt::Formatter<W>, refusal: &Refusal) -> fmt::Result {
    match refusal {
        Refusal::UnknownImport(e) => write_reason(f, &Reason::UnknownImport(*e)),
        Refusal::Read(e) => write_fault(f, e),
        _ => write!(f, "{refusal}"),
    }
}
