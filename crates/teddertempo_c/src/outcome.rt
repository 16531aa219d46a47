//! What a call comes to.
ghost use Rattle.std.specs.Prelude.{◌≡◌};
ghost use Rattle.teddertempo_c.specs.ChangeReports as change;
ghost use Rattle.teddertempo_c.specs.Outcome.{offset_by, offset_by_fault, offset_by_refusal, outcome_by, outcome_by_fault, outcome_by_refusal, outcome_by_write, outcome_number};

use module_rewrites::{MutationError, Reason};
use wasm_module::{ModuleError, ModuleFault, WriteError};

/// What a call has done, or why it has done nothing. The header has a constant for each.
#[derive(Clone, Copy)]
pub enum Outcome {
    /// The module is rewritten or changed, or its sites are listed.
    Done,
    /// The bytes are no module that can be read.
    NotAModule,
    /// They are an object file, whose relocations name places in its code.
    LinkableObject,
    /// None of the functions that may be rewritten can be read.
    Unreadable,
    /// No rule applies in them, or no change, or the module has no function of its own.
    NothingApplies,
    /// The module has no function of its own with the index that is named, or an import isn't known, and so no index is.
    NoFunction,
    /// No edit that was tried fits.
    TooLarge,
    /// No memory was left.
    NoMemory,
    /// The size is above that of the buffer, or the options name a rule, a change, a flag or a field that doesn't exist.
    BadOptions,
}

impl Outcome {
    /// The constant of the header.
    pub fn number(self) -> u32
        ensures { result ≡ outcome_number self }
    {
        match self {
            Outcome::Done => 0,
            Outcome::NotAModule => 1,
            Outcome::LinkableObject => 2,
            Outcome::Unreadable => 3,
            Outcome::NothingApplies => 4,
            Outcome::NoFunction => 5,
            Outcome::TooLarge => 6,
            Outcome::NoMemory => 7,
            Outcome::BadOptions => 8,
        }
    }
}

/// Why nothing is done, and where the module is at fault.
#[derive(Clone, Copy)]
pub struct Refusal {
    pub outcome: Outcome,
    pub offset: usize,
}

/// An outcome that isn't at a place in the module.
pub fn without_place(outcome: Outcome) -> Refusal
    ensures { result ≡ record { outcome = outcome; offset = 0 } }
{
    Refusal { outcome, offset: 0 }
}

// What a module's fault comes to.
fn outcome_by_fault(fault: ModuleFault) -> Outcome
    ensures { result ≡ outcome_by_fault fault }
{
    match fault {
        ModuleFault::Linkable => Outcome::LinkableObject,
        ModuleFault::Memory => Outcome::NoMemory,
        _ => Outcome::NotAModule,
    }
}

// Where it is: nowhere for want of memory.
fn offset_by_fault(e: ModuleError) -> usize
    ensures { result ≡ offset_by_fault e.kind e.offset }
{
    match e.kind {
        ModuleFault::Memory => 0,
        _ => e.offset,
    }
}

// What an error of writing comes to.
fn outcome_by_write(e: WriteError) -> Outcome
    ensures { result ≡ outcome_by_write e }
{
    match e {
        WriteError::TooLarge | WriteError::EmptyType => Outcome::TooLarge,
        WriteError::Memory => Outcome::NoMemory,
    }
}

// What a refusal comes to.
fn outcome_by_refusal(e: MutationError) -> Outcome
    ensures { result ≡ outcome_by_refusal e }
{
    match e {
        MutationError::Read(e) => outcome_by_fault(e.kind),
        MutationError::Memory => Outcome::NoMemory,
        MutationError::Write(e) => outcome_by_write(e),
        MutationError::TooLong | MutationError::NotSmaller => Outcome::TooLarge,
    }
}

// Where the module is at fault.
fn offset_by_refusal(e: MutationError) -> usize
    ensures { result ≡ offset_by_refusal e }
{
    match e {
        MutationError::Read(e) => offset_by_fault(e),
        _ => 0,
    }
}

// What a reason comes to.
fn outcome_by(reason: Reason) -> Outcome
    ensures { result ≡ outcome_by reason }
{
    match reason {
        Reason::NoRule | Reason::NoOwnFunction => Outcome::NothingApplies,
        Reason::Unreadable(_) => Outcome::Unreadable,
        Reason::NoFunction(_) | Reason::UnknownImport(_) => Outcome::NoFunction,
        Reason::Refused(e) => outcome_by_refusal(e),
    }
}

// Where the module is at fault.
fn offset_by(reason: Reason) -> usize
    ensures { result ≡ offset_by reason }
{
    match reason {
        Reason::Refused(e) => offset_by_refusal(e),
        _ => 0,
    }
}

/// Why nothing is rewritten, for this reason.
pub fn refusal_by(reason: Reason) -> Refusal
    ensures { result ≡ record { outcome = outcome_by reason; offset = offset_by reason } }
{
    Refusal {
        outcome: outcome_by(reason),
        offset: offset_by(reason),
    }
}

// What a refusal to change a module comes to.
fn outcome_by_change(refusal: module_changes::Refusal) -> Outcome
    ensures { result ≡ change.outcome_by refusal }
{
    match refusal {
        module_changes::Refusal::Read(e) => outcome_by_fault(e.kind),
        module_changes::Refusal::NoFunction(_) | module_changes::Refusal::UnknownImport(_) => {
            Outcome::NoFunction
        }
        module_changes::Refusal::NoChange => Outcome::NothingApplies,
        module_changes::Refusal::TooLarge => Outcome::TooLarge,
        module_changes::Refusal::Memory => Outcome::NoMemory,
    }
}

// Where the module is at fault.
fn offset_by_change(refusal: module_changes::Refusal) -> usize
    ensures { result ≡ change.offset_by refusal }
{
    match refusal {
        module_changes::Refusal::Read(e) => offset_by_fault(e),
        _ => 0,
    }
}

/// Why nothing is changed, for this reason.
pub fn refusal_by_change(refusal: module_changes::Refusal) -> Refusal
    ensures { result ≡
        record { outcome = change.outcome_by refusal; offset = change.offset_by refusal } }
{
    Refusal {
        outcome: outcome_by_change(refusal),
        offset: offset_by_change(refusal),
    }
}
