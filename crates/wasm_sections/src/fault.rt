//! Why bytes are no module, or none that can be read.
ghost use Rattle.std.specs.Prelude.{◌≡◌};
ghost use Rattle.wasm_sections.specs.Fault.{fault_name};

use thiserror::Error;

/// Why bytes are no module, or none that can be read.
#[derive(Clone, Copy, Debug, PartialEq, Eq, Error)]
pub enum ModuleFault {
    /// The bytes don't begin with `\0asm`.
    #[error("BadMagic")]
    BadMagic,
    /// The version isn't 1.
    #[error("BadVersion")]
    BadVersion,
    /// The bytes end inside a section, or a section's contents end inside what they list.
    #[error("Truncated")]
    Truncated,
    /// A number has too many bytes, or doesn't fit its type.
    #[error("BadInteger")]
    BadInteger,
    /// No section has the id.
    #[error("UnknownSection")]
    UnknownSection,
    /// A section stands behind one that it has to precede, or is there twice.
    #[error("OutOfOrder")]
    OutOfOrder,
    /// A custom section makes the module a linkable object, whose relocations name places in the code.
    #[error("Linkable")]
    Linkable,
    /// A type, an import, a limit or an immediate of an initialiser is of a form that isn't known here.
    #[error("UnknownForm")]
    UnknownForm,
    /// An initialiser has an operator that isn't known here.
    #[error("UnknownOpcode")]
    UnknownOpcode,
    /// Behind what a section lists more bytes stand in it.
    #[error("TrailingBytes")]
    TrailingBytes,
    /// There are not as many code entries as functions.
    #[error("CodeCount")]
    CodeCount,
    /// A function has more than 50,000 parameters and locals.
    #[error("TooManyLocals")]
    TooManyLocals,
    /// No memory was left.
    #[error("Memory")]
    Memory,
}

impl ModuleFault {
    /// The variant's name.
    pub fn name(&self) -> &'static str
        ensures { result.now ≡ fault_name self.now }
    {
        match self {
            ModuleFault::BadMagic => "BadMagic",
            ModuleFault::BadVersion => "BadVersion",
            ModuleFault::Truncated => "Truncated",
            ModuleFault::BadInteger => "BadInteger",
            ModuleFault::UnknownSection => "UnknownSection",
            ModuleFault::OutOfOrder => "OutOfOrder",
            ModuleFault::Linkable => "Linkable",
            ModuleFault::UnknownForm => "UnknownForm",
            ModuleFault::UnknownOpcode => "UnknownOpcode",
            ModuleFault::TrailingBytes => "TrailingBytes",
            ModuleFault::CodeCount => "CodeCount",
            ModuleFault::TooManyLocals => "TooManyLocals",
            ModuleFault::Memory => "Memory",
        }
    }
}

/// The first fault of a module, and where what is at fault starts.
#[derive(Clone, Copy, Debug, PartialEq, Eq, Error)]
#[error("{kind} at {offset}")]
pub struct ModuleError {
    /// What is wrong.
    pub kind: ModuleFault,
    /// Where what is at fault starts, counted in bytes from the start of the module.
    pub offset: usize,
}
