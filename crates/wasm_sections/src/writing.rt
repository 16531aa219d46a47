//! Sections as bytes.
ghost use Rattle.std.specs.Prelude.{◌≡◌, ◌↔◌, ◌≤◌, ◌<◌, ◌^◌, ◌∷◌, ◌++◌, length, Err, OnOk, OnErr};
ghost use Rattle.wasm_code.specs.Code.{BeginsWith, shortest};
ghost use Rattle.wasm_sections.specs.Id.{id_code};
ghost use Rattle.wasm_sections.specs.Writing.{section_code, write_error_name};
ghost use Rattle.wasm_sections.specs.declared.writing.WriteError.TheVariants.{TooLarge, Memory};

use crate::id::SectionId;
use std::alloc::AllocError;
use thiserror::Error;
use wasm_code::put_unsigned;

/// Why a section was not written.
#[derive(Clone, Copy, Debug, PartialEq, Eq, Error)]
pub enum WriteError {
    /// The contents have 2^32 bytes or more, which no size says.
    #[error("TooLarge")]
    TooLarge,
    /// No memory was left for the bytes.
    #[error("Memory")]
    Memory,
}

impl WriteError {
    /// The variant's name.
    pub fn name(&self) -> &'static str
        ensures { result.now ≡ write_error_name self.now }
    {
        match self {
            WriteError::TooLarge => "TooLarge",
            WriteError::Memory => "Memory",
        }
    }
}

impl From<AllocError> for WriteError {
    ghost from_gives = { λ _ e. e ≡ Memory };

    fn from(_e: AllocError) -> WriteError {
        WriteError::Memory
    }
}

/// Appends what stands before the contents of a section: its id, and their size in as few bytes as will do.
///
/// Where no memory was left, some of the bytes may have been appended.
pub fn put_head(out: &mut Vec<u8>, id: SectionId, size: u32) -> Result<(), AllocError>
    ensures ok { OnOk result (out.new.items ≡ out.old.items ++ id_code id ∷ shortest size) }
    ensures err { OnErr result (BeginsWith out.new.items out.old.items) }
{
    out.push(id.byte())?;
    put_unsigned(out, size as u64)
}

fn put_parts(out: &mut Vec<u8>, id: SectionId, contents: &[u8]) -> Result<(), AllocError>
    requires { length contents.now < 2 ^ 32 }
    ensures ok { OnOk result (out.new.items ≡ out.old.items ++ section_code id contents.now) }
    ensures err { OnErr result (BeginsWith out.new.items out.old.items) }
{
    put_head(out, id, contents.len() as u32)?;
    out.extend_from_slice(contents)
}

/// Appends a section: its id, the size of the contents in as few bytes as will do, and the contents.
///
/// `TooLarge` where the contents have 2^32 bytes or more, and then nothing was appended; `Memory` where no memory was left,
/// and then some of the bytes may have been appended.
pub fn put_section(out: &mut Vec<u8>, id: SectionId, contents: &[u8]) -> Result<(), WriteError>
    ensures ok { OnOk result (out.new.items ≡ out.old.items ++ section_code id contents.now) }
    ensures too_large { (result ≡ Err TooLarge) ↔ (2 ^ 32 ≤ length contents.now) }
    ensures unchanged { result ≡ Err TooLarge → out.new.items ≡ out.old.items }
    ensures memory { OnErr result (BeginsWith out.new.items out.old.items) }
{
    if contents.len() > u32::MAX as usize {
        return Err(WriteError::TooLarge);
    }
    put_parts(out, id, contents)?;
    Ok(())
}
