//! Modules: the preamble, and sections one after another.
ghost use Rattle.std.specs.Prelude.{◌≡◌, ◌+◌, ◌<◌, ◌^◌, ℕ, List, ◌∷◌, length, IfOk, IfErr, MatchResult, OnOk};
ghost use Rattle.wasm_code.specs.Code.{BeginsWith};
ghost use Rattle.wasm_sections.specs.Id.{id_code};
ghost use Rattle.wasm_sections.specs.Section.{SpellsModule, preamble};
ghost use Rattle.wasm_sections.specs.Sections.{IsSectionFault, FailsSection};
ghost use Rattle.wasm_sections.specs.Reader.{size_fault_of, IsCounted, FailsCounted, IsAllowed, IsForbidden, IsAccepted};
ghost use Rattle.wasm_sections.specs.declared.section.Section.{Section};
ghost use Rattle.wasm_sections.specs.declared.fault.ModuleFault.TheVariants.{Memory};

use crate::fault::{ModuleError, ModuleFault};
use crate::id::SectionId;
use crate::linking::is_linkable;
use crate::section::{PREAMBLE, Section};
use std::alloc::Global;
use wasm_code::{Cause, byte_of, u32_of};

/// `\0asm`.
const MAGIC: [u8; 4] = [0x00, 0x61, 0x73, 0x6d];

fn kind(cause: Cause) -> ModuleFault
    ensures { result ≡ size_fault_of cause }
{
    match cause {
        Cause::BadInteger => ModuleFault::BadInteger,
        Cause::Truncated | Cause::UnknownOpcode | Cause::BadImmediate => ModuleFault::Truncated,
    }
}

fn check_preamble(bytes: &[u8]) -> Result<(), ModuleError>
    ensures ok { OnOk result (BeginsWith bytes.now preamble) }
    ensures fault { IfErr result (λ e. IsSectionFault bytes.now e.kind e.offset) }
{
    if !bytes.starts_with(&MAGIC) {
        return Err(ModuleError {
            kind: ModuleFault::BadMagic,
            offset: 0,
        });
    }
    if !bytes.starts_with(&PREAMBLE) {
        return Err(ModuleError {
            kind: ModuleFault::BadVersion,
            offset: MAGIC.len(),
        });
    }
    Ok(())
}

/// The id that begins the bytes, and what follows it.
fn id_of(bytes: &[u8]) -> Result<(SectionId, &[u8]), ModuleFault>
    requires { 0 < length bytes.now }
    ensures found { IfOk result (λ x. bytes.now ≡ id_code x.0 ∷ x.1.now) }
    ensures fault { IfErr result (λ fault. (last : ℕ) → FailsSection fault last bytes.now) }
{
    match byte_of(bytes) {
        Ok((first, rest)) => match SectionId::from_byte(first) {
            Some(id) => Ok((id, rest)),
            None => Err(ModuleFault::UnknownSection),
        },
        Err(_) => Err(ModuleFault::Truncated),
    }
}

/// The contents of the section whose size begins the bytes, and what follows it.
fn contents_of(bytes: &[u8]) -> Result<(&[u8], &[u8]), ModuleFault>
    ensures found { IfOk result (λ x. IsCounted x.0.now x.1.now bytes.now) }
    ensures fault { IfErr result (λ fault. FailsCounted fault bytes.now) }
{
    match u32_of(bytes) {
        Ok((size, rest)) => match rest.split_at_checked(size as usize) {
            Some(parts) => Ok(parts),
            None => Err(ModuleFault::Truncated),
        },
        Err(cause) => Err(kind(cause)),
    }
}

/// Whether such a section may stand behind one of the rank `last`.
fn check_allowed(last: u8, id: SectionId, contents: &[u8]) -> Result<(), ModuleFault>
    ensures ok { OnOk result (IsAllowed last id contents.now) }
    ensures fault { IfErr result (λ fault. IsForbidden fault last id contents.now) }
{
    match id {
        SectionId::Custom => {
            if is_linkable(contents) {
                Err(ModuleFault::Linkable)
            } else {
                Ok(())
            }
        }
        _ => {
            if id.rank() <= last {
                Err(ModuleFault::OutOfOrder)
            } else {
                Ok(())
            }
        }
    }
}

/// The section that begins the bytes, of which the first has the offset `start`, and what follows it.
fn next_section(last: u8, start: usize, bytes: &[u8]) -> Result<(Section, &[u8]), ModuleFault>
    requires some { 0 < length bytes.now }
    requires fits { start + length bytes.now < 2 ^ 64 }
    ensures found { IfOk result (λ x. IsAccepted last start bytes.now x.0 x.1.now) }
    ensures fault { IfErr result (λ fault. FailsSection fault last bytes.now) }
{
    let (id, rest) = id_of(bytes)?;
    let (contents, after) = contents_of(rest)?;
    check_allowed(last, id, contents)?;
    let end = start + (bytes.len() - after.len());
    let section = Section {
        id,
        start,
        contents: end - contents.len(),
        end,
    };
    Ok((section, after))
}

/// The sections of a module, one after another.
fn sections_of(alloc: Global, bytes: &[u8]) -> Result<Vec<Section>, ModuleError>
    ensures found { IfOk result (λ v. SpellsModule bytes.now v.items) }
    ensures fault { IfErr result (λ e. IsSectionFault bytes.now e.kind e.offset) }
{
    check_preamble(bytes)?;
    let mut found = Vec::new(alloc);
    let mut last: u8 = 0;
    let mut rest = &bytes[PREAMBLE.len()..];
    while !rest.is_empty() {
        let start = bytes.len() - rest.len();
        match next_section(last, start, rest) {
            Ok((section, after)) => {
                last = last.max(section.id.rank());
                if found.push(section).is_err() {
                    return Err(ModuleError {
                        kind: ModuleFault::Memory,
                        offset: 0,
                    });
                }
                rest = after;
            }
            Err(kind) => return Err(ModuleError {
                kind,
                offset: start,
            }),
        }
    }
    Ok(found)
}

/// Reads the sections of the module that the bytes are, in their order, each with the offsets of its parts.
///
/// It accepts exactly the bytes that are the preamble and whole sections, of which those that aren't custom stand in the order
/// of the standard, each at most once (WebAssembly Core Specification 3.0, Binary Format, Modules), and none of which is a
/// custom section `linking` or `reloc.*`, which would make the module a linkable object. What the sections contain isn't read.
///
/// An error names the first fault from the left: `BadMagic` at 0 where the bytes don't begin with `\0asm`; `BadVersion` at 4
/// where the version 1 doesn't follow; and at the start of the first section at fault `UnknownSection` where its first byte is
/// no id, `Truncated` where the bytes end inside it, `BadInteger` where its size is no number of 32 bits, `OutOfOrder` where
/// it has to stand before one that it follows, or is there twice, and `Linkable`; `Memory` at 0 where no memory was left.
pub fn read_sections(alloc: Global, bytes: &[u8]) -> Result<Vec<Section>, ModuleError>
    // What is read is spelled so.
    ensures found { IfOk result (λ v. SpellsModule bytes.now v.items) }
    // What is spelled so is read, unless memory runs out.
    ensures only { (xs : List Section) → SpellsModule bytes.now xs
        → MatchResult result (λ v. v.items ≡ xs) (λ e. e.kind ≡ Memory) }
    // What doesn't come from memory is the first fault.
    ensures fault { IfErr result (λ e. IsSectionFault bytes.now e.kind e.offset) }
{
    sections_of(alloc, bytes)
}
