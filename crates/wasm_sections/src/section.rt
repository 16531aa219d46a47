//! Where a section stands.
use crate::id::SectionId;

/// The first eight bytes of a module: `\0asm`, and the version 1.
pub const PREAMBLE: [u8; 8] = [0x00, 0x61, 0x73, 0x6d, 0x01, 0x00, 0x00, 0x00];

/// A section of a module: its id, and the offsets of its id, of its contents, and of what follows it, each counted in bytes
/// from the start of the module.
#[derive(Clone, Copy, Debug, PartialEq, Eq)]
pub struct Section {
    /// What the section holds.
    pub id: SectionId,
    /// The offset of the id.
    pub start: usize,
    /// The offset of the first byte of the contents, behind the size.
    pub contents: usize,
    /// The offset behind the last byte of the contents.
    pub end: usize,
}
