//! The code of an operator, and the family of instructions of one that can't be read.
ghost use Rattle.std.specs.Prelude.{◌≡◌};
ghost use Rattle.module_rewrites.specs.OperatorCode.{byte_family, code_at, code_of, family_name, unreadable_code_family, is_prefix, prefix_family};

use std::fmt;
use wasm_code::u32_of;

/// The code of an operator, as its first bytes name it. Its text is that of the byte or the prefix in hexadecimal digits, and the
/// number behind a prefix in decimal ones, as `0x1f` and `0xfe 79`.
#[derive(Clone, Copy, Debug, PartialEq, Eq)]
pub enum OperatorCode {
    /// One byte.
    Byte(u8),
    /// A prefix, `0xfb` to `0xfe`, and the number behind it.
    Prefixed(u8, u32),
}

/// The family of instructions of an operator that can't be read, by the proposal that brought it to the standard.
#[derive(Clone, Copy, Debug, PartialEq, Eq)]
pub enum Family {
    /// Exceptions are thrown and caught.
    Exceptions,
    /// References have a type of the module's, or aren't null; also blocks, selects and nulls with a type that is none.
    TypedReferences,
    /// Objects are made and collected.
    GarbageCollection,
    /// Threads share a memory.
    Atomics,
    /// None of these.
    Other,
}

impl Family {
    /// The family's name.
    pub fn name(self) -> &'static str
        ensures { result.now ≡ family_name self }
    {
        match self {
            Family::Exceptions => "exceptions",
            Family::TypedReferences => "typed references",
            Family::GarbageCollection => "garbage collection",
            Family::Atomics => "atomics",
            Family::Other => "other",
        }
    }
}

// The family of an operator of one byte.
fn byte_family(byte: u8) -> Family
    ensures { result ≡ byte_family byte }
{
    match byte {
        0x06..=0x0a | 0x18 | 0x19 | 0x1f => Family::Exceptions,
        0x02..=0x04 | 0x14 | 0x1c | 0xd0 | 0xd4..=0xd6 => Family::TypedReferences,
        0xd3 => Family::GarbageCollection,
        _ => Family::Other,
    }
}

// The family of an operator behind a prefix.
fn prefix_family(prefix: u8) -> Family
    ensures { result ≡ prefix_family prefix }
{
    match prefix {
        0xfb => Family::GarbageCollection,
        0xfe => Family::Atomics,
        _ => Family::Other,
    }
}

impl OperatorCode {
    /// The family of instructions that it is of, where it can't be read.
    pub fn family(self) -> Family
        ensures { result ≡ unreadable_code_family self }
    {
        match self {
            OperatorCode::Byte(byte) => byte_family(byte),
            OperatorCode::Prefixed(prefix, _) => prefix_family(prefix),
        }
    }
}

impl fmt::Display for OperatorCode {
    ghost use Rattle.std.specs.Prelude.{Some};
    ghost use Rattle.module_rewrites.specs.OperatorCode.{code_text};

    ghost output = { λ code. Some (code_text code) };

    fn fmt<W: fmt::Write>(&self, f: &mut fmt::Formatter<W>) -> fmt::Result {
        match *self {
            OperatorCode::Byte(byte) => write!(f, "0x{byte:02x}"),
            OperatorCode::Prefixed(prefix, number) => write!(f, "0x{prefix:02x} {number}"),
        }
    }
}

// Whether a number stands behind the byte, with which it names an operator.
fn is_prefix(byte: u8) -> bool
    ensures { result ≡ is_prefix byte }
{
    0xfb <= byte && byte <= 0xfe
}

// The code that the bytes begin with; none where they end inside it, or where no number of 32 bits stands behind a prefix.
fn code_of(bytes: &[u8]) -> Option<OperatorCode>
    ensures { result ≡ code_of bytes.now }
{
    let [byte, rest @ ..] = bytes else {
        return None;
    };
    if !is_prefix(*byte) {
        return Some(OperatorCode::Byte(*byte));
    }
    match u32_of(rest) {
        Ok((number, _)) => Some(OperatorCode::Prefixed(*byte, number)),
        Err(_) => None,
    }
}

/// The code of the operator that starts there.
pub(crate) fn code_at(bytes: &[u8], offset: usize) -> Option<OperatorCode>
    ensures { result ≡ code_at bytes.now offset }
{
    if offset > bytes.len() {
        return None;
    }
    code_of(&bytes[offset..])
}
