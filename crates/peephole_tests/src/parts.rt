//! The parts of an input, the name of a call and after it fields, each with its name, `write | body 410b | last 0`; and the texts of
//! answers.

use case_files::bytes_of;
use peephole_terms::{
    Error, FuncInfo, MemoryType, ModuleInfo, PrimitiveTypeInfo, TermError, TypeInfo,
};
use std::alloc::{AllocError, AllocFailed, Global};

/// Why a case has no other answer.
#[derive(Clone, Copy)]
pub enum Refusal {
    /// The input isn't that of a case.
    Unreadable,
    /// A call refused.
    Refused(Error),
    /// A text with its children is no node.
    NoNode(TermError),
}

impl From<Error> for Refusal {
    fn from(error: Error) -> Refusal {
        Refusal::Refused(error)
    }
}

impl From<AllocError> for Refusal {
    fn from(_refused: AllocError) -> Refusal {
        Refusal::Refused(Error::Memory)
    }
}

impl<T: Drop> From<AllocFailed<T>> for Refusal {
    fn from(_refused: AllocFailed<T>) -> Refusal {
        Refusal::Refused(Error::Memory)
    }
}

/// The call of an input, and the text of its fields.
pub fn call_of(input: &str) -> (&str, &str) {
    input.split_once(" | ").unwrap_or((input, ""))
}

/// The field of this name without the name, empty where there is none.
pub fn field_of<'a>(case: &'a str, name: &str) -> &'a str {
    for field in case.split('|') {
        match field.trim().split_once(' ') {
            Some((first, rest)) if first == name => return rest.trim(),
            _ => {}
        }
    }
    ""
}

/// The number in the field of this name.
pub fn number_in(case: &str, name: &str) -> Result<u32, Refusal> {
    let number = field_of(case, name).parse::<u32>();
    number.ok().ok_or(Refusal::Unreadable)
}

/// The types that a text names.
pub fn types_of(alloc: Global, names: &str) -> Result<Vec<PrimitiveTypeInfo>, Refusal> {
    let mut types = Vec::new(alloc);
    for name in names.split_whitespace() {
        types.push(PrimitiveTypeInfo::from_name(name).ok_or(Refusal::Unreadable)?)?;
    }
    Ok(types)
}

/// A module with a function of these types, and with a memory.
pub fn info_with(
    alloc: Global,
    params: &[PrimitiveTypeInfo],
    returns: &[PrimitiveTypeInfo],
    memory64: bool,
) -> Result<ModuleInfo<'static>, Refusal> {
    let mut info = ModuleInfo::new(alloc, &[]);
    let params = Vec::from_slice(alloc, params)?;
    let returns = Vec::from_slice(alloc, returns)?;
    info.types_map
        .push(TypeInfo::Func(FuncInfo { params, returns }))?;
    info.function_map.push(0)?;
    info.memory_types.push(MemoryType {
        memory64,
        shared: false,
    })?;
    Ok(info)
}

/// The text, in which a part between tildes is repeated as often as it says, `20 00 ~45*3~ 0b`.
pub fn spread(alloc: Global, text: &str) -> Result<String, AllocError> {
    let mut whole = String::new(alloc);
    for part in text.split('~') {
        let (repeated, count) = part.split_once('*').unwrap_or((part, "1"));
        for _ in 0..count.parse::<u32>().unwrap_or(0) {
            whole.push_str(repeated)?;
        }
    }
    Ok(whole)
}

/// The bytes in the field of this name.
pub fn bytes_in(alloc: Global, case: &str, name: &str) -> Result<Vec<u8>, AllocError> {
    let digits = spread(alloc, field_of(case, name))?;
    bytes_of(alloc, &digits)
}

// The checksum FNV-1a of 64 bits.
fn checksum(text: &str) -> u64 {
    let mut sum = 0xcbf2_9ce4_8422_2325u64;
    for byte in text.bytes() {
        sum = (sum ^ u64::from(byte)).wrapping_mul(0x0100_0000_01b3);
    }
    sum
}

/// The text of an answer: a long one becomes the number of its bytes and a checksum.
pub fn told(alloc: Global, answer: Result<String, Refusal>) -> Result<String, AllocError> {
    match answer {
        Ok(text) if text.len() > 4000 => {
            let (count, sum) = (text.len(), checksum(&text));
            format!(in alloc; "{count} bytes with the checksum {sum:016x}")
        }
        Ok(text) => Ok(text),
        Err(Refusal::Unreadable) => String::from_str(alloc, "unreadable input"),
        Err(Refusal::Refused(error)) => format!(in alloc; "refused {error:?}"),
        Err(Refusal::NoNode(error)) => format!(in alloc; "refused {error:?}"),
    }
}
