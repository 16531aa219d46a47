//! What the name section has one after another, from the front of bytes.
ghost use Rattle.wasm_code.specs.Reader.{Gives};
ghost use Rattle.wasm_sections.specs.NameReader.{sized_at, name_text_at, subsection_at, naming_at};

use std::str;
use wasm_code::{Cause, byte_of, u32_of};

/// The bytes whose size begins these, and what follows them.
#[tactic(auto, unfolding(crate::specs::NameReader::sized_at))]
pub fn sized_of(bytes: &[u8]) -> Result<(&[u8], &[u8]), Cause>
    ensures { Gives (λ x. (x.0.now, x.1.now)) result (sized_at bytes.now) }
{
    let (size, rest) = u32_of(bytes)?;
    if rest.len() < size as usize {
        return Err(Cause::Truncated);
    }
    Ok(rest.split_at(size as usize))
}

/// A name, and what follows it.
#[tactic(auto, unfolding(crate::specs::NameReader::name_text_at))]
fn name_of(bytes: &[u8]) -> Result<(&str, &[u8]), Cause>
    ensures { Gives (λ x. (x.0.now, x.1.now)) result (name_text_at bytes.now) }
{
    let (name, rest) = sized_of(bytes)?;
    match str::from_utf8(name) {
        Ok(name) => Ok((name, rest)),
        Err(_) => Err(Cause::BadImmediate),
    }
}

/// The id of a subsection, its contents, and what follows it.
#[tactic(auto, unfolding(crate::specs::NameReader::subsection_at))]
pub fn subsection_of(bytes: &[u8]) -> Result<(u8, &[u8], &[u8]), Cause>
    ensures { Gives (λ x. ((x.0, x.1.now), x.2.now)) result (subsection_at bytes.now) }
{
    let (id, rest) = byte_of(bytes)?;
    let (contents, behind) = sized_of(rest)?;
    Ok((id, contents, behind))
}

/// The index of a function, its name, and what follows these.
#[tactic(auto, unfolding(crate::specs::NameReader::naming_at))]
pub fn naming_of(bytes: &[u8]) -> Result<(u32, &str, &[u8]), Cause>
    ensures { Gives (λ x. ((x.0, x.1.now), x.2.now)) result (naming_at bytes.now) }
{
    let (index, rest) = u32_of(bytes)?;
    let (name, behind) = name_of(rest)?;
    Ok((index, name, behind))
}
