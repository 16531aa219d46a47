//! The texts of payloads, written and read.
ghost use Rattle.std.specs.Prelude.{◌≡◌, Some};
ghost use Rattle.peephole_nodes.specs.PayloadText.{inner_text, read_payload};
ghost use Rattle.peephole_nodes.specs.declared.payload.PayloadKind.TheVariants as kind;

use crate::payload::{Payload, PayloadKind};
use peephole_payloads::number::{read_i32, read_i64, read_i128, read_u8, read_u32};
use peephole_payloads::{TermError, read_val_type};
use std::fmt;

/// The text of a payload: what stands behind the name and the dot in a node's text.
#[derive(Drop)]
pub struct PayloadText(pub Payload);

impl fmt::Display for PayloadText {
    ghost output = { λ s. Some (inner_text s.0) };

    fn fmt<W: fmt::Write>(&self, f: &mut fmt::Formatter<W>) -> fmt::Result {
        match self.0 {
            Payload::Nothing => Ok(()),
            Payload::Index(index) => write!(f, "{index}"),
            Payload::Lane(lane) => write!(f, "{lane}"),
            Payload::I32(number) => write!(f, "{number}"),
            Payload::I64(number) => write!(f, "{number}"),
            Payload::F32(number) => write!(f, "{number}"),
            Payload::F64(number) => write!(f, "{number}"),
            Payload::V128(number) => write!(f, "{number}"),
            Payload::Memory(memarg) => write!(f, "{memarg}"),
            Payload::MemoryLane(place) => write!(f, "{place}"),
            Payload::Shuffle(shuffle) => write!(f, "{shuffle}"),
            Payload::Ref(ty) => write!(f, "{ty}"),
            Payload::Value(ty) => {
                let name = ty.name();
                write!(f, "{name}")
            }
            Payload::MemoryInit(init) => write!(f, "{init}"),
            Payload::MemoryCopy(copy) => write!(f, "{copy}"),
            Payload::TableInit(init) => write!(f, "{init}"),
            Payload::TableCopy(copy) => write!(f, "{copy}"),
        }
    }
}

// No payload, of the empty text.
fn read_nothing(text: &str) -> Result<Payload, TermError>
    ensures { result ≡ read_payload kind.Nothing text.now }
{
    if text.is_empty() {
        Ok(Payload::Nothing)
    } else {
        Err(TermError::InvalidToken)
    }
}

impl PayloadKind {
    /// The payload of this kind that the text writes; else the first refusal in the order of reading. `InvalidToken`
    /// where the kind has no payload and the text isn't empty.
    pub fn read(self, text: &str) -> Result<Payload, TermError>
        ensures { result ≡ read_payload self text.now }
    {
        match self {
            PayloadKind::Nothing => read_nothing(text),
            PayloadKind::Index => Ok(Payload::Index(read_u32(text)?)),
            PayloadKind::Lane => Ok(Payload::Lane(read_u8(text)?)),
            PayloadKind::I32 => Ok(Payload::I32(read_i32(text)?)),
            PayloadKind::I64 => Ok(Payload::I64(read_i64(text)?)),
            PayloadKind::F32 => Ok(Payload::F32(text.parse()?)),
            PayloadKind::F64 => Ok(Payload::F64(text.parse()?)),
            PayloadKind::V128 => Ok(Payload::V128(read_i128(text)?)),
            PayloadKind::Memory => Ok(Payload::Memory(text.parse()?)),
            PayloadKind::MemoryLane => Ok(Payload::MemoryLane(text.parse()?)),
            PayloadKind::Shuffle => Ok(Payload::Shuffle(text.parse()?)),
            PayloadKind::Ref => Ok(Payload::Ref(text.parse()?)),
            PayloadKind::Value => Ok(Payload::Value(read_val_type(text)?)),
            PayloadKind::MemoryInit => Ok(Payload::MemoryInit(text.parse()?)),
            PayloadKind::MemoryCopy => Ok(Payload::MemoryCopy(text.parse()?)),
            PayloadKind::TableInit => Ok(Payload::TableInit(text.parse()?)),
            PayloadKind::TableCopy => Ok(Payload::TableCopy(text.parse()?)),
        }
    }
}
