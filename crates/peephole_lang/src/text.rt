//! The texts of nodes, written and read.
ghost use Rattle.std.specs.Prelude.{◌≡◌, Some};
ghost use Rattle.peephole_nodes.specs.PayloadText.{read_payload};
ghost use Rattle.peephole_lang.specs.Text.{text_of, wrong_count, checked_reading, NodeReadsAs};

use crate::lang::Lang;
use crate::making::make;
use crate::names::find;
use crate::variants::VariantRow;
use peephole_nodes::{Arity, Id, Payload, PayloadText, front_at};
use peephole_payloads::TermError;
use std::fmt;

impl Lang {
    /// The node whose text this is, with these children, the first operand first.
    ///
    /// `InvalidToken` unless the text is the name of a variant without payload, or begins with the name of one with a payload
    /// and a dot. A node with payload and children
    /// reads the payload first, then wants its number of children; one with a payload alone wants no children first.
    /// A bad payload is refused as the reading of its type says: `BadInteger`, `BadBits`, `BadRefType`, `BadValType`,
    /// `MissingInfo`, `TooMuchInfo` or `WrongLanes`. `ExpectedOneChild` (with the number given), `ExpectedChildren` (with the
    /// number wanted) and `ExpectedZeroChildren` tell of a wrong number of children.
    pub fn from_op_str(text: &str, children: Vec<Id>) -> Result<Lang, TermError>
        ensures { NodeReadsAs text.now children.items result }
    {
        match find(text) {
            Some((variant, payload_text)) => {
                let payload = variant.read(payload_text, children.len())?;
                Ok(make(variant.place, payload, children).unwrap())
            }
            None => Err(TermError::InvalidToken),
        }
    }
}

impl fmt::Display for Lang {
    ghost output = { λ l. Some (text_of l) };

    fn fmt<W: fmt::Write>(&self, f: &mut fmt::Formatter<W>) -> fmt::Result {
        let front = front_at(self.place());
        let payload = PayloadText(self.payload());
        write!(f, "{front}{payload}")
    }
}

impl fmt::Debug for Lang {
    ghost debug_output = { λ l. Some (text_of l) };

    fn fmt<W: fmt::Write>(&self, f: &mut fmt::Formatter<W>) -> fmt::Result {
        fmt::Display::fmt(self, f)
    }
}

// What is wrong with this many children.
fn wrong_children(arity: Arity, count: usize) -> Option<TermError>
    ensures { result ≡ wrong_count arity count }
{
    match arity {
        Arity::Zero if count != 0 => Some(TermError::ExpectedZeroChildren),
        Arity::One if count != 1 => Some(TermError::ExpectedOneChild(count)),
        Arity::Several(wanted) if count != wanted => Some(TermError::ExpectedChildren(wanted)),
        _ => None,
    }
}

impl VariantRow {
    // The payload that its text writes, where a node of the variant has this many children.
    fn read(&self, payload_text: &str, count: usize) -> Result<Payload, TermError>
        ensures { result ≡ checked_reading self.now.children (wrong_count self.now.children count)
            (read_payload self.now.payload payload_text.now) }
    {
        let wrong = wrong_children(self.children, count);
        match (self.children, wrong) {
            (Arity::Zero, Some(error)) => Err(error),
            _ => {
                let payload = self.payload.read(payload_text)?;
                match wrong {
                    Some(error) => Err(error),
                    None => Ok(payload),
                }
            }
        }
    }
}
