//! Structural operators of new code.
ghost use Rattle.std.specs.Prelude.{◌≡◌, ◌++◌, ◌∷◌, OnOk, OnErr};
ghost use Rattle.wasm_code.specs.Code.{shortest};
ghost use Rattle.wasm_code.specs.Immediate.{val_type_code};
ghost use Rattle.body_splices.specs.Control.{control_bytes, LabelInRange};

use wasm_code::{Function, SinkError, ValType};

/// A structural operator that new code may have.
#[derive(Clone, Copy, Debug, PartialEq, Eq)]
pub enum Control {
    /// A block that gives one value of the type.
    Block(ValType),
    /// A loop that gives one value of the type.
    Loop(ValType),
    /// A conditional whose parts give one value of the type.
    If(ValType),
    /// A conditional whose parts give nothing.
    BareIf,
    /// The other part of a conditional.
    Else,
    /// The end of a block, a loop or a conditional.
    End,
    /// A branch to the label with that depth.
    Branch(u8),
    /// The same under a condition.
    BranchIf(u8),
    /// What is never reached.
    Unreachable,
}

// The byte of a value type.
fn type_byte(t: ValType) -> u8
    ensures { result ≡ val_type_code t }
{
    match t {
        ValType::I32 => 0x7f,
        ValType::I64 => 0x7e,
        ValType::F32 => 0x7d,
        ValType::F64 => 0x7c,
        ValType::V128 => 0x7b,
        ValType::FuncRef => 0x70,
        ValType::ExternRef => 0x6f,
    }
}

// Writes an opcode and a label behind it. A label below 128 is spelled by itself; of any other the byte gives the lowest seven bits, and
// says that another one follows, which is 1.
fn put_labelled(opcode: u8, label: u8, sink: &mut Function) -> Result<(), SinkError>
    ensures ok { OnOk result (sink.new ≡ sink.old ++ opcode ∷ shortest label) }
    ensures err { OnErr result (sink.new ≡ sink.old) }
{
    if label < 128 {
        sink.raw(&[opcode, label])
    } else {
        sink.raw(&[opcode, label, 1])
    }
}

/// Writes the operator's bytes.
pub(crate) fn put_control(control: Control, sink: &mut Function) -> Result<(), SinkError>
    ensures ok { OnOk result (sink.new ≡ sink.old ++ control_bytes control) }
    ensures err { OnErr result (sink.new ≡ sink.old) }
    ensures in_range { LabelInRange control }
{
    match control {
        Control::Block(t) => sink.raw(&[0x02, type_byte(t)]),
        Control::Loop(t) => sink.raw(&[0x03, type_byte(t)]),
        Control::If(t) => sink.raw(&[0x04, type_byte(t)]),
        Control::BareIf => sink.raw(&[0x04, 0x40]),
        Control::Else => sink.raw(&[0x05]),
        Control::End => sink.raw(&[0x0b]),
        Control::Branch(label) => put_labelled(0x0c, label, sink),
        Control::BranchIf(label) => put_labelled(0x0d, label, sink),
        Control::Unreachable => sink.raw(&[0x00]),
    }
}
