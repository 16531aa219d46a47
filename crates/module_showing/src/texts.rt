//! The texts of operators, as WebAssembly's text format has them.

use crate::floats::Float;
use instruction_names::instruction_name;
use std::fmt;
use wasm_code::{AbstractHeapType, BlockType, HeapType, Imm, Instr, MemArg, Operator, ValType};

/// The text of an operator: of an instruction as the text format has it (WebAssembly Core Specification 3.0, Text Format,
/// Instructions), with the alignment of each memory argument, and numbers of floats in hexadecimal; of any other operator its form here.
#[derive(Clone, Copy)]
pub struct OperatorText(pub Operator);

// The text of an instruction.
#[derive(Clone, Copy)]
struct InstrText(Instr);

// The text of an immediate, behind a space.
#[derive(Clone, Copy)]
struct ImmText(Imm);

// The text of a memory argument: its memory, but for the first one, its offset, but for 0, and its alignment.
#[derive(Clone, Copy)]
struct MemText(MemArg);

// The text of the lanes of a shuffle.
#[derive(Clone, Copy)]
struct LanesText([u8; 16]);

// The rows of `memory.init` and `table.init`, whose two indexes stand the other way round in texts.
const MEMORY_INIT: u16 = 179;

const TABLE_INIT: u16 = 183;

impl fmt::Display for MemText {
    fn fmt<W: fmt::Write>(&self, f: &mut fmt::Formatter<W>) -> fmt::Result {
        let memory = self.0.memory;
        let offset = self.0.offset;
        let align = 1u64.checked_shl(self.0.align as u32).unwrap_or(0);
        if memory > 0 {
            write!(f, " {memory}")?;
        }
        if offset > 0 {
            write!(f, " offset={offset}")?;
        }
        write!(f, " align={align}")
    }
}

impl fmt::Display for LanesText {
    fn fmt<W: fmt::Write>(&self, f: &mut fmt::Formatter<W>) -> fmt::Result {
        for lane in self.0 {
            write!(f, " {lane}")?;
        }
        Ok(())
    }
}

// The two halves of a vector's bits, the lower one first.
fn halves(bits: i128) -> (u64, u64) {
    let bits = bits.cast_unsigned();
    let low = bits % (1 << 64);
    let high = bits >> 64;
    (low as u64, high as u64)
}

// The name of what a reference refers to.
fn heap_name(heap: HeapType) -> &'static str {
    match heap {
        HeapType::Abstract {
            ty: AbstractHeapType::Func,
        } => "func",
        HeapType::Abstract {
            ty: AbstractHeapType::Extern,
        } => "extern",
    }
}

// Writes a space and the text.
fn write_behind<W: fmt::Write, T: fmt::Display + Drop>(
    f: &mut fmt::Formatter<W>,
    text: T,
) -> fmt::Result {
    write!(f, " {text}")
}

// Writes two indexes, each behind a space.
fn write_pair<W: fmt::Write>(f: &mut fmt::Formatter<W>, index: u32, other: u32) -> fmt::Result {
    write!(f, " {index} {other}")
}

// Writes the memory argument, and the lane behind a space.
fn write_lane<W: fmt::Write>(f: &mut fmt::Formatter<W>, memory: MemText, lane: u8) -> fmt::Result {
    write!(f, "{memory} {lane}")
}

// Writes the bits of a vector.
fn write_vector<W: fmt::Write>(f: &mut fmt::Formatter<W>, bits: i128) -> fmt::Result {
    let (low, high) = halves(bits);
    write!(f, " i64x2 0x{low:016x} 0x{high:016x}")
}

// Writes a type of results.
fn write_result<W: fmt::Write>(f: &mut fmt::Formatter<W>, t: ValType) -> fmt::Result {
    let name = t.name();
    write!(f, " (result {name})")
}

impl fmt::Display for ImmText {
    fn fmt<W: fmt::Write>(&self, f: &mut fmt::Formatter<W>) -> fmt::Result {
        match self.0 {
            Imm::Nothing => Ok(()),
            Imm::Index(index) => write_behind(f, index),
            Imm::Pair(index, other) => write_pair(f, index, other),
            Imm::Mem(memory) => fmt::Display::fmt(&MemText(memory), f),
            Imm::MemLane(memory, lane) => write_lane(f, MemText(memory), lane),
            Imm::Lane(lane) => write_behind(f, lane),
            Imm::I32(number) => write_behind(f, number),
            Imm::I64(number) => write_behind(f, number),
            Imm::F32(bits) => write_behind(f, Float::single(bits)),
            Imm::F64(bits) => write_behind(f, Float::double(bits)),
            Imm::V128(bits) => write_vector(f, bits),
            Imm::Shuffle(lanes) => fmt::Display::fmt(&LanesText(lanes), f),
            Imm::Heap(heap) => write_behind(f, heap_name(heap)),
            Imm::Val(t) => write_result(f, t),
        }
    }
}

// The immediate as it stands in texts.
fn written(row: u16, imm: Imm) -> Imm {
    match imm {
        Imm::Pair(index, other) if row == MEMORY_INIT || row == TABLE_INIT => {
            Imm::Pair(other, index)
        }
        _ => imm,
    }
}

impl fmt::Display for InstrText {
    fn fmt<W: fmt::Write>(&self, f: &mut fmt::Formatter<W>) -> fmt::Result {
        let row = self.0.row();
        let name = instruction_name(row);
        let imm = ImmText(written(row, self.0.imm()));
        write!(f, "{name}{imm}")
    }
}

// The type of a block.
#[derive(Clone, Copy)]
struct BlockText(BlockType);

impl fmt::Display for BlockText {
    fn fmt<W: fmt::Write>(&self, f: &mut fmt::Formatter<W>) -> fmt::Result {
        match self.0 {
            BlockType::Empty => Ok(()),
            BlockType::Value(t) => write_result(f, t),
            BlockType::FuncType(index) => write!(f, " (type {index})"),
            BlockType::Reference => f.write_str(" (result ref)"),
        }
    }
}

// Writes the name of an operator that opens a block, and the block's type.
fn write_opener<W: fmt::Write>(
    f: &mut fmt::Formatter<W>,
    name: &'static str,
    t: BlockType,
) -> fmt::Result {
    let block_type = BlockText(t);
    write!(f, "{name}{block_type}")
}

// Writes the name of a branch, and its label.
fn write_branch<W: fmt::Write>(
    f: &mut fmt::Formatter<W>,
    name: &'static str,
    label: u32,
) -> fmt::Result {
    write!(f, "{name} {label}")
}

impl fmt::Display for OperatorText {
    fn fmt<W: fmt::Write>(&self, f: &mut fmt::Formatter<W>) -> fmt::Result {
        match self.0 {
            Operator::Instr(instr) => fmt::Display::fmt(&InstrText(instr), f),
            Operator::Block(t) => write_opener(f, "block", t),
            Operator::Loop(t) => write_opener(f, "loop", t),
            Operator::If(t) => write_opener(f, "if", t),
            Operator::Else => f.write_str("else"),
            Operator::End => f.write_str("end"),
            Operator::Br(label) => write_branch(f, "br", label),
            Operator::BrIf(label) => write_branch(f, "br_if", label),
            Operator::Unreachable => f.write_str("unreachable"),
            other => write!(f, "{other:?}"),
        }
    }
}
