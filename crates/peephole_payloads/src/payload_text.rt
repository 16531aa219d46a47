//! The texts of payloads, written and read.
ghost use Rattle.std.specs.Prelude.{◌≡◌};
ghost use Rattle.peephole_payloads.specs.Parts.{remaining_parts, IsFirstPart};
ghost use Rattle.peephole_payloads.specs.PayloadText.{and_then, dot_parts, first_number, with_no_more, read_pair, read_mem_parts, read_lane_behind, read_val_type, ref_type_text};

use crate::number::{read_u8, read_u32, read_u64};
use crate::payload::{
    MemArg, MemArgLane, MemoryCopy, MemoryInit, RefType, Shuffle, TableCopy, TableInit,
};
use crate::term_error::TermError;
use std::fmt;
use std::str::FromStr;
use wasm_code::ValType;

// What is left of a text whose parts, which stand between dots, are read from the left; None where all are read.
#[derive(Drop)]
struct Parts<'t> {
    left: Option<&'t str>,
}

impl<'t> Parts<'t> {
    fn new(text: &'t str) -> Parts<'t>
        ensures { remaining_parts result.left ≡ dot_parts text.now }
    {
        Parts { left: Some(text) }
    }

    // The first part.
    fn part(&mut self) -> Option<&'t str>
        ensures { IsFirstPart (remaining_parts self.old.left) result
            (remaining_parts self.new.left) }
    {
        let text = self.left?;
        match text.split_once('.') {
            Some((part, more)) => {
                self.left = Some(more);
                Some(part)
            }
            None => {
                self.left = None;
                Some(text)
            }
        }
    }

    // The number in the first part.
    fn number_u8(&mut self) -> Result<u8, TermError>
        ensures { first_number 8 (remaining_parts self.old.left) ≡ and_then result
            (λ n. Ok (n, remaining_parts self.new.left)) }
    {
        match self.part() {
            Some(part) => read_u8(part),
            None => Err(TermError::MissingInfo),
        }
    }

    // The number in the first part.
    fn number_u32(&mut self) -> Result<u32, TermError>
        ensures { first_number 32 (remaining_parts self.old.left) ≡ and_then result
            (λ n. Ok (n, remaining_parts self.new.left)) }
    {
        match self.part() {
            Some(part) => read_u32(part),
            None => Err(TermError::MissingInfo),
        }
    }

    // The number in the first part.
    fn number_u64(&mut self) -> Result<u64, TermError>
        ensures { first_number 64 (remaining_parts self.old.left) ≡ and_then result
            (λ n. Ok (n, remaining_parts self.new.left)) }
    {
        match self.part() {
            Some(part) => read_u64(part),
            None => Err(TermError::MissingInfo),
        }
    }

    // Refuses where a part is left.
    fn end(self) -> Result<(), TermError>
        ensures { result ≡ with_no_more tt (remaining_parts self.entry.left) }
    {
        match self.left {
            Some(_) => Err(TermError::TooMuchInfo),
            None => Ok(()),
        }
    }
}

// Two numbers with a dot between them.
fn read_pair(text: &str) -> Result<(u32, u32), TermError>
    ensures { result ≡ read_pair (dot_parts text.now) }
{
    let mut parts = Parts::new(text);
    let first = parts.number_u32()?;
    let second = parts.number_u32()?;
    parts.end()?;
    Ok((first, second))
}

// A memory argument: three numbers.
fn read_mem_parts(mut parts: Parts<'_>) -> Result<MemArg, TermError>
    ensures { result ≡ read_mem_parts (remaining_parts parts.entry.left) }
{
    let static_offset = parts.number_u64()?;
    let align = parts.number_u8()?;
    let mem = parts.number_u32()?;
    parts.end()?;
    Ok(MemArg {
        static_offset,
        align,
        mem,
    })
}

// The lane, and then the memory argument of the parts in front of it.
fn read_lane_behind(parts: Parts<'_>, last: &str) -> Result<MemArgLane, TermError>
    ensures { result ≡ read_lane_behind (remaining_parts parts.entry.left) last.now }
{
    let lane = read_u8(last)?;
    let memarg = read_mem_parts(parts)?;
    Ok(MemArgLane { memarg, lane })
}

/// The value type of that name, or `BadValType`.
pub fn read_val_type(text: &str) -> Result<ValType, TermError>
    ensures { result ≡ read_val_type text.now }
{
    match ValType::from_name(text) {
        Some(t) => Ok(t),
        None => Err(TermError::BadValType),
    }
}

impl FromStr for RefType {
    ghost use Rattle.std.specs.Prelude.{◌≡◌};
    ghost use Rattle.peephole_payloads.specs.PayloadText.{read_ref_type};

    type Err = TermError;

    ghost from_str_gives = { λ text r. r ≡ read_ref_type text };

    fn from_str(text: &str) -> Result<RefType, TermError> {
        if text == "func" {
            return Ok(RefType::Func);
        }
        if text == "extern" {
            return Ok(RefType::Extern);
        }
        Err(TermError::BadRefType)
    }
}

impl RefType {
    // Its text.
    fn name(&self) -> &'static str
        ensures { result.now ≡ ref_type_text self.now }
    {
        match self {
            RefType::Func => "func",
            RefType::Extern => "extern",
        }
    }
}

impl fmt::Display for RefType {
    ghost use Rattle.std.specs.Prelude.{Some};
    ghost use Rattle.peephole_payloads.specs.PayloadText.{ref_type_text};

    ghost output = { λ x. Some (ref_type_text x) };

    fn fmt<W: fmt::Write>(&self, f: &mut fmt::Formatter<W>) -> fmt::Result {
        let name = self.name();
        write!(f, "{name}")
    }
}

impl FromStr for MemArg {
    ghost use Rattle.std.specs.Prelude.{◌≡◌};
    ghost use Rattle.peephole_payloads.specs.PayloadText.{read_mem_arg};

    type Err = TermError;

    ghost from_str_gives = { λ text r. r ≡ read_mem_arg text };

    fn from_str(text: &str) -> Result<MemArg, TermError> {
        read_mem_parts(Parts { left: Some(text) })
    }
}

impl fmt::Display for MemArg {
    ghost use Rattle.std.specs.Prelude.{Some};
    ghost use Rattle.peephole_payloads.specs.PayloadText.{mem_arg_text};

    ghost output = { λ x. Some (mem_arg_text x) };

    fn fmt<W: fmt::Write>(&self, f: &mut fmt::Formatter<W>) -> fmt::Result {
        let static_offset = self.static_offset;
        let align = self.align;
        let mem = self.mem;
        write!(f, "{static_offset}.{align}.{mem}")
    }
}

impl FromStr for MemArgLane {
    ghost use Rattle.std.specs.Prelude.{◌≡◌};
    ghost use Rattle.peephole_payloads.specs.PayloadText.{read_mem_arg_lane};

    type Err = TermError;

    ghost from_str_gives = { λ text r. r ≡ read_mem_arg_lane text };

    fn from_str(text: &str) -> Result<MemArgLane, TermError> {
        match text.rsplit_once('.') {
            Some((front, last)) => read_lane_behind(Parts { left: Some(front) }, last),
            None => read_lane_behind(Parts { left: None }, text),
        }
    }
}

impl fmt::Display for MemArgLane {
    ghost use Rattle.std.specs.Prelude.{Some};
    ghost use Rattle.peephole_payloads.specs.PayloadText.{mem_arg_lane_text};

    ghost output = { λ x. Some (mem_arg_lane_text x) };

    fn fmt<W: fmt::Write>(&self, f: &mut fmt::Formatter<W>) -> fmt::Result {
        let static_offset = self.memarg.static_offset;
        let align = self.memarg.align;
        let mem = self.memarg.mem;
        let lane = self.lane;
        write!(f, "{static_offset}.{align}.{mem}.{lane}")
    }
}

impl FromStr for Shuffle {
    ghost use Rattle.std.specs.Prelude.{◌≡◌};
    ghost use Rattle.peephole_payloads.specs.PayloadText.{read_shuffle};

    type Err = TermError;

    ghost from_str_gives = { λ text r. r ≡ read_shuffle text };

    fn from_str(text: &str) -> Result<Shuffle, TermError> {
        let mut indices = [0; 16];
        // How many parts are read, or 17 where they are more than that.
        let mut count = 0usize;
        let mut parts = Parts::new(text);
        while let Some(part) = parts.part() {
            let lane = read_u8(part)?;
            if count < 16 {
                indices[count] = lane;
                count += 1;
            } else {
                count = 17;
            }
        }
        if count == 16 {
            Ok(Shuffle { indices })
        } else {
            Err(TermError::WrongLanes)
        }
    }
}

// Numbers, each behind a dot.
#[derive(Drop)]
struct Behind<'a>(&'a [u8]);

impl fmt::Display for Behind<'_> {
    ghost use Rattle.std.specs.Prelude.{Some, ◌∷◌};
    ghost use Rattle.std.specs.Fmt.{decimal};
    ghost use Rattle.std.specs.List.{flat_map};

    ghost output = { λ x. Some (flat_map (λ m. 46 ∷ decimal m) x.0.now) };

    fn fmt<W: fmt::Write>(&self, f: &mut fmt::Formatter<W>) -> fmt::Result {
        let lanes = self.0;
        for lane in lanes {
            write!(f, ".{lane}")?;
        }
        Ok(())
    }
}

impl fmt::Display for Shuffle {
    ghost use Rattle.std.specs.Prelude.{Some};
    ghost use Rattle.peephole_payloads.specs.PayloadText.{shuffle_text};

    ghost output = { λ x. Some (shuffle_text x) };

    fn fmt<W: fmt::Write>(&self, f: &mut fmt::Formatter<W>) -> fmt::Result {
        let first = self.indices[0];
        let others = Behind(&self.indices[1..]);
        write!(f, "{first}{others}")
    }
}

impl FromStr for TableCopy {
    ghost use Rattle.std.specs.Prelude.{◌≡◌};
    ghost use Rattle.peephole_payloads.specs.PayloadText.{read_table_copy};

    type Err = TermError;

    ghost from_str_gives = { λ text r. r ≡ read_table_copy text };

    fn from_str(text: &str) -> Result<TableCopy, TermError> {
        let (src, dst) = read_pair(text)?;
        Ok(TableCopy { src, dst })
    }
}

impl fmt::Display for TableCopy {
    ghost use Rattle.std.specs.Prelude.{Some};
    ghost use Rattle.peephole_payloads.specs.PayloadText.{table_copy_text};

    ghost output = { λ x. Some (table_copy_text x) };

    fn fmt<W: fmt::Write>(&self, f: &mut fmt::Formatter<W>) -> fmt::Result {
        let src = self.src;
        let dst = self.dst;
        write!(f, "{src}.{dst}")
    }
}

impl FromStr for MemoryCopy {
    ghost use Rattle.std.specs.Prelude.{◌≡◌};
    ghost use Rattle.peephole_payloads.specs.PayloadText.{read_memory_copy};

    type Err = TermError;

    ghost from_str_gives = { λ text r. r ≡ read_memory_copy text };

    fn from_str(text: &str) -> Result<MemoryCopy, TermError> {
        let (src, dst) = read_pair(text)?;
        Ok(MemoryCopy { src, dst })
    }
}

impl fmt::Display for MemoryCopy {
    ghost use Rattle.std.specs.Prelude.{Some};
    ghost use Rattle.peephole_payloads.specs.PayloadText.{memory_copy_text};

    ghost output = { λ x. Some (memory_copy_text x) };

    fn fmt<W: fmt::Write>(&self, f: &mut fmt::Formatter<W>) -> fmt::Result {
        let src = self.src;
        let dst = self.dst;
        write!(f, "{src}.{dst}")
    }
}

impl FromStr for TableInit {
    ghost use Rattle.std.specs.Prelude.{◌≡◌};
    ghost use Rattle.peephole_payloads.specs.PayloadText.{read_table_init};

    type Err = TermError;

    ghost from_str_gives = { λ text r. r ≡ read_table_init text };

    fn from_str(text: &str) -> Result<TableInit, TermError> {
        let (table, segment) = read_pair(text)?;
        Ok(TableInit { table, segment })
    }
}

impl fmt::Display for TableInit {
    ghost use Rattle.std.specs.Prelude.{Some};
    ghost use Rattle.peephole_payloads.specs.PayloadText.{table_init_text};

    ghost output = { λ x. Some (table_init_text x) };

    fn fmt<W: fmt::Write>(&self, f: &mut fmt::Formatter<W>) -> fmt::Result {
        let table = self.table;
        let segment = self.segment;
        write!(f, "{table}.{segment}")
    }
}

impl FromStr for MemoryInit {
    ghost use Rattle.std.specs.Prelude.{◌≡◌};
    ghost use Rattle.peephole_payloads.specs.PayloadText.{read_memory_init};

    type Err = TermError;

    ghost from_str_gives = { λ text r. r ≡ read_memory_init text };

    fn from_str(text: &str) -> Result<MemoryInit, TermError> {
        let (memory, segment) = read_pair(text)?;
        Ok(MemoryInit { memory, segment })
    }
}

impl fmt::Display for MemoryInit {
    ghost use Rattle.std.specs.Prelude.{Some};
    ghost use Rattle.peephole_payloads.specs.PayloadText.{memory_init_text};

    ghost output = { λ x. Some (memory_init_text x) };

    fn fmt<W: fmt::Write>(&self, f: &mut fmt::Formatter<W>) -> fmt::Result {
        let memory = self.memory;
        let segment = self.segment;
        write!(f, "{memory}.{segment}")
    }
}
