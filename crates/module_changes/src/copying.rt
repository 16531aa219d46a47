//! The code that may be copied: which module it is of, and which of its code the words name.
ghost use Rattle.std.specs.Prelude.{◌≡◌, ◌↔◌, ◌<◌, ◌≤◌, false, List, Some, get_or, length, slice_get, IfErr, IfNone, IfOk, IfSome, IsTrue};
ghost use Rattle.wasm_code.specs.Instruction.{Instruction};
ghost use Rattle.body_changes.specs.Drawing.{AskTypesAlone};
ghost use Rattle.body_changes.specs.declared.change.Change.TheVariants.{Copy};
ghost use Rattle.module_changes.specs.Donor.{most_copied, Copies, IsCopiedBy, MayCopy};
ghost use Rattle.module_changes.specs.Entry.{donor_of, IsReading};
ghost use Rattle.module_changes.specs.declared.refusal.Refusal.TheVariants.{Memory};

use crate::entry::{Reading, entry_named};
use crate::refusal::Refusal;
use body_changes::{Change, ask_types_alone, unit_named};
use module_rewrites::read_function;
use std::alloc::Global;
use wasm_code::Instr;

// How many instructions code that is copied may have at most, since each function that is tried looks at it.
const MOST_COPIED: usize = 100;

/// A module of which code is copied.
#[derive(Clone, Copy)]
pub(crate) struct Source<'a> {
    pub reading: Reading<'a>,
    /// Whether such code alone is copied of which the standard asks nothing beyond its types.
    pub plain: bool,
}

// The word at the index, or 0.
fn word_at(words: &[u64], index: usize) -> u64
    ensures { result ≡ get_or words.now index 0 }
{
    words.get(index).copied().unwrap_or(0)
}

// Whether the code may be copied.
fn may_be_copied(plain: bool, code: &[Instr]) -> bool
    ensures { IsTrue result ↔ ((length code.now ≤ most_copied)
        × (IsTrue plain → AskTypesAlone code.now)) }
{
    if code.len() > MOST_COPIED {
        return false;
    }
    if plain { ask_types_alone(code) } else { true }
}

// The code that the words name of the function of the n-th entry.
fn code_of(
    alloc: Global,
    source: &Source<'_>,
    words: &[u64],
    n: usize,
) -> Result<Option<Vec<Instr>>, Refusal>
    requires reading { IsReading source.now.reading }
    requires inside { n < length source.now.reading.layout.now.entries }
    ensures some { IfOk result (λ o. IfSome o (λ code.
        Copies (donor_of source.now) words.now n code.items)) }
    ensures none { IfOk result (λ o. IfNone o ((code : List Instruction)
        → ¬ (Copies (donor_of source.now) words.now n code))) }
    ensures memory { IfErr result (λ e. e ≡ Memory) }
{
    let reading = source.reading;
    let function = match read_function(alloc, reading.bytes, reading.info, reading.layout, n) {
        Ok(function) => function,
        Err(e) => {
            if e.is_memory() {
                return Err(Refusal::Memory);
            }
            return Ok(None);
        }
    };
    let body = body_changes::Source {
        info: reading.info,
        locals: &function.locals,
        operators: &function.operators,
        input: reading.bytes,
    };
    let Some(code) = unit_named(alloc, &body, word_at(words, 4))? else {
        return Ok(None);
    };
    if may_be_copied(source.plain, &code) {
        Ok(Some(code))
    } else {
        Ok(None)
    }
}

// Whether that is the change with the number.
fn is_copy(changes: &[Change], number: usize) -> bool
    requires { number < length changes.now }
    ensures { IsTrue result ↔ (slice_get changes.now number ≡ Some Copy) }
{
    changes[number] == Change::Copy
}

// Whether code may be copied.
fn may_copy(changes: &[Change]) -> bool
    ensures { result ≡ false → ¬ (MayCopy changes.now) }
{
    for number in 0..changes.len() {
        if is_copy(changes, number) {
            return true;
        }
    }
    false
}

/// The code that may be copied, by these words: none where that is none of the changes, or where the entry that the words name has none
/// that they name.
pub(crate) fn copied_code(
    alloc: Global,
    source: &Source<'_>,
    changes: &[Change],
    words: &[u64],
) -> Result<Vec<Instr>, Refusal>
    requires { IsReading source.now.reading }
    ensures copied { IfOk result (λ code.
        IsCopiedBy (donor_of source.now) changes.now words.now code.items) }
    ensures memory { IfErr result (λ e. e ≡ Memory) }
{
    let reading = source.reading;
    let layout = reading.layout;
    if !may_copy(changes) || layout.entries.len() == 0 {
        return Ok(Vec::new(alloc));
    }
    let n = entry_named(&reading, word_at(words, 3));
    match code_of(alloc, source, words, n)? {
        Some(code) => Ok(code),
        None => Ok(Vec::new(alloc)),
    }
}
