//! The entries of the code section.
ghost use Rattle.std.specs.Prelude.{◌≡◌, ◌≤◌, ◌+◌, ◌-◌, List, length, Ok, IfOk, IfErr, MatchResult};
ghost use Rattle.wasm_code.specs.Reader.{Gives};
ghost use Rattle.wasm_lists.specs.Entries.{SpellsMeasuredSize, FailsSized, SpellsEntries};
ghost use Rattle.wasm_lists.specs.List.{IsListFault};
ghost use Rattle.wasm_lists.specs.Reader.{StopsBy, FailsWhole, AreRead, each_at, measured_size_at, entry_at};
ghost use Rattle.wasm_lists.specs.declared.entries.Entry.{Entry};
ghost use Rattle.wasm_sections.specs.declared.fault.ModuleFault.TheVariants.{Memory};

use crate::imports::past_bytes;
use crate::list::{Stop, error_of};
use crate::refusal::{Refusal, fault};
use std::alloc::Global;
use wasm_code::{Cause, u32_of};
use wasm_sections::{ModuleError, ModuleFault};

/// Where an entry of the code section stands in a module: offsets, counted in bytes from the start of the module.
#[derive(Clone, Copy, Debug, PartialEq, Eq)]
pub struct Entry {
    /// The first byte of its size.
    pub start: usize,
    /// The first byte behind its size.
    pub contents: usize,
    /// The first byte behind the entry.
    pub end: usize,
}

/// The entry that begins the bytes, which end at the offset `to`, and what follows it.
fn entry_from(bytes: &[u8], to: usize) -> Result<(Entry, &[u8]), Cause>
    requires { length bytes.now ≤ to }
    ensures gives { Gives (λ x. (x.0, x.1.now)) result (entry_at to bytes.now) }
    ensures within { IfOk result (λ x. length x.1.now ≤ length bytes.now) }
{
    let (size, contents) = u32_of(bytes)?;
    let rest = past_bytes(size, contents)?;
    Ok((
        Entry {
            start: to - bytes.len(),
            contents: to - contents.len(),
            end: to - rest.len(),
        },
        rest,
    ))
}

/// So many entries, one after another, of bytes that end at the offset `to`, and what follows them.
fn entries_of(
    alloc: Global,
    count: u32,
    bytes: &[u8],
    to: usize,
) -> Result<(Vec<Entry>, &[u8]), Stop>
    requires { length bytes.now ≤ to }
    ensures found { IfOk result (λ x.
        each_at count (entry_at to) bytes.now ≡ Ok (x.0.items, x.1.now)) }
    ensures within { IfOk result (λ x. length x.1.now ≤ length bytes.now) }
    ensures stops { IfErr result (λ s. StopsBy (entry_at to) count bytes.now s.refusal s.left) }
    ensures left { IfErr result (λ s. s.left ≤ length bytes.now) }
{
    let mut entries = Vec::new(alloc);
    let mut rest = bytes;
    for _ in 0..count {
        match entry_from(rest, to) {
            Ok((entry, behind)) => {
                if entries.push(entry).is_err() {
                    return Err(Stop {
                        refusal: Refusal::Memory,
                        left: rest.len(),
                    });
                }
                rest = behind;
            }
            Err(cause) => return Err(Stop {
                refusal: Refusal::Bytes(cause),
                left: rest.len(),
            }),
        }
    }
    Ok((entries, rest))
}

/// The entries of a list that is the whole of a section's contents, whose first byte has the offset `start`.
fn listed_entries(alloc: Global, contents: &[u8], start: usize) -> Result<Vec<Entry>, ModuleError>
    requires { start + length contents.now ≤ usize.MAX }
    ensures found { IfOk result (λ v. AreRead start contents.now v.items) }
    ensures fault { IfErr result (λ e. FailsWhole measured_size_at start contents.now e) }
{
    let (count, rest) = match u32_of(contents) {
        Ok(counted) => counted,
        Err(cause) => return Err(ModuleError {
            kind: fault(cause),
            offset: start,
        }),
    };
    match entries_of(alloc, count, rest, start + contents.len()) {
        Ok((entries, behind)) => {
            if behind.is_empty() {
                Ok(entries)
            } else {
                Err(ModuleError {
                    kind: ModuleFault::TrailingBytes,
                    offset: start + (contents.len() - behind.len()),
                })
            }
        }
        Err(stop) => Err(error_of(stop, contents.len(), start)),
    }
}

/// Reads where the entries stand that a code section lists. `contents` are the section's contents, whose first byte has the
/// offset `start` in the module (WebAssembly Core Specification 3.0, Binary Format, Modules, Code Section).
///
/// It accepts exactly a list with nothing behind it, each of its items a size and that many bytes, which aren't looked at.
///
/// An error names the first fault from the left and where the entry at fault starts, or `start` where the number of the
/// entries is at fault: `Truncated` where the contents end inside it, `BadInteger` where its size has too many bytes or
/// doesn't fit; `TrailingBytes` at the first byte behind the entries; `Memory` at `start` where no memory was left.
pub fn read_entries(alloc: Global, contents: &[u8], start: usize) -> Result<Vec<Entry>, ModuleError>
    requires { start + length contents.now ≤ usize.MAX }
    // What is read is spelled so.
    ensures found { IfOk result (λ v. SpellsEntries start contents.now v.items) }
    // What is spelled so is read, unless memory runs out.
    ensures only { (xs : List Entry) → SpellsEntries start contents.now xs
        → MatchResult result (λ v. v.items ≡ xs) (λ e. e.kind ≡ Memory) }
    // What doesn't come from memory is the first fault.
    ensures fault { IfErr result (λ e.
        IsListFault SpellsMeasuredSize FailsSized start contents.now e.kind e.offset) }
{
    listed_entries(alloc, contents, start)
}
