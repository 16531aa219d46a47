//! Lists: the number of the items, and the items, one after another.
ghost use Rattle.std.specs.Prelude.{◌≡◌, ◌↔◌, ◌≤◌, ◌+◌, ◌-◌, List, [], length, Ok, IfOk, IfErr, MatchResult, IsTrue};
ghost use Rattle.wasm_lists.specs.Known.{Known as Knowledge, SpellsKnown, IsKnownFault};
ghost use Rattle.wasm_lists.specs.List.{SpellsList, IsListFault};
ghost use Rattle.wasm_lists.specs.Reader.{AnswersUnlessMemory, RunsTo, IsUnknownBy, list_at, error_at, FailsWhole, ReadsKnown, FailsKnown};
ghost use Rattle.wasm_sections.specs.declared.fault.ModuleFault.TheVariants as faults;

use crate::item::Item;
use crate::known::Known;
use crate::refusal::{Refusal, fault};
use std::alloc::Global;
use wasm_code::{Cause, u32_of};
use wasm_sections::{ModuleError, ModuleFault};

/// Why a list wasn't read to its end, and how many bytes were left at the item that wasn't read.
#[derive(Clone, Copy, Debug, PartialEq, Eq)]
pub struct Stop {
    /// Why.
    pub refusal: Refusal,
    /// The number of the bytes from that item on.
    pub left: usize,
}

/// So many items, one after another, what follows them, and why the next one wasn't read where there are fewer.
fn each_of<T: Item>(
    alloc: Global,
    count: u32,
    bytes: &[u8],
) -> (Vec<T::Value>, &[u8], Option<Refusal>)
    ensures runs { RunsTo T.at count bytes.now result.0.items result.1.now result.2 }
    ensures within { length result.1.now ≤ length bytes.now }
{
    T::items_are_read();
    let mut items = Vec::new(alloc);
    let mut rest = bytes;
    for _ in 0..count {
        match T::read(alloc, rest) {
            Ok((item, behind)) => {
                if items.push(item).is_err() {
                    return (items, rest, Some(Refusal::Memory));
                }
                rest = behind;
            }
            Err(refusal) => return (items, rest, Some(refusal)),
        }
    }
    (items, rest, None)
}

/// A list that begins the bytes, and what follows it.
#[tactic(auto, unfolding(crate::specs::Reader::list_at))]
pub fn list_of<T: Item>(alloc: Global, bytes: &[u8]) -> Result<(Vec<T::Value>, &[u8]), Refusal>
    ensures { AnswersUnlessMemory (λ x. (x.0.items, x.1.now)) result (list_at T.at bytes.now) }
{
    let (count, rest) = u32_of(bytes)?;
    let (items, behind, refused) = each_of::<T>(alloc, count, rest);
    match refused {
        None => Ok((items, behind)),
        Some(refusal) => Err(refusal),
    }
}

/// The error of a refusal in contents of that length, whose first byte has the offset `start`.
pub fn error_of(stop: Stop, length: usize, start: usize) -> ModuleError
    requires left { stop.left ≤ length }
    requires fits { start + length ≤ usize.MAX }
    ensures { result ≡ error_at stop.refusal (start + (length - stop.left)) start }
{
    match stop.refusal {
        Refusal::Bytes(cause) => ModuleError {
            kind: fault(cause),
            offset: start + (length - stop.left),
        },
        Refusal::Memory => ModuleError {
            kind: ModuleFault::Memory,
            offset: start,
        },
    }
}

/// Whether bytes name nothing that is known here: a form, or an operator.
fn is_unknown(refusal: Refusal) -> bool
    ensures { IsTrue result ↔ IsUnknownBy refusal }
{
    matches!(
        refusal,
        Refusal::Bytes(Cause::UnknownOpcode | Cause::BadImmediate)
    )
}

/// What is known of a list that is the whole of the contents, as `read_known` says.
fn known_of<T: Item>(
    alloc: Global,
    contents: &[u8],
    start: usize,
) -> Result<Known<T::Value>, ModuleError>
    requires { start + length contents.now ≤ usize.MAX }
    ensures found { IfOk result (λ k.
        ReadsKnown T.at start contents.now k.count k.items k.unknown) }
    ensures fault { IfErr result (λ e. FailsKnown T.at start contents.now e) }
{
    let (count, rest) = match u32_of(contents) {
        Ok(counted) => counted,
        Err(cause) => return Err(ModuleError {
            kind: fault(cause),
            offset: start,
        }),
    };
    let (items, behind, refused) = each_of::<T>(alloc, count, rest);
    let left = behind.len();
    match refused {
        Some(refusal) => {
            let error = error_of(Stop { refusal, left }, contents.len(), start);
            if is_unknown(refusal) {
                Ok(Known {
                    count,
                    items,
                    unknown: Some(error),
                })
            } else {
                Err(error)
            }
        }
        None if left > 0 => Err(ModuleError {
            kind: ModuleFault::TrailingBytes,
            offset: start + (contents.len() - left),
        }),
        None => Ok(Known {
            count,
            items,
            unknown: None,
        }),
    }
}

/// The items of a list that is the whole of the contents, as `read_list` says.
fn items_of<T: Item>(
    alloc: Global,
    contents: &[u8],
    start: usize,
) -> Result<Vec<T::Value>, ModuleError>
    requires { start + length contents.now ≤ usize.MAX }
    ensures found { IfOk result (λ v. list_at T.at contents.now ≡ Ok (v.items, [])) }
    ensures fault { IfErr result (λ e. FailsWhole T.at start contents.now e) }
{
    let known = known_of::<T>(alloc, contents, start)?;
    match known.unknown {
        None => Ok(known.items),
        Some(error) => Err(error),
    }
}

/// Reads what is known of the list that a section contains: the number of its items, and the items before the first of a form that
/// isn't known here. `contents` are the section's contents, whose first byte has the offset `start` in the module (WebAssembly Core
/// Specification 3.0, Binary Format, Conventions, Lists).
///
/// It reads exactly a list of such items with nothing behind it. Where an item is of an unknown form, `unknown` says where that one
/// starts, with `UnknownForm`, or with `UnknownOpcode` for an operator in it. What stands behind it isn't looked at.
///
/// An error names the first fault from the left and where the item at fault starts, or `start` where the number of the items is at
/// fault: `Truncated` where the contents end inside it, `BadInteger` where a number has too many bytes or doesn't fit;
/// `TrailingBytes` at the first byte behind the items; `Memory` at `start` where no memory was left.
pub fn read_known<T: Item>(
    alloc: Global,
    contents: &[u8],
    start: usize,
) -> Result<Known<T::Value>, ModuleError>
    requires { start + length contents.now ≤ usize.MAX }
    // What is read is spelled so.
    ensures found { IfOk result (SpellsKnown T.Spells T.Fails start contents.now) }
    // What is spelled so is read, unless memory runs out.
    ensures only { (known : Knowledge T.Value)
        → SpellsKnown T.Spells T.Fails start contents.now known
        → MatchResult result (λ k. k ≡ known) (λ e. e.kind ≡ faults.Memory) }
    // What doesn't come from memory is the first fault.
    ensures fault { IfErr result (λ e.
        IsKnownFault T.Spells T.Fails start contents.now e.kind e.offset) }
{
    T::items_are_read();
    known_of::<T>(alloc, contents, start)
}

/// Reads the list that a section contains, as `read_known` does, but that an item of an unknown form is an error too.
pub fn read_list<T: Item>(
    alloc: Global,
    contents: &[u8],
    start: usize,
) -> Result<Vec<T::Value>, ModuleError>
    requires { start + length contents.now ≤ usize.MAX }
    // What is read is spelled so.
    ensures found { IfOk result (λ v. SpellsList T.Spells contents.now v.items) }
    // What is spelled so is read, unless memory runs out.
    ensures only { (xs : List T.Value) → SpellsList T.Spells contents.now xs
        → MatchResult result (λ v. v.items ≡ xs) (λ e. e.kind ≡ faults.Memory) }
    // What doesn't come from memory is the first fault.
    ensures fault { IfErr result (λ e.
        IsListFault T.Spells T.Fails start contents.now e.kind e.offset) }
{
    T::items_are_read();
    items_of::<T>(alloc, contents, start)
}
