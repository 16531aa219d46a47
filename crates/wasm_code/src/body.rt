//! Bodies: operators one after another.
ghost use Rattle.std.specs.Prelude.{◌≡◌, ◌≤◌, true, ℕ, List, length, IfOk, IfErr, MatchResult, slice_range};
ghost use Rattle.wasm_code.specs.Body.{SpellsBody, SpellsCode, IsFault, IsCodeFault, IsFaultOf, are_read, SpellsAll, ends, kind_of, is_end};
ghost use Rattle.wasm_code.specs.declared.operator.Operator.{Operator};
ghost use Rattle.wasm_code.specs.declared.fault.ReadKind.TheVariants.{Memory};

use crate::fault::{Cause, ReadError, ReadKind};
use crate::operator::Operator;
use crate::parse::next_operator;
use std::alloc::Global;

/// An operator, and the offset of its first byte.
pub type OperatorAndByteOffset = (Operator, usize);

const _: () = prove!(size_of::<OperatorAndByteOffset>() <= 32);

fn kind(cause: Cause) -> ReadKind
    ensures { result ≡ kind_of cause }
{
    match cause {
        Cause::Truncated => ReadKind::Truncated,
        Cause::UnknownOpcode => ReadKind::UnknownOpcode,
        Cause::BadInteger => ReadKind::BadInteger,
        Cause::BadImmediate => ReadKind::BadImmediate,
    }
}

fn is_end_of(operator: &Operator) -> bool
    ensures { result ≡ is_end operator.now }
{
    matches!(operator, Operator::End)
}

/// The operators of a body, one after another: any, or known ones alone.
fn operators_of(
    alloc: Global,
    any: bool,
    bytes: &[u8],
    from: usize,
    to: usize,
) -> Result<Vec<OperatorAndByteOffset>, ReadError>
    requires order { from ≤ to }
    requires bounds { to ≤ length bytes.now }
    // What is read is spelled so.
    ensures found { IfOk result (λ v. SpellsCode from (slice_range bytes.now from to) v.items) }
    // Each operator is one that is to be read.
    ensures read { IfOk result (λ v. are_read any v.items ≡ true) }
    // What doesn't come from memory is the first fault.
    ensures fault { IfErr result
        (λ e. IsFaultOf any from to (slice_range bytes.now from to) e.kind e.offset) }
{
    let mut found = Vec::new(alloc);
    let mut rest = &bytes[from..to];
    let mut ended = false;
    while !rest.is_empty() {
        let offset = to - rest.len();
        match next_operator(any, rest) {
            Ok((operator, after)) => {
                ended = is_end_of(&operator);
                if found.push((operator, offset)).is_err() {
                    return Err(ReadError {
                        kind: ReadKind::Memory,
                        offset: from,
                    });
                }
                rest = after;
            }
            Err(cause) => return Err(ReadError {
                kind: kind(cause),
                offset,
            }),
        }
    }
    if ended {
        Ok(found)
    } else {
        Err(ReadError {
            kind: ReadKind::NoEnd,
            offset: to,
        })
    }
}

/// Reads the operators of the body `bytes[from..to]`, each with its offset from the start of `bytes`.
///
/// It accepts exactly the bytes that spell whole operators, one after another, of which the last is `end`
/// (WebAssembly Core Specification 3.0, Binary Format, Instructions). Operators are the instructions of the table and
/// the control operators of `Operator`: those of tail calls, exceptions, threads, typed references and garbage
/// collection are no operators here. Nesting and types aren't checked.
///
/// An error names the first fault from the left and where the operator at fault starts:
/// `Truncated` where the bytes end inside it, `UnknownOpcode` where no operator has its opcode, `BadInteger` where
/// a number has too many bytes or is out of range, `BadImmediate` where a whole immediate names no alignment, block
/// type, heap type or value type; `NoEnd` at `to` where all bytes are operators and the last one isn't `end`, or
/// there is none; `Memory` at `from` where no memory was left.
pub fn read_body(
    alloc: Global,
    bytes: &[u8],
    from: usize,
    to: usize,
) -> Result<Vec<OperatorAndByteOffset>, ReadError>
    requires order { from ≤ to }
    requires bounds { to ≤ length bytes.now }
    // What is read is spelled so.
    ensures found { IfOk result (λ v. SpellsBody from (slice_range bytes.now from to) v.items) }
    // What is spelled so is read, unless memory runs out.
    ensures only { (xs : List (Operator × ℕ)) → SpellsBody from (slice_range bytes.now from to) xs
        → MatchResult result (λ v. v.items ≡ xs) (λ e. e.kind ≡ Memory) }
    // What doesn't come from memory is the first fault.
    ensures fault { IfErr result
        (λ e. IsFault from to (slice_range bytes.now from to) e.kind e.offset) }
{
    operators_of(alloc, false, bytes, from, to)
}

/// Reads the operators of the body `bytes[from..to]` as `read_body` does, and besides those of tail calls, thrown exceptions,
/// typed references, garbage collection and atomics (WebAssembly Core Specification 3.0, Binary Format, Instructions; the
/// threads proposal): each of these is `Operator::Other`. A block, a loop or a conditional whose type `read_body` doesn't know
/// is one of `BlockType::Reference`.
///
/// An error is one of `read_body`'s. Behind the opcodes that `read_body` doesn't know, `BadImmediate` comes where a whole
/// immediate names no type, no kind of cast, no alignment, or a fence of another kind. Operators that catch exceptions
/// (`try_table`, and the legacy `try`, `catch`, `catch_all`, `delegate` and `rethrow`) are refused with `UnknownOpcode`.
pub fn read_code(
    alloc: Global,
    bytes: &[u8],
    from: usize,
    to: usize,
) -> Result<Vec<OperatorAndByteOffset>, ReadError>
    requires order { from ≤ to }
    requires bounds { to ≤ length bytes.now }
    // What is read is spelled so.
    ensures found { IfOk result (λ v. SpellsCode from (slice_range bytes.now from to) v.items) }
    // What is spelled so is read, unless memory runs out.
    ensures only { (xs : List (Operator × ℕ)) → SpellsCode from (slice_range bytes.now from to) xs
        → MatchResult result (λ v. v.items ≡ xs) (λ e. e.kind ≡ Memory) }
    // What doesn't come from memory is the first fault.
    ensures fault { IfErr result
        (λ e. IsCodeFault from to (slice_range bytes.now from to) e.kind e.offset) }
{
    operators_of(alloc, true, bytes, from, to)
}
