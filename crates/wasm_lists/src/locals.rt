//! The locals of functions.
ghost use Rattle.std.specs.Prelude.{◌≡◌, ◌≤◌, ◌+◌, ◌-◌, ℕ, List, length, IfOk, IfErr, MatchResult, vec_len};
ghost use Rattle.wasm_types.specs.declared.types.PrimitiveTypeInfo.{PrimitiveTypeInfo};
ghost use Rattle.wasm_code.specs.Reader.{Gives};
ghost use Rattle.wasm_lists.specs.Locals.{SpellsLocals, IsLocalsFault};
ghost use Rattle.wasm_lists.specs.Reader.{locals_group_at, ReadsGroups, StopsGroups, left_of, group_error_at};
ghost use Rattle.wasm_sections.specs.declared.fault.ModuleFault.TheVariants.{Memory};

use crate::list::{Stop, error_of};
use crate::refusal::{Refusal, fault};
use crate::value_types::primitive_from;
use std::alloc::Global;
use wasm_code::{Cause, u32_of};
use wasm_sections::{ModuleError, ModuleFault};
use wasm_types::PrimitiveTypeInfo;

/// A function has at most so many parameters and locals.
const MOST_LOCALS: usize = 50_000;

/// The locals of a function.
#[derive(Debug, Drop)]
pub struct Locals {
    /// The types of the parameters, and of the locals behind them.
    pub types: Vec<PrimitiveTypeInfo>,
    /// The offset in the module of the first byte of the function's expression.
    pub expression: usize,
}

/// A group of locals: their number and their type, and what follows it.
#[tactic(auto, unfolding(crate::specs::Reader::locals_group_at))]
fn group_from(bytes: &[u8]) -> Result<((u32, PrimitiveTypeInfo), &[u8]), Cause>
    ensures { Gives (λ x. (x.0, x.1.now)) result (locals_group_at bytes.now) }
{
    let (number, rest) = u32_of(bytes)?;
    let (ty, rest) = primitive_from(rest)?;
    Ok(((number, ty), rest))
}

/// Why the groups weren't read to their end.
#[derive(Clone, Copy, Debug, PartialEq, Eq)]
pub enum GroupStop {
    /// A group was refused.
    Refused(Stop),
    /// With the group there are too many locals; so many bytes were left at it.
    TooMany(usize),
}

/// For how many locals there is room behind so many.
fn room_behind(taken: usize) -> usize
    requires { taken ≤ 50000 }
    ensures { result ≡ 50000 - taken }
{
    MOST_LOCALS - taken
}

/// The types with those of so many groups behind them, and what follows the groups.
fn with_groups(
    mut types: Vec<PrimitiveTypeInfo>,
    count: u32,
    bytes: &[u8],
) -> Result<(Vec<PrimitiveTypeInfo>, &[u8]), GroupStop>
    requires { vec_len types ≤ 50000 }
    ensures found { IfOk result (λ x. ReadsGroups types.items count bytes.now x.0.items x.1.now) }
    ensures within { IfOk result (λ x. length x.1.now ≤ length bytes.now) }
    ensures stops { IfErr result (λ s. StopsGroups types.items count bytes.now s) }
    ensures left { IfErr result (λ s. left_of s ≤ length bytes.now) }
{
    let mut rest = bytes;
    for _ in 0..count {
        let left = rest.len();
        let room = room_behind(types.len());
        match group_from(rest) {
            Ok(((number, ty), behind)) => {
                if number as usize > room {
                    return Err(GroupStop::TooMany(left));
                }
                if types.resize(types.len() + number as usize, ty).is_err() {
                    return Err(GroupStop::Refused(Stop {
                        refusal: Refusal::Memory,
                        left,
                    }));
                }
                rest = behind;
            }
            Err(cause) => return Err(GroupStop::Refused(Stop {
                refusal: Refusal::Bytes(cause),
                left,
            })),
        }
    }
    Ok((types, rest))
}

/// The error of a refusal in contents of that length, whose first byte has the offset `start`.
fn group_error(stop: GroupStop, length: usize, start: usize) -> ModuleError
    requires left { left_of stop ≤ length }
    requires fits { start + length ≤ usize.MAX }
    ensures { result ≡ group_error_at stop (start + (length - left_of stop)) start }
{
    match stop {
        GroupStop::Refused(stop) => error_of(stop, length, start),
        GroupStop::TooMany(left) => ModuleError {
            kind: ModuleFault::TooManyLocals,
            offset: start + (length - left),
        },
    }
}

/// The locals of a function, as `read_locals` says.
fn locals_of(
    alloc: Global,
    params: &[PrimitiveTypeInfo],
    contents: &[u8],
    start: usize,
) -> Result<Locals, ModuleError>
    requires { start + length contents.now ≤ usize.MAX }
    ensures found { IfOk result (λ l.
        SpellsLocals params.now start contents.now l.types.items l.expression) }
    ensures fault { IfErr result (λ e.
        IsLocalsFault params.now start contents.now e.kind e.offset) }
{
    if params.len() > MOST_LOCALS {
        return Err(ModuleError {
            kind: ModuleFault::TooManyLocals,
            offset: start,
        });
    }
    let (count, rest) = match u32_of(contents) {
        Ok(counted) => counted,
        Err(cause) => return Err(ModuleError {
            kind: fault(cause),
            offset: start,
        }),
    };
    let Ok(types) = Vec::from_slice(alloc, params) else {
        return Err(ModuleError {
            kind: ModuleFault::Memory,
            offset: start,
        });
    };
    match with_groups(types, count, rest) {
        Ok((types, behind)) => Ok(Locals {
            types,
            expression: start + (contents.len() - behind.len()),
        }),
        Err(stop) => Err(group_error(stop, contents.len(), start)),
    }
}

/// Reads the types of a function's parameters and locals. `contents` are the bytes of its entry in the code section behind the
/// entry's size, whose first byte has the offset `start` in the module (WebAssembly Core Specification 3.0, Binary Format,
/// Modules, Code Section); `params` are the types of its parameters.
///
/// A list of groups begins them, each a number of locals and their type, and the expression follows, which isn't looked at. Value
/// types are those of `TypeGroups`.
///
/// An error names the first fault from the left and where the group at fault starts, or `start` where the number of the groups
/// is at fault: `Truncated` where the contents end inside it, `BadInteger` where a number has too many bytes or doesn't fit,
/// `UnknownForm` where no value type that is known here begins, `TooManyLocals` where with this group there are more than 50,000
/// parameters and locals; that at `start` where the parameters alone are more; `Memory` at `start` where no memory was left.
pub fn read_locals(
    alloc: Global,
    params: &[PrimitiveTypeInfo],
    contents: &[u8],
    start: usize,
) -> Result<Locals, ModuleError>
    requires { start + length contents.now ≤ usize.MAX }
    // What is read is spelled so.
    ensures found { IfOk result (λ l.
        SpellsLocals params.now start contents.now l.types.items l.expression) }
    // What is spelled so is read, unless memory runs out.
    ensures only { (types : List PrimitiveTypeInfo) (expression : ℕ)
        → SpellsLocals params.now start contents.now types expression
        → MatchResult result (λ l. (l.types.items ≡ types) × (l.expression ≡ expression))
        (λ e. e.kind ≡ Memory) }
    // What doesn't come from memory is the first fault.
    ensures fault { IfErr result (λ e.
        IsLocalsFault params.now start contents.now e.kind e.offset) }
{
    locals_of(alloc, params, contents, start)
}
