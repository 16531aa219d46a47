//! Variables that words name.
ghost use Rattle.std.specs.Prelude.{◌≡◌, ◌+◌, ◌*◌, ◌<◌, ◌≤◌, ◌^◌, ℕ, Some, None, count_by, IfNone, IfSome};
ghost use Rattle.wasm_execution.specs.Values.{same_type};
ghost use Rattle.body_changes.specs.Drawing.{variable_rank};
ghost use Rattle.body_changes.specs.Goals.{context_for, indexed, GivesFromNothing, HasVariable};

use crate::constants::instr;
use crate::source::Scope;
use wasm_code::{Imm, Instr};
use wasm_types::{ModuleInfo, PrimitiveTypeInfo};

fn same_type(t: PrimitiveTypeInfo, u: PrimitiveTypeInfo) -> bool
    ensures { result ≡ same_type t u }
{
    t == u
}

// How many of the types are that one.
fn count_of(types: &[PrimitiveTypeInfo], wanted: PrimitiveTypeInfo) -> usize
    ensures { result ≡ count_by (same_type wanted) types.now }
{
    let mut count = 0;
    for i in 0..types.len() {
        if same_type(wanted, types[i]) {
            count += 1;
        }
    }
    count
}

// The index of the one with that number among the variables of the type.
fn place_of(types: &[PrimitiveTypeInfo], wanted: PrimitiveTypeInfo, number: usize) -> Option<usize>
    ensures some { IfSome result (HasVariable types.now wanted) }
    ensures only { (n : ℕ) → HasVariable types.now wanted n
        → variable_rank types.now wanted n ≡ number → result ≡ Some n }
{
    let mut before = 0;
    for i in 0..types.len() {
        if same_type(wanted, types[i]) {
            if before == number {
                return Some(i);
            }
            before += 1;
        }
    }
    None
}

// The place as an index, where it is below 2 ^ 32.
fn index_of(place: usize) -> Option<u32>
    ensures some { IfSome result (λ n. n ≡ place) }
    ensures none { IfNone result (2 ^ 32 ≤ place) }
{
    if place < 0x1_0000_0000 {
        Some(place as u32)
    } else {
        None
    }
}

// The index of a variable of the type, which the number names.
fn variable_of(types: &[PrimitiveTypeInfo], wanted: PrimitiveTypeInfo, number: u64) -> Option<u32>
    ensures some { IfSome result (HasVariable types.now wanted) }
    ensures only { (n : ℕ) → n < 2 ^ 32 → HasVariable types.now wanted n
        → variable_rank types.now wanted n ≡ number → result ≡ Some n }
{
    let count = count_of(types, wanted);
    if count == 0 {
        return None;
    }
    match place_of(types, wanted, (number % count as u64) as usize) {
        Some(place) => index_of(place),
        None => None,
    }
}

// The value of a local of the type, which the number names.
fn local_of(scope: &Scope<'_>, wanted: PrimitiveTypeInfo, number: u64) -> Option<Instr>
    ensures some { IfSome result (GivesFromNothing (context_for scope.now) wanted) }
    ensures only { (n : ℕ) → n < 2 ^ 32 → HasVariable scope.now.locals.now wanted n
        → variable_rank scope.now.locals.now wanted n ≡ number → result ≡ Some (indexed 4 n) }
{
    match variable_of(scope.locals, wanted, number) {
        Some(index) => Some(instr(4, Imm::Index(index))),
        None => None,
    }
}

/// The types of the module's globals.
pub(crate) fn globals_of<'a>(info: &'a ModuleInfo<'_>) -> &'a [PrimitiveTypeInfo]
    ensures { result.now ≡ info.now.globals }
{
    &info.global_types
}

// The value of a global of the type, which the number names.
fn global_of(scope: &Scope<'_>, wanted: PrimitiveTypeInfo, number: u64) -> Option<Instr>
    ensures some { IfSome result (GivesFromNothing (context_for scope.now) wanted) }
    ensures only { (n : ℕ) → n < 2 ^ 32 → HasVariable scope.now.info.now.globals wanted n
        → variable_rank scope.now.info.now.globals wanted n ≡ number → result ≡ Some (indexed 7 n) }
{
    match variable_of(globals_of(scope.info), wanted, number) {
        Some(index) => Some(instr(7, Imm::Index(index))),
        None => None,
    }
}

/// The value of a variable of the type, by the word: a local, a global, or none.
pub(crate) fn variable(scope: &Scope<'_>, wanted: PrimitiveTypeInfo, choice: u64) -> Option<Instr>
    ensures some { IfSome result (GivesFromNothing (context_for scope.now) wanted) }
    ensures local { (n : ℕ) → n < 2 ^ 32 → HasVariable scope.now.locals.now wanted n
        → choice ≡ 8 * variable_rank scope.now.locals.now wanted n + 1
        → result ≡ Some (indexed 4 n) }
    ensures global { (n : ℕ) → n < 2 ^ 32 → HasVariable scope.now.info.now.globals wanted n
        → choice ≡ 8 * variable_rank scope.now.info.now.globals wanted n + 2
        → result ≡ Some (indexed 7 n) }
    ensures none { choice ≡ 32 → result ≡ None }
{
    match choice % 4 {
        0 => None,
        2 => global_of(scope, wanted, choice / 8),
        _ => local_of(scope, wanted, choice / 8),
    }
}
