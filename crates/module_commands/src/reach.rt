//! How much of a module rules reach.
ghost use Rattle.std.specs.Prelude.{◌≡◌, ◌↔◌, ◌+◌, ◌<◌, length, IfOk, IfErr, IsTrue};
ghost use Rattle.wasm_types.specs.declared.types.PrimitiveTypeInfo.{PrimitiveTypeInfo};
ghost use Rattle.wasm_execution.specs.Values.{context_in};
ghost use Rattle.body_rewrites.specs.Reached.{OperatorIsMarked};
ghost use Rattle.module_commands.specs.Reach.{AreCounted, AreCountedAt, AreOfBody, AreOfEntry, CountsFamilyAt, EndsBlock, HoldsReached, IsOfFamily, IsReach, ToldReach};
ghost use Rattle.module_commands.specs.Reach.{no_part, nothing, number_of, part_in_64_bits, part_of, part_sum, reach_in_64_bits, sum_of};
ghost use Rattle.module_commands.specs.declared.failure.Failure.TheVariants.{Memory};
ghost use Rattle.wasm_module.specs.Module.{IsModule};

use crate::blocks::{block_ending, delimits};
use crate::failure::Failure;
use crate::families::{Family, family_of, same_family};
use body_rewrites::{Body, blocks_of, reached_operators, trees_of};
use module_rewrites::{Scope, read_function};
use std::alloc::Global;
use wasm_code::OperatorAndByteOffset;
use wasm_module::Layout;
use wasm_types::{ModuleInfo, PrimitiveTypeInfo};

/// How many there are of something, and how many of those rules reach.
#[derive(Clone, Copy, Debug, PartialEq, Eq)]
pub struct Part {
    pub all: usize,
    pub within: usize,
}

/// How much of a module rules reach, of what its functions have that can be read.
#[derive(Clone, Copy, Debug, PartialEq, Eq)]
pub struct Reach {
    /// Operators, and those that a rule rewrites.
    pub operators: Part,
    /// Blocks, and those that have such an operator.
    pub blocks: Part,
    /// Instructions whose operands and results are i32 or i64 alone: constants, operators, comparisons and conversions; and those
    /// that are such operators. The families below are counted the same way.
    pub integers: Part,
    /// Instructions with an f32 or f64 among their operands and results: constants, operators, comparisons and conversions.
    pub floats: Part,
    /// Instructions on vectors that neither load nor store.
    pub vectors: Part,
    /// Loads and stores, of any type.
    pub accesses: Part,
}

// What a truth value counts.
fn number_of(counts: bool) -> usize
    ensures { result ≡ number_of counts }
{
    if counts { 1 } else { 0 }
}

// One where it is there, and one within where it is reached too.
fn part_of(there: bool, reached: bool) -> Part
    ensures { result ≡ part_of there reached }
{
    if there {
        Part {
            all: 1,
            within: number_of(reached),
        }
    } else {
        no_part()
    }
}

impl Part {
    // Both together.
    fn plus(self, other: Part) -> Part
        ensures { result ≡ part_in_64_bits (part_sum self other) }
    {
        Part {
            all: self.all.saturating_add(other.all),
            within: self.within.saturating_add(other.within),
        }
    }
}

impl Reach {
    // Both together.
    fn plus(self, other: Reach) -> Reach
        ensures { result ≡ reach_in_64_bits (sum_of self other) }
    {
        Reach {
            operators: self.operators.plus(other.operators),
            blocks: self.blocks.plus(other.blocks),
            integers: self.integers.plus(other.integers),
            floats: self.floats.plus(other.floats),
            vectors: self.vectors.plus(other.vectors),
            accesses: self.accesses.plus(other.accesses),
        }
    }
}

// Nothing of one kind is counted.
fn no_part() -> Part
    ensures { result ≡ no_part }
{
    Part { all: 0, within: 0 }
}

// Nothing is counted.
fn nothing() -> Reach
    ensures { result ≡ nothing }
{
    Reach {
        operators: no_part(),
        blocks: no_part(),
        integers: no_part(),
        floats: no_part(),
        vectors: no_part(),
        accesses: no_part(),
    }
}

// Whether an instruction of the family stands there.
fn is_of_family(operators: &[OperatorAndByteOffset], at: usize, family: Family) -> bool
    requires { at < length operators.now }
    ensures { IsTrue result ↔ IsOfFamily family operators.now at }
{
    same_family(family_of(&operators[at].0), family)
}

// Whether a block ends with the operator there.
fn ends_block(operators: &[OperatorAndByteOffset], at: usize) -> bool
    requires { at < length operators.now }
    ensures { IsTrue result ↔ EndsBlock operators.now at }
{
    block_ending(operators, at).is_some()
}

// Whether the operator there is marked.
fn is_marked(marks: &[bool], at: usize) -> bool
    requires { at < length marks.now }
    ensures { IsTrue result ↔ OperatorIsMarked marks.now at }
{
    marks[at]
}

// Whether a marked operator stands there, or before it with no delimiter from it on, and no delimiter stands there. `held`: whether
// one stands before it so.
fn holds_marked(operators: &[OperatorAndByteOffset], marks: &[bool], at: usize, held: bool) -> bool
    requires inside { at < length operators.now }
    requires count { length marks.now ≡ length operators.now }
    requires held { IsTrue held ↔ HoldsReached (OperatorIsMarked marks.now) operators.now at }
    ensures { IsTrue result ↔ HoldsReached (OperatorIsMarked marks.now) operators.now (at + 1) }
{
    let stopped = delimits(operators, at);
    let marked = is_marked(marks, at);
    !stopped && (held || marked)
}

// What the operator there counts of the family.
fn family_at(operators: &[OperatorAndByteOffset], marks: &[bool], at: usize, family: Family) -> Part
    requires inside { at < length operators.now }
    requires count { length marks.now ≡ length operators.now }
    ensures { CountsFamilyAt (OperatorIsMarked marks.now) operators.now at family result }
{
    let there = is_of_family(operators, at, family);
    let marked = is_marked(marks, at);
    part_of(there, marked)
}

// What the operator there counts. `held`: whether it is marked, or one before it with no delimiter from that on, and it is none.
fn reach_at(operators: &[OperatorAndByteOffset], marks: &[bool], at: usize, held: bool) -> Reach
    requires inside { at < length operators.now }
    requires count { length marks.now ≡ length operators.now }
    requires held { IsTrue held ↔ HoldsReached (OperatorIsMarked marks.now) operators.now (at + 1) }
    ensures { AreCountedAt (OperatorIsMarked marks.now) operators.now at result }
{
    let marked = is_marked(marks, at);
    let ends = ends_block(operators, at);
    Reach {
        operators: part_of(true, marked),
        blocks: part_of(ends, held),
        integers: family_at(operators, marks, at, Family::Integers),
        floats: family_at(operators, marks, at, Family::Floats),
        vectors: family_at(operators, marks, at, Family::Vectors),
        accesses: family_at(operators, marks, at, Family::Accesses),
    }
}

// What the operators count of which some are marked.
fn reach_of_marked(operators: &[OperatorAndByteOffset], marks: &[bool]) -> Reach
    requires { length marks.now ≡ length operators.now }
    ensures { ToldReach (AreCounted (OperatorIsMarked marks.now) operators.now
        (length operators.now)) result }
{
    let mut reach = nothing();
    let mut held = false;
    for at in 0..operators.len() {
        held = holds_marked(operators, marks, at, held);
        reach = reach.plus(reach_at(operators, marks, at, held));
    }
    reach
}

// How much of a body the rules reach.
fn reach_of_body(
    alloc: Global,
    locals: &[PrimitiveTypeInfo],
    info: &ModuleInfo<'_>,
    scope: &Scope<'_>,
    operators: &[OperatorAndByteOffset],
) -> Result<Reach, Failure>
    ensures reach { IfOk result (ToldReach (AreOfBody (context_in info.now locals.now)
        scope.now operators.now)) }
    ensures fails { IfErr result (λ e. e ≡ Memory) }
{
    let trees = trees_of(alloc, locals, info, operators)?;
    let blocks = blocks_of(alloc, operators)?;
    let body = Body {
        info,
        locals,
        operators,
        trees: &trees,
        blocks: &blocks,
    };
    let marks = reached_operators(alloc, &body, scope.rules(), scope.wanted())?;
    Ok(reach_of_marked(operators, &marks))
}

// How much of the n-th of the module's own functions the rules reach; nothing where that can't be read.
fn reach_of_function(
    alloc: Global,
    bytes: &[u8],
    info: &ModuleInfo<'_>,
    layout: &Layout,
    n: usize,
    scope: &Scope<'_>,
) -> Result<Reach, Failure>
    requires module { IsModule bytes.now info.now layout.now }
    requires inside { n < length layout.now.entries }
    ensures reach { IfOk result (ToldReach
        (AreOfEntry scope.now bytes.now info.now layout.now n)) }
    ensures fails { IfErr result (λ e. e ≡ Memory) }
{
    let function = match read_function(alloc, bytes, info, layout, n) {
        Ok(function) => function,
        Err(e) => {
            if e.is_memory() {
                return Err(Failure::Memory);
            }
            return Ok(nothing());
        }
    };
    reach_of_body(alloc, &function.locals, info, scope, &function.operators)
}

/// How much of a module the rules reach: of the operators, the blocks and the instructions of each family in all its functions that
/// can be read, how many there are, and how many one of the rules rewrites, or hold an operator that one rewrites; where rewrites are to
/// make the module smaller, those that leave no more operators. A function that can't be read counts nothing. A number that 64 bits
/// don't hold is the greatest that they hold.
///
/// It takes time linear in the module, but as `reached_operators` says. The only error is `Memory`: an allocation was refused.
pub fn reach_of(
    alloc: Global,
    bytes: &[u8],
    info: &ModuleInfo<'_>,
    layout: &Layout,
    scope: &Scope<'_>,
) -> Result<Reach, Failure>
    requires { IsModule bytes.now info.now layout.now }
    ensures reach { IfOk result (IsReach scope.now bytes.now info.now layout.now) }
    ensures fails { IfErr result (λ e. e ≡ Memory) }
{
    let mut reach = nothing();
    for n in 0..layout.entries.len() {
        let own = reach_of_function(alloc, bytes, info, layout, n, scope)?;
        reach = reach.plus(own);
    }
    Ok(reach)
}
