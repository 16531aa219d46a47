//! The trees of a body's operators, found in one pass: an operator's tree are the operators right before it that its operands
//! are, and their operands, and itself, where each leaves one value.
ghost use Rattle.std.specs.Prelude.{◌≡◌, ◌<◌, ◌+◌, ◌-◌, ◌^◌, ℕ, List, [], ◌∷◌, ◌++◌, length, take, IfOk, IfSome, IfNone, OnOk};
ghost use Rattle.wasm_code.specs.Instruction.{Instruction};
ghost use Rattle.wasm_code.specs.declared.operator.Operator.{Operator};
ghost use Rattle.wasm_execution.specs.Values.{Context, context_in};
ghost use Rattle.wasm_execution.specs.Row.{instruction_types};
ghost use Rattle.body_rewrites.specs.Trees.{one_type, IsTreeAt, AreTrees};
ghost use Rattle.body_rewrites.specs.Open.{start_of, behind_if, AreOpen, HasEffectsOf, HasInstruction, HasNoted, IsNextTree};

use rewrite_rules::{traps, writes};
use std::alloc::{AllocError, Global};
use wasm_code::{Instr, Operator, OperatorAndByteOffset};
use wasm_execution::{asks_world, instruction_types, operand_count};
use wasm_types::{ModuleInfo, PrimitiveTypeInfo};

/// An operator's tree: where it begins, the type of the value that it leaves, and whether its code may write, trap, or ask the
/// world.
#[derive(Clone, Copy, Debug, PartialEq, Eq)]
pub struct Tree {
    pub start: usize,
    pub gives: PrimitiveTypeInfo,
    pub writes: bool,
    pub traps: bool,
    pub asks: bool,
}

// Of the trees that end right before the next operator, one behind another: where each begins, and the type of its value; and the
// index behind the last operator so far that may write, that may trap, and that may ask the world, 0 where none does.
#[derive(Drop)]
struct Open {
    starts: Vec<usize>,
    types: Vec<PrimitiveTypeInfo>,
    written: usize,
    trapped: usize,
    asked: usize,
}

// The instruction at the index, where one stands there.
pub(crate) fn instr_at(operators: &[OperatorAndByteOffset], at: usize) -> Option<Instr>
    ensures some { IfSome result (λ i. HasInstruction operators.now at i) }
    ensures none { IfNone result ((i : Instruction) → ¬ (HasInstruction operators.now at i)) }
{
    match operators.get(at)?.0 {
        Operator::Instr(instr) => Some(instr),
        _ => None,
    }
}

// The start with that number, or else the other.
fn start_at(starts: &[usize], number: usize, other: usize) -> usize
    ensures { result ≡ start_of starts.now number other }
{
    starts.get(number).copied().unwrap_or(other)
}

// Behind this operator, where it does; else what was.
fn behind(does: bool, at: usize, before: usize) -> usize
    requires { at < 2 ^ 64 - 1 }
    ensures { result ≡ behind_if does at before }
{
    if does { at + 1 } else { before }
}

// The type of the one value that the instruction leaves on such operands.
fn value_type(
    info: &ModuleInfo<'_>,
    locals: &[PrimitiveTypeInfo],
    instr: &Instr,
    operands: &[PrimitiveTypeInfo],
) -> Option<PrimitiveTypeInfo>
    ensures { result ≡ one_type
        (instruction_types (context_in info.now locals.now) instr.now operands.now) }
{
    instruction_types(info, locals, instr, operands).flatten()
}

impl Open {
    // Before the first operator.
    fn new(alloc: Global) -> Open
        ensures { (context : Context) (operators : List (Operator × ℕ))
            → AreOpen context operators 0 result }
    {
        Open {
            starts: Vec::new(alloc),
            types: Vec::new(alloc),
            written: 0,
            trapped: 0,
            asked: 0,
        }
    }

    // No tree is left.
    fn clear(&mut self)
        ensures starts { self.new.starts.items ≡ [] }
        ensures types { self.new.types.items ≡ [] }
        ensures rest { HasEffectsOf self.old self.new }
    {
        self.starts.clear();
        self.types.clear();
    }

    // Notes what the instruction may do.
    fn note(&mut self, instr: &Instr, at: usize)
        requires { at < 2 ^ 64 - 1 }
        ensures { HasNoted instr.now at self.old self.new }
    {
        self.written = behind(writes(instr), at, self.written);
        self.trapped = behind(traps(instr), at, self.trapped);
        self.asked = behind(asks_world(instr), at, self.asked);
    }

    // Puts a tree in the place of its operands, the trees behind the first `below`.
    fn put(
        &mut self,
        below: usize,
        start: usize,
        gives: PrimitiveTypeInfo,
    ) -> Result<(), AllocError>
        ensures starts { OnOk result
            (self.new.starts.items ≡ take below self.old.starts.items ++ start ∷ []) }
        ensures types { OnOk result
            (self.new.types.items ≡ take below self.old.types.items ++ gives ∷ []) }
        ensures rest { OnOk result (HasEffectsOf self.old self.new) }
    {
        self.starts.truncate(below);
        self.types.truncate(below);
        self.starts.push(start)?;
        self.types.push(gives)?;
        Ok(())
    }

    // The tree of the instruction with the index `at`, where its operands are the last ones of these.
    fn tree(
        &self,
        locals: &[PrimitiveTypeInfo],
        info: &ModuleInfo<'_>,
        instr: &Instr,
        at: usize,
    ) -> Option<(usize, Tree)>
        requires { length self.now.types.items ≡ length self.now.starts.items }
        ensures { IsNextTree (context_in info.now locals.now) instr.now at self.now result }
    {
        let count = operand_count(info, instr);
        if count > self.starts.len() {
            return None;
        }
        let below = self.starts.len() - count;
        let Some(gives) = value_type(info, locals, instr, &self.types[below..]) else {
            return None;
        };
        let start = start_at(&self.starts, below, at);
        let tree = Tree {
            start,
            gives,
            writes: start < self.written,
            traps: start < self.trapped,
            asks: start < self.asked,
        };
        Some((below, tree))
    }

    // Reads the operator with the index `at`, the next one, and answers its tree, if it has one.
    fn next(
        &mut self,
        locals: &[PrimitiveTypeInfo],
        info: &ModuleInfo<'_>,
        operators: &[OperatorAndByteOffset],
        at: usize,
    ) -> Result<Option<Tree>, AllocError>
        requires inside { at < length operators.now }
        requires open { AreOpen (context_in info.now locals.now) operators.now at self.old }
        ensures open { IfOk result (λ _.
            AreOpen (context_in info.now locals.now) operators.now (at + 1) self.new) }
        ensures found { IfOk result (λ o.
            IsTreeAt (context_in info.now locals.now) operators.now at o) }
    {
        let Some(instr) = instr_at(operators, at) else {
            self.clear();
            return Ok(None);
        };
        self.note(&instr, at);
        let Some((below, tree)) = self.tree(locals, info, &instr, at) else {
            self.clear();
            return Ok(None);
        };
        self.put(below, tree.start, tree.gives)?;
        Ok(Some(tree))
    }
}

/// The tree of each operator of a body, in their order, or none where it has none: where an operand is missing, or comes from
/// before a delimiter, or stands below something else, where an operator in it leaves no value or several, or types don't fit.
/// `locals` are the types of the function's parameters and locals.
///
/// It takes time linear in the body, and one pass. The only error is that memory was refused.
pub fn trees_of(
    alloc: Global,
    locals: &[PrimitiveTypeInfo],
    info: &ModuleInfo<'_>,
    operators: &[OperatorAndByteOffset],
) -> Result<Vec<Option<Tree>>, AllocError>
    ensures { IfOk result (λ v. AreTrees (context_in info.now locals.now) operators.now v.items) }
{
    let mut open = Open::new(alloc);
    let mut trees = Vec::new(alloc);
    for at in 0..operators.len() {
        trees.push(open.next(locals, info, operators, at)?)?;
    }
    Ok(trees)
}
