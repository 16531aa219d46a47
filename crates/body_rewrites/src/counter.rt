//! The lines of the table, laid out for counting what they make of the operators of a body.
ghost use Rattle.std.specs.Prelude.{◌≡◌, ◌++◌, ◌<◌, ◌||◌, [], length, option_to_list, slice_get, IfOk, IfSome, IfNone, OnOk};
ghost use Rattle.std.specs.List.{filter};
ghost use Rattle.wasm_types.specs.declared.types.PrimitiveTypeInfo.TheVariants as PrimitiveTypeInfo;
ghost use Rattle.body_rewrites.specs.Listing.{AreRules};
ghost use Rattle.body_rewrites.specs.Asking.{all_asked, candidates, is_alone, IsUsed};
ghost use Rattle.body_rewrites.specs.Counting.{sample, alone_slot, alone_slots, AreUsed};

use crate::alone::takes;
use crate::asked::{Asked, Form};
use crate::counts::slot_of;
use crate::growth::Growth;
use crate::layout::lay_out;
use crate::roots::class_at;
use crate::trees::Tree;
use rewrite_rules::rules_of_rows;
use std::alloc::{AllocError, Global};
use std::marker::Model;
use wasm_code::OperatorAndByteOffset;
use wasm_types::PrimitiveTypeInfo;

/// The lines of the table, laid out for counting what they make of the operators of a body.
#[derive(Drop)]
pub(crate) struct Counter {
    // For each row the number of its rule.
    rules: Vec<u16>,
    // The classes of the body's instructions.
    used: Vec<bool>,
    // Whether what runs the body's module is exact.
    exact: bool,
    // For each of these the lines that may apply where such an instruction stands, but those of an operand alone.
    lists: Vec<Vec<Asked>>,
    // The places of the counts of what the lines of an operand alone make of a tree, by its type, and by whether it writes or asks.
    calm_i32: Vec<usize>,
    busy_i32: Vec<usize>,
    calm_i64: Vec<usize>,
    busy_i64: Vec<usize>,
}

impl Model for Counter {
    ghost use Rattle.std.specs.Prelude.{◌≡◌, true, false, length};
    ghost use Rattle.wasm_types.specs.declared.types.PrimitiveTypeInfo.TheVariants.{I32, I64};
    ghost use Rattle.body_rewrites.specs.Listing.{AreRules};
    ghost use Rattle.body_rewrites.specs.Asking.{all_asked, AreLists};
    ghost use Rattle.body_rewrites.specs.Counting.{sample, alone_slots, Laying};

    ghost Value = { Laying };

    ghost view = { λ c. record { used = c.used.items; exact = c.exact } };

    ghost invariant = { λ c. AreRules c.rules.items
        × (length c.used.items ≡ 447) × AreLists c.exact c.used.items all_asked c.lists.items
        × (c.calm_i32.items ≡ alone_slots (sample I32 false) all_asked)
        × (c.busy_i32.items ≡ alone_slots (sample I32 true) all_asked)
        × (c.calm_i64.items ≡ alone_slots (sample I64 false) all_asked)
        × (c.busy_i64.items ≡ alone_slots (sample I64 true) all_asked) };
}

// The classes of the instructions of a body, marked.
fn used_classes(alloc: Global, operators: &[OperatorAndByteOffset]) -> Result<Vec<bool>, AllocError>
    ensures { IfOk result (λ used. AreUsed operators.now used.items) }
{
    let mut used = vec![in alloc; false; 447]?;
    mark_classes(operators, &mut used);
    Ok(used)
}

// Marks the classes of the instructions.
fn mark_classes(operators: &[OperatorAndByteOffset], used: &mut [bool])
    requires { length used.old ≡ 447 }
    ensures { AreUsed operators.now used.new }
{
    for at in 0..operators.len() {
        used[class_at(operators, at)] = true;
    }
}

// A tree of the type that writes, or does nothing but leave its value.
fn sample(gives: PrimitiveTypeInfo, writes: bool) -> Tree
    ensures { result ≡ sample gives writes }
{
    Tree {
        start: 0,
        gives,
        writes,
        traps: false,
        asks: false,
    }
}

// The place of the count for what a line of an operand alone makes of such a tree.
fn alone_slot(rules: &[u16], asked: &Asked, tree: Tree) -> Option<usize>
    requires { AreRules rules.now }
    ensures { result ≡ alone_slot tree asked.now }
{
    let Form::Alone(doubles) = asked.form else {
        return None;
    };
    if !takes(asked.line.width, doubles, tree) {
        return None;
    }
    match rules.get(asked.number).copied() {
        Some(number) => Some(slot_of(number, Growth::Grows)),
        None => None,
    }
}

// Adds it, where there is one.
fn add_slot(
    rules: &[u16],
    asked: &Asked,
    tree: Tree,
    list: &mut Vec<usize>,
) -> Result<(), AllocError>
    requires { AreRules rules.now }
    ensures { OnOk result (list.new.items
        ≡ list.old.items ++ option_to_list (alone_slot tree asked.now)) }
{
    match alone_slot(rules, asked, tree) {
        Some(slot) => {
            list.push(slot)?;
            Ok(())
        }
        None => Ok(()),
    }
}

// The places of the counts for what lines of an operand alone make of such a tree; `lines` are those lines.
fn alone_slots(
    alloc: Global,
    rules: &[u16],
    lines: &[Asked],
    tree: Tree,
) -> Result<Vec<usize>, AllocError>
    requires rules { AreRules rules.now }
    requires lines { lines.now ≡ filter is_alone all_asked }
    ensures { IfOk result (λ list. list.items ≡ alone_slots tree all_asked) }
{
    let mut list = Vec::new(alloc);
    for i in 0..lines.len() {
        add_slot(rules, &lines[i], tree, &mut list)?;
    }
    Ok(list)
}

// The list with the number. Condition: there is one.
fn list_at(lists: &[Vec<Asked>], number: usize) -> &[Asked]
    requires { number < length lists.now }
    ensures { IfSome (slice_get lists.now number) (λ list. result.now ≡ list.items) }
{
    lists[number].as_slice()
}

// Whether the tree writes, or asks the world.
fn is_busy(tree: Tree) -> bool
    ensures { result ≡ (tree.writes || tree.asks) }
{
    tree.writes || tree.asks
}

impl Counter {
    /// The lines, laid out for a body, what runs whose module is exact or not. The only error is that memory was refused.
    pub(crate) fn new(
        alloc: Global,
        operators: &[OperatorAndByteOffset],
        exact: bool,
    ) -> Result<Counter, AllocError>
        ensures used { IfOk result (λ counter. AreUsed operators.now counter.used) }
        ensures exact { IfOk result (λ counter. counter.exact ≡ exact) }
    {
        let rules = rules_of_rows(alloc)?;
        let used = used_classes(alloc, operators)?;
        let (lists, lone) = lay_out(alloc, exact, used.as_slice())?;
        let alone = lone.as_slice();
        let rows = rules.as_slice();
        let calm_i32 = alone_slots(alloc, rows, alone, sample(PrimitiveTypeInfo::I32, false))?;
        let busy_i32 = alone_slots(alloc, rows, alone, sample(PrimitiveTypeInfo::I32, true))?;
        let calm_i64 = alone_slots(alloc, rows, alone, sample(PrimitiveTypeInfo::I64, false))?;
        let busy_i64 = alone_slots(alloc, rows, alone, sample(PrimitiveTypeInfo::I64, true))?;
        Ok(Counter {
            rules,
            used,
            exact,
            lists,
            calm_i32,
            busy_i32,
            calm_i64,
            busy_i64,
        })
    }

    /// For each row the number of its rule.
    pub(crate) fn rules(&self) -> &[u16]
        ensures { AreRules result.now }
    {
        self.rules.as_slice()
    }

    /// The lines that may apply where an instruction of the class stands, but those of an operand alone, and those on exact rows where
    /// what runs the module isn't exact.
    pub(crate) fn candidates(&self, class: usize) -> &[Asked]
        requires { IsUsed self.now.used class }
        ensures { result.now ≡ candidates self.now.exact class }
    {
        list_at(self.lists.as_slice(), class)
    }

    // The places of the counts for what lines of an operand alone make of trees of i32, which write or ask the world, or don't.
    fn i32_slots(&self, busy: bool) -> &[usize]
        ensures { result.now ≡ alone_slots (sample PrimitiveTypeInfo.I32 busy) all_asked }
    {
        if busy {
            self.busy_i32.as_slice()
        } else {
            self.calm_i32.as_slice()
        }
    }

    // The same of i64.
    fn i64_slots(&self, busy: bool) -> &[usize]
        ensures { result.now ≡ alone_slots (sample PrimitiveTypeInfo.I64 busy) all_asked }
    {
        if busy {
            self.busy_i64.as_slice()
        } else {
            self.calm_i64.as_slice()
        }
    }

    /// The places of the counts for what the lines of an operand alone make of the tree; none where they make nothing.
    pub(crate) fn slots(&self, tree: Tree) -> Option<&[usize]>
        ensures some { IfSome result (λ slots. slots.now ≡ alone_slots tree all_asked) }
        ensures none { IfNone result (alone_slots tree all_asked ≡ []) }
    {
        match tree.gives {
            PrimitiveTypeInfo::I32 => Some(self.i32_slots(is_busy(tree))),
            PrimitiveTypeInfo::I64 => Some(self.i64_slots(is_busy(tree))),
            _ => None,
        }
    }
}
