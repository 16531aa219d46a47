//! The parts of a line's side, read from its end.
ghost use Rattle.std.specs.Prelude.{◌≡◌, ◌≤◌, ◌<◌, length, reverse, slice_get, Some};
ghost use Rattle.rewrite_rules.specs.declared.pattern.Part.{Part};
ghost use Rattle.rewrite_rules.specs.Table.{parts_for};
ghost use Rattle.body_rewrites.specs.Matching.{is_hole, is_slot, is_slot_number};

use rewrite_rules::{Number, Part, Side, Step};
use std::marker::Model;
use wasm_execution::IntegerType;

/// The parts that a side of a line has for a width, the last one first.
#[derive(Drop)]
pub(crate) struct Parts<'a> {
    side: &'a Side,
    width: IntegerType,
    count: usize,
}

impl<'a> Model for Parts<'a> {
    ghost use Rattle.std.specs.Prelude.{◌≡◌, List, length, reverse};
    ghost use Rattle.rewrite_rules.specs.declared.pattern.Part.{Part};
    ghost use Rattle.rewrite_rules.specs.Table.{parts_for};

    ghost Value = { List Part };

    ghost view = { λ p. reverse (parts_for p.width p.side.now) };

    ghost invariant = { λ p. (p.count ≡ length (parts_for p.width p.side.now))
        × (length p.side.now ≡ 7) };
}

/// How many steps stand before the end.
pub(crate) fn count_of(side: &[Step]) -> usize
    ensures { (width : IntegerType) → result ≡ length (parts_for width side.now) }
{
    for i in 0..side.len() {
        if let Step::End = side[i] {
            return i;
        }
    }
    side.len()
}

// Whether it is that with the index.
fn is_slot_number(number: Number, index: u8) -> bool
    ensures { result ≡ is_slot_number number index }
{
    match number {
        Number::Slot(slot) => slot == index,
        _ => false,
    }
}

impl<'a> Parts<'a> {
    /// The parts of the side for the width.
    pub(crate) fn new(side: &'a Side, width: IntegerType) -> Parts<'a>
        ensures { result ≡ reverse (parts_for width side.now) }
    {
        let count = count_of(side);
        Parts { side, width, count }
    }

    /// How many there are.
    pub(crate) fn len(&self) -> usize
        ensures count { result ≡ length self.now }
        ensures few { result ≤ 7 }
    {
        self.count
    }

    /// The part with that number, from the last one on.
    pub(crate) fn at(&self, number: usize) -> Part
        requires { number < length self.now }
        ensures { slice_get self.now number ≡ Some result }
    {
        match self.side[self.count - 1 - number].part(self.width) {
            Some(part) => part,
            None => unreachable!(),
        }
    }
    /// Whether it is the hole with the index. It makes no part.
    pub(crate) fn is_hole(&self, number: usize, index: u8) -> bool
        requires { number < length self.now }
        ensures { (part : Part) → slice_get self.now number ≡ Some part
            → result ≡ is_hole part index }
    {
        match self.side[self.count - 1 - number] {
            Step::Operand(hole) => hole == index,
            _ => false,
        }
    }

    /// Whether it is the constant whose number is that with the index. It makes no part.
    pub(crate) fn is_slot(&self, number: usize, index: u8) -> bool
        requires { number < length self.now }
        ensures { (part : Part) → slice_get self.now number ≡ Some part
            → result ≡ is_slot part index }
    {
        match self.side[self.count - 1 - number] {
            Step::Constant(number) => is_slot_number(number, index),
            _ => false,
        }
    }
}
