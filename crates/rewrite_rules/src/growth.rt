//! What rows do to the number of instructions.
ghost use Rattle.std.specs.Prelude.{◌≡◌, ◌<◌, ◌≤◌, Some, None, IfSome, IfNone, length, option_map};
ghost use Rattle.std.specs.List.{remove};
ghost use Rattle.rewrite_rules.specs.Growth.{without, left_over, growth_by};
ghost use Rattle.rewrite_rules.specs.Growing.{own_steps, shown, own_growth, GrowsAs};

use crate::access::access_at;
use crate::holes::holes_of;
use crate::laws::holes_are_told;
use crate::table::{Own, Row, Side, Step, Widths};
use arrayvec::ArrayVec;

/// What a rewrite does to the number of instructions, wherever it is made.
#[derive(Clone, Copy, Debug, PartialEq, Eq)]
pub enum Growth {
    /// There are fewer behind it.
    Shrinks,
    /// There are as many.
    Keeps,
    /// Neither can be said: there may be more.
    Grows,
}

// How many instructions a side has besides what stands in its holes.
fn own_size(side: &Side) -> usize
    ensures size { result ≡ own_steps side.now }
    ensures few { result ≤ 7 }
{
    let mut count = 0;
    for i in 0..side.len() {
        match side[i] {
            Step::Operand(_) => {}
            Step::End => return count,
            _ => count += 1,
        }
    }
    count
}

// Where the list has the hole first; none where it doesn't have it.
fn place_of(list: &[u8], hole: u8) -> Option<usize>
    ensures some { IfSome result (λ place. without hole list.now ≡ Some (remove list.now place)) }
    ensures within { IfSome result (λ place. place < length list.now) }
    ensures none { IfNone result (without hole list.now ≡ None) }
{
    for i in 0..list.len() {
        if list[i] == hole {
            return Some(i);
        }
    }
    None
}

// What is left of the holes where others are taken away, one by one; none where one of these isn't there.
fn left_over(taken: &[u8], holes: ArrayVec<u8, 7>) -> Option<ArrayVec<u8, 7>>
    ensures { option_map (λ rest. rest.items) result ≡ left_over taken.now holes.items }
{
    let mut rest = holes;
    for i in 0..taken.len() {
        let place = place_of(&rest, taken[i])?;
        rest.remove(place);
    }
    Some(rest)
}

// What a row does, by the sizes of its sides, and the holes that its right side leaves out.
fn growth_by(left: usize, right: usize, rest: Option<ArrayVec<u8, 7>>) -> Growth
    requires { left ≤ 7 }
    ensures { shown result ≡ growth_by left right (option_map (λ rest. rest.items) rest) }
{
    let Some(rest) = rest else {
        return Growth::Grows;
    };
    if right < left + rest.len() {
        return Growth::Shrinks;
    }
    if right == left && rest.is_empty() {
        return Growth::Keeps;
    }
    Growth::Grows
}

impl Own {
    /// What the rule does to the number of instructions.
    pub fn growth(self) -> Growth
        ensures { result ≡ own_growth self }
    {
        match self {
            Own::Unfold => Growth::Grows,
            Own::ThroughGlobal => Growth::Grows,
            Own::WithNop => Growth::Grows,
            Own::Fold => Growth::Shrinks,
            Own::Forget => Growth::Shrinks,
            Own::TeeToSet => Growth::Grows,
            Own::DropNop => Growth::Shrinks,
            Own::SetToTee => Growth::Shrinks,
            Own::Access(number) => match access_at(number) {
                Some(access) => access.growth(),
                None => Growth::Grows,
            },
            Own::Wrap(_) => Growth::Grows,
            Own::Unwrap(_) => Growth::Shrinks,
            Own::SelectToIf => Growth::Grows,
            Own::IfToSelect => Growth::Shrinks,
            Own::TestCondition => Growth::Grows,
            Own::DropConditionTest => Growth::Shrinks,
            Own::DoubleCondition => Growth::Grows,
            Own::DropDoubleCondition => Growth::Shrinks,
            Own::PutDead => Growth::Grows,
            Own::DropDead => Growth::Shrinks,
            Own::BoundIndex => Growth::Grows,
            Own::DropIndexBound => Growth::Shrinks,
            Own::BrIfToIf => Growth::Grows,
            Own::IfToBrIf => Growth::Shrinks,
        }
    }
}

impl Row {
    /// What the row's rewrites do to the number of instructions.
    pub fn growth(&self) -> Growth
        ensures { GrowsAs self.now result }
    {
        holes_are_told();
        if let Widths::Own(own) = self.widths {
            return own.growth();
        }
        let left = own_size(&self.left);
        let right = own_size(&self.right);
        let rest = left_over(&holes_of(&self.right), holes_of(&self.left));
        growth_by(left, right, rest)
    }
}
