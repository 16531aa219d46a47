//! The holes of a side.
ghost use Rattle.std.specs.Prelude.{◌≡◌};
ghost use Rattle.rewrite_rules.specs.Holes.{holes_for};

use crate::table::{Side, Step};
use arrayvec::ArrayVec;

/// The holes of a side, in the order in which what stands in them runs.
pub fn holes_of(side: &Side) -> ArrayVec<u8, 7>
    ensures { result.items ≡ holes_for side.now }
{
    let mut list = ArrayVec::new();
    for i in 0..side.len() {
        match side[i] {
            Step::Operand(index) => list.push(index),
            Step::End => return list,
            _ => {}
        }
    }
    list
}
