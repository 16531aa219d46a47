//! Whether a row applies to what stands in its holes.
ghost use Rattle.std.specs.Prelude.{◌≡◌, ◌&&◌, ◌||◌, not};
ghost use Rattle.rewrite_rules.specs.Numbers.{constant_at};
ghost use Rattle.rewrite_rules.specs.Line.{all_hold};
ghost use Rattle.rewrite_rules.specs.Table.{conditions_for, has_exact, needs_exact};
ghost use Rattle.rewrite_rules.specs.Applying.{IsFormed, IsTold};

use crate::holes::holes_of;
use crate::laws::{holes_are_told, types_are_told};
use crate::order::{Effects, may_move};
use crate::standing::TableRow;
use crate::table::{Side, Step};
use wasm_execution::IntegerType;
use wasm_types::PrimitiveTypeInfo;

/// What is known of what stands in a row's left side.
#[derive(Clone, Copy)]
pub struct Found<'a> {
    /// For each hole the type of the value in it, or none where the row has no such hole.
    pub types: &'a [Option<PrimitiveTypeInfo>],
    /// For each hole what the code in it may do.
    pub effects: &'a [Effects],
    /// The numbers of the constants.
    pub numbers: &'a [u64],
    /// Whether what runs the module does what the standard says on the exact rows.
    pub exact: bool,
}

// Whether all four hold.
fn all_four(one: bool, two: bool, three: bool, four: bool) -> bool
    ensures { result ≡ (one && (two && (three && four))) }
{
    one && two && three && four
}

// Whether one of the side's steps is an exact row.
fn has_exact(side: &Side) -> bool
    ensures { result ≡ has_exact side.now }
{
    for i in 0..side.len() {
        match side[i] {
            Step::Exact(_, _) => return true,
            Step::End => return false,
            _ => {}
        }
    }
    false
}

impl TableRow {
    // Whether the constants with these numbers are as the row asks, for the width.
    fn is_asked(&self, width: IntegerType, numbers: &[u64]) -> bool
        ensures { result ≡ all_hold (constant_at numbers.now)
            (conditions_for width self.now.condition) }
    {
        match self.condition() {
            Some(condition) => condition.holds(width, numbers),
            None => true,
        }
    }

    /// Whether the row has an exact row, so that its rewrites do as before only where what runs the module is exact.
    pub fn needs_exact(&self) -> bool
        ensures { result ≡ needs_exact self.now }
    {
        has_exact(self.left()) || has_exact(self.right())
    }

    /// Whether what runs the module is as the row asks: exact, where the row has an exact row.
    pub fn is_ready(&self, exact: bool) -> bool
        ensures { result ≡ (exact || not (needs_exact self.now)) }
    {
        exact || !self.needs_exact()
    }

    /// Whether the line that the row is for the width applies to what is found: the constants are as it asks, what stands in its holes
    /// leaves their types, and may move from its place on the left side to those on the right; and where it has an exact row, what runs
    /// the module is exact.
    pub fn applies(&self, width: IntegerType, found: &Found<'_>) -> bool
        requires { IsFormed self.now width }
        ensures { IsTold self.now width
            found.now.types.now found.now.effects.now found.now.exact found.now.numbers.now result }
    {
        types_are_told();
        holes_are_told();
        let left = holes_of(self.left());
        let right = holes_of(self.right());
        let asked = self.is_asked(width, found.numbers);
        let fit = self.types_fit(width, found.types);
        let moves = may_move(found.effects, &left, &right);
        let ready = self.is_ready(found.exact);
        all_four(ready, asked, fit, moves)
    }
}
