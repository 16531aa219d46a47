//! The rules that are no rows of the table, and what they make.

pub(crate) mod access;
pub(crate) mod bound_index;
pub(crate) mod br_if_to_if;
pub(crate) mod branches;
pub(crate) mod conditions;
pub(crate) mod double_condition;
pub(crate) mod drop_condition_test;
pub(crate) mod drop_dead;
pub(crate) mod drop_double_condition;
pub(crate) mod drop_index_bound;
pub(crate) mod drop_nop;
pub(crate) mod fold;
pub(crate) mod forget;
pub(crate) mod growing;
pub(crate) mod if_to_br_if;
pub(crate) mod if_to_select;
pub(crate) mod indices;
pub(crate) mod leaves;
pub(crate) mod put_dead;
pub(crate) mod rewriting;
pub(crate) mod select_to_if;
pub(crate) mod set_to_tee;
pub(crate) mod sites;
pub(crate) mod tee_to_set;
pub(crate) mod test_condition;
pub(crate) mod through_global;
pub(crate) mod unfold;
pub(crate) mod unwrap;
pub(crate) mod with_nop;
pub(crate) mod wrap;
pub(crate) mod writing;

use rewrite_rules::{Access, Wrap};
use wasm_code::{Imm, ValType};
use wasm_execution::IntegerType;
use wasm_types::PrimitiveTypeInfo;

/// What is made of code, whatever word is drawn.
#[derive(Clone, Copy, Debug, PartialEq, Eq)]
pub enum Made {
    /// Nothing.
    Nothing,
    /// The constant of a number.
    Constant(IntegerType, u64),
    /// The sum of the drawn word and of what is left of a number.
    Sum(IntegerType, u64),
    /// A nop, and the same code.
    Nop,
    /// The same code, and its value, of that type, through the global with that index.
    Global(PrimitiveTypeInfo, u32),
    /// A set and a get of a local.
    SetAndGet(u32),
    /// A tee of a local.
    Tee(u32),
    /// The right side of an access, with that immediate.
    Access(Access, Imm),
    /// The same code, wrapped in that way, where it gives a value of the type.
    Wrapped(Wrap, ValType),
    /// The code from one operator up to the one before another one.
    Inner(usize, usize),
    /// Two operators that come before a condition, which begins at that operator, as the parts of a conditional of the type.
    Conditional(ValType, usize),
    /// The parts of a conditional as operands of a select.
    Selected,
    /// The same code, compared with zero.
    Tested,
    /// The same code, compared with zero twice.
    DoublyTested,
    /// The same code, and behind it a constant of the drawn word and a drop.
    Dead,
    /// The same code, and that number where it isn't below that, without signs.
    Bounded(u32),
    /// A conditional, and in it a branch to the label that had that depth outside it.
    InConditional(u8),
    /// A branch under a condition to the label with that depth.
    BranchIf(u8),
}

/// From which operator on something is made, and what.
#[derive(Clone, Copy, Debug, PartialEq, Eq)]
pub struct Site {
    pub start: usize,
    pub made: Made,
}
