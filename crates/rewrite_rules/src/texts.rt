//! The texts of rows, for people: each side as one term.
ghost use Rattle.std.specs.Prelude.{◌<◌, ◌≤◌, Some};
ghost use Rattle.rewrite_rules.specs.Texts.{slot_text, number_text, condition_text};

use crate::access::{Access, AccessKind, AccessSide, Conversion, access_at};
use crate::operator_names::{binary_name, comparison_name, name_behind, type_in_front, type_name};
use crate::pattern::{Number, Operator};
use crate::table::{Condition, Own, Row, Side, Step, Widths};
use crate::wrap::{Wrap, WrapItem};
use instruction_names::instruction_name;
use std::fmt;
use wasm_code::row_info;

/// A side as a term. Its text has each operator in front of its operands, and operators among these in parentheses, such as
/// `add x (mul y 2)`. `x`, `y` and `z` are any operands, `c` and `d` the constants on the left side, `N` is the width in bits, and `r`
/// a drawn constant. An operator of the width has no type; any other one has its own, as `i32.wrap_i64 x`.
#[derive(Clone, Copy, Debug, PartialEq, Eq)]
pub struct Term(pub Side);

// The letter of a constant on the left side.
#[derive(Clone, Copy)]
struct Slot(u8);

// A number of a line, in parentheses if it has two parts.
#[derive(Clone, Copy)]
struct Nested(Number);

// A step with no operands, as an operand.
#[derive(Clone, Copy)]
struct Leaf(Step);

// The name of an operator.
#[derive(Clone, Copy)]
struct Name(Step);

// The lane, if there is one, behind a space.
#[derive(Clone, Copy)]
struct Lane(Option<u8>);

// The operators of a side whose operands begin with the step at that place, the outermost first: their names, each behind a parenthesis
// if it is an operand of another one, and in front of its own operands.
#[derive(Clone, Copy)]
struct Openings {
    side: Side,
    place: usize,
}

impl fmt::Display for Slot {
    ghost output = { λ slot. Some (slot_text slot.0) };

    fn fmt<W: fmt::Write>(&self, f: &mut fmt::Formatter<W>) -> fmt::Result {
        match self.0 {
            0 => write!(f, "c"),
            1 => write!(f, "d"),
            index => write!(f, "c{index}"),
        }
    }
}

impl fmt::Display for Number {
    ghost output = { λ number. Some (number_text number) };

    fn fmt<W: fmt::Write>(&self, f: &mut fmt::Formatter<W>) -> fmt::Result {
        match *self {
            Number::Literal(number) => write!(f, "{number}"),
            Number::Ones => write!(f, "-1"),
            Number::Bits => write!(f, "N"),
            Number::Sign => write!(f, "2^(N - 1)"),
            Number::Slot(index) => write!(f, "{}", Slot(index)),
            Number::Turned(index) => write!(f, "N - {}", Slot(index)),
            Number::Next(index) => write!(f, "{} + 1", Slot(index)),
            Number::Previous(index) => write!(f, "{} - 1", Slot(index)),
            Number::Negated(index) => write!(f, "-{}", Slot(index)),
            Number::Power(index) => write!(f, "2^{}", Slot(index)),
            Number::Place(index) => write!(f, "log {}", Slot(index)),
            Number::Sum(index, other) => write!(f, "{} + {}", Slot(index), Slot(other)),
        }
    }
}

impl fmt::Display for Nested {
    fn fmt<W: fmt::Write>(&self, f: &mut fmt::Formatter<W>) -> fmt::Result {
        let number = self.0;
        match number {
            Number::Literal(_) | Number::Ones | Number::Bits | Number::Slot(_) => {
                write!(f, "{number}")
            }
            _ => write!(f, "({number})"),
        }
    }
}

impl fmt::Display for Leaf {
    fn fmt<W: fmt::Write>(&self, f: &mut fmt::Formatter<W>) -> fmt::Result {
        match self.0 {
            Step::Operand(0) => write!(f, "x"),
            Step::Operand(1) => write!(f, "y"),
            Step::Operand(2) => write!(f, "z"),
            Step::Operand(index) => write!(f, "x{index}"),
            Step::Constant(number) => write!(f, "{}", Nested(number)),
            Step::Drawn => write!(f, "r"),
            _ => Ok(()),
        }
    }
}

impl fmt::Display for Lane {
    fn fmt<W: fmt::Write>(&self, f: &mut fmt::Formatter<W>) -> fmt::Result {
        match self.0 {
            Some(lane) => write!(f, " {lane}"),
            None => Ok(()),
        }
    }
}

impl fmt::Display for Name {
    fn fmt<W: fmt::Write>(&self, f: &mut fmt::Formatter<W>) -> fmt::Result {
        match self.0 {
            Step::Binary(operator) => f.write_str(binary_name(operator)),
            Step::Compare(comparison) => f.write_str(comparison_name(comparison)),
            Step::Eqz => f.write_str("eqz"),
            Step::Select => f.write_str("select"),
            Step::Exact(row, lane) => {
                let name = instruction_name(row);
                write!(f, "{name}{}", Lane(lane))
            }
            Step::Whole(operation) => {
                let width = type_name(type_in_front(operation));
                let name = name_behind(operation);
                write!(f, "{width}.{name}")
            }
            _ => Ok(()),
        }
    }
}

// How many operands the row of the instruction table has, at most three.
fn operands_of_row(row: u16) -> usize
    ensures { result ≤ 3 }
{
    match row_info(row) {
        Some(info) => (info.operands.unwrap_or(0) as usize).min(3),
        None => 0,
    }
}

// How many operands the step has.
fn operand_count(step: Step) -> usize
    ensures { result ≤ 3 }
{
    match step {
        Step::Binary(_) | Step::Compare(_) => 2,
        Step::Eqz => 1,
        Step::Select => 3,
        Step::Whole(operation) => operation.operands().len().min(3),
        Step::Exact(row, _) => operands_of_row(row),
        _ => 0,
    }
}

// How many steps stand before the end.
fn step_count(side: &Side) -> usize
    ensures { result ≤ 7 }
{
    for place in 0..side.len() {
        match side[place] {
            Step::End => return place,
            _ => {}
        }
    }
    side.len()
}

// Where the operands of the step at that place begin; its own place, if it has none.
fn beginning(side: &Side, last: usize) -> usize
    requires { last < 7 }
    ensures { result ≤ last }
{
    // How many terms are still to be found, from there to the left.
    let mut missing = 1usize;
    for back in 0..last {
        missing = missing
            .saturating_add(operand_count(side[last - back]))
            .saturating_sub(1);
        if missing == 0 {
            return last - back;
        }
    }
    0
}

impl fmt::Display for Openings {
    fn fmt<W: fmt::Write>(&self, f: &mut fmt::Formatter<W>) -> fmt::Result {
        let side = self.side;
        let count = step_count(&side);
        for back in 1..count {
            let last = count - back;
            if last > self.place && beginning(&side, last) == self.place {
                let name = Name(side[last]);
                if back > 1 {
                    write!(f, "(")?;
                }
                write!(f, "{name} ")?;
            }
        }
        Ok(())
    }
}

impl fmt::Display for Term {
    fn fmt<W: fmt::Write>(&self, f: &mut fmt::Formatter<W>) -> fmt::Result {
        let side = self.0;
        let count = step_count(&side);
        if count == 1 {
            if let Step::Constant(number) = side[0] {
                return write!(f, "{number}");
            }
        }
        for place in 0..count {
            if operand_count(side[place]) > 0 {
                // Behind its operands.
                if place + 1 < count {
                    write!(f, ")")?;
                }
            } else {
                if place > 0 {
                    write!(f, " ")?;
                }
                let openings = Openings { side, place };
                let leaf = Leaf(side[place]);
                write!(f, "{openings}{leaf}")?;
            }
        }
        Ok(())
    }
}

impl fmt::Display for Condition {
    ghost output = { λ condition. Some (condition_text condition) };

    fn fmt<W: fmt::Write>(&self, f: &mut fmt::Formatter<W>) -> fmt::Result {
        match *self {
            Condition::BelowWidth(index) => write!(f, "{} < N", Slot(index)),
            Condition::Power(index) => write!(f, "{} is a power of two", Slot(index)),
            Condition::Mask(index) => write!(f, "{} is a mask", Slot(index)),
            Condition::Turns(index, other) => {
                write!(f, "{} + {} is a multiple of N", Slot(index), Slot(other))
            }
        }
    }
}

// An operator of a conversion, by its whole name.
#[derive(Clone, Copy)]
struct OperatorName(Operator);

impl fmt::Display for OperatorName {
    fn fmt<W: fmt::Write>(&self, f: &mut fmt::Formatter<W>) -> fmt::Result {
        match self.0 {
            Operator::Whole(operation) => write!(f, "{}", Name(Step::Whole(operation))),
            Operator::Select => write!(f, "{}", Name(Step::Select)),
            Operator::Exact(row, lane) => write!(f, "{}", Name(Step::Exact(row, lane))),
        }
    }
}

impl fmt::Display for Conversion {
    fn fmt<W: fmt::Write>(&self, f: &mut fmt::Formatter<W>) -> fmt::Result {
        match *self {
            Conversion::Nothing => Ok(()),
            Conversion::By(operator) => write!(f, "{}", OperatorName(operator)),
            Conversion::With(t, number, operator) => {
                write!(
                    f,
                    "{}.const {number}, {}",
                    type_name(t),
                    OperatorName(operator)
                )
            }
        }
    }
}

// A side of an access of that kind.
#[derive(Clone, Copy)]
struct AccessText(AccessKind, AccessSide);

impl fmt::Display for AccessText {
    fn fmt<W: fmt::Write>(&self, f: &mut fmt::Formatter<W>) -> fmt::Result {
        let side = self.1;
        let name = instruction_name(side.row);
        match (self.0, side.conversion) {
            (_, Conversion::Nothing) => write!(f, "{name}"),
            (AccessKind::Store, conversion) => write!(f, "{conversion}, {name}"),
            (_, conversion) => write!(f, "{name}, {conversion}"),
        }
    }
}

/// Its text has the instructions of both sides without their immediates, as `i32.load8_s → i32.load8_u, i32.extend8_s`, and behind
/// them the alignment that is written, in bytes, as `i32.load → i32.load, align=1`.
impl fmt::Display for Access {
    fn fmt<W: fmt::Write>(&self, f: &mut fmt::Formatter<W>) -> fmt::Result {
        let left = AccessText(self.kind, self.left);
        let right = AccessText(self.kind, self.right);
        match self.align {
            None => write!(f, "{left} → {right}"),
            Some(align) => write!(f, "{left} → {right}, align={}", 1u32 << (align % 32)),
        }
    }
}

/// Its text is its instruction, as the text format has it; of a constant its number, as `0`, `n` for one that isn't zero, and `r` for any.
impl fmt::Display for WrapItem {
    fn fmt<W: fmt::Write>(&self, f: &mut fmt::Formatter<W>) -> fmt::Result {
        match *self {
            WrapItem::Block => f.write_str("block"),
            WrapItem::Loop => f.write_str("loop"),
            WrapItem::If => f.write_str("if"),
            WrapItem::Else => f.write_str("else"),
            WrapItem::End => f.write_str("end"),
            WrapItem::Branch => f.write_str("br 0"),
            WrapItem::BranchIf => f.write_str("br_if 0"),
            WrapItem::Unreachable => f.write_str("unreachable"),
            WrapItem::Zero => f.write_str("0"),
            WrapItem::NonZero => f.write_str("n"),
            WrapItem::Any => f.write_str("r"),
        }
    }
}

/// Its text is that of its operators, with `x` in the place of the value, as `block x end`.
impl fmt::Display for Wrap {
    fn fmt<W: fmt::Write>(&self, f: &mut fmt::Formatter<W>) -> fmt::Result {
        for item in self.front() {
            write!(f, "{item} ")?;
        }
        f.write_str("x")?;
        for item in self.back() {
            write!(f, " {item}")?;
        }
        Ok(())
    }
}

impl fmt::Display for Own {
    fn fmt<W: fmt::Write>(&self, f: &mut fmt::Formatter<W>) -> fmt::Result {
        match *self {
            Own::Unfold => f.write_str("c → add r (c - r)"),
            Own::ThroughGlobal => f.write_str("x → x, by way of a further global"),
            Own::WithNop => f.write_str("x → nop x"),
            Own::Fold => f.write_str("op c d → the value"),
            Own::Forget => f.write_str("drop x → nothing"),
            Own::TeeToSet => f.write_str("local.tee x → local.set x, local.get"),
            Own::DropNop => f.write_str("nop → nothing"),
            Own::SetToTee => f.write_str("local.set x, local.get → local.tee x"),
            Own::Access(number) => match access_at(number) {
                Some(access) => write!(f, "{access}"),
                None => Ok(()),
            },
            Own::Wrap(wrap) => write!(f, "x → {wrap}"),
            Own::Unwrap(wrap) => write!(f, "{wrap} → x"),
            Own::SelectToIf => f.write_str("select x y c → c if x else y end"),
            Own::IfToSelect => f.write_str("c if x else y end → select x y c"),
            Own::TestCondition => f.write_str("br_if c, if c → br_if (ne c 0), if (ne c 0)"),
            Own::DropConditionTest => f.write_str("br_if (ne c 0), if (ne c 0) → br_if c, if c"),
            Own::DoubleCondition => {
                f.write_str("br_if c, if c → br_if (eqz (eqz c)), if (eqz (eqz c))")
            }
            Own::DropDoubleCondition => {
                f.write_str("br_if (eqz (eqz c)), if (eqz (eqz c)) → br_if c, if c")
            }
            Own::PutDead => f.write_str("br, return, unreachable → the same, drop r"),
            Own::DropDead => f.write_str(
                "br, return, unreachable, drop r → the same without drop r",
            ),
            Own::BoundIndex => {
                f.write_str("br_table n of x → br_table n of (select x n (lt_u x n))")
            }
            Own::DropIndexBound => {
                f.write_str("br_table n of (select x n (lt_u x n)) → br_table n of x")
            }
            Own::BrIfToIf => f.write_str("br_if l → if br (l+1) end"),
            Own::IfToBrIf => f.write_str("if br (l+1) end → br_if l"),
        }
    }
}

// The sides of a row, and what is asked of its constants behind them.
#[derive(Clone, Copy)]
struct Sides(Row);

impl fmt::Display for Sides {
    fn fmt<W: fmt::Write>(&self, f: &mut fmt::Formatter<W>) -> fmt::Result {
        let left = Term(self.0.left);
        let right = Term(self.0.right);
        match self.0.condition {
            Some(condition) => write!(f, "{left} → {right}, where {condition}"),
            None => write!(f, "{left} → {right}"),
        }
    }
}

/// Its text is that of its sides with an arrow between them, what is asked of its constants behind them, and in front of them for which
/// width it is, unless it is for both; of a rule beside the table a short text of its own.
impl fmt::Display for Row {
    fn fmt<W: fmt::Write>(&self, f: &mut fmt::Formatter<W>) -> fmt::Result {
        let sides = Sides(*self);
        match self.widths {
            Widths::Both => write!(f, "{sides}"),
            Widths::Only(t) => {
                let width = type_name(t);
                write!(f, "{width}: {sides}")
            }
            Widths::Any => write!(f, "any: {sides}"),
            Widths::Operands(first, _, _) => write!(f, "{}: {sides}", first.name()),
            Widths::Own(own) => write!(f, "{own}"),
        }
    }
}
