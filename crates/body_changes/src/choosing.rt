//! The instruction that words choose for a value that is wanted.
ghost use Rattle.std.specs.Prelude.{◌≡◌, IfSome, IfOk, IsTrue, Some};
ghost use Rattle.wasm_code.specs.Instruction.{IsInstruction};
ghost use Rattle.wasm_execution.specs.Row.{instruction_types};
ghost use Rattle.body_changes.specs.Drawing.{asks_types_alone, AreDrawable};
ghost use Rattle.body_changes.specs.Goals.{context_for, operand_types_in, FitsGoal, IsDrawnBy, GoalIsOpen};

use crate::constants::is_drawable;
use crate::goal::{Chosen, Goal, Operands, Words};
use crate::leaf::leaf;
use crate::operands::operands_of;
use crate::source::Scope;
use wasm_code::{Imm, Instr};
use wasm_execution::instruction_types;
use wasm_types::{ModuleInfo, PrimitiveTypeInfo};

/// How many rows the table has.
pub(crate) const ROWS: u16 = 446;

// The rows from here on are those of vectors.
const VECTOR_ROWS: u16 = 189;

// The types that the instruction gives on its operands.
fn types_on(
    scope: &Scope<'_>,
    instr: &Instr,
    operands: Operands,
) -> Option<Option<PrimitiveTypeInfo>>
    ensures { result
        ≡ instruction_types (context_for scope.now) instr.now (operand_types_in operands) }
{
    match operands {
        Operands::Zero => instruction_types(scope.info, scope.locals, instr, &[]),
        Operands::One(a) => instruction_types(scope.info, scope.locals, instr, &[a]),
        Operands::Two(a, b) => instruction_types(scope.info, scope.locals, instr, &[a, b]),
        Operands::Three(a, b, c) => instruction_types(scope.info, scope.locals, instr, &[a, b, c]),
    }
}

// Whether that is one value of the wanted type.
fn is_wanted(gives: Option<Option<PrimitiveTypeInfo>>, wanted: PrimitiveTypeInfo) -> bool
    ensures { IsTrue result → gives ≡ Some (Some wanted) }
{
    match gives {
        Some(Some(t)) => t == wanted,
        _ => false,
    }
}

// Whether a value of each of them can be drawn.
fn operands_drawable(info: &ModuleInfo<'_>, operands: Operands) -> bool
    ensures { IsTrue result → AreDrawable info.now (operand_types_in operands) }
{
    match operands {
        Operands::Zero => true,
        Operands::One(a) => is_drawable(info, a),
        Operands::Two(a, b) => is_drawable(info, a) && is_drawable(info, b),
        Operands::Three(a, b, c) => {
            is_drawable(info, a) && is_drawable(info, b) && is_drawable(info, c)
        }
    }
}

// The instruction on these operands, where it fits.
fn fitting(scope: &Scope<'_>, instr: Instr, operands: Operands, goal: Goal) -> Option<Chosen>
    requires instruction { IsInstruction instr }
    requires plain { IsTrue (asks_types_alone instr) }
    ensures { IfSome result (FitsGoal (context_for scope.now) goal) }
{
    if operands.count() >= goal.size {
        return None;
    }
    if !operands_drawable(scope.info, operands) {
        return None;
    }
    if !is_wanted(types_on(scope, &instr, operands), goal.wanted) {
        return None;
    }
    Some(Chosen { instr, operands })
}

// The operator of that row, where it has no immediate and fits.
fn operator(scope: &Scope<'_>, row: u16, goal: Goal) -> Option<Chosen>
    ensures { IfSome result (FitsGoal (context_for scope.now) goal) }
{
    match Instr::new(row, Imm::Nothing) {
        Some(instr) => match operands_of(&instr, goal.wanted) {
            Some(operands) => fitting(scope, instr, operands, goal),
            None => None,
        },
        None => None,
    }
}

// How many rows are tried: none where there is room for no operand, and those of vectors for vectors alone, so that a module without
// vectors gets none.
fn row_count(goal: Goal) -> u16 {
    if goal.size < 2 {
        0
    } else if goal.wanted == PrimitiveTypeInfo::V128 {
        ROWS
    } else {
        VECTOR_ROWS
    }
}

// The operator with that number among those that fit, or how many do.
fn operator_with(scope: &Scope<'_>, goal: Goal, number: u64) -> Result<Chosen, u64>
    ensures { IfOk result (FitsGoal (context_for scope.now) goal) }
{
    let mut before = 0;
    for row in 0..row_count(goal) {
        if let Some(chosen) = operator(scope, row, goal) {
            if before == number {
                return Ok(chosen);
            }
            before = before.saturating_add(1);
        }
    }
    Err(before)
}

// An operator that fits, each as likely as any other; none where there is none.
fn operator_of(scope: &Scope<'_>, goal: Goal, number: u64) -> Option<Chosen>
    ensures { IfSome result (FitsGoal (context_for scope.now) goal) }
{
    let count = match operator_with(scope, goal, u64::MAX) {
        Ok(chosen) => return Some(chosen),
        Err(count) => count,
    };
    if count == 0 {
        return None;
    }
    match operator_with(scope, goal, number % count) {
        Ok(chosen) => Some(chosen),
        Err(_) => None,
    }
}

// A local, a global or a constant.
fn leaf_for(scope: &Scope<'_>, goal: Goal, words: Words) -> Chosen
    requires { GoalIsOpen (context_for scope.now) goal }
    ensures fits { FitsGoal (context_for scope.now) goal result }
    ensures drawn { IsDrawnBy (context_for scope.now) goal.wanted words result }
{
    Chosen {
        instr: leaf(scope, goal.wanted, words),
        operands: Operands::Zero,
    }
}

/// The instruction that the words choose for the goal: of two times once an operator without an immediate that gives a value of the
/// type and for whose operands there is room, and else a local, a global or a constant.
pub(crate) fn choose(scope: &Scope<'_>, goal: Goal, words: Words) -> Chosen
    requires { GoalIsOpen (context_for scope.now) goal }
    ensures fits { FitsGoal (context_for scope.now) goal result }
    ensures drawn { IsDrawnBy (context_for scope.now) goal.wanted words result }
{
    if words.choice % 8 >= 4 {
        match operator_of(scope, goal, words.choice / 8) {
            Some(chosen) => chosen,
            None => leaf_for(scope, goal, words),
        }
    } else {
        leaf_for(scope, goal, words)
    }
}
