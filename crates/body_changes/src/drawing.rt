//! Code that words draw.
ghost use Rattle.std.specs.Prelude.{◌≡◌, ◌<◌, ◌≤◌, ◌%◌, [], ◌∷◌, length, drop, get_or, reverse, IfOk, OnOk, IsTrue};
ghost use Rattle.wasm_code.specs.Instruction.{Instruction};
ghost use Rattle.body_changes.specs.Drawing.{is_drawable, three_words, drawing_words_of, AreDrawable, AskTypesAlone, IsLeaf};
ghost use Rattle.body_changes.specs.Goals.{context_for, operand_types_in, first_words, HasDrawn, HasPushed, GoalIsOpen};
ghost use Rattle.body_changes.specs.Typed.{LeavesTypes};

use crate::choosing::choose;
use crate::goal::{Chosen, Goal, Operands, Words};
use crate::source::Scope;
use std::alloc::{AllocError, Global};
use wasm_code::Instr;
use wasm_types::PrimitiveTypeInfo;

/// The number that a word names, modulo the count.
pub(crate) fn named(word: u64, count: usize) -> usize
    requires { 0 < count }
    ensures is { result ≡ word % count }
    ensures below { result < count }
{
    (word % count as u64) as usize
}

// Puts goals for the operands behind the others; the room is cut among them by the word.
fn push_operands(
    scope: &Scope<'_>,
    goals: &mut Vec<Goal>,
    operands: Operands,
    room: usize,
    word: u64,
) -> Result<(), AllocError>
    requires room { length (operand_types_in operands) ≤ room }
    requires drawable { AreDrawable scope.now.info.now (operand_types_in operands) }
    ensures { OnOk result (HasPushed (context_for scope.now) (operand_types_in operands) room
        goals.old.items goals.new.items) }
{
    match operands {
        Operands::Zero => Ok(()),
        Operands::One(a) => {
            goals.push(Goal {
                wanted: a,
                size: room,
            })?;
            Ok(())
        }
        Operands::Two(a, b) => {
            let first = 1 + named(word, room - 1);
            goals.push(Goal {
                wanted: a,
                size: first,
            })?;
            goals.push(Goal {
                wanted: b,
                size: room - first,
            })?;
            Ok(())
        }
        Operands::Three(a, b, c) => {
            let first = 1 + named(word, room - 2);
            let second = 1 + named(word >> 32, room - first - 1);
            goals.push(Goal {
                wanted: a,
                size: first,
            })?;
            goals.push(Goal {
                wanted: b,
                size: second,
            })?;
            goals.push(Goal {
                wanted: c,
                size: room - first - second,
            })?;
            Ok(())
        }
    }
}

// Draws an instruction for the goal, and puts goals for its operands in its place.
fn draw_next(
    scope: &Scope<'_>,
    goal: Goal,
    words: Words,
    goals: &mut Vec<Goal>,
    code: &mut Vec<Instr>,
) -> Result<(), AllocError>
    requires { GoalIsOpen (context_for scope.now) goal }
    ensures { OnOk result (HasDrawn (context_for scope.now) goal words goals.old.items
        code.old.items goals.new.items code.new.items) }
{
    let Chosen { instr, operands } = choose(scope, goal, words);
    push_operands(scope, goals, operands, goal.size - 1, words.low)?;
    code.push(instr)?;
    Ok(())
}

/// The word with that number, or 0.
pub(crate) fn word_at(words: &[u64], number: usize) -> u64
    ensures { result ≡ get_or words.now number 0 }
{
    words.get(number).copied().unwrap_or(0)
}

/// The first three words.
pub(crate) fn first_words(words: &[u64]) -> Words
    ensures { result ≡ first_words words.now }
{
    Words {
        choice: word_at(words, 0),
        low: word_at(words, 1),
        high: word_at(words, 2),
    }
}

/// The words from that number on.
pub(crate) fn words_from(words: &[u64], number: usize) -> &[u64]
    ensures { result.now ≡ drop number words.now }
{
    if number <= words.len() {
        &words[number..]
    } else {
        &[]
    }
}

// The other way round.
fn turn(code: &mut Vec<Instr>)
    ensures { code.new.items ≡ reverse code.old.items }
{
    code.reverse();
}

/// Code that leaves one value of the type, of at most `size` instructions, as the words choose it: three words for each instruction,
/// the last one first, of which the first one chooses the instruction, and the others its constant, or how the room that is left is
/// cut among its operands. Words that aren't there are 0. The instructions are constants, the function's locals, the module's globals
/// and operators without an immediate; those of vectors only where a vector is wanted. The standard asks nothing of them beyond their
/// types.
///
/// Each constant of the type, and each local and global of it, is drawn by some words (`leaves_have_words`).
///
/// It takes time by the size, times the instruction table and the number of locals and globals. The only error: an allocation was
/// refused.
pub fn code_of_words(
    alloc: Global,
    scope: &Scope<'_>,
    wanted: PrimitiveTypeInfo,
    size: usize,
    words: &[u64],
) -> Result<Vec<Instr>, AllocError>
    requires some { 0 < size }
    requires drawable { IsTrue (is_drawable scope.now.info.now wanted) }
    ensures code { IfOk result (λ code.
        LeavesTypes (context_for scope.now) code.items (wanted ∷ [])) }
    ensures few { IfOk result (λ code. length code.items ≤ size) }
    ensures plain { IfOk result (λ code. AskTypesAlone code.items) }
    // Each single instruction is what its words draw.
    ensures drawn { IfOk result (λ code. (i : Instruction)
        → IsLeaf (context_for scope.now) wanted i
        → three_words words.now ≡ drawing_words_of (context_for scope.now) wanted i
        → code.items ≡ i ∷ []) }
{
    let mut goals = Vec::new(alloc);
    goals.push(Goal { wanted, size })?;
    let mut code = Vec::new(alloc);
    let mut rest = words;
    for step in 0..size {
        if let Some(goal) = goals.pop() {
            draw_next(scope, goal, first_words(rest), &mut goals, &mut code)?;
        }
        rest = words_from(rest, 3);
    }
    turn(&mut code);
    Ok(code)
}
