//! A single instruction that gives a value of a type.
ghost use Rattle.std.specs.Prelude.{◌≡◌, IsTrue};
ghost use Rattle.wasm_code.specs.Instruction.{Instruction};
ghost use Rattle.body_changes.specs.Drawing.{is_drawable, IsLeaf};
ghost use Rattle.body_changes.specs.Goals.{context_for, WordsDrawInstruction, GivesFromNothing};

use crate::constants::constant;
use crate::goal::Words;
use crate::source::Scope;
use crate::variables::variable;
use wasm_code::Instr;
use wasm_types::PrimitiveTypeInfo;

/// A local, a global or a constant of the type, as the words choose it.
pub(crate) fn leaf(scope: &Scope<'_>, wanted: PrimitiveTypeInfo, words: Words) -> Instr
    requires { IsTrue (is_drawable scope.now.info.now wanted) }
    ensures gives { GivesFromNothing (context_for scope.now) wanted result }
    ensures drawn { (i : Instruction) → IsLeaf (context_for scope.now) wanted i
        → WordsDrawInstruction (context_for scope.now) wanted i words → result ≡ i }
{
    match variable(scope, wanted, words.choice) {
        Some(instr) => instr,
        None => constant(wanted, words.choice / 8, words.low, words.high),
    }
}
