//! A change, shown.
ghost use Rattle.std.specs.Prelude.{◌≡◌, ◌++◌, ℕ, List, OnOk, IfErr};
ghost use Rattle.std.specs.Io.KnownBytes.{Appends};
ghost use Rattle.module_showing.specs.Changed.{shown_change_line};
ghost use Rattle.module_showing.specs.declared.error.ShowError.TheVariants.{Memory, Output};

use crate::error::ShowError;
use crate::shown::{lines_of, write_text};
use module_changes::MadeChange;
use std::alloc::Global;
use std::io::Write;

// Writes the first line.
fn write_first<W: Write>(output: &mut W, made: &MadeChange) -> Result<(), ShowError>
    ensures line { OnOk result (Appends (W.contents output.old) (W.contents output.new)
        (shown_change_line made.now)) }
    ensures fails { IfErr result (λ e. e ≡ Output) }
{
    let function = made.function;
    let operator = made.operator;
    let change = made.change.name();
    writeln!(
        output,
        "function {function} operator {operator} change {change}"
    )?;
    Ok(())
}

/// Writes what a change made of a module, for people to read. `old` is the module before that one change, `new` the module with it. A
/// first line says with which operator of which function the code ended that was replaced, and the name of the change; the lines
/// behind it are those that [`write_shown`](crate::write_shown) writes of a rewrite.
///
/// It takes time linear in the modules. Nothing is written for want of memory (`Memory`).
pub fn write_shown_change<W: Write>(
    alloc: Global,
    output: &mut W,
    old: &[u8],
    new: &[u8],
    made: &MadeChange,
) -> Result<(), ShowError>
    // What is written is the first line, and others.
    ensures shown { OnOk result ((more : List ℕ)
        × Appends (W.contents output.old) (W.contents output.new) (shown_change_line made.now
        ++ more)) }
    // Nothing is written where no memory was left.
    ensures unwritten { IfErr result (λ e. e ≡ Memory → output.new ≡ output.old) }
{
    let lines = lines_of(alloc, old, new, made.function, made.operator)?;
    write_first(output, made)?;
    write_text(output, lines.as_str())
}
