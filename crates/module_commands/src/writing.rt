//! What a run writes to its devices.
ghost use Rattle.std.specs.Prelude.{◌≡◌, true, false, OnOk, IfErr};
ghost use Rattle.std.specs.Io.KnownBytes.{Appends};
ghost use Rattle.module_commands.specs.declared.failure.Failure.TheVariants.{Output};

use crate::failure::Failure;
use std::io::Write;

/// Writes all of the bytes.
pub fn write_bytes<W: Write>(output: &mut W, bytes: &[u8]) -> Result<(), Failure>
    ensures written { OnOk result (Appends (W.contents output.old) (W.contents output.new)
        bytes.now) }
    ensures fails { IfErr result (λ e. e ≡ Output) }
{
    output.write_all(bytes)?;
    output.flush()?;
    Ok(())
}

/// Writes what is shown of rewrites or told of changes, where that is asked for.
pub fn show<E: Write>(notes: &mut E, wanted: bool, shown: &[u8]) -> Result<(), Failure>
    ensures shown { wanted ≡ true → OnOk result (Appends (E.contents notes.old)
        (E.contents notes.new) shown.now) }
    ensures quiet { wanted ≡ false → notes.new ≡ notes.old }
    ensures fails { IfErr result (λ e. e ≡ Output) }
{
    if wanted {
        notes.write_all(shown)?;
    }
    Ok(())
}
