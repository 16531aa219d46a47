//! Objects of JSON, as lines.
ghost use Rattle.std.specs.Prelude.{◌≡◌, false, IfErr, OnOk};
ghost use Rattle.std.specs.Io.KnownBytes.{Appends};
ghost use Rattle.serde_json.specs.View.{view};
ghost use Rattle.serde_json.specs.Written.{has_float};
ghost use Rattle.module_commands.specs.Failures.{FailsToReport};
ghost use Rattle.module_commands.specs.Lines.{json_line};

use crate::failure::Failure;
use serde_json::Value;
use std::alloc::Global;
use std::io::Write;

/// Writes a value that has no float, as a line.
#[tactic(auto, unfolding(crate::specs::Lines::json_line))]
pub fn write_value<W: Write>(alloc: Global, output: &mut W, value: &Value) -> Result<(), Failure>
    requires { has_float (view value.now) ≡ false }
    ensures line { OnOk result (Appends (W.contents output.old) (W.contents output.new)
        (json_line (view value.now))) }
    ensures fails { IfErr result FailsToReport }
{
    let text = value.to_string(alloc)?;
    writeln!(output, "{text}")?;
    Ok(())
}
