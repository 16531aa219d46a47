//! The list of the rules.
ghost use Rattle.std.specs.Prelude.{◌≡◌, ◌≢◌, OnOk, IfOk, IfErr};
ghost use Rattle.module_commands.specs.Failures.{FailsToReport};
ghost use Rattle.module_commands.specs.Rules.{WritesRules};
ghost use Rattle.module_commands.specs.declared.ending.Ending.TheVariants.{Whole};
ghost use Rattle.module_commands.specs.declared.failure.Failure.TheVariants.{Output};

use crate::ending::Ending;
use crate::failure::Failure;
use rule_listing::{Form, ListError, write_rules};
use std::alloc::Global;
use std::io::Write;

/// Writes all rules, with their lines, in the form.
pub fn list_rules<W: Write>(alloc: Global, form: Form, output: &mut W) -> Result<Ending, Failure>
    ensures written { OnOk result (WritesRules form (W.contents output.old)
        (W.contents output.new)) }
    ensures whole { IfOk result (λ ending. ending ≡ Whole) }
    ensures fails { IfErr result FailsToReport }
    ensures kept { IfErr result (λ e. e ≢ Output
        → W.contents output.new ≡ W.contents output.old) }
{
    match write_rules(alloc, output, form) {
        Ok(()) => {
            output.flush()?;
            Ok(Ending::Whole)
        }
        Err(ListError::Output) => Err(Failure::Output),
        Err(ListError::Memory) => Err(Failure::Memory),
    }
}
