//! What holds of the program's answer. A function here does nothing: its contract is the laws.

ghost use Rattle.peephole_commands.specs.Laws.{NeverFaultsForMemory, NeverRefusesForMemory};

use peephole_terms::laws::expansions_refuse_by_name;
use wasm_code::laws::body_at_reads;

/// The program's own answer never tells of memory: no line has such a fault (`faults`), and no command such a refusal
/// (`refusals`). Only a run that ends for want of memory reports it.
pub fn memory_is_never_told()
    ensures faults { NeverFaultsForMemory }
    ensures refusals { NeverRefusesForMemory }
{
    body_at_reads();
    expansions_refuse_by_name();
}
