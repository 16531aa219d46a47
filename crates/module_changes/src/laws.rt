//! What holds of changed modules. A function here does nothing: its contract is the law.
ghost use Rattle.std.specs.Prelude.{ℕ, List};
ghost use Rattle.rand_core.specs.Stream.{Stream};
ghost use Rattle.module_changes.specs.Chosen.{ChoosesOne};
ghost use Rattle.module_changes.specs.Placed.{ChangesDown};
ghost use Rattle.module_changes.specs.Scope.{Scope};
ghost use Rattle.module_changes.specs.Spliced.{SplicesOne};
ghost use Rattle.module_changes.specs.Times.{ChoosesEachChange};
ghost use Rattle.module_changes.specs.Valid.{StaysValidModule};
ghost use Rattle.module_changes.specs.declared.entry.MadeChange.{MadeChange};
ghost use Rattle.module_changes.specs.declared.placed.ChangeAt.{ChangeAt};

use module_rewrites::laws::functions_stand_again;
use wasm_equivalence::validity::{valid_bodies_stay_valid, validity_goes_by_types};
use wasm_module::laws::one_reading;

/// A changed module (`one`), one changed several times (`each`), with code of another module (`spliced`) or at operators that are named
/// (`down`), is valid where the old one was; a module stays as valid as it is (`itself`), and what stays as valid as a second one, which
/// does as a third, does as that (`follow`).
pub fn changed_modules_stay_valid()
    ensures one { (scope : Scope) (bytes new : List ℕ) (s after : Stream) (made : MadeChange)
        → ChoosesOne scope bytes s made new after → StaysValidModule bytes new }
    ensures each { (scope : Scope) (bytes new : List ℕ) (s after : Stream)
        (made : List MadeChange) → ChoosesEachChange scope bytes s made new after
        → StaysValidModule bytes new }
    ensures spliced { (scope : Scope) (bytes other new : List ℕ) (s after : Stream)
        (made : MadeChange) → SplicesOne scope bytes other s made new after
        → StaysValidModule bytes new }
    ensures down { (at : ChangeAt) (size : ℕ) (bytes : List ℕ) (made : List MadeChange)
        (new : List ℕ) (left : ℕ) → ChangesDown at size bytes made new left
        → StaysValidModule bytes new }
    ensures itself { (bytes : List ℕ) → StaysValidModule bytes bytes }
    ensures follow { (bytes between new : List ℕ) → StaysValidModule bytes between
        → StaysValidModule between new → StaysValidModule bytes new }
{
    one_reading();
    functions_stand_again();
    valid_bodies_stay_valid();
    validity_goes_by_types();
}
