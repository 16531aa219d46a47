//! What holds of valid bodies. A function here does nothing: its contract is the law.

ghost use Rattle.wasm_equivalence.specs.validation.Sound.{DeedsStay, LapsArePasses, TargetsStay, ValidBodiesRun, ValidBodiesStayValid, ValidCodeRuns};
ghost use Rattle.wasm_equivalence.specs.validation.StaysValid.{KnownOperandsCheckByTypes, MoreGlobalsCheckAlike, PushesOnFrames};
ghost use Rattle.wasm_equivalence.specs.validation.StaysValid.{ReplacedCodeStaysValid, RowTypesStay, TypedCodePushes, ValidityFollows};

/// On known operands a row is valid where it has types, and gives these (`known`); what is valid stays so with further globals
/// (`more`); and one rewrite may follow another (`follow`).
pub fn validity_goes_by_types()
    ensures known { KnownOperandsCheckByTypes }
    ensures more { MoreGlobalsCheckAlike }
    ensures follow { ValidityFollows }
{}

/// Code of typed rows is valid on every frame, and pushes its types (`push`, `on`); with further globals rows have the same types
/// (`stay`).
pub fn typed_rows_check()
    ensures push { TypedCodePushes }
    ensures on { PushesOnFrames }
    ensures stay { RowTypesStay }
{}

/// Where instructions in a body are replaced by others that are valid alike, the body stays valid.
pub fn replaced_code_stays_valid()
    ensures { ReplacedCodeStaysValid }
{}

/// Code that is valid on a frame is never stuck from a stack with the frame's values, and leaves those of the frame behind it.
pub fn valid_code_runs()
    ensures { ValidCodeRuns }
{}

/// A body that the standard's algorithm accepts is never stuck under the standard's control.
pub fn valid_bodies_run()
    ensures { ValidBodiesRun }
{}

/// A run of laps is one of pieces, and what ends within so many pieces ends within as many laps.
pub fn laps_are_passes()
    ensures { LapsArePasses }
{}

/// A body that stays valid is accepted by the standard's algorithm in the module with further globals (`valid`), where its calls
/// through tables come to functions of their types as before (`targets`), and its other operators to what is of their types
/// (`deeds`).
pub fn valid_bodies_stay_valid()
    ensures valid { ValidBodiesStayValid }
    ensures targets { TargetsStay }
    ensures deeds { DeedsStay }
{}
