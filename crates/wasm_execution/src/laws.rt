//! What holds of every run. A function here does nothing: its contract is the law.

ghost use Rattle.wasm_execution.specs.Laws.{AskNoWorld, ExactWorldsExist, IsFreeAlone, RowsEndTyped, SoundWorldsExist, StaysSame, TypesAreTheResultColumn};

/// A row with operands of its types is never stuck, and leaves values and a state of the context's types, or traps.
pub fn typed_rows_keep_types()
    ensures { RowsEndTyped }
{}

/// What an instruction leaves on operands of its types is what the result column of its row says: nothing, a fixed type, what its
/// immediate names, or the type of its first operand.
pub fn row_types_are_the_result_column()
    ensures { TypesAreTheResultColumn }
{}

/// Two runs that are the same apart from requested globals stay so when the same instructions follow both, unless these get
/// stuck without those globals.
pub fn following_code_keeps_runs_the_same()
    ensures { StaysSame }
{}

/// Every module has a world that does as its instructions' types ask.
pub fn sound_worlds_exist()
    ensures { SoundWorldsExist }
{}

/// Every module has an exact world, with a memory of any size.
pub fn exact_worlds_exist()
    ensures { ExactWorldsExist }
{}

/// Code that names the context's variables alone is stuck without requested globals only where it is stuck with them.
pub fn requested_globals_free_nothing()
    ensures { IsFreeAlone }
{}

/// Integer rows run the same in every world, and leave the rest as it is.
pub fn integer_rows_ask_no_world()
    ensures { AskNoWorld }
{}
