//! What holds of the rules. A function here does nothing: its contract is the laws.

ghost use Rattle.rewrite_rules.specs.Access.{AccessesAreFormed};
ghost use Rattle.rewrite_rules.specs.Applying.{ExactRowsAreTold};
ghost use Rattle.rewrite_rules.specs.Laws.{LinesKeepCode, TableIsRight};
ghost use Rattle.rewrite_rules.specs.Names.{NamesDiffer, AreFewRowsAndRules};
ghost use Rattle.rewrite_rules.specs.Needs.{NeedsAreEnough};
ghost use Rattle.rewrite_rules.specs.Parts.{PartsAreTheCode};
ghost use Rattle.rewrite_rules.specs.Rule.{RulesAreNamed};
ghost use Rattle.rewrite_rules.specs.Table.{SidesAreParts, PartsAreInstructions};
ghost use Rattle.rewrite_rules.specs.Operands.{TypesAreTold};
ghost use Rattle.rewrite_rules.specs.Holes.{HolesAreTold};
ghost use Rattle.rewrite_rules.specs.Beside.{BesidesKeepCode};
ghost use Rattle.rewrite_rules.specs.Wrap.{WrapsAreRight};
ghost use Rattle.rewrite_rules.specs.Flow.{SelectsAreConditionals, TestsAreConditions, BoundsAreIndices, DroppedCodePushesNothing, DroppedConstantsPushNothing};

use wasm_equivalence::validity::{typed_rows_check, validity_goes_by_types};
use wrapped_code::laws::{
    indices_may_be_bounded, some_code_is_pure, some_conditions_are_as_true, typed_code_is_alone,
    wrapped_code_pushes, wrapped_code_runs,
};

/// What a line asks of the operands in its holes is computed once from its two sides.
pub fn needs_are_enough()
    ensures { NeedsAreEnough }
{}

/// Where a line that is well formed and right applies, what it writes may stand in the place of what it is an instance of: it does the
/// same there, from every stack and every state, and is valid where that is.
pub fn lines_keep_code()
    ensures { LinesKeepCode }
{
    typed_rows_check();
}

/// Every line of the table is well formed and right, and so keeps what code does.
pub fn table_is_right()
    ensures { TableIsRight }
{
    lines_keep_code();
}

/// The code of a pattern is that of its parts, one behind another.
pub fn parts_are_the_code()
    ensures { PartsAreTheCode }
{}

/// The patterns of the table's lines have the parts of its rows' sides, in their order.
pub fn sides_are_parts()
    ensures { SidesAreParts }
{
    table_is_right();
}

/// The operators on the right sides of the table's rows are instructions of the standard.
pub fn parts_are_instructions()
    ensures { PartsAreInstructions }
{
    table_is_right();
    sides_are_parts();
}

/// A line that is well formed has an exact row exactly where `TableRow::needs_exact` says so of its row.
pub fn exact_rows_are_told()
    ensures { ExactRowsAreTold }
{}

/// `TableRow::types_fit` tells exactly whether operands leave the types of their holes.
pub fn types_are_told()
    ensures { TypesAreTold }
{}

/// `holes_of` tells the holes of a row's patterns, where these are well formed.
pub fn holes_are_told()
    ensures { HolesAreTold }
{}

/// What each of the rules beside the table writes may stand in the place of what stood there.
pub fn besides_keep_code()
    ensures { BesidesKeepCode }
{
    typed_rows_check();
    validity_goes_by_types();
    lines_keep_code();
}

/// Every way to wrap a value in control flow makes code of it that does as it does, and is valid where that is.
pub fn wraps_are_right()
    ensures { WrapsAreRight }
{
    typed_rows_check();
    wrapped_code_pushes();
    wrapped_code_runs();
}

/// A select of constants and variables, whose condition writes nothing, may be a conditional.
pub fn selects_are_conditionals()
    ensures { SelectsAreConditionals }
{
    typed_rows_check();
    wrapped_code_pushes();
    wrapped_code_runs();
    some_code_is_pure();
    typed_code_is_alone();
}

/// A condition may be tested, and a test of it taken away.
pub fn tests_are_conditions()
    ensures { TestsAreConditions }
{
    typed_rows_check();
    some_conditions_are_as_true();
}

/// An index may be bounded by the number of labels, and its bound taken away.
pub fn bounds_are_indices()
    ensures { BoundsAreIndices }
{
    typed_rows_check();
    indices_may_be_bounded();
}

/// Code that leaves one value, and a drop, push nothing.
pub fn dropped_code_pushes_nothing()
    ensures { DroppedCodePushesNothing }
{
    typed_rows_check();
}

/// A constant and a drop push nothing.
pub fn dropped_constants_push_nothing()
    ensures { DroppedConstantsPushNothing }
{
    typed_rows_check();
}

/// What each of the accesses that are listed writes is well formed: rows and immediates go together, and an alignment that is at most
/// natural stays so.
pub fn accesses_are_formed()
    ensures { AccessesAreFormed }
{}

/// There are fewer rows, and so rules, than numbers of 16 bits.
pub fn rows_are_few()
    ensures { AreFewRowsAndRules }
{}

/// No two rules have the same name.
pub fn names_differ()
    ensures { NamesDiffer }
{}

/// Each rule has the name that stands at its number in the table, and no other rule has it.
pub fn rules_are_named()
    ensures { RulesAreNamed }
{
    names_differ();
}
