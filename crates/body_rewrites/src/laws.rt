//! What holds of trees and matches. A function here does nothing: its contract is the law.

ghost use Rattle.std.specs.Prelude.{◌≡◌, ◌↔◌, ◌<◌, ◌^◌, ℕ, List, Contains, Some, length, slice_get};
ghost use Rattle.rand_core.specs.Stream.{Stream};
ghost use Rattle.wasm_code.specs.declared.operator.Operator.{Operator};
ghost use Rattle.wasm_types.specs.declared.types.PrimitiveTypeInfo.{PrimitiveTypeInfo};
ghost use Rattle.wasm_execution.specs.Values.{Context};
ghost use Rattle.rewrite_rules.specs.declared.growth.Growth.{Growth as RowGrowth};
ghost use Rattle.rewrite_rules.specs.declared.rule.Rule.{Rule};
ghost use Rattle.rewrite_rules.specs.declared.table.Row.{Row};
ghost use Rattle.rewrite_rules.specs.Growing.{GrowsAs};
ghost use Rattle.rewrite_rules.specs.Table.{ROWS};
ghost use Rattle.body_splices.specs.Laws.{pieces_operators};
ghost use Rattle.body_splices.specs.OwnBytes.{without_offsets};
ghost use Rattle.body_rewrites.specs.declared.growth.Growth.{Growth};
ghost use Rattle.body_rewrites.specs.declared.rewrite.Rewrite.{Rewrite};
ghost use Rattle.body_rewrites.specs.Rewrites.{IsMade, IsMadeBy, asked_below};
ghost use Rattle.body_rewrites.specs.Choice.{IsOf, IsOpen, HasOpen, Chooses, growths};
ghost use Rattle.body_rewrites.specs.HasWords.{HasWords};
ghost use Rattle.body_rewrites.specs.Changed.{ChangedBodiesDoAsBefore};
ghost use Rattle.body_rewrites.specs.Changes.{Change};
ghost use Rattle.body_rewrites.specs.MadeLaws.{ChangesMayStand};
ghost use Rattle.body_rewrites.specs.Listing.{AreThose, HasGrowth, IsBy, IsWantedBy, OneChange};
ghost use Rattle.body_rewrites.specs.LineChanges.{LineChangesMayStand};
ghost use Rattle.body_rewrites.specs.Random.{AppendsByWords, HasNoRewrite};
ghost use Rattle.body_rewrites.specs.ToldGrowth.{IsAsTold};
ghost use Rattle.body_rewrites.specs.Trees.{TreesLeave};
ghost use Rattle.body_rewrites.specs.Matching.{MatchesAreTheCode, LeftsAreInstances};

use crate::own_laws::own_changes_may_stand;
use body_splices::laws::{spliced_operators_are, splices_keep_operators};
use rewrite_rules::laws::{
    besides_keep_code, holes_are_told, parts_are_the_code, rows_are_few, sides_are_parts,
    table_is_right,
};
use wasm_equivalence::laws::{pieces_do_as_before, replaced_code_is_in_one_piece};
use wasm_equivalence::validity::replaced_code_stays_valid;
use wrapped_code::laws::read_code_has_no_handlers;

/// A tree's code needs nothing from before it, and leaves its value, as an operand in a hole does.
pub fn trees_leave()
    ensures { TreesLeave }
{}

/// What matches the parts of a pattern is the code of these parts, one behind another.
pub fn matches_are_the_code()
    ensures { MatchesAreTheCode }
{}

/// What matches the left side of a line of the table is the line's left side, with what stands in its holes and the numbers of its
/// constants; and `find` forgets no match of a left side, since the constants there have numbers of their own.
pub fn lefts_are_instances()
    ensures { LeftsAreInstances }
{
    matches_are_the_code();
    parts_are_the_code();
    sides_are_parts();
}

/// What a line of the table writes in its place may stand there.
pub fn line_changes_may_stand()
    ensures { LineChangesMayStand }
{
    replaced_code_is_in_one_piece();
    replaced_code_stays_valid();
    pieces_do_as_before();
    table_is_right();
    holes_are_told();
    sides_are_parts();
    parts_are_the_code();
    besides_keep_code();
}

/// A body in which a change is written that may stand there does what it did, and is valid where it was.
pub fn changed_bodies_do_as_before()
    ensures { ChangedBodiesDoAsBefore }
{
    spliced_operators_are();
    splices_keep_operators();
    read_code_has_no_handlers();
}

/// What a row of the table makes for a width may stand in the place of what stood there, and it makes one thing at most.
pub fn changes_may_stand()
    ensures { ChangesMayStand }
{
    line_changes_may_stand();
    own_changes_may_stand();
}

/// A line makes one thing at an operator at most.
pub fn one_change()
    ensures { OneChange }
{
    changes_may_stand();
}

/// Every rewrite of a body by one of the rules that does one of the wanted things to the number of operators is chosen by three words:
/// there is none that no words choose (`never_without`), and where it is known which growths, rules and rewrites there are, these are
/// the words (`listed`). There are fewer than 2^64 rules and wanted things, and 2^32 operators.
pub fn each_rewrite_has_words()
    ensures never_without { (context : Context) (rules : List Rule) (wanted : List Growth)
        (operators : List (Operator × ℕ)) (r : Rewrite) → length rules < 2 ^ 64
        → length wanted < 2 ^ 64 → length operators < 2 ^ 32
        → IsWantedBy context operators rules wanted r
        → ¬ (¬ (HasWords context rules wanted operators r)) }
    ensures listed { (context : Context) (rules : List Rule) (wanted : List Growth)
        (operators : List (Operator × ℕ)) (r : Rewrite) → length rules < 2 ^ 64
        → length wanted < 2 ^ 64 → length operators < 2 ^ 32
        → (growth : Growth) (rule : Rule) → Contains wanted growth → Contains rules rule
        → IsOf context operators growth rule r
        → (kinds : List Growth) → AreThose (HasOpen context operators rules) wanted kinds
        → (ways : List Rule) → AreThose (IsOpen context operators growth) rules ways
        → (places : List Rewrite)
        → AreThose (IsOf context operators growth rule) (asked_below (length operators)) places
        → HasWords context rules wanted operators r }
{
    rows_are_few();
}

/// A generator's words choose one rewrite of a body at most.
pub fn words_choose_one_rewrite()
    ensures { (context : Context) (stream : Stream) (rules : List Rule) (wanted : List Growth)
        (operators : List (Operator × ℕ)) (r q : Rewrite)
        → Chooses context stream rules wanted operators r
        → Chooses context stream rules wanted operators q → r ≡ q }
{}

/// What words choose is by one of the rules, and does one of the wanted things to the number of operators.
pub fn chosen_rewrites_are_wanted()
    ensures { (context : Context) (stream : Stream) (rules : List Rule) (wanted : List Growth)
        (operators : List (Operator × ℕ)) (r : Rewrite)
        → Chooses context stream rules wanted operators r
        → IsWantedBy context operators rules wanted r }
{}

/// There are three things that a rewrite may do to the number of operators: where all of them are wanted, every rewrite is.
pub fn every_rewrite_is_wanted()
    ensures { (context : Context) (operators : List (Operator × ℕ)) (rules : List Rule)
        (r : Rewrite) → IsBy context operators rules r
        ↔ IsWantedBy context operators rules growths r }
{}

/// A generator's words write one body at most: with one rewrite, one text and one list of globals that it asks for, and they leave the
/// generator at one place (`one`). Where there is no rewrite of a body, no words choose one (`none`).
pub fn words_write_one_body()
    ensures one { (context : Context) (stream : Stream) (rules : List Rule) (wanted : List Growth)
        (input : List ℕ) (operators : List (Operator × ℕ)) (r q : Rewrite) (old new other : List ℕ)
        (asks others : List PrimitiveTypeInfo) (after later : Stream)
        → AppendsByWords context stream rules wanted input operators r old new asks after
        → AppendsByWords context stream rules wanted input operators q old other others later
        → (r ≡ q) × (new ≡ other) × (asks ≡ others) × (after ≡ later) }
    ensures none { (context : Context) (stream : Stream) (rules : List Rule) (wanted : List Growth)
        (operators : List (Operator × ℕ)) (r : Rewrite)
        → HasNoRewrite context rules wanted operators
        → ¬ (Chooses context stream rules wanted operators r) }
{
    one_change();
    words_choose_one_rewrite();
}

/// Every rewrite that makes something is among those that may be asked of the body.
pub fn rewrites_are_asked()
    ensures { (context : Context) (operators : List (Operator × ℕ)) (r : Rewrite)
        → IsMade context operators r → Contains (asked_below (length operators)) r }
{}

/// What `Row::growth` tells of a row is so of its rewrites: by one that shrinks there are fewer operators, by one that keeps as many
/// (`told`). How many there are doesn't go by the word that is drawn (`any_word`).
pub fn growths_are_told()
    ensures told { (context : Context) (operators : List (Operator × ℕ)) (r : Rewrite) (row : Row)
        (told : RowGrowth) (growth : Growth) → slice_get ROWS r.row ≡ Some row
        → GrowsAs row told → HasGrowth context operators growth r → IsAsTold told growth }
    ensures any_word { (context : Context) (operators : List (Operator × ℕ)) (r : Rewrite)
        (change : Change) (word : ℕ) → IsMadeBy context operators r change
        → length (pieces_operators (without_offsets operators) (change.pieces word))
        ≡ length (pieces_operators (without_offsets operators) (change.pieces 0)) }
{
    table_is_right();
    holes_are_told();
    sides_are_parts();
    parts_are_the_code();
    besides_keep_code();
}
