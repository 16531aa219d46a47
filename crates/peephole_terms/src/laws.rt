//! What holds of written bodies, of runs, and of the forest of every block. A function here does nothing: its contract is the laws.

ghost use Rattle.peephole_terms.specs.Agrees.{IsCongruence, LeavesItsTypes};
ghost use Rattle.peephole_terms.specs.Known.{KnownStayKnown};
ghost use Rattle.peephole_terms.specs.Laws.{HaveTheirOpcodes, MeanByTheirRows, UnfoldsAddUp, RefusesByName, TreesAreWrittenAsTheyAre, OwnTreesAreKept, OperatorsHaveEntries};
ghost use Rattle.peephole_terms.specs.OwnBytes.{OwnBytesStay};
ghost use Rattle.peephole_terms.specs.SameAnswers.{TermAnswersAreTheSame, BodyAnswersAreTheSame};
ghost use Rattle.peephole_terms.specs.SameRun.{IntegerBlocksAskNoWorld, IntegerBlocksRunAsBefore};
ghost use Rattle.peephole_terms.specs.StackCode.{IsStackCode};

pub use peephole_graphs::laws::{
    blocks_are_found, entries_have_trees, faults_are_found, graph_shows_the_forest,
    laws_of_forests, layout_keeps_the_term, order_is_decided, terms_stand_for_trees,
};
use wasm_code::laws::one_list;
pub use wasm_execution::laws::{
    following_code_keeps_runs_the_same, integer_rows_ask_no_world, requested_globals_free_nothing,
};

/// The instructions that are written for nodes without a row are those of the opcodes that belong to their names.
pub fn written_instructions()
    ensures { HaveTheirOpcodes }
{}

/// A term's expansion is refused where an unfold lacks its constant or a global's index doesn't fit, and for nothing else.
pub fn expansions_refuse_by_name()
    ensures { RefusesByName }
{}

/// The wrapping sum of an unfold's two constants is its number, whatever word is drawn, at 32 bits and at 64.
pub fn unfolds_add_up()
    ensures { UnfoldsAddUp }
{}

/// A typed term's instructions do what the term means, whatever words are drawn.
pub fn terms_are_stack_code()
    ensures { IsStackCode }
{}

/// Two calls of `expr2wasm` (`terms`), or of `build_function` (`bodies`), with equal arguments, under one module and with
/// the same words drawn, append the same bytes and answer the same requests, wherever both succeed.
pub fn equal_calls_answer_the_same()
    ensures terms { TermAnswersAreTheSame }
    ensures bodies { BodyAnswersAreTheSame }
{}

/// A block of integer rows on the context's variables that runs as before does so wherever its own run isn't stuck with further
/// globals behind the module's (`runs`), and its own run is the same in every world of the module (`worlds`).
pub fn integer_blocks_run_as_before()
    ensures runs { IntegerBlocksRunAsBefore }
    ensures worlds { IntegerBlocksAskNoWorld }
{
    requested_globals_free_nothing();
    integer_rows_ask_no_world();
}

/// A term that stands for a tree is written as the tree's instructions, draws nothing and asks for nothing.
pub fn trees_are_written_as_they_are()
    ensures { TreesAreWrittenAsTheyAre }
{}

/// A block that is written with its operator's own tree, or with a term that isn't written, is its own trees in postfix
/// (`kept`); and every operator of a block has its own entry, and so its own tree, in the block's graph (`entries`).
pub fn own_trees_are_kept()
    ensures kept { OwnTreesAreKept }
    ensures entries { OperatorsHaveEntries }
{}

/// A node with an instruction has the types that its row gives on its children's, and does with their values what its row does.
pub fn nodes_mean_by_their_rows()
    ensures { MeanByTheirRows }
{}

/// A typed term leaves values of its types, in a state of the variables' types, or traps; it is never stuck.
pub fn typed_terms_leave_their_types()
    ensures { LeavesItsTypes }
{}

/// Terms agree as an equivalence, a term that draws no word for all words; agreeing terms agree in every place of a term that
/// draws no other word; and a node may stand for another where its children may stand for the other's, one by one.
pub fn agreement_is_a_congruence()
    ensures { IsCongruence }
{}

/// A body that stands in two places has the same operators there, with the same bytes.
pub fn own_bytes_stay()
    ensures { OwnBytesStay }
{
    one_list();
}

/// A written body has known operators alone, and so is read again by `read_body`, where the old one had.
pub fn known_operators_stay_known()
    ensures { KnownStayKnown }
{}
