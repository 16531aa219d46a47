//! What holds of the forest of every block. A function here does nothing: its contract is the laws.

ghost use Rattle.peephole_graphs.specs.Layout.{KeepsTheTerm};
ghost use Rattle.peephole_graphs.specs.Shown.{ShowsTheForest, ShowsTheOrder, ShowsTheColor};
ghost use Rattle.peephole_graphs.specs.Block.{FindsTheBlock, FindsNoBlock};
ghost use Rattle.peephole_graphs.specs.Dfg.{KeepsItsBlock};
ghost use Rattle.peephole_graphs.specs.EntryTrees.{EndsWithTheLastTree, HasOwnTree, IsEntryOperand, HasChildrenBefore};
ghost use Rattle.peephole_graphs.specs.Faults.{HasNoFault, FindsNoGraph, FindsUnknown, FindsTooLarge};
ghost use Rattle.peephole_graphs.specs.Forest.{DecidesTheOrder};
ghost use Rattle.peephole_graphs.specs.TermOf.{HasTermsOfTrees};
ghost use Rattle.peephole_graphs.specs.Laws.{HasSameTrees, IsWrittenInOrder, StaysWhenWrittenAgain, OrderIsTogether, OrderedIsPostfix};

/// A block that is written with its own trees has the same trees, renumbered by the new places (`same`), is in order
/// (`order`), and is written again the same (`again`). A block is in order exactly where the operators of each operator's
/// tree have consecutive numbers (`together`), and is then its trees in postfix, one after another (`postfix`).
pub fn laws_of_forests()
    ensures same { HasSameTrees }
    ensures order { IsWrittenInOrder }
    ensures again { StaysWhenWrittenAgain }
    ensures together { OrderIsTogether }
    ensures postfix { OrderedIsPostfix }
{}

/// The term of what is laid out is the term that was laid out.
pub fn layout_keeps_the_term()
    ensures { KeepsTheTerm }
{}

/// A block's graph shows its forest: its text is the text of the forest, told by the trees alone (`text`); its trees lie one
/// after another exactly where the block's do (`order`); and a test of the forest's last tree decides whether all entries of
/// the last operator's tree have one colour (`color`).
pub fn graph_shows_the_forest()
    ensures text { ShowsTheForest }
    ensures order { ShowsTheOrder }
    ensures color { ShowsTheColor }
{}

/// A copy of a block's graph, as `clone` makes it, is a graph of the same block.
pub fn copies_keep_the_block()
    ensures { KeepsItsBlock }
{}

/// The tree of an entry with an instruction is its operator over its children's trees (`own`), that of a missing operand is
/// an entry operand (`missing`), and children stand before their parent (`before`). The last entry's tree is the last one of
/// the block's forest (`last`).
pub fn entries_have_trees()
    ensures last { EndsWithTheLastTree }
    ensures own { HasOwnTree }
    ensures missing { IsEntryOperand }
    ensures before { HasChildrenBefore }
{}

/// The term of each entry of a block's graph stands for the entry's tree: its nodes have the instructions of the tree's
/// operators, and entry operands are `Undef`.
pub fn terms_stand_for_trees()
    ensures { HasTermsOfTrees }
{}

/// `block_at` finds the block of an operator (`block`), and none exactly where the operator is a delimiter (`none`).
pub fn blocks_are_found()
    ensures block { FindsTheBlock }
    ensures none { FindsNoBlock }
{}

/// `fault_of` finds why operators have no graph: nothing exactly where they fit and are small (`none`), and otherwise the
/// fault of the first operator at fault: that no graph holds it (`no_graph`), that it calls a function that isn't known
/// (`unknown`), or that its index or its colour does not fit (`too_large`).
pub fn faults_are_found()
    ensures none { HasNoFault }
    ensures no_graph { FindsNoGraph }
    ensures unknown { FindsUnknown }
    ensures too_large { FindsTooLarge }
{}

/// `is_in_order` decides whether the trees of a block lie one after another.
pub fn order_is_decided()
    ensures { DecidesTheOrder }
{}
