//! What an expression asks of its nodes.
ghost use Rattle.std.specs.Prelude.{◌≡◌, ℕ, List, length, Bool, Some, Result, Ok, IfOk, IfErr};
ghost use Rattle.std.specs.Bool.{Decides};
ghost use Rattle.std.specs.Borrow.{sem, Lends, Array};
ghost use Rattle.std.specs.Cmp.{IsEquivalence};
ghost use Rattle.peephole_payloads.specs.declared.term_error.TermError.{TermError};
ghost use Rattle.peephole_nodes.specs.contracts.id.Id as id_row;
ghost use Rattle.peephole_nodes.specs.declared.id.Id.{Id};
ghost use Rattle.peephole_lang.specs.Term.{numbers_of};
ghost use Rattle.peephole_lang.specs.Language.{IsSame, IsAlike, ReadsInto};

use mutate_base::Error;
use peephole_nodes::Id;
use peephole_payloads::TermError;
use std::fmt::Display;

/// A kind of nodes, each of which names its children, and displays as a text that says all but these.
pub trait Language: Display + Drop {
    /// What a node is, apart from its children.
    type Head;

    ghost head: { Self → Self.Head };

    // the ids of the children, the first operand first
    ghost ids: { Self → List Id };

    // the places that they name
    ghost children: { Self → List ℕ };

    // what it displays as
    ghost text: { Self → List ℕ };

    // the head that a text reads as, given that many children, or the refusal
    ghost reads: { List ℕ → ℕ → Result Self.Head TermError };

    // both say the same and have as many children
    ghost matches: { Self → Self → Bool };

    // the node with these children in the place of its own
    ghost with_ids: { Self → List Id → Self };

    // Equal, but for how much memory a list keeps for more. The laws tie it to what a node is and its children: how near it
    // comes to one and the same value beyond these is for each kind of nodes to show.
    ghost IsEqual: { Self → Self → Type 0 };

    // its numbers are of their types, and it has as many children as it should
    ghost IsNode: { Self → Type 0 };

    /// The ids of the children, the first operand first.
    fn children(&self) -> &[Id]
        ensures value { numbers_of result.now ≡ children self.now }
        ensures ids { result.now ≡ ids self.now }
        ensures node { IsNode self.now };

    /// The same ids, to be written. The node then says what it said, and has the children that were written last.
    fn children_mut(&mut self) -> &mut [Id]
        ensures* lends { sem 𝓛 (Lends Self.row (Array id_row.the_row 0) self.entry result
            (with_ids self.old)) }
        ensures value { result.now ≡ ids self.old };

    /// Whether both nodes say the same and have as many children, whichever these are.
    fn matches(&self, other: &Self) -> bool
        ensures { result ≡ matches self.now other.now };

    /// The node whose text this is, with these children, the first operand first.
    fn from_op_str(op_str: &str, given: Vec<Id>) -> Result<Self, TermError>
        ensures { ReadsInto head ids reads op_str.now given.items result };

    /// The same node again, or `Memory` where an allocation was refused.
    fn clone_node(&self) -> Result<Self, Error>
        ensures node { IfOk result (λ l. IsSame head ids self.now l) }
        ensures err { IfErr result (λ e. e ≡ Error.Memory) };

    // the places of the children are those that their ids name
    ghost numbers: { (l : Self) → children l ≡ numbers_of (ids l) };

    // what a node is decides its text
    ghost says: { (l m : Self) → head l ≡ head m → text l ≡ text m };

    // a node displays as its text
    ghost displays: { (l : Self) → Self.output l ≡ Some (text l) };

    // two nodes match exactly where they say the same and have as many children
    ghost matches_exactly: { (l m : Self) → Decides (matches l m) (IsAlike head ids l m) };

    ghost matches_equivalence: { IsEquivalence matches };

    // what a node is and its children decide the node
    ghost determined: { (l m : Self) → head l ≡ head m → ids l ≡ ids m → IsEqual l m };

    // equal nodes say the same, and have the same children
    ghost equal_says: { (l m : Self) → IsEqual l m → IsSame head ids l m };

    // a node with other children says the same
    ghost keeps_head: { (l : Self) (w : List Id) → head (with_ids l w) ≡ head l };

    // and has these
    ghost has_written: { (l : Self) (w : List Id) → length w ≡ length (ids l) → ids (with_ids l w) ≡ w };

    // what a node's text reads as, with its children, is that node
    ghost text_reads_back: { (l : Self) → IsNode l → reads (text l) (length (ids l)) ≡ Ok (head l) };
}
