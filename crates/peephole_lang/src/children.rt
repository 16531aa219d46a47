//! The children of a node as a value of its own: one id, several, or any number of them.
ghost use Rattle.std.specs.Prelude.{◌≡◌, ℕ, List, length, Option, None, refl};
ghost use Rattle.std.specs.Borrow.{sem, Lends, Array};
ghost use Rattle.std.specs.Vec.{with_items};
ghost use Rattle.peephole_payloads.specs.declared.term_error.TermError.{TermError};
ghost use Rattle.peephole_nodes.specs.contracts.id.Id as id_row;
ghost use Rattle.peephole_nodes.specs.declared.id.Id.{Id};
ghost use Rattle.peephole_nodes.specs.declared.arity.Arity.TheVariants as arity;
ghost use Rattle.peephole_lang.specs.Text.{wrong_count};
ghost use Rattle.peephole_nodes.specs.Written.{any_written};
ghost use Rattle.peephole_lang.specs.Children.{IsMadeOfIds, only, with_only, only_one, only_same, only_written};

use peephole_nodes::Id;
use peephole_payloads::TermError;

/// The children of a node: an `Id` where it has one, `[Id; N]` where it has N, `Vec<Id>` where it may have any number.
pub trait Children: Drop {
    // the ids, the first operand first
    ghost ids: { Self → List Id };

    // what is wrong with this many ids
    ghost wrong: { ℕ → Option TermError };

    // the value with these ids in the place of its own
    ghost with_ids: { Self → List Id → Self };

    // equal, but for how much memory a list keeps for more
    ghost IsSame: { Self → Self → Type 0 };

    /// The children that a list names, or what is wrong with their number: `ExpectedOneChild` with the number given,
    /// or `ExpectedChildren` with the number wanted.
    fn from(list: Vec<Id>) -> Result<Self, TermError>
        ensures { IsMadeOfIds ids wrong list.items result };

    /// The ids, the first operand first.
    fn as_slice(&self) -> &[Id]
        ensures value { result.now ≡ ids self.now }
        ensures count { wrong (length (ids self.now)) ≡ None };

    /// The same ids, to be written.
    fn as_slice_mut(&mut self) -> &mut [Id]
        ensures* lends { sem 𝓛 (Lends Self.row (Array id_row.the_row 0) self.entry result
            (with_ids self.old)) }
        ensures value { result.now ≡ ids self.old };

    // the ids determine the value
    ghost determined: { (c d : Self) → ids c ≡ ids d → IsSame c d };

    // and the value its ids
    ghost same_ids: { (c d : Self) → IsSame c d → ids c ≡ ids d };

    // what is written are the ids
    ghost has_written: { (c : Self) (w : List Id) → length w ≡ length (ids c) → ids (with_ids c w) ≡ w };
}

impl Children for Id {
    ghost ids = { only };

    ghost wrong = { wrong_count arity.One };

    ghost with_ids = { with_only };

    ghost IsSame = { λ c d. c ≡ d };

    fn from(list: Vec<Id>) -> Result<Id, TermError> {
        match list.as_slice() {
            [id] => Ok(*id),
            ids => Err(TermError::ExpectedOneChild(ids.len())),
        }
    }

    fn as_slice(&self) -> &[Id] {
        std::slice::from_ref(self)
    }

    fn as_slice_mut(&mut self) -> &mut [Id] {
        std::slice::from_mut(self)
    }

    ghost determined = { only_one };

    ghost same_ids = { only_same };

    ghost has_written = { only_written };
}

impl<const N: usize> Children for [Id; N] {
    ghost ids = { λ c. c };

    ghost wrong = { wrong_count (arity.Several N) };

    ghost with_ids = { λ _ w. w };

    ghost IsSame = { λ c d. c ≡ d };

    fn from(list: Vec<Id>) -> Result<[Id; N], TermError> {
        match list.as_slice().as_array::<N>() {
            Some(ids) => Ok(*ids),
            None => Err(TermError::ExpectedChildren(N)),
        }
    }

    fn as_slice(&self) -> &[Id] {
        self
    }

    fn as_slice_mut(&mut self) -> &mut [Id] {
        self.as_mut_slice()
    }

    ghost determined = { λ c d e. e };

    ghost same_ids = { λ c d e. e };

    ghost has_written = { λ c w e. refl };
}

impl Children for Vec<Id> {
    ghost ids = { λ c. c.items };

    ghost wrong = { λ _. None };

    ghost with_ids = { with_items };

    ghost IsSame = { λ c d. c.items ≡ d.items };

    fn from(list: Vec<Id>) -> Result<Vec<Id>, TermError> {
        Ok(list)
    }

    fn as_slice(&self) -> &[Id] {
        self.as_slice()
    }

    fn as_slice_mut(&mut self) -> &mut [Id] {
        self.as_mut_slice()
    }

    ghost determined = { λ c d e. e };

    ghost same_ids = { λ c d e. e };

    ghost has_written = { any_written };
}
