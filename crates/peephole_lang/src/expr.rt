//! Expressions: nodes in a list, of which the last is the root.
use crate::language::Language;
use mutate_base::Error;
use peephole_nodes::Id;
use std::alloc::Global;
use std::marker::Model;

/// Nodes, each of which has its children before it. The last one is the root.
#[derive(Drop)]
pub struct RecExpr<L: Language> {
    nodes: Vec<L>,
}

impl<L: Language> Model for RecExpr<L> {
    ghost use Rattle.std.specs.Prelude.{List};
    ghost use Rattle.peephole_lang.specs.Term.{AreBelow, nodes_of};

    ghost Value = { List L };

    ghost view = { λ e. e.nodes.items };

    ghost invariant = { λ e. AreBelow (nodes_of L.head L.children e.nodes.items) };
}

impl<L: Language> RecExpr<L> {
    ghost use Rattle.std.specs.Prelude.{◌≡◌, ◌<◌, ◌^◌, ◌++◌, ◌∷◌, [], length, IfOk, IfErr, OnErr, nat_lt, if◌then◌else◌};
    ghost use Rattle.std.specs.List.{All};
    ghost use Rattle.peephole_lang.specs.Term.{AreBelow, nodes_of};

    /// No nodes. `alloc` is where their memory will come from.
    pub fn new(alloc: Global) -> RecExpr<L>
        ensures { result ≡ [] }
    {
        RecExpr {
            nodes: Vec::new(alloc),
        }
    }

    /// Puts a node behind the others, and answers its place.
    ///
    /// Condition: each child's id is below `len()`. `TooLarge` where the place passes 32 bits, `Memory` where an
    /// allocation was refused; the expression is then unchanged.
    pub fn add(&mut self, node: L) -> Result<Id, Error>
        requires { All (λ child. child < length self.old) (L.children node) }
        ensures place { IfOk result (λ id. id.0 ≡ length self.old) }
        ensures added { IfOk result (λ _. self.new ≡ self.old ++ node ∷ []) }
        ensures err { IfErr result
            (λ e. e ≡ (if nat_lt (length self.old)
            (2 ^ 32) then Error.Memory else Error.TooLarge)) }
        ensures unchanged { OnErr result (self.new ≡ self.old) }
    {
        let place = self.nodes.len();
        if place > u32::MAX as usize {
            return Err(Error::TooLarge);
        }
        match self.nodes.push(node) {
            Ok(()) => Ok(Id(place as u32)),
            Err(_) => Err(Error::Memory),
        }
    }

    /// The nodes, in the order in which they were added.
    pub fn as_ref(&self) -> &[L]
        ensures nodes { result.now ≡ self.now }
        ensures below { AreBelow (nodes_of L.head L.children self.now) }
    {
        &self.nodes
    }

    /// How many nodes there are.
    pub fn len(&self) -> usize
        ensures { result ≡ length self.now }
    {
        self.nodes.len()
    }
}
