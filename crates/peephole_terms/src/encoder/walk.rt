//! The walk over a tree of nodes, which writes it.

ghost use Rattle.std.specs.Prelude.{◌≡◌};
ghost use Rattle.peephole_lang.specs.Node.{head_of, children_of};
ghost use Rattle.peephole_lang.specs.Term.{numbers_of};
ghost use Rattle.peephole_terms.specs.NodeKind.{is_unfold, node_kind};
ghost use Rattle.peephole_terms.specs.EncoderSteps.{children_to_write};

use super::holds::Holds;
use super::writer::Writer;
use mutate_base::Error;
use peephole_graphs::{Postfix, Turn};
use peephole_lang::{Id, Lang};
use rand_core::Rng;

// Whether a node is an unfold.
fn is_unfold(node: &Lang) -> bool
    ensures { result ≡ is_unfold (node_kind (head_of node.now)) }
{
    match node {
        Lang::UnfoldI32(_) | Lang::UnfoldI64(_) => true,
        _ => false,
    }
}

// The children that are written: not those of an unfold.
fn children_to_write(node: &Lang) -> &[Id]
    ensures { numbers_of result.now
        ≡ children_to_write (node_kind (head_of node.now)) (children_of node.now) }
{
    if is_unfold(node) {
        return &[];
    }
    node.children()
}

impl<R: Rng> Writer<'_, R> {
    ghost use Rattle.std.specs.Prelude.{◌≡◌, ◌<◌, [], OnOk, length};
    ghost use Rattle.peephole_lang.specs.Term.{AreBelow, tree_at};
    ghost use Rattle.peephole_terms.specs.EncoderSteps.{nodes_in, steps_of};
    ghost use Rattle.peephole_terms.specs.Writer.{IsSame, Takes};

    /// Writes the tree of a node, in postfix, by a walk that stands nowhere, and then stands nowhere again. It goes down to
    /// nodes with children to write alone, and asks for memory where it goes further down than for the trees before.
    pub(crate) fn write_tree_by<'n, N: Holds>(
        &mut self,
        walk: &mut Postfix<'n>,
        nodes: &'n [N],
        root: usize,
    ) -> Result<(), Error>
        requires rests { walk.old ≡ [] }
        requires root { root < length nodes.now }
        requires below { AreBelow (nodes_in N.held nodes.now) }
        ensures taken { Takes R.stream (steps_of (tree_at (nodes_in N.held nodes.now) root))
            self.old self.new result }
        ensures same { IsSame self.old self.new }
        ensures rests { OnOk result (walk.new ≡ []) }
    {
        let node = nodes[root].node();
        let children = children_to_write(node);
        if children.is_empty() {
            return self.write_own(nodes, node);
        }
        walk.enter(root, children)?;
        while let Some(turn) = walk.advance() {
            match turn {
                Turn::Child(index) => {
                    let node = nodes[index].node();
                    let children = children_to_write(node);
                    if children.is_empty() {
                        self.write_own(nodes, node)?;
                    } else {
                        walk.enter(index, children)?;
                    }
                }
                Turn::Own(index) => {
                    let node = nodes[index].node();
                    self.write_own(nodes, node)?;
                }
            }
        }
        Ok(())
    }

    /// Writes the tree of a node, in postfix.
    pub(crate) fn write_tree<N: Holds>(&mut self, nodes: &[N], root: usize) -> Result<(), Error>
        requires root { root < length nodes.now }
        requires below { AreBelow (nodes_in N.held nodes.now) }
        ensures taken { Takes R.stream (steps_of (tree_at (nodes_in N.held nodes.now) root))
            self.old self.new result }
        ensures same { IsSame self.old self.new }
    {
        self.write_tree_by(&mut Postfix::new(self.alloc), nodes, root)
    }
}
