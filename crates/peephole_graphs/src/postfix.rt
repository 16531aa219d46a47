//! A walk over a tree in postfix that does not recurse.

ghost use Rattle.std.specs.Prelude.{◌≡◌, ◌∷◌, ◌++◌, [], OnOk, OnErr, MatchOption};
ghost use Rattle.peephole_lang.specs.Term.{numbers_of};
ghost use Rattle.peephole_graphs.specs.Postfix.{turns_of};

use peephole_lang::Id;
use std::alloc::{AllocError, Global};
use std::marker::Model;

/// What comes next on a walk.
#[derive(Clone, Copy)]
pub enum Turn {
    /// A child, to be entered.
    Child(usize),
    /// A node itself, behind its children's trees.
    Own(usize),
}

// A node on the way down, and its children that are still to come.
#[derive(Clone, Copy)]
struct Frame<'a> {
    node: usize,
    rest: &'a [Id],
}

/// A walk over a tree of nodes in postfix, with no recursion: it holds the way down to where it stands, so its memory is
/// linear in the tree's depth. Who walks enters the root, and then each child that comes.
///
/// A contract sees the turns that are left, the next one first.
#[derive(Drop)]
pub struct Postfix<'a> {
    frames: Vec<Frame<'a>>,
}

impl<'a> Model for Postfix<'a> {
    ghost use Rattle.std.specs.Prelude.{List, reverse};
    ghost use Rattle.std.specs.List.{flat_map};
    ghost use Rattle.peephole_lang.specs.Term.{numbers_of};
    ghost use Rattle.peephole_graphs.specs.declared.postfix.Turn.{Turn};
    ghost use Rattle.peephole_graphs.specs.Postfix.{turns_of};

    ghost Value = { List Turn };

    ghost view = { λ walk. flat_map (λ frame. turns_of frame.node (numbers_of frame.rest.now)) (reverse walk.frames.items) };
}

impl<'a> Postfix<'a> {
    /// A walk that stands nowhere yet.
    pub fn new(alloc: Global) -> Postfix<'a>
        ensures { result ≡ [] }
    {
        Postfix {
            frames: Vec::new(alloc),
        }
    }

    /// Goes down to a node with these children: they come next, in order, and then the node itself. Refused for want of memory
    /// alone (`AllocError`); the walk is then as it was.
    pub fn enter(&mut self, node: usize, children: &'a [Id]) -> Result<(), AllocError>
        ensures entered { OnOk result
            (self.new ≡ turns_of node (numbers_of children.now) ++ self.old) }
        ensures refused { OnErr result (self.new ≡ self.old) }
    {
        self.frames.push(Frame {
            node,
            rest: children,
        })?;
        Ok(())
    }

    /// The turn that comes next, which is then no longer left; none at the end.
    pub fn advance(&mut self) -> Option<Turn>
        ensures { MatchOption result ((self.old ≡ []) × (self.new ≡ []))
            (λ turn. self.old ≡ turn ∷ self.new) }
    {
        let frame = self.frames.pop()?;
        match frame.rest {
            [] => Some(Turn::Own(frame.node)),
            [child, rest @ ..] => {
                self.frames.push_reserved(Frame {
                    node: frame.node,
                    rest,
                });
                Some(Turn::Child(child.0 as usize))
            }
        }
    }
}
