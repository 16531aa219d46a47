//! Nodes of numeric instructions, seen as place and children, and their children lent to be written.
ghost use Rattle.std.specs.Prelude.{◌≡◌, length};
ghost use Rattle.std.specs.Borrow.{sem};
ghost use Rattle.peephole_nodes.specs.Numeric.{numeric_place_of, numeric_ids_of, numeric_count_of};
ghost use Rattle.peephole_nodes.specs.Lending.{LendsNumericIds};

use crate::id::Id;
use crate::numeric::Numeric;
use crate::numeric_variants::{numeric_group, numeric_groups};

macro_rules! places {
    (($node:expr) $([$($name:ident $place:literal,)*])*) => {
        match $node {
            $($(Numeric::$name(..) => $place,)*)*
        }
    };
}

macro_rules! children {
    (($node:expr) $([$($name:ident $place:literal,)*])*) => {
        match $node {
            $($(Numeric::$name(children))|* => children,)*
        }
    };
}

macro_rules! lent_children {
    (($node:expr) $([$($name:ident $place:literal,)*])*) => {
        match $node {
            $($(Numeric::$name(children) => children.as_mut_slice(),)*)*
        }
    };
}

impl Numeric {
    /// The place of its variant in the order of nodes.
    #[inline(always)]
    #[tactic(auto, unfolding(crate::specs::Numeric::numeric_place_of))]
    pub fn place(&self) -> u16
        ensures { result ≡ numeric_place_of self.now }
    {
        numeric_groups!(places(self))
    }

    /// The ids of the children, the first operand first.
    #[tactic(auto, unfolding(crate::specs::Numeric::numeric_children, crate::specs::Numeric::numeric_count_of))]
    pub fn children(&self) -> &[Id]
        ensures value { result.now ≡ numeric_ids_of self.now }
        ensures count { length result.now ≡ numeric_count_of self.now }
    {
        numeric_groups!(children(self))
    }

    /// The ids of the children, the first operand first, to be written.
    #[tactic(auto, unfolding(crate::specs::Numeric::numeric_children, crate::specs::Numeric::numeric_with_ids))]
    pub fn children_mut(&mut self) -> &mut [Id]
        ensures* lends { sem 𝓛 (LendsNumericIds self.entry result) }
        ensures value { result.now ≡ numeric_ids_of self.old }
    {
        numeric_groups!(lent_children(self))
    }
}
