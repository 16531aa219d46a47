//! Nodes, seen as place, payload and children, and their children lent to be written.
ghost use Rattle.std.specs.Prelude.{◌≡◌, [], length};
ghost use Rattle.std.specs.Borrow.{sem, Lends, Array};
ghost use Rattle.peephole_nodes.specs.contracts.id.Id as id;
ghost use Rattle.peephole_lang.specs.contracts.lang.Lang.{the_row};
ghost use Rattle.peephole_lang.specs.Lang.{place_of, payload_of, ids_of, variant_child_count};
ghost use Rattle.peephole_lang.specs.Lending.{LendsIds};

use crate::lang::Lang;
use crate::lang_variants::lang_variants;
use peephole_nodes::{Id, Payload, no_children, only_child};
use std::slice;

macro_rules! places {
    (($node:expr)
        [$($bare:ident $bare_place:literal,)*]
        [$({ $payload:ident $said:expr } [$($leaf:ident $leaf_place:literal,)*])*]
        [$({ $told:tt $given:expr } { $held:tt $children:expr, $lent:expr } { $whole:tt $copied:tt }
            [$($name:ident $place:literal,)*])*]
    ) => {
        match $node {
            $(Lang::$bare => $bare_place,)*
            $($(Lang::$leaf(..) => $leaf_place,)*)*
            $($(Lang::$name(..) => $place,)*)*
            Lang::Numeric(node) => node.place(),
            Lang::Simd(node) => node.place(),
        }
    };
}

macro_rules! payloads {
    (($node:expr)
        [$($bare:ident $bare_place:literal,)*]
        [$({ $payload:ident $said:expr } [$($leaf:ident $leaf_place:literal,)*])*]
        [$({ $told:tt $given:expr } { $held:tt $children:expr, $lent:expr } { $whole:tt $copied:tt }
            [$($name:ident $place:literal,)*])*]
    ) => {
        match $node {
            $($(Lang::$leaf($payload))|* => $said,)*
            $($(Lang::$name $told)|* => $given,)*
            Lang::Simd(node) => node.payload(),
            _ => Payload::Nothing,
        }
    };
}

macro_rules! children {
    (($node:expr)
        [$($bare:ident $bare_place:literal,)*]
        [$({ $payload:ident $said:expr } [$($leaf:ident $leaf_place:literal,)*])*]
        [$({ $told:tt $given:expr } { $held:tt $children:expr, $lent:expr } { $whole:tt $copied:tt }
            [$($name:ident $place:literal,)*])*]
    ) => {
        match $node {
            $(Lang::$bare)|* => &[],
            $($(Lang::$leaf(..))|* => &[],)*
            $($(Lang::$name $held)|* => $children,)*
            Lang::Numeric(node) => node.children(),
            Lang::Simd(node) => node.children(),
        }
    };
}

macro_rules! lent_children {
    (($node:expr)
        [$($bare:ident $bare_place:literal,)*]
        [$({ $payload:ident $said:expr } [$($leaf:ident $leaf_place:literal,)*])*]
        [$({ $told:tt $given:expr } { $held:tt $children:expr, $lent:expr } { $whole:tt $copied:tt }
            [$($name:ident $place:literal,)*])*]
    ) => {
        match $node {
            $(Lang::$bare => lend_none($node),)*
            $($(Lang::$leaf(_) => lend_none($node),)*)*
            $($(Lang::$name $held => $lent,)*)*
            Lang::Numeric(node) => node.children_mut(),
            Lang::Simd(node) => node.children_mut(),
        }
    };
}

// No ids, lent out of a node that has none: the node stays as it was.
fn lend_none(node: &mut Lang) -> &mut [Id]
    ensures* lends { sem 𝓛 (Lends the_row (Array id.the_row 0) node.entry result (λ _. node.old)) }
    ensures value { result.now ≡ [] }
{
    no_children(node)
}

impl Lang {
    /// The place of its variant in the order of nodes.
    #[inline(always)]
    #[tactic(auto, unfolding(crate::specs::Lang::place_of))]
    pub fn place(&self) -> u16
        ensures { result ≡ place_of self.now }
    {
        lang_variants!(places(self))
    }

    /// What it says besides its variant and its children.
    #[tactic(auto, unfolding(crate::specs::Lang::payload_of))]
    pub fn payload(&self) -> Payload
        ensures { result ≡ payload_of self.now }
    {
        lang_variants!(payloads(self))
    }

    /// The ids of the children, the first operand first.
    #[tactic(auto, unfolding(crate::specs::Lang::ids_of, crate::specs::Lang::variant_child_count))]
    pub fn children(&self) -> &[Id]
        ensures value { result.now ≡ ids_of self.now }
        ensures count { length result.now ≡ variant_child_count self.now }
    {
        lang_variants!(children(self))
    }

    /// The ids of the children, the first operand first, to be written.
    #[tactic(auto, unfolding(crate::specs::Lang::ids_of, crate::specs::Lang::with_ids))]
    pub fn children_mut(&mut self) -> &mut [Id]
        ensures* lends { sem 𝓛 (LendsIds self.entry result) }
        ensures value { result.now ≡ ids_of self.old }
    {
        lang_variants!(lent_children(self))
    }
}
