//! Nodes of vector instructions, seen as place, payload and children, and their children lent to be written.
ghost use Rattle.std.specs.Prelude.{◌≡◌, length};
ghost use Rattle.std.specs.Borrow.{sem};
ghost use Rattle.peephole_nodes.specs.Simd.{simd_place_of, simd_payload_of, simd_ids_of, simd_count_of};
ghost use Rattle.peephole_nodes.specs.Lending.{LendsSimdIds};
ghost use Rattle.peephole_nodes.specs.declared.payload.Payload.TheVariants as P;

use crate::id::Id;
use crate::lending::no_children;
use crate::payload::Payload;
use crate::simd::Simd;
use crate::simd_variants::{simd_group, simd_groups, simd_payload_groups};
use peephole_payloads::{MemArg, MemArgLane};
use std::slice;

macro_rules! places {
    (($node:expr) $({ $said:tt $payload:expr } { $holds:tt $children:expr, $lent:expr } [$($name:ident $place:literal,)*])*) => {
        match $node {
            Simd::V128(..) => 213,
            $($(Simd::$name(..) => $place,)*)*
        }
    };
}

macro_rules! payloads {
    (($node:expr) $({ $said:tt $payload:expr } { $holds:tt $children:expr, $lent:expr } [$($name:ident $place:literal,)*])*) => {
        match $node {
            Simd::V128(payload) => Payload::V128(*payload),
            $($(Simd::$name $said)|* => $payload,)*
            _ => Payload::Nothing,
        }
    };
}

macro_rules! children {
    (($node:expr) $({ $said:tt $payload:expr } { $holds:tt $children:expr, $lent:expr } [$($name:ident $place:literal,)*])*) => {
        match $node {
            Simd::V128(..) => &[],
            $($(Simd::$name $holds)|* => $children,)*
        }
    };
}

macro_rules! lent_children {
    (($node:expr) $({ $said:tt $payload:expr } { $holds:tt $children:expr, $lent:expr } [$($name:ident $place:literal,)*])*) => {
        match $node {
            Simd::V128(_) => no_children($node),
            $($(Simd::$name $holds => $lent,)*)*
        }
    };
}

// The payload of a lane and a memory argument, which stand side by side in a node.
#[inline(always)]
fn memory_lane(lane: u8, memarg: MemArg) -> Payload
    ensures { result ≡ P.MemoryLane (record { memarg = memarg; lane = lane }) }
{
    Payload::MemoryLane(MemArgLane { memarg, lane })
}

impl Simd {
    /// The place of its variant in the order of nodes.
    #[inline(always)]
    #[tactic(auto, unfolding(crate::specs::Simd::simd_place_of))]
    pub fn place(&self) -> u16
        ensures { result ≡ simd_place_of self.now }
    {
        simd_groups!(places(self))
    }

    /// What it says besides its variant and its children.
    #[tactic(auto, unfolding(crate::specs::Simd::simd_payload_of))]
    pub fn payload(&self) -> Payload
        ensures { result ≡ simd_payload_of self.now }
    {
        simd_payload_groups!(payloads(self))
    }

    /// The ids of the children, the first operand first.
    #[tactic(auto, unfolding(crate::specs::Simd::simd_children, crate::specs::Simd::simd_count_of))]
    pub fn children(&self) -> &[Id]
        ensures value { result.now ≡ simd_ids_of self.now }
        ensures count { length result.now ≡ simd_count_of self.now }
    {
        simd_groups!(children(self))
    }

    /// The ids of the children, the first operand first, to be written.
    #[tactic(auto, unfolding(crate::specs::Simd::simd_children, crate::specs::Simd::simd_with_ids))]
    pub fn children_mut(&mut self) -> &mut [Id]
        ensures* lends { sem 𝓛 (LendsSimdIds self.entry result) }
        ensures value { result.now ≡ simd_ids_of self.old }
    {
        simd_groups!(lent_children(self))
    }
}
