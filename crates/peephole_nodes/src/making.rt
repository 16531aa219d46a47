//! Numeric and vector nodes made of a place, a payload and children.
ghost use Rattle.std.specs.Prelude.{◌≡◌, IfSome, IfNone, is_some, length, [], ◌∷◌};
ghost use Rattle.peephole_nodes.specs.Numeric.{numeric_place_of, numeric_ids_of, numeric_count_of};
ghost use Rattle.peephole_nodes.specs.NumericShapes.{is_numeric_node};
ghost use Rattle.peephole_nodes.specs.Simd.{simd_place_of, simd_payload_of, simd_ids_of, simd_count_of};
ghost use Rattle.peephole_nodes.specs.SimdShapes.{is_simd_plain_two, is_simd_plain, is_simd};
ghost use Rattle.peephole_nodes.specs.Made.{LacksNumeric, LacksSimd};
ghost use Rattle.peephole_nodes.specs.declared.payload.Payload.TheVariants as P;

use crate::id::Id;
use crate::numeric::Numeric;
use crate::payload::Payload;
use crate::simd::Simd;
use crate::{numeric_shapes as numeric, simd_shapes as simd};
use peephole_payloads::MemArg;

impl Numeric {
    /// The numeric node with this place and these children, or None where no numeric node has this place and so many
    /// children.
    #[inline(always)]
    pub fn make(place: u16, children: &[Id]) -> Option<Numeric>
        ensures place { IfSome result (λ l. numeric_place_of l ≡ place) }
        ensures children { IfSome result (λ l. numeric_ids_of l ≡ children.now) }
        ensures count { IfSome result (λ l. numeric_count_of l ≡ length children.now) }
        ensures none { IfNone result (LacksNumeric place (length children.now)) }
        ensures complete { is_some result ≡ is_numeric_node place (length children.now) }
    {
        numeric_of(place, children)
    }
}

impl Simd {
    /// The vector node with this place, payload and children, or None where no vector node has this place, this payload
    /// and so many children.
    pub fn make(place: u16, payload: Payload, children: &[Id]) -> Option<Simd>
        ensures place { IfSome result (λ l. simd_place_of l ≡ place) }
        ensures payload { IfSome result (λ l. simd_payload_of l ≡ payload) }
        ensures children { IfSome result (λ l. simd_ids_of l ≡ children.now) }
        ensures count { IfSome result (λ l. simd_count_of l ≡ length children.now) }
        ensures none { IfNone result (LacksSimd place payload (length children.now)) }
        ensures complete { is_some result ≡ is_simd place payload (length children.now) }
    {
        simd_of(place, payload, children)
    }

    /// The vector node with this place, no payload and these children, or None where there is none.
    #[inline(always)]
    pub fn make_plain(place: u16, children: &[Id]) -> Option<Simd>
        ensures place { IfSome result (λ l. simd_place_of l ≡ place) }
        ensures payload { IfSome result (λ l. simd_payload_of l ≡ P.Nothing) }
        ensures children { IfSome result (λ l. simd_ids_of l ≡ children.now) }
        ensures count { IfSome result (λ l. simd_count_of l ≡ length children.now) }
        ensures complete { is_some result ≡ is_simd_plain place (length children.now) }
    {
        match children {
            [child] => match simd::simd_plain_one_to_383(place, *child) {
                Some(node) => Some(node),
                None => simd::simd_plain_one_from_384(place, *child),
            },
            [first, second] => simd_two(place, *first, *second),
            [first, second, third] => simd::simd_plain_three(place, *first, *second, *third),
            _ => None,
        }
    }

    /// The vector node with this place, a memory argument and these children, or None where there is none.
    pub fn make_memory(place: u16, memarg: MemArg, children: &[Id]) -> Option<Simd>
        ensures place { IfSome result (λ l. simd_place_of l ≡ place) }
        ensures payload { IfSome result (λ l. simd_payload_of l ≡ P.Memory memarg) }
        ensures children { IfSome result (λ l. simd_ids_of l ≡ children.now) }
        ensures count { IfSome result (λ l. simd_count_of l ≡ length children.now) }
        ensures complete { is_some result ≡ is_simd place (P.Memory memarg) (length children.now) }
    {
        match children {
            [child] => simd::simd_memory_one(place, memarg, *child),
            [first, second] => simd::simd_memory_two(place, memarg, *first, *second),
            _ => None,
        }
    }
}

// The numeric node with this place and these children.
fn numeric_of(place: u16, children: &[Id]) -> Option<Numeric>
    ensures place { IfSome result (λ l. numeric_place_of l ≡ place) }
    ensures children { IfSome result (λ l. numeric_ids_of l ≡ children.now) }
    ensures count { IfSome result (λ l. numeric_count_of l ≡ length children.now) }
    ensures complete { is_some result ≡ is_numeric_node place (length children.now) }
{
    match children {
        [child] => match numeric::numeric_plain_one_to_171(place, *child) {
            Some(node) => Some(node),
            None => numeric::numeric_plain_one_from_172(place, *child),
        },
        [first, second] => match numeric::numeric_plain_two_to_100(place, *first, *second) {
            Some(node) => Some(node),
            None => numeric::numeric_plain_two_from_101(place, *first, *second),
        },
        _ => None,
    }
}

// The vector node with this place, payload and children.
fn simd_of(place: u16, payload: Payload, children: &[Id]) -> Option<Simd>
    ensures place { IfSome result (λ l. simd_place_of l ≡ place) }
    ensures payload { IfSome result (λ l. simd_payload_of l ≡ payload) }
    ensures children { IfSome result (λ l. simd_ids_of l ≡ children.now) }
    ensures count { IfSome result (λ l. simd_count_of l ≡ length children.now) }
    ensures complete { is_some result ≡ is_simd place payload (length children.now) }
{
    match (payload, children) {
        (Payload::Nothing, _) => Simd::make_plain(place, children),
        (Payload::Lane(lane), [child]) => simd::simd_lane_one(place, lane, *child),
        (Payload::Lane(lane), [first, second]) => simd::simd_lane_two(place, lane, *first, *second),
        (Payload::V128(number), []) => simd::simd_v128_leaf(place, number),
        (Payload::Memory(memarg), _) => Simd::make_memory(place, memarg, children),
        (Payload::MemoryLane(memarg), [first, second]) => simd::simd_memory_lane_two(
            place, memarg, *first, *second,
        ),
        (Payload::Shuffle(shuffle), [first, second]) => simd::simd_shuffle_two(
            place, shuffle, *first, *second,
        ),
        _ => None,
    }
}

// A vector node without payload, of two children.
fn simd_two(place: u16, first: Id, second: Id) -> Option<Simd>
    ensures place { IfSome result (λ l. simd_place_of l ≡ place) }
    ensures payload { IfSome result (λ l. simd_payload_of l ≡ P.Nothing) }
    ensures children { IfSome result (λ l. simd_ids_of l ≡ first ∷ second ∷ []) }
    ensures count { IfSome result (λ l. simd_count_of l ≡ 2) }
    ensures complete { is_some result ≡ is_simd_plain_two place }
{
    if let Some(node) = simd::simd_plain_two_to_279(place, first, second) {
        return Some(node);
    }
    if let Some(node) = simd::simd_plain_two_280_to_370(place, first, second) {
        return Some(node);
    }
    if let Some(node) = simd::simd_plain_two_371_to_428(place, first, second) {
        return Some(node);
    }
    simd::simd_plain_two_from_429(place, first, second)
}
