//! Vector nodes by place, one function for each kind of payload and number of children.
ghost use Rattle.std.specs.Prelude.{◌≡◌, IfSome, is_some, [], ◌∷◌};
ghost use Rattle.peephole_nodes.specs.Simd.{simd_place_of, simd_payload_of, simd_ids_of, simd_count_of};
ghost use Rattle.peephole_nodes.specs.SimdShapes.{is_simd_memory_one, is_simd_memory_two, is_simd_v128_leaf, is_simd_shuffle_two, is_simd_plain_one_to_383, is_simd_plain_one_from_384, is_simd_plain_two_to_279, is_simd_plain_two_280_to_370, is_simd_plain_two_371_to_428, is_simd_plain_two_from_429, is_simd_plain_three, is_simd_lane_one, is_simd_lane_two, is_simd_memory_lane_two};
ghost use Rattle.peephole_nodes.specs.declared.payload.Payload.TheVariants as P;

use crate::id::Id;
use crate::simd::Simd;
use crate::simd_variants::simd_group;
use peephole_payloads::{MemArg, MemArgLane, Shuffle};

// The node of the place, made of these fields; none at a place without one.
macro_rules! made {
    (($place:expr, $fields:tt) $said:tt $held:tt [$($name:ident $number:literal,)*]) => {
        match $place {
            $($number => Some(Simd::$name $fields),)*
            _ => None,
        }
    };
}

// The vector node of a place, with a memory argument and one child; none at a place without one.
#[tactic(auto, unfolding(crate::specs::SimdShapes::is_simd_memory_one, crate::specs::Simd::simd_place_of, crate::specs::Simd::simd_payload_of, crate::specs::Simd::simd_children, crate::specs::Simd::simd_count_of))]
pub(crate) fn simd_memory_one(place: u16, payload: MemArg, child: Id) -> Option<Simd>
    ensures place { IfSome result (λ l. simd_place_of l ≡ place) }
    ensures payload { IfSome result (λ l. simd_payload_of l ≡ P.Memory payload) }
    ensures children { IfSome result (λ l. simd_ids_of l ≡ child ∷ []) }
    ensures count { IfSome result (λ l. simd_count_of l ≡ 1) }
    ensures complete { is_some result ≡ is_simd_memory_one place }
{
    simd_group!(memory_one => made (place, (payload, child)))
}

// The vector node of a place, with a memory argument and two children; none at a place without one.
#[tactic(auto, unfolding(crate::specs::SimdShapes::is_simd_memory_two, crate::specs::Simd::simd_place_of, crate::specs::Simd::simd_payload_of, crate::specs::Simd::simd_children, crate::specs::Simd::simd_count_of))]
pub(crate) fn simd_memory_two(place: u16, payload: MemArg, first: Id, second: Id) -> Option<Simd>
    ensures place { IfSome result (λ l. simd_place_of l ≡ place) }
    ensures payload { IfSome result (λ l. simd_payload_of l ≡ P.Memory payload) }
    ensures children { IfSome result (λ l. simd_ids_of l ≡ first ∷ second ∷ []) }
    ensures count { IfSome result (λ l. simd_count_of l ≡ 2) }
    ensures complete { is_some result ≡ is_simd_memory_two place }
{
    simd_group!(memory_two => made (place, (payload, [first, second])))
}

// The vector constant, at its place; none at every other.
#[tactic(auto, unfolding(crate::specs::SimdShapes::is_simd_v128_leaf, crate::specs::Simd::simd_place_of, crate::specs::Simd::simd_payload_of, crate::specs::Simd::simd_children, crate::specs::Simd::simd_count_of))]
pub(crate) fn simd_v128_leaf(place: u16, payload: i128) -> Option<Simd>
    ensures place { IfSome result (λ l. simd_place_of l ≡ place) }
    ensures payload { IfSome result (λ l. simd_payload_of l ≡ P.V128 payload) }
    ensures children { IfSome result (λ l. simd_ids_of l ≡ []) }
    ensures count { IfSome result (λ l. simd_count_of l ≡ 0) }
    ensures complete { is_some result ≡ is_simd_v128_leaf place }
{
    match place {
        213 => Some(Simd::V128(payload)),
        _ => None,
    }
}

// The shuffle, at its place; none at every other.
#[tactic(auto, unfolding(crate::specs::SimdShapes::is_simd_shuffle_two, crate::specs::Simd::simd_place_of, crate::specs::Simd::simd_payload_of, crate::specs::Simd::simd_children, crate::specs::Simd::simd_count_of))]
pub(crate) fn simd_shuffle_two(place: u16, payload: Shuffle, first: Id, second: Id) -> Option<Simd>
    ensures place { IfSome result (λ l. simd_place_of l ≡ place) }
    ensures payload { IfSome result (λ l. simd_payload_of l ≡ P.Shuffle payload) }
    ensures children { IfSome result (λ l. simd_ids_of l ≡ first ∷ second ∷ []) }
    ensures count { IfSome result (λ l. simd_count_of l ≡ 2) }
    ensures complete { is_some result ≡ is_simd_shuffle_two place }
{
    simd_group!(shuffle_two => made (place, (payload, [first, second])))
}

// The vector node of a place up to 383, with one child and no payload; none at a place without one.
#[tactic(auto, unfolding(crate::specs::SimdShapes::is_simd_plain_one_to_383, crate::specs::Simd::simd_place_of, crate::specs::Simd::simd_payload_of, crate::specs::Simd::simd_children, crate::specs::Simd::simd_count_of))]
pub(crate) fn simd_plain_one_to_383(place: u16, child: Id) -> Option<Simd>
    ensures place { IfSome result (λ l. simd_place_of l ≡ place) }
    ensures payload { IfSome result (λ l. simd_payload_of l ≡ P.Nothing) }
    ensures children { IfSome result (λ l. simd_ids_of l ≡ child ∷ []) }
    ensures count { IfSome result (λ l. simd_count_of l ≡ 1) }
    ensures complete { is_some result ≡ is_simd_plain_one_to_383 place }
{
    simd_group!(plain_one_to_383 => made (place, ([child])))
}

// The vector node of a place from 384 on, with one child and no payload; none at a place without one.
#[tactic(auto, unfolding(crate::specs::SimdShapes::is_simd_plain_one_from_384, crate::specs::Simd::simd_place_of, crate::specs::Simd::simd_payload_of, crate::specs::Simd::simd_children, crate::specs::Simd::simd_count_of))]
pub(crate) fn simd_plain_one_from_384(place: u16, child: Id) -> Option<Simd>
    ensures place { IfSome result (λ l. simd_place_of l ≡ place) }
    ensures payload { IfSome result (λ l. simd_payload_of l ≡ P.Nothing) }
    ensures children { IfSome result (λ l. simd_ids_of l ≡ child ∷ []) }
    ensures count { IfSome result (λ l. simd_count_of l ≡ 1) }
    ensures complete { is_some result ≡ is_simd_plain_one_from_384 place }
{
    simd_group!(plain_one_from_384 => made (place, ([child])))
}

// The vector node of a place up to 279, with two children and no payload; none at a place without one.
#[tactic(auto, unfolding(crate::specs::SimdShapes::is_simd_plain_two_to_279, crate::specs::Simd::simd_place_of, crate::specs::Simd::simd_payload_of, crate::specs::Simd::simd_children, crate::specs::Simd::simd_count_of))]
pub(crate) fn simd_plain_two_to_279(place: u16, first: Id, second: Id) -> Option<Simd>
    ensures place { IfSome result (λ l. simd_place_of l ≡ place) }
    ensures payload { IfSome result (λ l. simd_payload_of l ≡ P.Nothing) }
    ensures children { IfSome result (λ l. simd_ids_of l ≡ first ∷ second ∷ []) }
    ensures count { IfSome result (λ l. simd_count_of l ≡ 2) }
    ensures complete { is_some result ≡ is_simd_plain_two_to_279 place }
{
    simd_group!(plain_two_to_279 => made (place, ([first, second])))
}

// The vector node of a place from 280 to 370, with two children and no payload; none at a place without one.
#[tactic(auto, unfolding(crate::specs::SimdShapes::is_simd_plain_two_280_to_370, crate::specs::Simd::simd_place_of, crate::specs::Simd::simd_payload_of, crate::specs::Simd::simd_children, crate::specs::Simd::simd_count_of))]
pub(crate) fn simd_plain_two_280_to_370(place: u16, first: Id, second: Id) -> Option<Simd>
    ensures place { IfSome result (λ l. simd_place_of l ≡ place) }
    ensures payload { IfSome result (λ l. simd_payload_of l ≡ P.Nothing) }
    ensures children { IfSome result (λ l. simd_ids_of l ≡ first ∷ second ∷ []) }
    ensures count { IfSome result (λ l. simd_count_of l ≡ 2) }
    ensures complete { is_some result ≡ is_simd_plain_two_280_to_370 place }
{
    simd_group!(plain_two_280_to_370 => made (place, ([first, second])))
}

// The vector node of a place from 371 to 428, with two children and no payload; none at a place without one.
#[tactic(auto, unfolding(crate::specs::SimdShapes::is_simd_plain_two_371_to_428, crate::specs::Simd::simd_place_of, crate::specs::Simd::simd_payload_of, crate::specs::Simd::simd_children, crate::specs::Simd::simd_count_of))]
pub(crate) fn simd_plain_two_371_to_428(place: u16, first: Id, second: Id) -> Option<Simd>
    ensures place { IfSome result (λ l. simd_place_of l ≡ place) }
    ensures payload { IfSome result (λ l. simd_payload_of l ≡ P.Nothing) }
    ensures children { IfSome result (λ l. simd_ids_of l ≡ first ∷ second ∷ []) }
    ensures count { IfSome result (λ l. simd_count_of l ≡ 2) }
    ensures complete { is_some result ≡ is_simd_plain_two_371_to_428 place }
{
    simd_group!(plain_two_371_to_428 => made (place, ([first, second])))
}

// The vector node of a place from 429 on, with two children and no payload; none at a place without one.
#[tactic(auto, unfolding(crate::specs::SimdShapes::is_simd_plain_two_from_429, crate::specs::Simd::simd_place_of, crate::specs::Simd::simd_payload_of, crate::specs::Simd::simd_children, crate::specs::Simd::simd_count_of))]
pub(crate) fn simd_plain_two_from_429(place: u16, first: Id, second: Id) -> Option<Simd>
    ensures place { IfSome result (λ l. simd_place_of l ≡ place) }
    ensures payload { IfSome result (λ l. simd_payload_of l ≡ P.Nothing) }
    ensures children { IfSome result (λ l. simd_ids_of l ≡ first ∷ second ∷ []) }
    ensures count { IfSome result (λ l. simd_count_of l ≡ 2) }
    ensures complete { is_some result ≡ is_simd_plain_two_from_429 place }
{
    simd_group!(plain_two_from_429 => made (place, ([first, second])))
}

// The vector node of a place, with three children; none at a place without one.
#[tactic(auto, unfolding(crate::specs::SimdShapes::is_simd_plain_three, crate::specs::Simd::simd_place_of, crate::specs::Simd::simd_payload_of, crate::specs::Simd::simd_children, crate::specs::Simd::simd_count_of))]
pub(crate) fn simd_plain_three(place: u16, first: Id, second: Id, third: Id) -> Option<Simd>
    ensures place { IfSome result (λ l. simd_place_of l ≡ place) }
    ensures payload { IfSome result (λ l. simd_payload_of l ≡ P.Nothing) }
    ensures children { IfSome result (λ l. simd_ids_of l ≡ first ∷ second ∷ third ∷ []) }
    ensures count { IfSome result (λ l. simd_count_of l ≡ 3) }
    ensures complete { is_some result ≡ is_simd_plain_three place }
{
    simd_group!(plain_three => made (place, ([first, second, third])))
}

// The vector node of a place, with a lane and one child; none at a place without one.
#[tactic(auto, unfolding(crate::specs::SimdShapes::is_simd_lane_one, crate::specs::Simd::simd_place_of, crate::specs::Simd::simd_payload_of, crate::specs::Simd::simd_children, crate::specs::Simd::simd_count_of))]
pub(crate) fn simd_lane_one(place: u16, payload: u8, child: Id) -> Option<Simd>
    ensures place { IfSome result (λ l. simd_place_of l ≡ place) }
    ensures payload { IfSome result (λ l. simd_payload_of l ≡ P.Lane payload) }
    ensures children { IfSome result (λ l. simd_ids_of l ≡ child ∷ []) }
    ensures count { IfSome result (λ l. simd_count_of l ≡ 1) }
    ensures complete { is_some result ≡ is_simd_lane_one place }
{
    simd_group!(lane_one => made (place, (payload, child)))
}

// The vector node of a place, with a lane and two children; none at a place without one.
#[tactic(auto, unfolding(crate::specs::SimdShapes::is_simd_lane_two, crate::specs::Simd::simd_place_of, crate::specs::Simd::simd_payload_of, crate::specs::Simd::simd_children, crate::specs::Simd::simd_count_of))]
pub(crate) fn simd_lane_two(place: u16, payload: u8, first: Id, second: Id) -> Option<Simd>
    ensures place { IfSome result (λ l. simd_place_of l ≡ place) }
    ensures payload { IfSome result (λ l. simd_payload_of l ≡ P.Lane payload) }
    ensures children { IfSome result (λ l. simd_ids_of l ≡ first ∷ second ∷ []) }
    ensures count { IfSome result (λ l. simd_count_of l ≡ 2) }
    ensures complete { is_some result ≡ is_simd_lane_two place }
{
    simd_group!(lane_two => made (place, (payload, [first, second])))
}

// The vector node of a place, with a memory argument, a lane and two children; none at a place without one.
#[tactic(auto, unfolding(crate::specs::SimdShapes::is_simd_memory_lane_two, crate::specs::Simd::simd_place_of, crate::specs::Simd::simd_payload_of, crate::specs::Simd::simd_children, crate::specs::Simd::simd_count_of))]
pub(crate) fn simd_memory_lane_two(
    place: u16,
    payload: MemArgLane,
    first: Id,
    second: Id,
) -> Option<Simd>
    ensures place { IfSome result (λ l. simd_place_of l ≡ place) }
    ensures payload { IfSome result (λ l. simd_payload_of l ≡ P.MemoryLane payload) }
    ensures children { IfSome result (λ l. simd_ids_of l ≡ first ∷ second ∷ []) }
    ensures count { IfSome result (λ l. simd_count_of l ≡ 2) }
    ensures complete { is_some result ≡ is_simd_memory_lane_two place }
{
    simd_group!(memory_lane_two => made (place, (payload.lane, payload.memarg, [first, second])))
}
