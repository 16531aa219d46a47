//! Nodes made of a place, a payload and children.
ghost use Rattle.std.specs.Prelude.{◌≡◌, ◌==◌, ◌||◌, true, false, IfOk, IfSome, is_some, length, [], ◌∷◌};
ghost use Rattle.peephole_lang.specs.Lang.{place_of, payload_of, ids_of, variant_child_count};
ghost use Rattle.peephole_lang.specs.Making.{has_list, is_few, is_plain_node, is_index, is_memory_node, is_single, is_made};
ghost use Rattle.peephole_nodes.specs.Payload.{imm_of};
ghost use Rattle.peephole_nodes.specs.SimdShapes.{is_simd};
ghost use Rattle.peephole_nodes.specs.declared.payload.Payload.TheVariants as P;

use crate::lang::Lang;
use crate::lang_shapes as lang;
use peephole_nodes::{Id, Numeric, Payload, Simd};
use peephole_payloads::MemArg;
use std::alloc::{AllocError, Global};
use wasm_code::Imm;

// The node, if the place is this one.
macro_rules! node_at {
    ($place:ident, $number:literal, $node:expr) => {
        if $place == $number {
            Some($node)
        } else {
            None
        }
    };
}

/// The node with this place, payload and children, or None where no variant of the place has that kind of payload and
/// that many children.
pub fn make(place: u16, payload: Payload, children: Vec<Id>) -> Option<Lang>
    ensures place { IfSome result (λ l. place_of l ≡ place) }
    ensures payload { IfSome result (λ l. payload_of l ≡ payload) }
    ensures children { IfSome result (λ l. ids_of l ≡ children.items) }
    ensures count { IfSome result (λ l. variant_child_count l ≡ length children.items) }
    ensures complete { is_some result ≡ is_made place payload (length children.items) }
{
    if has_list(place, &payload) {
        Some(make_with_list(place, &payload, children))
    } else {
        make_without_list(place, &payload, &children)
    }
}

/// As `make`, with the children in a slice: a list is allocated for `container` and `call` alone.
pub fn make_in(
    alloc: Global,
    place: u16,
    payload: Payload,
    children: &[Id],
) -> Result<Option<Lang>, AllocError>
    ensures place { IfOk result (λ made. IfSome made (λ l. place_of l ≡ place)) }
    ensures payload { IfOk result (λ made. IfSome made (λ l. payload_of l ≡ payload)) }
    ensures children { IfOk result (λ made. IfSome made (λ l. ids_of l ≡ children.now)) }
    ensures count { IfOk result (λ made.
        IfSome made (λ l. variant_child_count l ≡ length children.now)) }
    ensures complete { IfOk result (λ made.
        is_some made ≡ is_made place payload (length children.now)) }
{
    if has_list(place, &payload) {
        Ok(Some(make_with_list(place, &payload, children.to_vec(alloc)?)))
    } else {
        Ok(make_without_list(place, &payload, children))
    }
}

/// The node of a numeric instruction with operands, or of a vector instruction without immediate, or None where there is none:
/// the places of the former are 52 to 190, those of the latter from 201 on.
#[inline(always)]
#[tactic(auto, unfolding(crate::specs::Lang::place_of, crate::specs::Lang::payload_of, crate::specs::Lang::ids_of, crate::specs::Lang::variant_child_count))]
pub fn make_operation(place: u16, children: &[Id]) -> Option<Lang>
    ensures place { IfSome result (λ l. place_of l ≡ place) }
    ensures payload { IfSome result (λ l. payload_of l ≡ P.Nothing) }
    ensures children { IfSome result (λ l. ids_of l ≡ children.now) }
    ensures count { IfSome result (λ l. variant_child_count l ≡ length children.now) }
{
    if place < 52 {
        None
    } else if place < 201 {
        Some(Lang::Numeric(Numeric::make(place, children)?))
    } else {
        Some(Lang::Simd(Simd::make_plain(place, children)?))
    }
}

/// The node of an instruction whose immediate alone says the payload, or None where there is none and for any other
/// immediate; None for `call`, whose children are a list.
#[inline(always)]
pub fn make_of_imm(place: u16, imm: Imm, children: &[Id]) -> Option<Lang>
    ensures place { IfSome result (λ l. place_of l ≡ place) }
    ensures imm { IfSome result (λ l. imm_of (payload_of l) ≡ imm) }
    ensures children { IfSome result (λ l. ids_of l ≡ children.now) }
    ensures count { IfSome result (λ l. variant_child_count l ≡ length children.now) }
{
    match imm {
        Imm::Nothing => make_few(place, children),
        Imm::Index(index) if place != 13 => make_index(place, index, children),
        Imm::Mem(memarg) => make_memory(place, (&memarg).into(), children),
        _ => match children {
            [] => make_number(place, imm),
            _ => None,
        },
    }
}

// The node of a constant integer.
#[tactic(auto, unfolding(crate::specs::Lang::place_of, crate::specs::Lang::payload_of, crate::specs::Lang::ids_of, crate::specs::Lang::variant_child_count))]
fn make_number(place: u16, imm: Imm) -> Option<Lang>
    ensures place { IfSome result (λ l. place_of l ≡ place) }
    ensures imm { IfSome result (λ l. imm_of (payload_of l) ≡ imm) }
    ensures children { IfSome result (λ l. ids_of l ≡ []) }
    ensures count { IfSome result (λ l. variant_child_count l ≡ 0) }
{
    match imm {
        Imm::I32(number) => node_at!(place, 48, Lang::I32(number)),
        Imm::I64(number) => node_at!(place, 49, Lang::I64(number)),
        _ => None,
    }
}

// Whether the children of a place's node with that payload are a list: those of `container` and `call`.
fn has_list(place: u16, payload: &Payload) -> bool
    ensures { result ≡ has_list place payload.now }
{
    match payload {
        Payload::Nothing => place == 11,
        Payload::Index(_) => place == 13,
        _ => false,
    }
}

// The node whose children are a list.
#[tactic(auto, unfolding(crate::specs::Lang::place_of, crate::specs::Lang::payload_of, crate::specs::Lang::ids_of, crate::specs::Lang::variant_child_count))]
fn make_with_list(place: u16, payload: &Payload, children: Vec<Id>) -> Lang
    requires { has_list place payload.now ≡ true }
    ensures place { place_of result ≡ place }
    ensures payload { payload_of result ≡ payload.now }
    ensures children { ids_of result ≡ children.items }
    ensures count { variant_child_count result ≡ length children.items }
    ensures made { is_made place payload.now (length children.items) ≡ true }
{
    match payload {
        Payload::Nothing => Lang::Container(children),
        Payload::Index(index) => Lang::Call(*index, children),
        _ => unreachable!(),
    }
}

// A node whose children are no list.
#[tactic(auto, unfolding(crate::specs::Lang::place_of, crate::specs::Lang::payload_of, crate::specs::Lang::ids_of, crate::specs::Lang::variant_child_count))]
fn make_without_list(place: u16, payload: &Payload, children: &[Id]) -> Option<Lang>
    requires { has_list place payload.now ≡ false }
    ensures place { IfSome result (λ l. place_of l ≡ place) }
    ensures payload { IfSome result (λ l. payload_of l ≡ payload.now) }
    ensures children { IfSome result (λ l. ids_of l ≡ children.now) }
    ensures count { IfSome result (λ l. variant_child_count l ≡ length children.now) }
    ensures complete { is_some result ≡ is_made place payload.now (length children.now) }
{
    match payload {
        Payload::Nothing => make_plain(place, children),
        Payload::Index(index) => make_index(place, *index, children),
        Payload::Memory(memarg) => make_memory(place, *memarg, children),
        Payload::Lane(_) | Payload::V128(_) | Payload::MemoryLane(_) | Payload::Shuffle(_) => {
            Some(Lang::Simd(Simd::make(place, *payload, children)?))
        }
        _ => make_single(place, *payload, children),
    }
}

// A node without payload but `container`.
#[tactic(auto, unfolding(crate::specs::Lang::place_of, crate::specs::Lang::payload_of, crate::specs::Lang::ids_of, crate::specs::Lang::variant_child_count))]
fn make_plain(place: u16, children: &[Id]) -> Option<Lang>
    requires { place == 11 ≡ false }
    ensures place { IfSome result (λ l. place_of l ≡ place) }
    ensures payload { IfSome result (λ l. payload_of l ≡ P.Nothing) }
    ensures children { IfSome result (λ l. ids_of l ≡ children.now) }
    ensures count { IfSome result (λ l. variant_child_count l ≡ length children.now) }
    ensures complete { is_some result ≡ is_plain_node place (length children.now) }
{
    if let Some(node) = Numeric::make(place, children) {
        return Some(Lang::Numeric(node));
    }
    if let Some(node) = Simd::make_plain(place, children) {
        return Some(Lang::Simd(node));
    }
    make_few(place, children)
}

// A node without payload that is neither numeric nor a vector node.
#[tactic(auto, unfolding(crate::specs::Lang::place_of, crate::specs::Lang::payload_of, crate::specs::Lang::ids_of, crate::specs::Lang::variant_child_count))]
fn make_few(place: u16, children: &[Id]) -> Option<Lang>
    ensures place { IfSome result (λ l. place_of l ≡ place) }
    ensures payload { IfSome result (λ l. payload_of l ≡ P.Nothing) }
    ensures children { IfSome result (λ l. ids_of l ≡ children.now) }
    ensures count { IfSome result (λ l. variant_child_count l ≡ length children.now) }
    ensures complete { is_some result ≡ is_few place (length children.now) }
{
    match children {
        [] => lang::plain_leaf(place),
        [child] => lang::plain_one(place, *child),
        [first, second, third] => node_at!(place, 15, Lang::Select([*first, *second, *third])),
        _ => None,
    }
}

// A node with an index but `call`.
#[inline(always)]
fn make_index(place: u16, index: u32, children: &[Id]) -> Option<Lang>
    requires { place == 13 ≡ false }
    ensures place { IfSome result (λ l. place_of l ≡ place) }
    ensures payload { IfSome result (λ l. payload_of l ≡ P.Index index) }
    ensures children { IfSome result (λ l. ids_of l ≡ children.now) }
    ensures count { IfSome result (λ l. variant_child_count l ≡ length children.now) }
    ensures complete { is_some result ≡ is_index place (length children.now) }
{
    match children {
        [] => lang::index_leaf(place, index),
        [child] => lang::index_one(place, index, *child),
        [first, second] => lang::index_two(place, index, *first, *second),
        [first, second, third] => lang::index_three(place, index, *first, *second, *third),
        _ => None,
    }
}

#[tactic(auto, unfolding(crate::specs::Lang::place_of, crate::specs::Lang::payload_of, crate::specs::Lang::ids_of, crate::specs::Lang::variant_child_count))]
fn make_memory(place: u16, memarg: MemArg, children: &[Id]) -> Option<Lang>
    ensures place { IfSome result (λ l. place_of l ≡ place) }
    ensures payload { IfSome result (λ l. payload_of l ≡ P.Memory memarg) }
    ensures children { IfSome result (λ l. ids_of l ≡ children.now) }
    ensures count { IfSome result (λ l. variant_child_count l ≡ length children.now) }
    ensures complete { is_some result ≡ is_simd place (P.Memory memarg)
        (length children.now) || is_memory_node place (length children.now) }
{
    if let Some(node) = Simd::make_memory(place, memarg, children) {
        return Some(Lang::Simd(node));
    }
    match children {
        [child] => lang::memory_one(place, memarg, *child),
        [first, second] => lang::memory_two(place, memarg, *first, *second),
        _ => None,
    }
}

// A node with a payload that no other node has.
fn make_single(place: u16, payload: Payload, children: &[Id]) -> Option<Lang>
    ensures place { IfSome result (λ l. place_of l ≡ place) }
    ensures payload { IfSome result (λ l. payload_of l ≡ payload) }
    ensures children { IfSome result (λ l. ids_of l ≡ children.now) }
    ensures count { IfSome result (λ l. variant_child_count l ≡ length children.now) }
    ensures complete { is_some result ≡ is_single place payload (length children.now) }
{
    match children {
        [] => make_constant(place, payload),
        [first, second, third] => make_three(place, payload, *first, *second, *third),
        _ => None,
    }
}

#[tactic(auto, unfolding(crate::specs::Lang::place_of, crate::specs::Lang::payload_of, crate::specs::Lang::ids_of, crate::specs::Lang::variant_child_count))]
fn make_constant(place: u16, payload: Payload) -> Option<Lang>
    ensures place { IfSome result (λ l. place_of l ≡ place) }
    ensures payload { IfSome result (λ l. payload_of l ≡ payload) }
    ensures children { IfSome result (λ l. ids_of l ≡ []) }
    ensures count { IfSome result (λ l. variant_child_count l ≡ 0) }
    ensures complete { is_some result ≡ is_single place payload 0 }
{
    match payload {
        Payload::I32(number) => node_at!(place, 48, Lang::I32(number)),
        Payload::I64(number) => node_at!(place, 49, Lang::I64(number)),
        Payload::F32(ref number) => node_at!(place, 50, Lang::F32(*number)),
        Payload::F64(ref number) => node_at!(place, 51, Lang::F64(*number)),
        Payload::Ref(ty) => node_at!(place, 180, Lang::RefNull(ty)),
        _ => None,
    }
}

#[tactic(auto, unfolding(crate::specs::Lang::place_of, crate::specs::Lang::payload_of, crate::specs::Lang::ids_of, crate::specs::Lang::variant_child_count))]
fn make_three(place: u16, payload: Payload, first: Id, second: Id, third: Id) -> Option<Lang>
    ensures place { IfSome result (λ l. place_of l ≡ place) }
    ensures payload { IfSome result (λ l. payload_of l ≡ payload) }
    ensures children { IfSome result (λ l. ids_of l ≡ first ∷ second ∷ third ∷ []) }
    ensures count { IfSome result (λ l. variant_child_count l ≡ 3) }
    ensures complete { is_some result ≡ is_single place payload 3 }
{
    let ids = [first, second, third];
    match payload {
        Payload::Value(ty) => node_at!(place, 457, Lang::TypedSelect(ty, ids)),
        Payload::MemoryInit(init) => node_at!(place, 191, Lang::MemoryInit(init, ids)),
        Payload::MemoryCopy(copy) => node_at!(place, 193, Lang::MemoryCopy(copy, ids)),
        Payload::TableInit(init) => node_at!(place, 195, Lang::TableInit(init, ids)),
        Payload::TableCopy(copy) => node_at!(place, 197, Lang::TableCopy(copy, ids)),
        _ => None,
    }
}
