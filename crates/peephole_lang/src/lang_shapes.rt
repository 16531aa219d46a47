//! Nodes by place, one function for each kind of payload and number of children.
ghost use Rattle.std.specs.Prelude.{◌≡◌, IfSome, is_some, [], ◌∷◌};
ghost use Rattle.peephole_lang.specs.Lang.{place_of, payload_of, ids_of, variant_child_count};
ghost use Rattle.peephole_lang.specs.LangShapes.{is_plain_leaf, is_plain_one, is_index_leaf, is_index_one, is_index_two, is_index_three, is_memory_one, is_memory_two};
ghost use Rattle.peephole_nodes.specs.declared.payload.Payload.TheVariants as P;

use crate::lang::Lang;
use peephole_nodes::Id;
use peephole_payloads::MemArg;

#[tactic(auto, unfolding(crate::specs::LangShapes::is_plain_leaf, crate::specs::Lang::place_of, crate::specs::Lang::payload_of, crate::specs::Lang::ids_of, crate::specs::Lang::variant_child_count))]
pub fn plain_leaf(place: u16) -> Option<Lang>
    ensures place { IfSome result (λ l. place_of l ≡ place) }
    ensures payload { IfSome result (λ l. payload_of l ≡ P.Nothing) }
    ensures children { IfSome result (λ l. ids_of l ≡ []) }
    ensures count { IfSome result (λ l. variant_child_count l ≡ 0) }
    ensures complete { is_some result ≡ is_plain_leaf place }
{
    match place {
        0 => Some(Lang::RandI32),
        1 => Some(Lang::RandI64),
        2 => Some(Lang::RandF32),
        3 => Some(Lang::RandF64),
        4 => Some(Lang::Undef),
        12 => Some(Lang::Nop),
        _ => None,
    }
}

#[tactic(auto, unfolding(crate::specs::LangShapes::is_plain_one, crate::specs::Lang::place_of, crate::specs::Lang::payload_of, crate::specs::Lang::ids_of, crate::specs::Lang::variant_child_count))]
pub fn plain_one(place: u16, child: Id) -> Option<Lang>
    ensures place { IfSome result (λ l. place_of l ≡ place) }
    ensures payload { IfSome result (λ l. payload_of l ≡ P.Nothing) }
    ensures children { IfSome result (λ l. ids_of l ≡ child ∷ []) }
    ensures count { IfSome result (λ l. variant_child_count l ≡ 1) }
    ensures complete { is_some result ≡ is_plain_one place }
{
    match place {
        5 => Some(Lang::UnfoldI32(child)),
        6 => Some(Lang::UnfoldI64(child)),
        7 => Some(Lang::I32UseGlobal(child)),
        8 => Some(Lang::I64UseGlobal(child)),
        9 => Some(Lang::F32UseGlobal(child)),
        10 => Some(Lang::F64UseGlobal(child)),
        14 => Some(Lang::Drop([child])),
        181 => Some(Lang::RefIsNull(child)),
        _ => None,
    }
}

#[tactic(auto, unfolding(crate::specs::LangShapes::is_index_leaf, crate::specs::Lang::place_of, crate::specs::Lang::payload_of, crate::specs::Lang::ids_of, crate::specs::Lang::variant_child_count))]
pub fn index_leaf(place: u16, payload: u32) -> Option<Lang>
    ensures place { IfSome result (λ l. place_of l ≡ place) }
    ensures payload { IfSome result (λ l. payload_of l ≡ P.Index payload) }
    ensures children { IfSome result (λ l. ids_of l ≡ []) }
    ensures count { IfSome result (λ l. variant_child_count l ≡ 0) }
    ensures complete { is_some result ≡ is_index_leaf place }
{
    match place {
        16 => Some(Lang::LocalGet(payload)),
        19 => Some(Lang::GlobalGet(payload)),
        46 => Some(Lang::MemorySize(payload)),
        182 => Some(Lang::RefFunc(payload)),
        192 => Some(Lang::DataDrop(payload)),
        196 => Some(Lang::ElemDrop(payload)),
        199 => Some(Lang::TableSize(payload)),
        _ => None,
    }
}

#[tactic(auto, unfolding(crate::specs::LangShapes::is_index_one, crate::specs::Lang::place_of, crate::specs::Lang::payload_of, crate::specs::Lang::ids_of, crate::specs::Lang::variant_child_count))]
pub fn index_one(place: u16, payload: u32, child: Id) -> Option<Lang>
    ensures place { IfSome result (λ l. place_of l ≡ place) }
    ensures payload { IfSome result (λ l. payload_of l ≡ P.Index payload) }
    ensures children { IfSome result (λ l. ids_of l ≡ child ∷ []) }
    ensures count { IfSome result (λ l. variant_child_count l ≡ 1) }
    ensures complete { is_some result ≡ is_index_one place }
{
    match place {
        17 => Some(Lang::LocalSet(payload, child)),
        18 => Some(Lang::LocalTee(payload, child)),
        20 => Some(Lang::GlobalSet(payload, child)),
        21 => Some(Lang::TableGet(payload, child)),
        47 => Some(Lang::MemoryGrow(payload, child)),
        _ => None,
    }
}

#[tactic(auto, unfolding(crate::specs::LangShapes::is_index_two, crate::specs::Lang::place_of, crate::specs::Lang::payload_of, crate::specs::Lang::ids_of, crate::specs::Lang::variant_child_count))]
pub fn index_two(place: u16, payload: u32, first: Id, second: Id) -> Option<Lang>
    ensures place { IfSome result (λ l. place_of l ≡ place) }
    ensures payload { IfSome result (λ l. payload_of l ≡ P.Index payload) }
    ensures children { IfSome result (λ l. ids_of l ≡ first ∷ second ∷ []) }
    ensures count { IfSome result (λ l. variant_child_count l ≡ 2) }
    ensures complete { is_some result ≡ is_index_two place }
{
    match place {
        22 => Some(Lang::TableSet(payload, [first, second])),
        198 => Some(Lang::TableGrow(payload, [first, second])),
        _ => None,
    }
}

#[tactic(auto, unfolding(crate::specs::LangShapes::is_index_three, crate::specs::Lang::place_of, crate::specs::Lang::payload_of, crate::specs::Lang::ids_of, crate::specs::Lang::variant_child_count))]
pub fn index_three(place: u16, payload: u32, first: Id, second: Id, third: Id) -> Option<Lang>
    ensures place { IfSome result (λ l. place_of l ≡ place) }
    ensures payload { IfSome result (λ l. payload_of l ≡ P.Index payload) }
    ensures children { IfSome result (λ l. ids_of l ≡ first ∷ second ∷ third ∷ []) }
    ensures count { IfSome result (λ l. variant_child_count l ≡ 3) }
    ensures complete { is_some result ≡ is_index_three place }
{
    match place {
        194 => Some(Lang::MemoryFill(payload, [first, second, third])),
        200 => Some(Lang::TableFill(payload, [first, second, third])),
        _ => None,
    }
}

#[tactic(auto, unfolding(crate::specs::LangShapes::is_memory_one, crate::specs::Lang::place_of, crate::specs::Lang::payload_of, crate::specs::Lang::ids_of, crate::specs::Lang::variant_child_count))]
pub fn memory_one(place: u16, payload: MemArg, child: Id) -> Option<Lang>
    ensures place { IfSome result (λ l. place_of l ≡ place) }
    ensures payload { IfSome result (λ l. payload_of l ≡ P.Memory payload) }
    ensures children { IfSome result (λ l. ids_of l ≡ child ∷ []) }
    ensures count { IfSome result (λ l. variant_child_count l ≡ 1) }
    ensures complete { is_some result ≡ is_memory_one place }
{
    match place {
        23 => Some(Lang::I32Load(payload, child)),
        24 => Some(Lang::I64Load(payload, child)),
        25 => Some(Lang::F32Load(payload, child)),
        26 => Some(Lang::F64Load(payload, child)),
        27 => Some(Lang::I32Load8S(payload, child)),
        28 => Some(Lang::I32Load8U(payload, child)),
        29 => Some(Lang::I32Load16S(payload, child)),
        30 => Some(Lang::I32Load16U(payload, child)),
        31 => Some(Lang::I64Load8S(payload, child)),
        32 => Some(Lang::I64Load8U(payload, child)),
        33 => Some(Lang::I64Load16S(payload, child)),
        34 => Some(Lang::I64Load16U(payload, child)),
        35 => Some(Lang::I64Load32S(payload, child)),
        36 => Some(Lang::I64Load32U(payload, child)),
        _ => None,
    }
}

#[tactic(auto, unfolding(crate::specs::LangShapes::is_memory_two, crate::specs::Lang::place_of, crate::specs::Lang::payload_of, crate::specs::Lang::ids_of, crate::specs::Lang::variant_child_count))]
pub fn memory_two(place: u16, payload: MemArg, first: Id, second: Id) -> Option<Lang>
    ensures place { IfSome result (λ l. place_of l ≡ place) }
    ensures payload { IfSome result (λ l. payload_of l ≡ P.Memory payload) }
    ensures children { IfSome result (λ l. ids_of l ≡ first ∷ second ∷ []) }
    ensures count { IfSome result (λ l. variant_child_count l ≡ 2) }
    ensures complete { is_some result ≡ is_memory_two place }
{
    match place {
        37 => Some(Lang::I32Store(payload, [first, second])),
        38 => Some(Lang::I64Store(payload, [first, second])),
        39 => Some(Lang::F32Store(payload, [first, second])),
        40 => Some(Lang::F64Store(payload, [first, second])),
        41 => Some(Lang::I32Store8(payload, [first, second])),
        42 => Some(Lang::I32Store16(payload, [first, second])),
        43 => Some(Lang::I64Store8(payload, [first, second])),
        44 => Some(Lang::I64Store16(payload, [first, second])),
        45 => Some(Lang::I64Store32(payload, [first, second])),
        _ => None,
    }
}
