//! What a rule beside the table makes, written.
ghost use Rattle.std.specs.Prelude.{◌≡◌, ◌+◌, ◌-◌, ◌%◌, ◌<◌, ◌^◌, ℕ, suc, [], ◌∷◌, ◌++◌, ◌≤◌, IfSome, IfNone, length, option_to_list};
ghost use mir.Val.{bits};
ghost use Rattle.body_splices.specs.declared.piece.Piece.TheVariants.{Kept, New};
ghost use Rattle.wasm_execution.specs.Values.{width_of};
ghost use Rattle.wasm_execution.specs.declared.integer.IntegerType.TheVariants as integer;
ghost use Rattle.wasm_execution.specs.declared.operation.Operation.TheVariants as operation;
ghost use Rattle.wasm_execution.specs.declared.operation.Binary.TheVariants as binary;
ghost use Rattle.rewrite_rules.specs.declared.pattern.Operator.TheVariants.{Whole};
ghost use Rattle.rewrite_rules.specs.Access.{IsOfRow, side_code};
ghost use Rattle.rewrite_rules.specs.Numbers.{low};
ghost use Rattle.rewrite_rules.specs.Instance.{constant_code, operator_code};
ghost use Rattle.rewrite_rules.specs.Beside.{nop_code, drop_code, get_local, set_local, tee_local, get_global, set_global, sum_code};
ghost use Rattle.rewrite_rules.specs.Flow.{ne_code, eqz_code, below_code, select_code};
ghost use Rattle.rewrite_rules.specs.Wrap.{front_of, back_of};
ghost use Rattle.body_rewrites.specs.Own.{new, item_piece, item_pieces, made_asks, made_pieces};
ghost use Rattle.body_rewrites.specs.OwnSites.{AreOfRows, IsNewCode, IsWritable, pieces_in_order};
ghost use Rattle.body_rewrites.specs.declared.own.Made.TheVariants as made;

use crate::changes::NewCode;
use crate::instructions::{constant, instr};
use crate::own::{Made, Site};
use arrayvec::ArrayVec;
use body_splices::{Control, Piece};
use rewrite_rules::{AccessKind, AccessSide, Conversion, Wrap, WrapItem};
use wasm_code::{Imm, Instr, ValType};
use wasm_execution::IntegerType;
use wasm_types::PrimitiveTypeInfo;

#[tactic(auto, using(crate::proofs::OwnRowLemmas::nop_row))]
fn nop() -> Instr
    ensures { result ≡ nop_code }
{
    instr(0, Imm::Nothing)
}

#[tactic(auto, using(crate::proofs::OwnRowLemmas::drop_row))]
fn discard() -> Instr
    ensures { result ≡ drop_code }
{
    instr(2, Imm::Nothing)
}

#[tactic(auto, using(crate::proofs::OwnRowLemmas::select_row))]
fn select() -> Instr
    ensures { result ≡ select_code }
{
    instr(3, Imm::Nothing)
}

#[tactic(auto, using(crate::proofs::OwnRowLemmas::eqz_row))]
fn eqz() -> Instr
    ensures { result ≡ eqz_code }
{
    instr(40, Imm::Nothing)
}

#[tactic(auto, using(crate::proofs::OwnRowLemmas::ne_row))]
fn ne() -> Instr
    ensures { result ≡ ne_code }
{
    instr(42, Imm::Nothing)
}

#[tactic(auto, using(crate::proofs::OwnRowLemmas::below_row))]
fn below() -> Instr
    ensures { result ≡ below_code }
{
    instr(44, Imm::Nothing)
}

#[tactic(auto, using(crate::proofs::OwnRowLemmas::get_local_row))]
fn get_local(local: u32) -> Instr
    ensures { result ≡ get_local local }
{
    instr(4, Imm::Index(local))
}

#[tactic(auto, using(crate::proofs::OwnRowLemmas::set_local_row))]
fn set_local(local: u32) -> Instr
    ensures { result ≡ set_local local }
{
    instr(5, Imm::Index(local))
}

#[tactic(auto, using(crate::proofs::OwnRowLemmas::tee_local_row))]
fn tee_local(local: u32) -> Instr
    ensures { result ≡ tee_local local }
{
    instr(6, Imm::Index(local))
}

#[tactic(auto, using(crate::proofs::OwnRowLemmas::get_global_row))]
fn get_global(global: u32) -> Instr
    ensures { result ≡ get_global global }
{
    instr(7, Imm::Index(global))
}

#[tactic(auto, using(crate::proofs::OwnRowLemmas::set_global_row))]
fn set_global(global: u32) -> Instr
    ensures { result ≡ set_global global }
{
    instr(8, Imm::Index(global))
}

#[tactic(auto, using(crate::proofs::OwnRowLemmas::i32_add_row, crate::proofs::OwnRowLemmas::i64_add_row))]
fn add(t: IntegerType) -> Instr
    ensures { result ≡ operator_code (Whole (operation.Binary t binary.Add)) }
{
    match t {
        IntegerType::I32 => instr(77, Imm::Nothing),
        IntegerType::I64 => instr(95, Imm::Nothing),
    }
}

// What is to be added to the word for the number.
fn rest(t: IntegerType, number: u64, word: u64) -> u64
    ensures { low t result ≡ low t (number + (2 ^ bits (width_of t) - low t word)) }
{
    match t {
        IntegerType::I32 => number.wrapping_add(0x1_0000_0000 - word % 0x1_0000_0000),
        IntegerType::I64 => number.wrapping_sub(word),
    }
}

// A constant of the word, one of the rest, and their sum.
fn sum(t: IntegerType, number: u64, word: u64) -> [Piece; 3]
    ensures { result ≡ new (sum_code t number word) }
{
    [
        Piece::New(constant(t, word)),
        Piece::New(constant(t, rest(t, number, word))),
        Piece::New(add(t)),
    ]
}

// The pieces as a list.
fn list_of(pieces: &[Piece]) -> ArrayVec<Piece, 7>
    requires { length pieces.now ≤ 7 }
    ensures { result.items ≡ pieces.now }
{
    let mut list = ArrayVec::new();
    for i in 0..pieces.len() {
        list.push(pieces[i]);
    }
    list
}

// The pieces in the place of code from `start` on.
fn code(start: usize, pieces: &[Piece], asks: Option<PrimitiveTypeInfo>) -> NewCode
    requires { length pieces.now ≤ 7 }
    ensures { IsNewCode start pieces.now (option_to_list asks) result }
{
    NewCode {
        start,
        pieces: list_of(pieces),
        asks,
    }
}

// A new instruction, where it is one of the standard.
fn piece(row: u16, imm: Imm) -> Option<Piece>
    ensures some { IfSome result (λ p. p ≡ New (record { row = row; imm = imm })) }
    ensures none { IfNone result (¬ (IsOfRow row imm)) }
{
    match Instr::new(row, imm) {
        Some(instr) => Some(Piece::New(instr)),
        None => None,
    }
}

// The instruction with the immediate, and one of the conversion.
fn with_one(start: usize, kind: AccessKind, first: Piece, by: Piece) -> NewCode
    ensures { IsNewCode start (pieces_in_order kind first (by ∷ [])) [] result }
{
    match kind {
        AccessKind::Load => code(start, &[first, by], None),
        AccessKind::Store => code(start, &[by, first], None),
        AccessKind::Constant => code(start, &[first, by], None),
    }
}

// The instruction with the immediate, and two of the conversion.
fn with_two(start: usize, kind: AccessKind, first: Piece, number: Piece, by: Piece) -> NewCode
    ensures { IsNewCode start (pieces_in_order kind first (number ∷ by ∷ [])) [] result }
{
    match kind {
        AccessKind::Load => code(start, &[first, number, by], None),
        AccessKind::Store => code(start, &[number, by, first], None),
        AccessKind::Constant => code(start, &[first, number, by], None),
    }
}

// The side of an access.
fn side(start: usize, kind: AccessKind, side: AccessSide, immediate: Imm) -> Option<NewCode>
    ensures some { IfSome result (IsNewCode start (new (side_code kind side immediate)) []) }
    ensures none { IfNone result (¬ (AreOfRows (side_code kind side immediate))) }
{
    let Some(first) = piece(side.row, immediate) else {
        return None;
    };
    match side.conversion {
        Conversion::Nothing => Some(code(start, &[first], None)),
        Conversion::By(operator) => match piece(operator.row(), operator.immediate()) {
            Some(by) => Some(with_one(start, kind, first, by)),
            None => None,
        },
        Conversion::With(t, number, operator) => {
            match piece(operator.row(), operator.immediate()) {
                Some(by) => {
                    let number = Piece::New(constant(t, number));
                    Some(with_two(start, kind, first, number, by))
                }
                None => None,
            }
        }
    }
}

// A constant of 32 bits that isn't zero, by the word.
fn nonzero(word: u64) -> u64
    ensures { result ≡ suc (word % (2 ^ 32 - 1)) }
{
    1 + word % 0xFFFF_FFFF
}

// The piece that an operator of wrapped code is.
fn item_piece(item: WrapItem, t: ValType, word: u64) -> Piece
    ensures { result ≡ item_piece t word item }
{
    match item {
        WrapItem::Block => Piece::Structural(Control::Block(t)),
        WrapItem::Loop => Piece::Structural(Control::Loop(t)),
        WrapItem::If => Piece::Structural(Control::If(t)),
        WrapItem::Else => Piece::Structural(Control::Else),
        WrapItem::End => Piece::Structural(Control::End),
        WrapItem::Branch => Piece::Structural(Control::Branch(0)),
        WrapItem::BranchIf => Piece::Structural(Control::BranchIf(0)),
        WrapItem::Unreachable => Piece::Structural(Control::Unreachable),
        WrapItem::Zero => Piece::New(constant(IntegerType::I32, 0)),
        WrapItem::NonZero => Piece::New(constant(IntegerType::I32, nonzero(word))),
        WrapItem::Any => Piece::New(constant(IntegerType::I32, word)),
    }
}

// Puts the pieces that these are behind others.
fn push_items(pieces: &mut ArrayVec<Piece, 7>, items: &[WrapItem], t: ValType, word: u64)
    requires { length pieces.now.items + length items.now ≤ 7 }
    ensures { pieces.new.items ≡ pieces.old.items ++ item_pieces t word items.now }
{
    for i in 0..items.len() {
        pieces.push(item_piece(items[i], t, word));
    }
}

// The piece in wrapped code.
fn wrapped(start: usize, kept: Piece, wrap: Wrap, t: ValType, word: u64) -> NewCode
    ensures { IsNewCode start
        (item_pieces t word (front_of wrap) ++ kept ∷ item_pieces t word (back_of wrap)) [] result }
{
    let mut pieces = ArrayVec::new();
    push_items(&mut pieces, wrap.front(), t, word);
    pieces.push(kept);
    push_items(&mut pieces, wrap.back(), t, word);
    NewCode {
        start,
        pieces,
        asks: None,
    }
}

// Two operators as the parts of a conditional, whose condition stands behind them, from that operator up to the last one.
fn conditional(start: usize, condition: usize, at: usize, t: ValType) -> NewCode
    ensures { IsNewCode start (made_pieces start at (made.Conditional t condition) 0) [] result }
{
    let second = condition.saturating_sub(1);
    let pieces = [
        Piece::Kept {
            start: condition,
            end: at,
        },
        Piece::Structural(Control::If(t)),
        Piece::Kept { start, end: second },
        Piece::Structural(Control::Else),
        Piece::Kept {
            start: second,
            end: condition,
        },
        Piece::Structural(Control::End),
    ];
    code(start, &pieces, None)
}

// The parts of a conditional that ends at `at`, and its condition, and a select.
fn selected(start: usize, at: usize) -> NewCode
    ensures { IsNewCode start (made_pieces start at made.Selected 0) [] result }
{
    let pieces = [
        Piece::Kept {
            start: at.saturating_sub(3),
            end: at.saturating_sub(2),
        },
        Piece::Kept {
            start: at.saturating_sub(1),
            end: at,
        },
        Piece::Kept {
            start,
            end: at.saturating_sub(4),
        },
        Piece::New(select()),
    ];
    code(start, &pieces, None)
}

// The piece, and two instructions.
fn followed(start: usize, kept: Piece, one: Instr, other: Instr) -> NewCode
    ensures { IsNewCode start (kept ∷ new (one ∷ other ∷ [])) [] result }
{
    code(start, &[kept, Piece::New(one), Piece::New(other)], None)
}

// What stands from `start` on before `end`, and the number where its value isn't below that.
fn bounded(start: usize, end: usize, count: u32) -> NewCode
    ensures { IsNewCode start (Kept start end ∷ New (constant_code integer.I32 count)
        ∷ Kept start end ∷ new (constant_code integer.I32 count ∷ below_code ∷ select_code ∷ []))
        [] result }
{
    let limit = constant(IntegerType::I32, count as u64);
    let pieces = [
        Piece::Kept { start, end },
        Piece::New(limit),
        Piece::Kept { start, end },
        Piece::New(limit),
        Piece::New(below()),
        Piece::New(select()),
    ];
    code(start, &pieces, None)
}

// A conditional, and in it a branch to the label that had that depth outside it; none where one byte doesn't hold the label there.
fn in_conditional(start: usize, label: u8) -> Option<NewCode>
    ensures some { IfSome result
        (IsNewCode start (made_pieces start start (made.InConditional label) 0) []) }
    ensures none { IfNone result (¬ (label + 1 < 2 ^ 8)) }
{
    if label == 255 {
        return None;
    }
    let pieces = [
        Piece::Structural(Control::BareIf),
        Piece::Structural(Control::Branch(label + 1)),
        Piece::Structural(Control::End),
    ];
    Some(code(start, &pieces, None))
}

// What is made at the site, by the word; none where it isn't made of instructions of the standard.
pub(crate) fn written(site: Site, at: usize, word: u64) -> Option<NewCode>
    requires { at < 2 ^ 64 - 1 }
    ensures some { IfSome result (IsNewCode site.start (made_pieces site.start at site.made word)
        (made_asks site.made)) }
    ensures none { IfNone result (¬ (IsWritable site.made)) }
{
    let start = site.start;
    let kept = Piece::Kept { start, end: at + 1 };
    match site.made {
        Made::Nothing => Some(code(start, &[], None)),
        Made::Constant(t, number) => Some(code(start, &[Piece::New(constant(t, number))], None)),
        Made::Sum(t, number) => Some(code(start, &sum(t, number, word), None)),
        Made::Nop => Some(code(start, &[Piece::New(nop()), kept], None)),
        Made::Global(t, global) => Some(code(
            start,
            &[
                kept,
                Piece::New(set_global(global)),
                Piece::New(get_global(global)),
            ],
            Some(t),
        )),
        Made::SetAndGet(local) => Some(code(
            start,
            &[Piece::New(set_local(local)), Piece::New(get_local(local))],
            None,
        )),
        Made::Tee(local) => Some(code(start, &[Piece::New(tee_local(local))], None)),
        Made::Access(access, immediate) => side(start, access.kind, access.right, immediate),
        Made::Wrapped(wrap, t) => Some(wrapped(start, kept, wrap, t, word)),
        Made::Inner(from, end) => Some(code(start, &[Piece::Kept { start: from, end }], None)),
        Made::Conditional(t, condition) => Some(conditional(start, condition, at, t)),
        Made::Selected => Some(selected(start, at)),
        Made::Tested => Some(followed(start, kept, constant(IntegerType::I32, 0), ne())),
        Made::DoublyTested => Some(followed(start, kept, eqz(), eqz())),
        Made::Dead => Some(followed(start, kept, constant(IntegerType::I32, word), discard())),
        Made::Bounded(count) => Some(bounded(start, at + 1, count)),
        Made::InConditional(label) => in_conditional(start, label),
        Made::BranchIf(label) => {
            let branch = Piece::Structural(Control::BranchIf(label));
            Some(code(start, &[branch], None))
        }
    }
}
