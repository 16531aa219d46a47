//! Ways to wrap a value in control flow of its own.
ghost use Rattle.std.specs.Prelude.{◌≡◌};
ghost use Rattle.rewrite_rules.specs.Wrap.{front_of, back_of, value_of};

use wasm_code::ValType;
use wasm_types::PrimitiveTypeInfo;

/// An operator of wrapped code beside the value's own.
#[derive(Clone, Copy, Debug, PartialEq, Eq)]
pub enum WrapItem {
    /// `block`, of the value's type.
    Block,
    /// `loop`, of the value's type.
    Loop,
    /// `if`, of the value's type.
    If,
    /// `else`.
    Else,
    /// `end`.
    End,
    /// `br 0`.
    Branch,
    /// `br_if 0`.
    BranchIf,
    /// `unreachable`.
    Unreachable,
    /// `i32.const 0`.
    Zero,
    /// An `i32.const` of any other number.
    NonZero,
    /// An `i32.const` of any number.
    Any,
}

/// A way to wrap a value.
#[derive(Clone, Copy, Debug, PartialEq, Eq)]
pub enum Wrap {
    /// In a block.
    InBlock,
    /// In a loop that is left at its end.
    InLoop,
    /// As the first part of a conditional on a constant that isn't zero; the other part traps.
    InIf,
    /// As the other part of a conditional on zero; the first part traps.
    InElse,
    /// Before a branch to the end of its block.
    LeaveBlock,
    /// Before such a branch, above a constant, which the branch drops.
    LeaveOver,
    /// Before such a branch, behind which there is a trap.
    LeaveDead,
    /// Before a branch under any condition: both ways lead to the end of the block.
    MayLeave,
    /// Before a branch under a constant that isn't zero, above a constant, which the branch drops; behind it there is a trap.
    SurelyLeave,
    /// In a loop before a jump back that is never taken.
    Once,
}

impl Wrap {
    /// The operators before the value.
    pub fn front(self) -> &'static [WrapItem]
        ensures { result.now ≡ front_of self }
    {
        match self {
            Wrap::InBlock => &[WrapItem::Block],
            Wrap::InLoop => &[WrapItem::Loop],
            Wrap::InIf => &[WrapItem::NonZero, WrapItem::If],
            Wrap::InElse => &[
                WrapItem::Zero,
                WrapItem::If,
                WrapItem::Unreachable,
                WrapItem::Else,
            ],
            Wrap::LeaveBlock => &[WrapItem::Block],
            Wrap::LeaveOver => &[WrapItem::Block, WrapItem::Any],
            Wrap::LeaveDead => &[WrapItem::Block],
            Wrap::MayLeave => &[WrapItem::Block],
            Wrap::SurelyLeave => &[WrapItem::Block, WrapItem::Any],
            Wrap::Once => &[WrapItem::Loop],
        }
    }

    /// The operators behind it.
    pub fn back(self) -> &'static [WrapItem]
        ensures { result.now ≡ back_of self }
    {
        match self {
            Wrap::InBlock => &[WrapItem::End],
            Wrap::InLoop => &[WrapItem::End],
            Wrap::InIf => &[WrapItem::Else, WrapItem::Unreachable, WrapItem::End],
            Wrap::InElse => &[WrapItem::End],
            Wrap::LeaveBlock => &[WrapItem::Branch, WrapItem::End],
            Wrap::LeaveOver => &[WrapItem::Branch, WrapItem::End],
            Wrap::LeaveDead => &[WrapItem::Branch, WrapItem::Unreachable, WrapItem::End],
            Wrap::MayLeave => &[WrapItem::Any, WrapItem::BranchIf, WrapItem::End],
            Wrap::SurelyLeave => &[
                WrapItem::NonZero,
                WrapItem::BranchIf,
                WrapItem::Unreachable,
                WrapItem::End,
            ],
            Wrap::Once => &[WrapItem::Zero, WrapItem::BranchIf, WrapItem::End],
        }
    }
}

/// The type of values that are wrapped, as blocks write it: a number or a vector; none for references.
pub fn value_of(t: PrimitiveTypeInfo) -> Option<ValType>
    ensures { result ≡ value_of t }
{
    match t {
        PrimitiveTypeInfo::I32 => Some(ValType::I32),
        PrimitiveTypeInfo::I64 => Some(ValType::I64),
        PrimitiveTypeInfo::F32 => Some(ValType::F32),
        PrimitiveTypeInfo::F64 => Some(ValType::F64),
        PrimitiveTypeInfo::V128 => Some(ValType::V128),
        _ => None,
    }
}
