//! The operand types of the instructions that are no integer rows: a column beside the instruction table.
ghost use Rattle.std.specs.Prelude.{◌≡◌};
ghost use Rattle.wasm_code.specs.Table.{row_at};
ghost use Rattle.wasm_execution.specs.OtherRow.{by_spans, column_in};

use OperandColumn::{One, Parameters, Three, Two, Unknown, Zero};
use OperandKind::{
    Address, Element, Index, Named, OtherAddress, OtherIndex, Reference, SmallerAddress,
    SmallerIndex,
};
use wasm_types::PrimitiveTypeInfo;

/// What decides the type of an operand.
#[derive(Clone, Copy, Debug, PartialEq, Eq)]
pub enum OperandKind {
    /// The row.
    Of(PrimitiveTypeInfo),
    /// It is any reference.
    Reference,
    /// The address type of the memory that the immediate names.
    Address,
    /// That of the second memory that it names.
    OtherAddress,
    /// The one of both with fewer bits.
    SmallerAddress,
    /// The address type of the table that the immediate names.
    Index,
    /// That of the second table that it names.
    OtherIndex,
    /// The one of both with fewer bits.
    SmallerIndex,
    /// The element type of the table that the immediate names.
    Element,
    /// The type that the immediate names.
    Named,
}

/// The operands of an instruction, the first one first.
#[derive(Clone, Copy, Debug, PartialEq, Eq)]
pub enum OperandColumn {
    /// This column doesn't tell: the instruction is an integer row, other than the typed select,
    /// or there is no such row.
    Unknown,
    /// The parameters of the function that the immediate names.
    Parameters,
    /// There are none.
    Zero,
    One(OperandKind),
    Two(OperandKind, OperandKind),
    Three(OperandKind, OperandKind, OperandKind),
}

const I32: OperandKind = OperandKind::Of(PrimitiveTypeInfo::I32);

const I64: OperandKind = OperandKind::Of(PrimitiveTypeInfo::I64);

const F32: OperandKind = OperandKind::Of(PrimitiveTypeInfo::F32);

const F64: OperandKind = OperandKind::Of(PrimitiveTypeInfo::F64);

const V128: OperandKind = OperandKind::Of(PrimitiveTypeInfo::V128);

// Of the rows by their numbers, each span up to where the next begins.
const SPANS: [(u16, OperandColumn); 119] = [
    (1, Unknown),
    (2, Parameters),
    (9, Unknown),
    (10, One(Index)),
    (11, Two(Index, Element)),
    (25, One(Address)),
    (26, Two(Address, I32)),
    (27, Two(Address, I64)),
    (28, Two(Address, F32)),
    (29, Two(Address, F64)),
    (31, Two(Address, I32)),
    (34, Two(Address, I64)),
    (35, Zero),
    (36, One(Address)),
    (38, Unknown),
    (40, Zero),
    (62, Unknown),
    (68, Two(F32, F32)),
    (74, Two(F64, F64)),
    (110, Unknown),
    (117, One(F32)),
    (124, Two(F32, F32)),
    (131, One(F64)),
    (138, Two(F64, F64)),
    (139, Unknown),
    (141, One(F32)),
    (143, One(F64)),
    (145, Unknown),
    (147, One(F32)),
    (149, One(F64)),
    (151, One(I32)),
    (153, One(I64)),
    (154, One(F64)),
    (156, One(I32)),
    (158, One(I64)),
    (160, One(F32)),
    (161, One(F64)),
    (162, One(I32)),
    (163, One(I64)),
    (168, Unknown),
    (169, Zero),
    (170, One(Reference)),
    (171, Zero),
    (173, One(F32)),
    (175, One(F64)),
    (177, One(F32)),
    (179, One(F64)),
    (180, Three(OtherAddress, I32, I32)),
    (181, Zero),
    (182, Three(Address, OtherAddress, SmallerAddress)),
    (183, Three(Address, I32, Address)),
    (184, Three(OtherIndex, I32, I32)),
    (185, Zero),
    (186, Three(Index, OtherIndex, SmallerIndex)),
    (187, Two(Element, Index)),
    (188, Zero),
    (189, Three(Index, Element, Index)),
    (200, One(Address)),
    (201, Two(Address, V128)),
    (202, Zero),
    (204, Two(V128, V128)),
    (207, One(I32)),
    (208, One(I64)),
    (209, One(F32)),
    (210, One(F64)),
    (212, One(V128)),
    (213, Two(V128, I32)),
    (215, One(V128)),
    (216, Two(V128, I32)),
    (217, One(V128)),
    (218, Two(V128, I32)),
    (219, One(V128)),
    (220, Two(V128, I64)),
    (221, One(V128)),
    (222, Two(V128, F32)),
    (223, One(V128)),
    (224, Two(V128, F64)),
    (266, Two(V128, V128)),
    (267, One(V128)),
    (271, Two(V128, V128)),
    (272, Three(V128, V128, V128)),
    (273, One(V128)),
    (281, Two(Address, V128)),
    (283, One(Address)),
    (290, One(V128)),
    (292, Two(V128, V128)),
    (296, One(V128)),
    (299, Two(V128, I32)),
    (305, Two(V128, V128)),
    (307, One(V128)),
    (311, Two(V128, V128)),
    (312, One(V128)),
    (313, Two(V128, V128)),
    (319, One(V128)),
    (320, Two(V128, V128)),
    (322, One(V128)),
    (324, Two(V128, V128)),
    (328, One(V128)),
    (331, Two(V128, I32)),
    (337, Two(V128, V128)),
    (338, One(V128)),
    (348, Two(V128, V128)),
    (356, One(V128)),
    (359, Two(V128, I32)),
    (371, Two(V128, V128)),
    (379, One(V128)),
    (382, Two(V128, I32)),
    (395, Two(V128, V128)),
    (398, One(V128)),
    (406, Two(V128, V128)),
    (409, One(V128)),
    (417, Two(V128, V128)),
    (425, One(V128)),
    (426, Two(V128, V128)),
    (430, One(V128)),
    (438, Three(V128, V128, V128)),
    (444, Two(V128, V128)),
    (445, Three(V128, V128, V128)),
    (446, Three(Named, Named, I32)),
];

// The entry of the first span that ends behind the number.
fn by_spans(spans: &[(u16, OperandColumn)], number: u16) -> OperandColumn
    ensures { result ≡ by_spans spans.now number }
{
    for span in spans {
        if number < span.0 {
            return span.1;
        }
    }
    Unknown
}

/// The operands of the row with that number.
pub fn operand_column(row: u16) -> OperandColumn
    ensures { result ≡ column_in (row_at row) }
{
    by_spans(&SPANS, row)
}
