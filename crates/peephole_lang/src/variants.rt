//! The variants of nodes, by place: kind of payload, number of children.

use peephole_nodes::{Arity, PayloadKind, variant_rows};

/// What the reading of a variant's texts goes by.
#[derive(Clone, Copy)]
pub struct VariantRow {
    pub place: u16,
    pub payload: PayloadKind,
    pub children: Arity,
}

macro_rules! arity {
    (none) => {
        Arity::Zero
    };
    (id) => {
        Arity::One
    };
    (any) => {
        Arity::Any
    };
    ($count:literal) => {
        Arity::Several($count)
    };
}

macro_rules! rows {
    ($($place:literal $name:literal $payload:ident $children:tt,)*) => {
        [$(VariantRow {
            place: $place,
            payload: PayloadKind::$payload,
            children: arity!($children),
        },)*]
    };
}

/// The variants by place.
pub const VARIANTS: [VariantRow; 458] = variant_rows!(rows);
