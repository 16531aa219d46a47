//! What holds of numeric nodes and vector nodes, for every caller.
ghost use Rattle.std.specs.Prelude.{◌≡◌, Some};
ghost use Rattle.std.specs.Bool.{Decides};
ghost use Rattle.peephole_nodes.specs.declared.numeric.Numeric.{Numeric};
ghost use Rattle.peephole_nodes.specs.declared.simd.Simd.{Simd};
ghost use Rattle.peephole_nodes.specs.contracts.payload.PayloadOrd.TheImpl as payload_ord;
ghost use Rattle.peephole_nodes.specs.contracts.payload.PayloadPartialOrd.TheImpl as payload_partial_ord;
ghost use Rattle.peephole_nodes.specs.declared.payload.Payload.{Payload};
ghost use Rattle.peephole_nodes.specs.PayloadOrder.{payload_order};
ghost use Rattle.peephole_nodes.specs.Compared.{numeric_eq, simd_eq};

/// The test for equal numeric nodes is true exactly where they are equal.
pub fn equal_numeric()
    ensures { (l m : Numeric) → Decides (numeric_eq l m) (l ≡ m) }
{}

/// The test for equal vector nodes is true exactly where they are equal.
pub fn equal_simd()
    ensures { (l m : Simd) → Decides (simd_eq l m) (l ≡ m) }
{}

/// Payloads compare, by `cmp` and by `<` and its like, by their kinds, and those of one kind by what they hold.
pub fn payloads_are_ordered()
    ensures total { (x y : Payload) → payload_ord.ghosts.cmp x y ≡ payload_order x y }
    ensures partial { (x y : Payload)
        → payload_partial_ord.ghosts.partial_cmp x y ≡ Some (payload_order x y) }
{}
