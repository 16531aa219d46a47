//! Comparisons of numeric nodes and of vector nodes, as all nodes compare: by place, then payload, then children.
ghost use Rattle.std.specs.Ordering.{as_partial_cmp};
ghost use Rattle.peephole_nodes.specs.Numeric.{numeric_place_of, numeric_ids_of};
ghost use Rattle.peephole_nodes.specs.Simd.{simd_place_of, simd_payload_of, simd_ids_of};
ghost use Rattle.peephole_nodes.specs.Compared.{node_equiv, node_partial_equiv, node_total, node_ties, node_agrees, node_order, node_alike, numeric_payload_of, numeric_eq, numeric_cmp, numeric_hash, simd_eq, simd_cmp, simd_hash};

use crate::numeric::Numeric;
use crate::payload::Payload;
use crate::simd::Simd;
use std::cmp::Ordering;
use std::hash::{Hash, Hasher};

impl PartialEq for Numeric {
    ghost eq = { numeric_eq };

    ghost laws = { node_partial_equiv numeric_place_of numeric_payload_of numeric_ids_of };

    fn eq(&self, other: &Numeric) -> bool {
        self.place() == other.place() && self.children() == other.children()
    }
}

impl Eq for Numeric {
    ghost laws = { node_equiv numeric_place_of numeric_payload_of numeric_ids_of };
}

impl PartialOrd for Numeric {
    ghost partial_cmp = { as_partial_cmp numeric_cmp };

    ghost laws = { node_order numeric_place_of numeric_payload_of numeric_ids_of };

    fn partial_cmp(&self, other: &Numeric) -> Option<Ordering> {
        Some(self.cmp(other))
    }
}

impl Ord for Numeric {
    ghost cmp = { numeric_cmp };

    ghost total = { node_total numeric_place_of numeric_payload_of numeric_ids_of };

    ghost matches_partial_cmp = { node_agrees numeric_place_of numeric_payload_of numeric_ids_of };

    ghost matches_eq = { node_ties numeric_place_of numeric_payload_of numeric_ids_of };

    fn cmp(&self, other: &Numeric) -> Ordering {
        self.place()
            .cmp(&other.place())
            .then_with(|| self.children().cmp(other.children()))
    }
}

impl Hash for Numeric {
    ghost hash_input = { numeric_hash };

    ghost respects_eq = { λ x y h. (node_alike numeric_place_of numeric_payload_of numeric_ids_of).fed x y h };

    fn hash<H: Hasher>(&self, state: &mut H) {
        self.place().hash(state);
        Payload::Nothing.hash(state);
        self.children().hash(state);
    }
}

impl PartialEq for Simd {
    ghost eq = { simd_eq };

    ghost laws = { node_partial_equiv simd_place_of simd_payload_of simd_ids_of };

    fn eq(&self, other: &Simd) -> bool {
        self.place() == other.place()
            && self.payload() == other.payload()
            && self.children() == other.children()
    }
}

impl Eq for Simd {
    ghost laws = { node_equiv simd_place_of simd_payload_of simd_ids_of };
}

impl PartialOrd for Simd {
    ghost partial_cmp = { as_partial_cmp simd_cmp };

    ghost laws = { node_order simd_place_of simd_payload_of simd_ids_of };

    fn partial_cmp(&self, other: &Simd) -> Option<Ordering> {
        Some(self.cmp(other))
    }
}

impl Ord for Simd {
    ghost cmp = { simd_cmp };

    ghost total = { node_total simd_place_of simd_payload_of simd_ids_of };

    ghost matches_partial_cmp = { node_agrees simd_place_of simd_payload_of simd_ids_of };

    ghost matches_eq = { node_ties simd_place_of simd_payload_of simd_ids_of };

    fn cmp(&self, other: &Simd) -> Ordering {
        self.place()
            .cmp(&other.place())
            .then_with(|| self.payload().cmp(&other.payload()))
            .then_with(|| self.children().cmp(other.children()))
    }
}

impl Hash for Simd {
    ghost hash_input = { simd_hash };

    ghost respects_eq = { λ x y h. (node_alike simd_place_of simd_payload_of simd_ids_of).fed x y h };

    fn hash<H: Hasher>(&self, state: &mut H) {
        self.place().hash(state);
        self.payload().hash(state);
        self.children().hash(state);
    }
}
