//! Comparisons of nodes: by place, then payload, then children.
ghost use Rattle.std.specs.Ordering.{as_partial_cmp};
ghost use Rattle.peephole_lang.specs.Compared.{lang_eq, lang_cmp, lang_hash, lang_equiv, lang_partial_equiv, lang_total, lang_ties, lang_agrees, lang_order, lang_alike};

use crate::lang::Lang;
use std::cmp::Ordering;
use std::hash::{Hash, Hasher};

impl PartialEq for Lang {
    ghost eq = { lang_eq };

    ghost laws = { lang_partial_equiv };

    fn eq(&self, other: &Lang) -> bool {
        self.place() == other.place()
            && self.payload() == other.payload()
            && self.children() == other.children()
    }
}

impl Eq for Lang {
    ghost laws = { lang_equiv };
}

impl PartialOrd for Lang {
    ghost partial_cmp = { as_partial_cmp lang_cmp };

    ghost laws = { lang_order };

    fn partial_cmp(&self, other: &Lang) -> Option<Ordering> {
        Some(self.cmp(other))
    }
}

impl Ord for Lang {
    ghost cmp = { lang_cmp };

    ghost total = { lang_total };

    ghost matches_partial_cmp = { lang_agrees };

    ghost matches_eq = { lang_ties };

    fn cmp(&self, other: &Lang) -> Ordering {
        self.place()
            .cmp(&other.place())
            .then_with(|| self.payload().cmp(&other.payload()))
            .then_with(|| self.children().cmp(other.children()))
    }
}

impl Hash for Lang {
    ghost hash_input = { lang_hash };

    ghost respects_eq = { λ x y h. lang_alike.fed x y h };

    fn hash<H: Hasher>(&self, state: &mut H) {
        self.place().hash(state);
        self.payload().hash(state);
        self.children().hash(state);
    }
}
