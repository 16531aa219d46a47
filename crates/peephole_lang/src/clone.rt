//! Copies of nodes.
use crate::lang::Lang;
use crate::lang_variants::lang_variants;
use std::alloc::AllocError;

macro_rules! copies {
    (($node:expr)
        [$($bare:ident $bare_place:literal,)*]
        [$({ $payload:ident $said:expr } [$($leaf:ident $leaf_place:literal,)*])*]
        [$({ $told:tt $given:expr } { $held:tt $children:expr, $lent:expr } { $whole:tt $copied:tt }
            [$($name:ident $place:literal,)*])*]
    ) => {
        match $node {
            $(Lang::$bare => Ok(Lang::$bare),)*
            $($(Lang::$leaf(payload) => Ok(Lang::$leaf(*payload)),)*)*
            $($(Lang::$name $whole => Ok(Lang::$name $copied),)*)*
            Lang::Numeric(node) => Ok(Lang::Numeric(*node)),
            Lang::Simd(node) => Ok(Lang::Simd(*node)),
        }
    };
}

impl Clone for Lang {
    ghost use Rattle.peephole_lang.specs.Node.{SameNode};

    ghost is_clone = { SameNode };

    #[tactic(auto, unfolding(crate::specs::Lang::place_of, crate::specs::Lang::payload_of, crate::specs::Lang::ids_of))]
    fn clone(&self) -> Result<Lang, AllocError> {
        lang_variants!(copies(self))
    }
}
