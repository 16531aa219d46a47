//! Numeric nodes by place, one function for each kind of payload and number of children.
ghost use Rattle.std.specs.Prelude.{◌≡◌, IfSome, is_some, [], ◌∷◌};
ghost use Rattle.peephole_nodes.specs.Numeric.{numeric_place_of, numeric_ids_of, numeric_count_of};
ghost use Rattle.peephole_nodes.specs.NumericShapes.{is_numeric_plain_one_to_171, is_numeric_plain_one_from_172, is_numeric_plain_two_to_100, is_numeric_plain_two_from_101};

use crate::id::Id;
use crate::numeric::Numeric;
use crate::numeric_variants::numeric_group;

// The node of the place, made of these fields; none at a place without one.
macro_rules! made {
    (($place:expr, $fields:tt) [$($name:ident $number:literal,)*]) => {
        match $place {
            $($number => Some(Numeric::$name $fields),)*
            _ => None,
        }
    };
}

// The numeric node of a place up to 171, with one child; none at a place without one.
#[tactic(auto, unfolding(crate::specs::NumericShapes::is_numeric_plain_one_to_171, crate::specs::Numeric::numeric_place_of, crate::specs::Numeric::numeric_children, crate::specs::Numeric::numeric_count_of))]
pub(crate) fn numeric_plain_one_to_171(place: u16, child: Id) -> Option<Numeric>
    ensures place { IfSome result (λ l. numeric_place_of l ≡ place) }
    ensures children { IfSome result (λ l. numeric_ids_of l ≡ child ∷ []) }
    ensures count { IfSome result (λ l. numeric_count_of l ≡ 1) }
    ensures complete { is_some result ≡ is_numeric_plain_one_to_171 place }
{
    numeric_group!(plain_one_to_171 => made (place, ([child])))
}

// The numeric node of a place from 172 on, with one child; none at a place without one.
#[tactic(auto, unfolding(crate::specs::NumericShapes::is_numeric_plain_one_from_172, crate::specs::Numeric::numeric_place_of, crate::specs::Numeric::numeric_children, crate::specs::Numeric::numeric_count_of))]
pub(crate) fn numeric_plain_one_from_172(place: u16, child: Id) -> Option<Numeric>
    ensures place { IfSome result (λ l. numeric_place_of l ≡ place) }
    ensures children { IfSome result (λ l. numeric_ids_of l ≡ child ∷ []) }
    ensures count { IfSome result (λ l. numeric_count_of l ≡ 1) }
    ensures complete { is_some result ≡ is_numeric_plain_one_from_172 place }
{
    numeric_group!(plain_one_from_172 => made (place, ([child])))
}

// The numeric node of a place up to 100, with two children; none at a place without one.
#[tactic(auto, unfolding(crate::specs::NumericShapes::is_numeric_plain_two_to_100, crate::specs::Numeric::numeric_place_of, crate::specs::Numeric::numeric_children, crate::specs::Numeric::numeric_count_of))]
pub(crate) fn numeric_plain_two_to_100(place: u16, first: Id, second: Id) -> Option<Numeric>
    ensures place { IfSome result (λ l. numeric_place_of l ≡ place) }
    ensures children { IfSome result (λ l. numeric_ids_of l ≡ first ∷ second ∷ []) }
    ensures count { IfSome result (λ l. numeric_count_of l ≡ 2) }
    ensures complete { is_some result ≡ is_numeric_plain_two_to_100 place }
{
    numeric_group!(plain_two_to_100 => made (place, ([first, second])))
}

// The numeric node of a place from 101 on, with two children; none at a place without one.
#[tactic(auto, unfolding(crate::specs::NumericShapes::is_numeric_plain_two_from_101, crate::specs::Numeric::numeric_place_of, crate::specs::Numeric::numeric_children, crate::specs::Numeric::numeric_count_of))]
pub(crate) fn numeric_plain_two_from_101(place: u16, first: Id, second: Id) -> Option<Numeric>
    ensures place { IfSome result (λ l. numeric_place_of l ≡ place) }
    ensures children { IfSome result (λ l. numeric_ids_of l ≡ first ∷ second ∷ []) }
    ensures count { IfSome result (λ l. numeric_count_of l ≡ 2) }
    ensures complete { is_some result ≡ is_numeric_plain_two_from_101 place }
{
    numeric_group!(plain_two_from_101 => made (place, ([first, second])))
}
