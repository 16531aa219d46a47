//! What begins the texts of each variant.
ghost use Rattle.std.specs.Prelude.{◌≡◌, [], map, slice_get};
ghost use Rattle.std.specs.Option.{unwrap_or};
ghost use Rattle.peephole_nodes.specs.Fronts.{front_at};

use crate::variant_rows;

macro_rules! front {
    (Nothing $name:literal) => {
        $name
    };
    ($payload:ident $name:literal) => {
        concat!($name, ".")
    };
}

macro_rules! fronts {
    ($($place:literal $name:literal $payload:ident $children:tt,)*) => {
        [$(front!($payload $name),)*]
    };
}

// By place: the variant's name, and a dot where a payload follows.
const FRONTS: [&str; 458] = variant_rows!(fronts);

fn front_in(fronts: &[&'static str], place: u16) -> &'static str
    ensures { result.now ≡ unwrap_or (slice_get (map (λ front. front.now) fronts.now) place) [] }
{
    fronts.get(place as usize).copied().unwrap_or("")
}

/// What begins the texts of the variant with that place: its name, and a dot where a payload follows. Nothing where there is
/// no such variant.
pub fn front_at(place: u16) -> &'static str
    ensures { result.now ≡ front_at place }
{
    front_in(&FRONTS, place)
}
