//! Ids of nodes.

/// The place of a node in its expression, counted from 0.
#[derive(Clone, Copy, PartialEq, Eq, PartialOrd, Ord, Hash, Debug)]
pub struct Id(pub u32);

impl From<u32> for Id {
    ghost use Rattle.std.specs.Prelude.{◌≡◌};

    ghost from_gives = { λ place id. id.0 ≡ place };

    fn from(place: u32) -> Id {
        Id(place)
    }
}

impl From<Id> for usize {
    ghost use Rattle.std.specs.Prelude.{◌≡◌};

    ghost from_gives = { λ id place. place ≡ id.0 };

    fn from(id: Id) -> usize {
        id.0 as usize
    }
}
