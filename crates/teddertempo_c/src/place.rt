//! Which operators of a module a caller names, and by which change.
ghost use Rattle.std.specs.Prelude.{◌≡◌, ◌↔◌, ◌<◌, IsTrue, length};
ghost use Rattle.body_changes.specs.declared.change.TheConstants.{CHANGES as every_change};
ghost use Rattle.teddertempo_c.specs.Places.{IsBad, Names, end_of};

use crate::options::{NO_GROWTH, is_misused};
use body_changes::CHANGES;
use module_changes::ChangeAt;
use std::mem::size_of;

/// Operators of a function, and a change. C passes a pointer to one: it is `struct teddertempo_place` of the header. All zero is the change
/// with the number 0 of all operators of the function with the index 0.
#[repr(C)]
#[derive(Clone, Copy)]
pub struct Place {
    /// The number of the change.
    pub change: u64,
    /// The function, by its index among all functions of the module, imported ones first.
    pub function: u64,
    /// The first operator of its body, counted from 0.
    pub first: u64,
    /// The operator after the last one, which may be after all there are; 0: to the last one.
    pub end: u64,
    /// How many bytes larger than the old module the new one may be; 0: as large as the buffer.
    pub growth: u64,
    /// `NO_GROWTH` or 0. Other bits are of later versions.
    pub flags: u64,
    /// Fields of later versions: 0.
    pub reserved: [u64; 8],
}

const _: () = prove!(size_of::<Place>() == 112);

/// Whether the place is refused: for a reason of `is_misused`, or since no change has the number.
pub fn is_bad(place: &Place) -> bool
    ensures { IsTrue result ↔ IsBad place.now }
{
    is_misused(place.growth, place.flags, NO_GROWTH, &place.reserved)
        || place.change >= CHANGES.len() as u64
}

// The operator after the last one.
fn end_of(end: u64) -> usize
    ensures { result ≡ end_of end }
{
    if end == 0 { usize::MAX } else { end as usize }
}

/// The operators, and the change. Condition: there is a change with the number.
pub fn at_of(place: &Place) -> ChangeAt
    requires { place.now.change < length every_change }
    ensures { Names place.now result }
{
    ChangeAt {
        change: CHANGES[place.change as usize],
        function: place.function as usize,
        first: place.first as usize,
        end: end_of(place.end),
    }
}
