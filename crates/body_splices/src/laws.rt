//! What holds of bodies with pieces in the place of operators. A function here does nothing: its contract is the law.
ghost use Rattle.body_splices.specs.Laws.{OwnBytesAreTheBody, OwnBytesStay, SplicedOperatorsAre, SplicesKeepOperators, SplicesKeepStructure};

use wasm_code::laws::one_list;

/// The bytes of a body's operators, joined, are all its bytes: what `splice` says by them leaves none out.
pub fn own_bytes_are_the_body()
    ensures { OwnBytesAreTheBody }
{}

/// A body that stands in two places has the same operators there, with the same bytes.
pub fn own_bytes_stay()
    ensures { OwnBytesStay }
{
    one_list();
}

/// What `splice` writes is read as the operators before the range, those of the pieces, and the operators behind.
pub fn spliced_operators_are()
    ensures { SplicedOperatorsAre }
{}

/// `splice` leaves operators of a kind as they were, with their bytes and in their order, where none of it are replaced or written
/// (`operators`); so, where instructions are replaced by instructions, all others, and the body stays as well nested as it was
/// (`structure`).
pub fn splices_keep_operators()
    ensures operators { SplicesKeepOperators }
    ensures structure { SplicesKeepStructure }
{}
