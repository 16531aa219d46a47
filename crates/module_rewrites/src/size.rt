//! Whether a new module is small enough.
ghost use Rattle.std.specs.Prelude.{IfNone, IfSome, IsTrue, ◌≡◌, ◌↔◌};
ghost use Rattle.module_rewrites.specs.Size.{IsNotFor, IsSmallEnough, IsSmaller, size_order};

use crate::mutation::MutationError;
use crate::scope::Scope;
use std::cmp::Ordering;

// The order of size: by the number of bytes, and of two with as many as words stand in a dictionary.
fn by_size(new: &[u8], old: &[u8]) -> Ordering
    ensures { result ≡ size_order new.now old.now }
{
    match new.len().cmp(&old.len()) {
        Ordering::Equal => new.cmp(old),
        order => order,
    }
}

// Whether it comes before the old one in that order.
fn is_smaller(new: &[u8], old: &[u8]) -> bool
    ensures { IsTrue result ↔ IsSmaller new.now old.now }
{
    by_size(new, old).is_lt()
}

/// Why the new module isn't small enough, beside the bytes of the old one; none where it is.
pub(crate) fn refusal(scope: &Scope<'_>, bytes: &[u8], new: &[u8]) -> Option<MutationError>
    ensures fits { IfNone result (IsSmallEnough scope.now bytes.now new.now) }
    ensures refused { IfSome result (IsNotFor scope.now bytes.now new.now) }
{
    if scope.shrinking && !is_smaller(new, bytes) {
        return Some(MutationError::NotSmaller);
    }
    if new.len() > scope.max_size {
        return Some(MutationError::TooLong);
    }
    None
}
