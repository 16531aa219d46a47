//! What a rewrite does to the number of a body's operators.
ghost use Rattle.std.specs.Prelude.{◌≡◌, ◌↔◌, IsTrue};
ghost use Rattle.body_rewrites.specs.Growth.{has_growth};

/// What becomes of the number of operators.
#[derive(Clone, Copy, Debug, PartialEq, Eq)]
pub enum Growth {
    /// There are fewer.
    Shrinks,
    /// There are as many.
    Keeps,
    /// There are more.
    Grows,
}

/// Whether both are the same.
pub(crate) fn same_growth(one: Growth, other: Growth) -> bool
    ensures { IsTrue result ↔ (one ≡ other) }
{
    match (one, other) {
        (Growth::Shrinks, Growth::Shrinks) => true,
        (Growth::Keeps, Growth::Keeps) => true,
        (Growth::Grows, Growth::Grows) => true,
        _ => false,
    }
}

/// Whether it is one of these.
pub(crate) fn has_growth(wanted: &[Growth], growth: Growth) -> bool
    ensures { result ≡ has_growth wanted.now growth }
{
    for one in wanted {
        if same_growth(*one, growth) {
            return true;
        }
    }
    false
}
