//! A rewrite that a body has.

use crate::growth::Growth;
use crate::rewrite::Rewrite;

/// A rewrite, and what it does to the number of operators.
#[derive(Clone, Copy)]
pub(crate) struct Found {
    pub(crate) rewrite: Rewrite,
    pub(crate) growth: Growth,
}
