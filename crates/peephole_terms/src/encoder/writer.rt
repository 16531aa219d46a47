//! What writes: where to, and by what.

use super::request::ResourceRequest;
use rand_core::Rng;
use std::alloc::Global;
use wasm_code::Function;

/// Writes instructions behind what a sink holds. The walk over a tree takes its memory from `alloc`.
///
/// A contract sees what is written and requested so far, and what the generator will give.
#[derive(Drop)]
pub(crate) struct Writer<'a, R> {
    pub(crate) alloc: Global,
    /// How many globals the module has: requested ones come behind them.
    pub(crate) globals: usize,
    /// What random words are drawn from.
    pub(crate) rng: &'a mut R,
    /// What is written to.
    pub(crate) sink: &'a mut Function,
    /// What the written instructions need from outside the function.
    pub(crate) requests: &'a mut Vec<ResourceRequest>,
}
