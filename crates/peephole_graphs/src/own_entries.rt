//! The own entries of a block's operators.

use std::alloc::{AllocError, Global};

/// The index of the own entry of each of a block's operators. The operators follow one another in the body, so that a list of
/// the indexes from the block's first operator on is enough.
#[derive(Clone, Debug, Drop)]
pub struct OwnEntries {
    first: usize,
    entries: Vec<u32>,
}

impl OwnEntries {
    ghost use Rattle.std.specs.Prelude.{◌≡◌, ◌↔◌, ◌++◌, ◌∷◌, [], IsTrue, IfOk, OnOk};
    ghost use Rattle.peephole_graphs.specs.OwnEntries.{own_entry_in, operator_count};

    /// Those of no operators.
    pub(crate) fn new(alloc: Global) -> OwnEntries
        ensures { result.entries.items ≡ [] }
    {
        OwnEntries {
            first: 0,
            entries: Vec::new(alloc),
        }
    }

    /// Those of no operators yet, the first of which will have the index `first` in the body, with room for `count`.
    pub(crate) fn with_capacity(
        alloc: Global,
        first: usize,
        count: usize,
    ) -> Result<OwnEntries, AllocError>
        ensures first { IfOk result (λ own. own.first ≡ first) }
        ensures entries { IfOk result (λ own. own.entries.items ≡ []) }
    {
        Ok(OwnEntries {
            first,
            entries: Vec::with_capacity(alloc, count)?,
        })
    }

    /// Puts the next operator's entry behind the others.
    pub(crate) fn push(&mut self, entry: u32) -> Result<(), AllocError>
        ensures first { OnOk result (self.new.first ≡ self.old.first) }
        ensures entries { OnOk result (self.new.entries.items
            ≡ self.old.entries.items ++ entry ∷ []) }
    {
        self.entries.push(entry)?;
        Ok(())
    }

    /// The index of the own entry of the operator with that index in the body; none where it is no operator of the block.
    pub fn get(&self, operator: usize) -> Option<usize>
        ensures { result ≡ own_entry_in self.now operator }
    {
        let number = operator.checked_sub(self.first)?;
        let entry = self.entries.get(number)?;
        Some(*entry as usize)
    }

    /// How many operators the block has.
    pub fn len(&self) -> usize
        ensures { result ≡ operator_count self.now }
    {
        self.entries.len()
    }

    /// Whether the block has no operators.
    pub fn is_empty(&self) -> bool
        ensures { IsTrue result ↔ (operator_count self.now ≡ 0) }
    {
        self.entries.is_empty()
    }
}
