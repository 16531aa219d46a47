//! Which operators of two bodies are shown.

use crate::drawing::beginning;
use body_rewrites::Tree;
use wasm_code::OperatorAndByteOffset;
use wasm_types::ModuleInfo;

/// The operators of a body of the module, and their trees.
#[derive(Clone, Copy)]
pub(crate) struct Drawn<'a> {
    pub info: &'a ModuleInfo<'a>,
    pub operators: &'a [OperatorAndByteOffset],
    pub trees: &'a [Option<Tree>],
}

/// The operators of two bodies from `start` on, but for the last ones, `behind` of each, which are those behind the operator.
#[derive(Clone, Copy)]
pub(crate) struct Range {
    start: usize,
    behind: usize,
}

impl Range {
    /// Its operators in one of the bodies.
    pub(crate) fn of(
        self,
        operators: &[OperatorAndByteOffset],
    ) -> Option<&[OperatorAndByteOffset]> {
        let end = operators.len().checked_sub(self.behind)?;
        operators.get(self.start..end)
    }

    // From the first operator of it that differs in the bodies, or else from the one with that index.
    fn from_difference(self, old: &Drawn<'_>, new: &Drawn<'_>, at: usize) -> Option<Range> {
        let left = self.of(old.operators)?;
        let right = self.of(new.operators)?;
        let count = left.len().min(right.len()).min(at);
        for index in 0..count {
            if left[index].0 != right[index].0 {
                return Some(Range {
                    start: index,
                    behind: self.behind,
                });
            }
        }
        Some(Range {
            start: count,
            behind: self.behind,
        })
    }

    // The same with the operands of each of its operators in the body.
    fn with_operands(self, body: &Drawn<'_>) -> Range {
        let mut start = self.start;
        let end = body.operators.len().saturating_sub(self.behind);
        for at in self.start..end {
            start = start.min(beginning(body.info, body.operators, body.trees, at));
        }
        Range {
            start,
            behind: self.behind,
        }
    }
}

/// The operators up to the one with that index in the old body from the first one on that differs, with the operands of each; none
/// where there is no such operator.
pub(crate) fn range_of(old: &Drawn<'_>, new: &Drawn<'_>, at: usize) -> Option<Range> {
    let behind = old.operators.len().checked_sub(at)?.checked_sub(1)?;
    let whole = Range { start: 0, behind };
    let changed = whole.from_difference(old, new, at)?;
    let old_range = changed.with_operands(old);
    let new_range = changed.with_operands(new);
    Some(Range {
        start: old_range.start.min(new_range.start),
        behind,
    })
}
