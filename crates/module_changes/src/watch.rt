//! What sees changes as they are made.
ghost use Rattle.std.specs.Prelude.{ℕ, List};
ghost use Rattle.module_changes.specs.declared.entry.MadeChange.{MadeChange};

use crate::entry::MadeChange;
use std::alloc::Global;

/// What is shown each change of a module, once it is made.
pub trait Watch {
    // Holds of the watcher before, the bytes before the change, those with it, the change, and the watcher after.
    ghost saw: { Self → List ℕ → List ℕ → MadeChange → Self → Type 0 };

    /// Sees a change: the bytes of the module before it, those with it, and which one it is.
    fn see(&mut self, alloc: Global, old: &[u8], new: &[u8], made: MadeChange)
        ensures { saw self.old old.now new.now made self.new };
}

/// Sees nothing, and stays as it is.
#[derive(Clone, Copy, Debug, PartialEq, Eq)]
pub struct Unwatched;

impl Watch for Unwatched {
    ghost use Rattle.std.specs.Prelude.{◌≡◌};

    ghost saw = { λ before _ _ _ after. after ≡ before };

    fn see(&mut self, _alloc: Global, _old: &[u8], _new: &[u8], _made: MadeChange) {}
}
