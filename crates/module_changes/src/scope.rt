//! What of a module may be changed, and how.

use body_changes::Change;
use std::marker::Model;

/// What of a module may be changed, how, and how large a new one may be.
#[derive(Drop)]
pub struct Scope<'a> {
    /// The changes.
    pub changes: &'a [Change],
    /// The only function that may be changed, by its index among all functions of the module, imported ones first; none: any may be.
    pub function: Option<usize>,
    /// The most instructions of code that is drawn, at least one, and at most 1,000.
    pub most: usize,
    /// The most bytes that a new module may have.
    pub max_size: usize,
}

impl<'a> Model for Scope<'a> {
    ghost use Rattle.module_changes.specs.Scope.{Scope};

    ghost Value = { Scope };

    ghost view = { λ s. record {
      changes = s.changes.now;
      function = s.function;
      most = s.most;
      size = s.max_size;
    } };
}

impl<'a> Scope<'a> {
    ghost use Rattle.std.specs.Prelude.{◌≡◌, ◌≤◌};
    ghost use Rattle.module_changes.specs.Scope.{words_count};

    /// The changes.
    pub(crate) fn changes(&self) -> &'a [Change]
        ensures { result.now ≡ self.now.changes }
    {
        self.changes
    }

    /// The most instructions of code that is drawn.
    pub(crate) fn most(&self) -> usize
        ensures { result ≡ self.now.most }
    {
        self.most
    }

    /// The only function that may be changed.
    pub(crate) fn function(&self) -> Option<usize>
        ensures { result ≡ self.now.function }
    {
        self.function
    }

    /// The most bytes that a new module may have.
    pub(crate) fn max_size(&self) -> usize
        ensures { result ≡ self.now.size }
    {
        self.max_size
    }

    /// How many words an attempt takes.
    pub(crate) fn words(&self) -> usize
        requires { self.now.most ≤ 1000 }
        ensures { result ≡ words_count self.now }
    {
        3 + 3 * self.most()
    }
}
