//! The rewrites of a run, shown as they are made.
ghost use Rattle.std.specs.Prelude.{◌≡◌, [], false, IfOk, IfErr};
ghost use Rattle.module_commands.specs.declared.failure.Failure.TheVariants.{Memory};

use crate::failure::Failure;
use crate::progress::Progress;
use module_rewrites::{MadeRewrite, Watch};
use module_showing::write_shown;
use std::alloc::Global;

/// Keeps what is shown of the rewrites that it sees, if that is asked for, and counts them.
#[derive(Drop)]
pub struct Shower<P> {
    /// Whether anything is shown.
    pub wanted: bool,
    /// What is shown so far.
    pub text: Vec<u8>,
    /// Whether no memory was left for some of it.
    pub failed: bool,
    /// Counts the rewrites.
    pub progress: P,
}

impl<P: Progress + Drop> Shower<P> {
    /// Nothing is shown yet.
    pub fn new(alloc: Global, wanted: bool, progress: P) -> Shower<P>
        ensures wanted { result.wanted ≡ wanted }
        ensures text { result.text.items ≡ [] }
        ensures failed { result.failed ≡ false }
    {
        Shower {
            wanted,
            text: Vec::new(alloc),
            failed: false,
            progress,
        }
    }

    /// What is shown.
    pub fn shown(self) -> Result<Vec<u8>, Failure>
        ensures text { IfOk result (λ text. (text ≡ self.text) × (self.failed ≡ false)) }
        ensures memory { IfErr result (λ e. e ≡ Memory) }
    {
        if self.failed {
            return Err(Failure::Memory);
        }
        Ok(self.text)
    }
}

impl<P: Progress + Drop> Watch for Shower<P> {
    ghost use Rattle.module_commands.specs.Shown.{ShowsOne};

    ghost saw = { λ before old new made after. ShowsOne before made after };

    fn see(&mut self, alloc: Global, old: &[u8], new: &[u8], made: MadeRewrite) {
        self.progress.count();
        if !self.wanted || self.failed {
            return;
        }
        if write_shown(alloc, &mut self.text, old, new, &made).is_err() {
            self.failed = true;
        }
    }
}
