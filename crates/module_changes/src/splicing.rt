//! A module changed once, with code of another module.
ghost use Rattle.std.specs.Prelude.{◌≡◌, ◌<◌, ◌≤◌, IfErr, IfOk};
ghost use Rattle.module_changes.specs.Spliced.{IsSpliceRefusal, SplicesOne};
ghost use Rattle.module_changes.specs.Valid.{StaysValidModule};

use crate::attempt::change_chosen;
use crate::copying::Source;
use crate::entry::{MadeChange, Reading};
use crate::laws::changed_modules_stay_valid;
use crate::refusal::Refusal;
use crate::scope::Scope;
use rand_core::Rng;
use std::alloc::Global;
use thiserror::Error as ErrorTexts;
use wasm_module::{ModuleError, read_module};

/// A module that was changed once.
#[derive(Drop)]
pub struct SplicedModule {
    /// The bytes of the new module.
    pub bytes: Vec<u8>,
    /// The change.
    pub made: MadeChange,
}

/// Why nothing of a module is changed.
#[derive(Clone, Copy, Debug, PartialEq, Eq, ErrorTexts)]
pub enum SpliceRefusal {
    /// The other bytes are no module that can be read.
    #[error("the other module: {0}")]
    Other(ModuleError),
    /// The first module isn't changed.
    #[error("{0}")]
    Change(Refusal),
}

/// The module changed once, by the changes that the scope has, where the code that may be copied is of another module: the code of the
/// unit of one of its operators, of which the standard asks nothing beyond its types, as no load, store or call is. Locals and globals in
/// it keep their indices, so that it fits where those have the same types. With the change `copy` alone such code comes into the module,
/// in the place of code that leaves the same. Condition: code that is drawn may have 1 to 1,000 instructions.
///
/// The words are those of `change_module`. Of them the fourth one names a function of the other module by its size, and the fifth one the
/// operator, modulo their number.
///
/// It takes time linear in both modules, each time that words are drawn; and for each function that is tried, time linear in the code that
/// may be copied.
///
/// `Other` as `read_module` refuses the other module. `Change` as `change_module` refuses.
pub fn splice_module<R: Rng>(
    alloc: Global,
    bytes: &[u8],
    other: &[u8],
    generator: &mut R,
    scope: &Scope<'_>,
) -> Result<SplicedModule, SpliceRefusal>
    requires { (0 < scope.now.most) × (scope.now.most ≤ 1000) }
    // The new module is the first one changed once, as the words choose.
    ensures spliced { IfOk result (λ m. SplicesOne scope.now bytes.now other.now
        (R.stream generator.old) m.made m.bytes.items (R.stream generator.new)) }
    // It is valid where that one was.
    ensures valid { IfOk result (λ m. StaysValidModule bytes.now m.bytes.items) }
    ensures fails { IfErr result
        (IsSpliceRefusal scope.now bytes.now other.now (R.stream generator.old)) }
{
    changed_modules_stay_valid();
    let module = match read_module(alloc, bytes) {
        Ok(module) => module,
        Err(e) => return Err(SpliceRefusal::Change(Refusal::Read(e))),
    };
    let others = match read_module(alloc, other) {
        Ok(others) => others,
        Err(e) => return Err(SpliceRefusal::Other(e)),
    };
    let reading = Reading {
        bytes,
        info: &module.info,
        layout: &module.layout,
    };
    let other_reading = Reading {
        bytes: other,
        info: &others.info,
        layout: &others.layout,
    };
    let source = Source {
        reading: other_reading,
        plain: true,
    };
    match change_chosen(alloc, &reading, &source, generator, scope) {
        Ok(step) => Ok(SplicedModule {
            bytes: step.bytes,
            made: step.made,
        }),
        Err(refusal) => Err(SpliceRefusal::Change(refusal)),
    }
}
