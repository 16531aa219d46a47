//! Items of lists.
ghost use Rattle.std.specs.Prelude.{ℕ, List, Result};
ghost use Rattle.wasm_code.specs.declared.fault.Cause.{Cause};
ghost use Rattle.wasm_code.specs.laws.GrammarLemmas.{Exact};
ghost use Rattle.wasm_lists.specs.Reader.{AnswersUnlessMemory};

use crate::refusal::Refusal;
use std::alloc::Global;

/// A kind of items that a section lists.
pub trait Item {
    /// What is kept of an item.
    type Value: Drop;

    // what spells an item
    ghost Spells: { List ℕ → Self.Value → Type 0 };

    // none begins the bytes, for that cause
    ghost Fails: { List ℕ → Cause → Type 0 };

    // the item that begins the bytes, and what follows it
    ghost at: { List ℕ → Result (Self.Value × List ℕ) Cause };

    /// Law: as a function, reading an item takes exactly what spells one, and fails exactly where none begins the bytes.
    fn items_are_read()
        ensures { Exact Spells Fails at };

    /// The item that begins the bytes, and what follows it.
    fn read(alloc: Global, bytes: &[u8]) -> Result<(Self::Value, &[u8]), Refusal>
        ensures { AnswersUnlessMemory (λ x. (x.0, x.1.now)) result (at bytes.now) };
}
