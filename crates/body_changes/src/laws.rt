//! What holds of typed code, of code that words draw, and of what changes make. A function here does nothing: its contract is the law.
ghost use Rattle.body_changes.specs.Beyond.{ChangesAskNoMore};
ghost use Rattle.body_changes.specs.Drawing.{LeavesHaveWords};
ghost use Rattle.body_changes.specs.Typed.{LeavingCodePushes};

use wasm_equivalence::validity::typed_rows_check;

/// Code that needs nothing from what stands before it pushes its types on every frame, by the standard's algorithm.
pub fn leaving_code_pushes()
    ensures { LeavingCodePushes }
{
    typed_rows_check();
}

/// Of each constant, each local and each global of a type, the words that draw it (see `code_of_words`) are words of 64 bits: so each
/// of them is drawn by some.
pub fn leaves_have_words()
    ensures { LeavesHaveWords }
{}

/// Of each instruction in the code that a change makes the standard asks nothing beyond its types, or it stands in the body already or in
/// the code that is copied, or it is a load or a store that stands there with an alignment that is no smaller, and has an offset of 32
/// bits. So whatever else it asks (an alignment, an offset, the index of a segment, that a global may be written) was asked of the body as
/// it was, or of that code.
pub fn changes_ask_no_more()
    ensures { ChangesAskNoMore }
{}
