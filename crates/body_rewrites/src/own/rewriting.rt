//! What rules beside the table write in the place of code.
ghost use Rattle.std.specs.Prelude.{◌≡◌, IfSome, IfNone};
ghost use Rattle.wasm_execution.specs.Values.{Context};
ghost use Rattle.body_rewrites.specs.Places.{AreListsOf};
ghost use Rattle.body_rewrites.specs.Changes.{Change, IsWritten};
ghost use Rattle.body_rewrites.specs.Own.{IsOwnChange};

use crate::changes::NewCode;
use crate::own::sites::site_of;
use crate::own::writing::written;
use crate::places::Body;
use rewrite_rules::Own;
use rewrite_rules::laws::accesses_are_formed;

/// What the rule makes at the operator, by the word; none where it makes nothing.
///
/// It takes time that doesn't go by the body.
pub fn own_code(body: &Body<'_>, own: Own, at: usize, word: u64) -> Option<NewCode>
    ensures some { IfSome result (λ code. (context : Context)
        → context.info ≡ body.now.info.now
        → AreListsOf context body.now
        → (change : Change) × IsOwnChange context body.now.operators.now own at change
        × IsWritten change word code) }
    ensures none { IfNone result ((context : Context)
        → context.info ≡ body.now.info.now
        → AreListsOf context body.now
        → (change : Change) → ¬ (IsOwnChange context body.now.operators.now own at change)) }
{
    if at >= body.operators.len() {
        return None;
    }
    let Some(site) = site_of(body, own, at) else {
        return None;
    };
    accesses_are_formed();
    written(site, at, word)
}
