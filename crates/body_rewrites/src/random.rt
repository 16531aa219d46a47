//! A body with a rewrite that words of a generator choose.
ghost use Rattle.std.specs.Prelude.{◌≡◌, IfOk, IfNone, IfSome, OnErr};
ghost use Rattle.body_splices.specs.OwnBytes.{IsBodyIn};
ghost use Rattle.body_rewrites.specs.Places.{context_of, HasItsLists};
ghost use Rattle.body_rewrites.specs.Random.{AppendsByWords, HasNoRewrite};

use crate::choice::choose;
use crate::growth::Growth;
use crate::places::Body;
use crate::rewrite::Rewrite;
use crate::rewriting::rewrite_body;
use rand_core::Rng;
use rewrite_rules::Rule;
use std::alloc::Global;
use wasm_code::{Function, SinkError};
use wasm_types::PrimitiveTypeInfo;

/// A rewrite that was made, and the types of the globals that the new code asks for.
#[derive(Drop)]
pub struct Rewritten {
    pub rewrite: Rewrite,
    pub asks: Vec<PrimitiveTypeInfo>,
}

/// As `rewrite_body`, with a rewrite of the body by one of the rules that does one of the wanted things to the number of operators,
/// which the generator's next three words choose (see `choose`), and the fourth one for a number that the new code draws. None only
/// where there is no such rewrite, and then nothing is drawn.
///
/// Refused with `Memory` alone: the sink then holds its old bytes.
pub fn rewrite_at_random<R: Rng>(
    alloc: Global,
    generator: &mut R,
    body: &Body<'_>,
    input_wasm: &[u8],
    rules: &[Rule],
    wanted: &[Growth],
    newfunc: &mut Function,
) -> Result<Option<Rewritten>, SinkError>
    requires lists { HasItsLists body.now }
    requires body { IsBodyIn input_wasm.now body.now.operators.now }
    ensures rewritten { IfOk result (λ o. IfSome o (λ made. AppendsByWords
        (context_of body.now) (R.stream generator.old) rules.now wanted.now input_wasm.now
        body.now.operators.now made.rewrite newfunc.old newfunc.new made.asks.items
        (R.stream generator.new))) }
    // None only where there is nothing to rewrite; then nothing changes.
    ensures none { IfOk result (λ o. IfNone o
        (HasNoRewrite (context_of body.now) rules.now wanted.now body.now.operators.now)) }
    ensures kept { IfOk result (λ o. IfNone o
        ((newfunc.new ≡ newfunc.old) × (R.stream generator.new ≡ R.stream generator.old))) }
    ensures restored { OnErr result (newfunc.new ≡ newfunc.old) }
{
    let Some(rewrite) = choose(alloc, generator, body, rules, wanted)? else {
        return Ok(None);
    };
    let word = generator.next_u64();
    match rewrite_body(alloc, body, input_wasm, rewrite, word, newfunc)? {
        Some(asks) => Ok(Some(Rewritten { rewrite, asks })),
        None => unreachable!(),
    }
}
