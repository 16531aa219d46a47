//! The body that is written with a term in the place of some of its operators.

ghost use Rattle.std.specs.Prelude.{◌≡◌, ◌<◌, ◌≤◌, Some, IfOk, IfErr, IfSome, OnErr, IsTrue, length, map, is_some};
ghost use Rattle.mutate_base.specs.Config.{ChangesGeneratorAlone};
ghost use Rattle.peephole_lang.specs.Term.{AreBelow};
ghost use Rattle.peephole_graphs.specs.Layout.{AreWritable};
ghost use Rattle.peephole_terms.specs.Expansion.{Refuses, setting_of, expansion_in, after_term, request, requests_of, term_in};
ghost use Rattle.peephole_terms.specs.EncoderSteps.{around, nodes_in, steps_of};
ghost use Rattle.peephole_terms.specs.Spliced.{AppendsSplicedTerm};
ghost use Rattle.peephole_terms.specs.Written.{IsBodyIn};

use super::outside::Outside;
use super::request::ResourceRequest;
use super::writer::Writer;
use mutate_base::{Error, WasmMutate};
use peephole_lang::{Lang, RecExpr};
use rand_core::Rng;
use std::alloc::Global;
use std::ops::Range;
use wasm_code::laws::code_spells;
use wasm_code::{Function, OperatorAndByteOffset};
use wasm_equivalence::validity::typed_rows_check;

impl<R: Rng> Writer<'_, R> {
    ghost use Rattle.peephole_terms.specs.Writer.{IsSame, Takes};

    // Writes bytes, the term of the last node and bytes.
    fn write_around(&mut self, expr: &[Lang], outside: &Outside<'_>) -> Result<(), Error>
        requires some { 0 < length expr.now }
        requires below { AreBelow (nodes_in (λ l. l) expr.now) }
        ensures taken { Takes R.stream
            (around outside.now.before.now (steps_of (term_in expr.now)) outside.now.after.now)
            self.old self.new result }
        ensures same { IsSame self.old self.new }
    {
        self.sink.raw(outside.before)?;
        self.write_tree(expr, expr.len() - 1)?;
        self.sink.raw(outside.after)?;
        Ok(())
    }
}

/// Writes a body behind what the sink holds: the bytes of `input_wasm` before the first operator of the range and from the
/// operator behind it on as they stood, and between them the term of `expr`, as `expr2wasm` writes it.
///
/// `operators` with their offsets are those of a body in `input_wasm`, as `read_body` gives them, and `range` is one of
/// their indexes that ends before the last operator; it may be empty. The configuration is set up, and `expr` isn't empty,
/// its nodes writable. Answers what the written instructions need from outside the function.
///
/// What is written reads as a body again: the operators before the range, the term's instructions, the operators behind.
/// Where the operators of the range are a tree's nodes in postfix, and the term evaluates as that tree, then whatever
/// stands before and behind them, wherever the run with the tree ends or traps that with the term does the same, apart
/// from requested globals; and by itself the term's code runs as the tree's, and is valid wherever that is.
///
/// Refuses as `expr2wasm` does: with `CannotUnfold`, `GlobalIndex` or `Memory`. The sink then holds its old bytes.
pub fn splice_term<R: Rng + Drop>(
    alloc: Global,
    config: &mut WasmMutate<'_, R>,
    expr: &RecExpr<Lang>,
    operators: &[OperatorAndByteOffset],
    range: Range<usize>,
    newfunc: &mut Function,
    input_wasm: &[u8],
) -> Result<Vec<ResourceRequest>, Error>
    requires set_up { IsTrue (is_some config.old.setup) }
    requires some { 0 < length expr.now }
    requires writable { AreWritable expr.now }
    requires body { IsBodyIn input_wasm.now operators.now }
    requires ordered { range.start ≤ range.end }
    requires inside { range.end < length operators.now }
    // The bytes outside the range, and between them the term's code; it reads as a body again, and it runs as before.
    ensures spliced { IfOk result (λ _. IfSome (setting_of R.stream config.old) (λ s.
        AppendsSplicedTerm s input_wasm.now operators.now range.start range.end (term_in expr.now)
        newfunc.old newfunc.new)) }
    // A global is asked for by each node that uses one.
    ensures requests { IfOk result (λ requests.
        requests.items ≡ map request (requests_of (term_in expr.now))) }
    // The generator stands behind the last word that was drawn.
    ensures generator { IfOk result (λ _. IfSome (setting_of R.stream config.old) (λ setting.
        setting_of R.stream config.new ≡ Some (after_term setting (term_in expr.now)))) }
    // The expansion refuses, or memory does.
    ensures refusal { IfErr result (λ e. IfSome (setting_of R.stream config.old) (λ setting.
        Refuses (expansion_in setting (term_in expr.now)) e)) }
    // After a refusal the sink holds its old bytes.
    ensures restored { OnErr result (newfunc.new ≡ newfunc.old) }
    // Of the configuration the generator alone changes.
    ensures unchanged { ChangesGeneratorAlone config.old config.new }
{
    code_spells();
    typed_rows_check();
    let outside = Outside::of(input_wasm, operators, range);
    let old_len = newfunc.len();
    let mut requests = Vec::new(alloc);
    let globals = config.info().get_global_count();
    let rng = config.rng();
    let mut writer = Writer {
        alloc,
        globals,
        rng: &mut *rng,
        sink: newfunc,
        requests: &mut requests,
    };
    match writer.write_around(expr.as_ref(), &outside) {
        Ok(()) => Ok(requests),
        Err(refusal) => {
            newfunc.truncate(old_len);
            Err(refusal)
        }
    }
}
