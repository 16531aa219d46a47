//! Terms as instructions.

ghost use Rattle.std.specs.Prelude.{◌≡◌, ◌<◌, Some, IfOk, IfErr, IfSome, OnErr, IsTrue, length, map, is_some};
ghost use Rattle.mutate_base.specs.Config.{ChangesGeneratorAlone};
ghost use Rattle.peephole_graphs.specs.Layout.{AreWritable};
ghost use Rattle.peephole_terms.specs.Expansion.{AppendsCode, Refuses, setting_of, expansion_in, after_term, request, requests_of, term_in};
ghost use Rattle.peephole_terms.specs.StackCode.{AppendsStackCode};

use super::request::ResourceRequest;
use super::writer::Writer;
use mutate_base::{Error, WasmMutate};
use peephole_lang::{Lang, RecExpr};
use rand_core::Rng;
use std::alloc::Global;
use wasm_code::Function;

/// Writes the term of an expression, that of its last node, behind what the sink holds.
///
/// A node that several others name is written once for each of them. Random nodes and unfolds
/// take their words from the configuration's generator; the first requested global comes behind
/// the module's. Answers what the written instructions need from outside the function, in the
/// order of writing. Where the term has types, what is written runs as
/// the term means, apart from requested globals.
///
/// Conditions: the configuration is set up, the expression isn't empty, and its nodes are
/// writable. Refuses with `CannotUnfold` or `GlobalIndex`, the first of them in the order of
/// writing, where an unfold's child is no constant of its type or a global's index would pass 32
/// bits, and with `Memory`; the sink then holds its old bytes.
pub fn expr2wasm<R: Rng + Drop>(
    alloc: Global,
    config: &mut WasmMutate<'_, R>,
    expr: &RecExpr<Lang>,
    newfunc: &mut Function,
) -> Result<Vec<ResourceRequest>, Error>
    requires set_up { IsTrue (is_some config.old.setup) }
    requires some { 0 < length expr.now }
    requires writable { AreWritable expr.now }
    // What is written is the term's expansion, with the words that are drawn.
    ensures written { IfOk result (λ _. IfSome (setting_of R.stream config.old) (λ setting.
        AppendsCode setting (term_in expr.now) newfunc.old newfunc.new)) }
    // A typed term's code, run, leaves the term's values and state, and traps exactly where the term does.
    ensures stack_code { IfOk result (λ _. IfSome (setting_of R.stream config.old) (λ setting.
        AppendsStackCode setting (term_in expr.now) newfunc.old newfunc.new)) }
    // A global is asked for by each node that uses one.
    ensures requests { IfOk result (λ requests.
        requests.items ≡ map request (requests_of (term_in expr.now))) }
    // The generator stands behind the last word that was drawn.
    ensures generator { IfOk result (λ _. IfSome (setting_of R.stream config.old) (λ setting.
        setting_of R.stream config.new ≡ Some (after_term setting (term_in expr.now)))) }
    // The expansion refuses, or memory does.
    ensures refusal { IfErr result (λ e. IfSome (setting_of R.stream config.old) (λ setting.
        Refuses (expansion_in setting (term_in expr.now)) e)) }
    // After a refusal the sink holds its old bytes.
    ensures restored { OnErr result (newfunc.new ≡ newfunc.old) }
    // Of the configuration the generator alone changes.
    ensures unchanged { ChangesGeneratorAlone config.old config.new }
{
    let old_len = newfunc.len();
    let nodes = expr.as_ref();
    let mut requests = Vec::new(alloc);
    let globals = config.info().get_global_count();
    let rng = config.rng();
    let mut writer = Writer {
        alloc,
        globals,
        rng: &mut *rng,
        sink: newfunc,
        requests: &mut requests,
    };
    match writer.write_tree(nodes, nodes.len() - 1) {
        Ok(()) => Ok(requests),
        Err(refusal) => {
            newfunc.truncate(old_len);
            Err(refusal)
        }
    }
}
