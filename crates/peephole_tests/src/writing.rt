//! Terms that are written, alone and in bodies.

ghost use Rattle.std.specs.Prelude.{◌<◌, IfOk, IsTrue, is_some, length};
ghost use Rattle.peephole_graphs.specs.Layout.{AreWritable};
ghost use Rattle.peephole_terms.specs.Written.{IsBodyIn};

use crate::graphs::{block_of, operators_of};
use crate::parts::{Refusal, bytes_in, field_of, number_in, types_of};
use crate::terms::writable_term;
use peephole_examples::{ReplaceError, replace};
use peephole_terms::{
    DFGBuilder, Encoder, Error, Function, Lang, MiniDFG, ModuleInfo, OperatorAndByteOffset,
    RecExpr, ResourceRequest, WasmMutate, Words, expr2wasm,
};
use rand_core::Rng;
use std::alloc::{AllocError, Global};
use std::fmt::Write;

// A configuration of a module with the globals, and a generator that gives the words, as a case has them.
fn config_of<'a>(
    alloc: Global,
    bytes: &'a [u8],
    case: &str,
) -> Result<WasmMutate<'a, Words>, Refusal>
    ensures { IfOk result (λ config. IsTrue (is_some config.setup)) }
{
    let mut words = Vec::new(alloc);
    for word in field_of(case, "words").split_whitespace() {
        words.push(word.parse::<u64>().unwrap_or(0))?;
    }
    let mut info = ModuleInfo::new(alloc, bytes);
    info.global_types = types_of(alloc, field_of(case, "module"))?;
    let mut config = WasmMutate::new();
    config.preserve_semantics(field_of(case, "preserving") == "yes");
    config.set_up(info, Words::new(words));
    Ok(config)
}

// A sink that holds AA BB.
fn begun_sink(alloc: Global) -> Result<Function, Error> {
    let mut sink = Function::new(alloc);
    sink.raw(&[0xaa, 0xbb])?;
    Ok(sink)
}

// The hexadecimal digits of bytes.
fn digits_of(alloc: Global, bytes: &[u8]) -> Result<String, AllocError> {
    let mut text = String::new(alloc);
    for byte in bytes {
        write!(text, "{byte:02x}")?;
    }
    Ok(text)
}

// What the sink holds, what was answered, and the word that the generator gives next.
fn outcome(
    alloc: Global,
    answer: Result<Vec<ResourceRequest>, Error>,
    sink: &Function,
    next: u64,
) -> Result<String, Refusal> {
    let mut text = digits_of(alloc, sink.bytes())?;
    write!(text, " {answer:?}, next {next}")?;
    Ok(text)
}

// The term of a case, or the tree of the insertion point if it has none.
fn term_at(
    alloc: Global,
    graph: &MiniDFG,
    point: usize,
    nodes: &str,
) -> Result<RecExpr<Lang>, Refusal>
    ensures some { IfOk result (λ term. 0 < length term) }
    ensures writable { IfOk result AreWritable }
{
    if !nodes.is_empty() {
        return writable_term(alloc, nodes);
    }
    if graph.map().get(point).is_none() {
        return Err(Refusal::Unreadable);
    }
    Ok(graph.get_expr(alloc, point)?)
}

// A block, written with the term of a case, or whether it is in order. The insertion point is the operator `point`, or `last`.
fn of_block(
    alloc: Global,
    call: &str,
    case: &str,
    bytes: &[u8],
    operators: &[OperatorAndByteOffset],
    config: &mut WasmMutate<Words>,
) -> Result<String, Refusal>
    requires set_up { IsTrue (is_some config.old.setup) }
    requires body { IsBodyIn bytes.now operators.now }
{
    let mut builder = DFGBuilder::new(config);
    let Some(block) = block_of(&builder, operators, case)? else {
        return Err(Refusal::Unreadable);
    };
    let Some(graph) = builder.get_dfg(alloc, config.info(), operators, &block)? else {
        return Err(Refusal::Unreadable);
    };
    if call == "order" {
        let order = graph.keeps_order();
        return Ok(format!(in alloc; "{order}")?);
    }
    let point = match number_in(case, "point") {
        Ok(point) => point as usize,
        Err(_) => block.range().end.saturating_sub(1),
    };
    let term = term_at(alloc, &graph, point, field_of(case, "term"))?;
    let mut sink = begun_sink(alloc)?;
    let answer = Encoder::build_function(
        alloc, config, point, &term, operators, &block, &mut sink, &graph, bytes,
    );
    outcome(alloc, answer, &sink, config.rng().next_u64())
}

// The term of a case, written alone.
fn expanded(alloc: Global, case: &str) -> Result<String, Refusal> {
    let term = writable_term(alloc, field_of(case, "term"))?;
    let mut config = config_of(alloc, &[], case)?;
    let mut sink = begun_sink(alloc)?;
    let answer = expr2wasm(alloc, &mut config, &term, &mut sink);
    outcome(alloc, answer, &sink, config.rng().next_u64())
}

// The body of a case with its term, by the caller that is to be read.
fn replaced(alloc: Global, case: &str, bytes: &[u8]) -> Result<String, Refusal> {
    let term = writable_term(alloc, field_of(case, "term"))?;
    let mut config = config_of(alloc, bytes, case)?;
    let point = number_in(case, "point")? as usize;
    match replace(alloc, &mut config, bytes, point, &term) {
        Ok(Some(new)) => {
            let mut text = digits_of(alloc, new.body.bytes())?;
            let requests = &new.requests;
            write!(text, " {requests:?}")?;
            Ok(text)
        }
        Ok(None) => Ok(String::from_str(alloc, "none")?),
        Err(ReplaceError::Read(error)) => {
            let kind = error.kind;
            Ok(format!(in alloc; "unread {kind:?}")?)
        }
        Err(ReplaceError::Write(error)) => Err(Refusal::Refused(error)),
    }
}

/// What a call that writes a term answers.
pub fn answered(alloc: Global, call: &str, case: &str) -> Result<String, Refusal> {
    let bytes = bytes_in(alloc, case, "body")?;
    match call {
        "expand" => expanded(alloc, case),
        "replace" => replaced(alloc, case, &bytes),
        _ => {
            let operators = operators_of(alloc, &bytes)?;
            let mut config = config_of(alloc, &bytes, case)?;
            of_block(alloc, call, case, &bytes, &operators, &mut config)
        }
    }
}
