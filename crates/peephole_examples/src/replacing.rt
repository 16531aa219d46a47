//! The whole way from a body's bytes to those of the new body: which call follows which, and how the conditions of each are met.

ghost use Rattle.std.specs.Prelude.{◌≡◌, ◌<◌, IfErr, IfOk, IfNone, IfSome, IsTrue, is_some, length};
ghost use Rattle.mutate_base.specs.Config.{info_of, ChangesGeneratorAlone};
ghost use Rattle.peephole_graphs.specs.Layout.{AreWritable};
ghost use Rattle.peephole_terms.specs.Expansion.{setting_of, term_in};
ghost use Rattle.peephole_examples.specs.Replacing.{HasNothingToReplace, IsNotReplaced, IsReplaced};

use peephole_terms::{
    DFGBuilder, Encoder, Error, Function, Lang, ReadError, RecExpr, ResourceRequest, WasmMutate,
    read_body,
};
use rand_core::Rng;
use std::alloc::Global;

/// A new body, and the globals that it asks for, the first of which comes behind the module's.
#[derive(Drop)]
pub struct Replaced {
    pub body: Function,
    pub requests: Vec<ResourceRequest>,
}

/// Why there is no new body.
#[derive(Clone, Copy, Debug)]
pub enum ReplaceError {
    /// The bytes are no body.
    Read(ReadError),
    /// The block's graph, or the writer, refused.
    Write(Error),
}

impl From<ReadError> for ReplaceError {
    ghost use Rattle.std.specs.Prelude.{◌≡◌};
    ghost use Rattle.peephole_examples.specs.declared.replacing.ReplaceError.TheVariants.{Read};

    ghost from_gives = { λ e r. r ≡ Read e };

    fn from(error: ReadError) -> ReplaceError {
        ReplaceError::Read(error)
    }
}

impl From<Error> for ReplaceError {
    ghost use Rattle.std.specs.Prelude.{◌≡◌};
    ghost use Rattle.peephole_examples.specs.declared.replacing.ReplaceError.TheVariants.{Write};

    ghost from_gives = { λ e r. r ≡ Write e };

    fn from(error: Error) -> ReplaceError {
        ReplaceError::Write(error)
    }
}

/// The body in `bytes` with the term in the place of the tree of operator number `point`. None where there is no such
/// operator, where it is a delimiter and so in no block, and where its block has no graph.
///
/// Conditions: the configuration is set up, with what is known of the body's module; the term has a node, and its nodes
/// are writable. Refuses as `read_body`, `get_dfg` and `build_function` do.
pub fn replace<R: Rng + Drop>(
    alloc: Global,
    config: &mut WasmMutate<'_, R>,
    bytes: &[u8],
    point: usize,
    term: &RecExpr<Lang>,
) -> Result<Option<Replaced>, ReplaceError>
    requires set_up { IsTrue (is_some config.old.setup) }
    requires some { 0 < length term.now }
    requires writable { AreWritable term.now }
    // The new body is the old one with the term in it, and its block runs as before where the term evaluates as the tree.
    ensures replaced { IfOk result (λ answer. IfSome answer (λ new.
        IfSome (setting_of R.stream config.old) (λ setting.
        IsReplaced setting config.old.preserving bytes.now point (term_in term.now)
        new.body new.requests.items))) }
    // None only where nothing is there to be replaced.
    ensures none { IfOk result (λ answer. IfNone answer (
        HasNothingToReplace (info_of config.old) config.old.preserving bytes.now point)) }
    // Refused only for the body's first fault, or as the graph of the point's block, or its writing, is refused.
    ensures refused { IfErr result (λ e. IfSome (setting_of R.stream config.old) (λ setting.
        IsNotReplaced setting config.old.preserving bytes.now point (term_in term.now) e)) }
    // Of the configuration the generator alone changes.
    ensures unchanged { ChangesGeneratorAlone config.old config.new }
{
    let operators = read_body(alloc, bytes, 0, bytes.len())?;
    if point >= operators.len() {
        return Ok(None);
    }
    let mut builder = DFGBuilder::new(config);
    let Some(block) = builder.get_bb_from_operator(point, &operators) else {
        return Ok(None);
    };
    let Some(graph) = builder.get_dfg(alloc, config.info(), &operators, &block)? else {
        return Ok(None);
    };
    let mut body = Function::new(alloc);
    let requests = Encoder::build_function(
        alloc, config, point, term, &operators, &block, &mut body, &graph, bytes,
    )?;
    Ok(Some(Replaced { body, requests }))
}
