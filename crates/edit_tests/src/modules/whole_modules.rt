//! Modules read and written, rewritten and changed.
ghost use Rattle.std.specs.Prelude.{◌<◌, ◌≤◌};

use crate::modules::fields::{Fields, lines_of};
use anyhow::{Result, bail};
use body_changes::Change;
use given_words::Words;
use module_changes::{
    ChangeAt, Scope as ChangeScope, Unwatched as UnwatchedChanges, change_at, change_module,
    sites_of, splice_module,
};
use module_rewrites::{Reason, RewrittenModule, Scope, Unwatched, rewrite_module};
use rand::rngs::StdRng;
use rand_core::{Rng, SeedableRng};
use rewrite_rules::all_rules;
use std::alloc::Global;
use wasm_module::{read_module, with_body};

/// `with_body`, a module, a code entry, its locals, an expression, and the types of further globals: how many sections and code entries
/// the module has, and the module with these.
pub(crate) fn written(alloc: Global, fields: &mut Fields<'_>) -> Result<String> {
    let bytes = fields.bytes()?;
    let entry = fields.number()?;
    let locals = fields.bytes()?;
    let body = fields.bytes()?;
    let globals = fields.types()?;
    let module = read_module(alloc, &bytes)?;
    let layout = module.layout;
    let (sections, entries) = (layout.sections.len(), layout.entries.len());
    if entry >= entries {
        bail!("no such entry");
    }
    let new = with_body(alloc, &bytes, &layout, entry, &locals, &body, &globals)?;
    let new = hex::encode(alloc, new)?;
    Ok(format!(in alloc; "{sections} sections {entries} entries {new}")?)
}

/// The module rewritten so often.
fn rewrite<R: Rng>(
    alloc: Global,
    bytes: &[u8],
    generator: &mut R,
    scope: &Scope<'_>,
    count: usize,
) -> Result<RewrittenModule, Reason> {
    let mut unwatched = Unwatched;
    let count = count.max(1);
    rewrite_module(alloc, bytes, generator, scope, count, &mut unwatched)
}

/// The rewrites that the generator chooses, by further fields: whether the whole module is asked for or its size, the rules, a function or
/// `any`, the most bytes, how many rewrites, and a module. Then the functions that were rewritten, and why no more were.
fn rewritten<R: Rng>(alloc: Global, fields: &mut Fields<'_>, generator: &mut R) -> Result<String> {
    let is_whole = fields.text() == "whole";
    let rules = fields.rules()?;
    let scope = Scope {
        rules: &rules,
        function: fields.function()?,
        max_size: fields.number()?,
        shrinking: false,
        exact: false,
    };
    let count = fields.number()?;
    let bytes = fields.bytes()?;
    let module = match rewrite(alloc, &bytes, generator, &scope, count) {
        Ok(module) => module,
        Err(reason) => return Ok(format!(in alloc; "{reason:?}: {reason}")?),
    };
    let stopped = module.stopped;
    let made = module.made.iter().map(|made| made.function);
    let functions: Vec<usize> = made.collect(alloc)?;
    let shown = if is_whole {
        hex::encode(alloc, module.bytes)?
    } else {
        format!(in alloc; "{} bytes", module.bytes.len())?
    };
    Ok(format!(in alloc; "{shown} {functions:?} {stopped:?}")?)
}

/// `seed`, and a number: rewrites by a generator of that seed.
pub(crate) fn by_seed(alloc: Global, fields: &mut Fields<'_>) -> Result<String> {
    let mut generator = StdRng::seed_from_u64(fields.number()? as u64);
    rewritten(alloc, fields, &mut generator)
}

/// `words`, and some: rewrites that they choose.
pub(crate) fn by_words(alloc: Global, fields: &mut Fields<'_>) -> Result<String> {
    let mut generator = Words::new(fields.words()?);
    rewritten(alloc, fields, &mut generator)
}

/// `twice`, a seed and a module: whether two rewrites by all rules are two runs of one, with the same generator going on, and how many
/// are made.
pub(crate) fn twice(alloc: Global, fields: &mut Fields<'_>) -> Result<String> {
    let seed = fields.number()? as u64;
    let bytes = fields.bytes()?;
    let rules = all_rules(alloc)?;
    let scope = Scope {
        rules: &rules,
        function: None,
        max_size: usize::MAX,
        shrinking: false,
        exact: false,
    };
    let mut generator = StdRng::seed_from_u64(seed);
    let once = rewrite(alloc, &bytes, &mut generator, &scope, 1)?;
    let again = rewrite(alloc, &once.bytes, &mut generator, &scope, 1)?;
    let mut anew = StdRng::seed_from_u64(seed);
    let both = rewrite(alloc, &bytes, &mut anew, &scope, 2)?;
    let is_same = both.bytes == again.bytes;
    Ok(format!(in alloc; "{is_same} {} made", both.made.len())?)
}

/// The scope of these changes, in a module of 100 bytes at most.
fn scope_of<'a>(changes: &'a [Change]) -> ChangeScope<'a>
    ensures { (0 < result.most) × (result.most ≤ 1000) }
{
    ChangeScope {
        changes,
        function: None,
        most: 1,
        max_size: 100,
    }
}

/// `spliced`, words, a module and another one: the module with code of the other one.
pub(crate) fn spliced(alloc: Global, fields: &mut Fields<'_>) -> Result<String> {
    let mut generator = Words::new(fields.words()?);
    let bytes = fields.bytes()?;
    let other = fields.bytes()?;
    let scope = scope_of(&[Change::Copy]);
    match splice_module(alloc, &bytes, &other, &mut generator, &scope) {
        Ok(module) => Ok(hex::encode(alloc, module.bytes)?),
        Err(refusal) => Ok(format!(in alloc; "{refusal:?}")?),
    }
}

/// `changed`, changes, words and a module: the module changed once, and the change.
pub(crate) fn changed(alloc: Global, fields: &mut Fields<'_>) -> Result<String> {
    let changes = fields.changes()?;
    let mut generator = Words::new(fields.words()?);
    let bytes = fields.bytes()?;
    let scope = scope_of(&changes);
    let mut unwatched = UnwatchedChanges;
    let module = change_module(alloc, &bytes, &mut generator, &scope, 1, &mut unwatched)?;
    let made = module.made;
    let new = hex::encode(alloc, module.bytes)?;
    Ok(format!(in alloc; "{new} {made:?}")?)
}

/// `placed`, a change, a function, a range of its operators, the most bytes, and a module: the module, and the operators that were
/// changed.
pub(crate) fn placed(alloc: Global, fields: &mut Fields<'_>) -> Result<String> {
    let at = ChangeAt {
        change: fields.change()?,
        function: fields.number()?,
        first: fields.number()?,
        end: fields.number()?,
    };
    let max_size = fields.number()?;
    let bytes = fields.bytes()?;
    let module = match change_at(alloc, &bytes, at, max_size) {
        Ok(module) => module,
        Err(refusal) => return Ok(format!(in alloc; "{refusal:?}")?),
    };
    let made = module.made.iter().map(|made| made.operator);
    let operators: Vec<usize> = made.collect(alloc)?;
    let new = hex::encode(alloc, module.bytes)?;
    Ok(format!(in alloc; "{new} {operators:?}")?)
}

/// `sites`, changes, and a module with one function: the function's sites by these changes.
pub(crate) fn sites(alloc: Global, fields: &mut Fields<'_>) -> Result<String> {
    let changes = fields.changes()?;
    let bytes = fields.bytes()?;
    let module = read_module(alloc, &bytes)?;
    if module.layout.entries.len() != 1 {
        bail!("not one function");
    }
    let sites = sites_of(alloc, &bytes, &module, 0, &changes)?;
    lines_of(alloc, &sites)
}
