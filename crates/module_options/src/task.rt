//! What a run does.
ghost use Rattle.std.specs.Prelude.{◌≡◌, ◌↔◌, codes, IfErr, IfOk, IsTrue, Some};
ghost use Rattle.clap.specs.Matches.{found_of};
ghost use Rattle.clap.specs.Walk.{rows_of};
ghost use Rattle.module_options.specs.Flags.{first_of};
ghost use Rattle.module_options.specs.Misuse.{AreMisused};
ghost use Rattle.module_options.specs.Task.{WritesModule, form_named, list_task, module_task, task_of};

use crate::flags::{Flags, text_of};
use crate::misuse::Misuse;
use clap::ArgMatches;
use rule_listing::Form as RulesForm;

/// What a run does: with a module, but for the lists of the rules and of the changes.
#[derive(Clone, Copy, Debug, PartialEq, Eq)]
pub enum Task {
    /// Writes it rewritten.
    Rewrite,
    /// Writes it changed: valid where it was, and it computes something else.
    Change,
    /// Lists the rewrites that there are.
    List,
    /// Lists the sites: the operators of which changes make anything.
    Sites,
    /// Lists the blocks of its functions.
    Blocks,
    /// Lists the rules, in the form. No module is read.
    Rules(RulesForm),
    /// Lists the changes. No module is read.
    Changes,
}

impl Task {
    /// Whether it writes a module.
    pub fn writes_module(self) -> bool
        ensures { IsTrue result ↔ WritesModule self }
    {
        match self {
            Task::Rewrite | Task::Change => true,
            Task::List | Task::Sites | Task::Blocks | Task::Rules(_) | Task::Changes => false,
        }
    }
}

// What the program lists of a module.
fn list_task(flags: Flags) -> Task
    ensures { result ≡ list_task flags }
{
    if flags.change {
        Task::Sites
    } else {
        Task::List
    }
}

// What the program does, but for the list of the rules.
fn module_task(flags: Flags) -> Task
    ensures { result ≡ module_task flags }
{
    if flags.list {
        list_task(flags)
    } else if flags.blocks {
        Task::Blocks
    } else if flags.changes {
        Task::Changes
    } else if flags.change {
        Task::Change
    } else {
        Task::Rewrite
    }
}

// The form with that name.
fn form_named(name: &str) -> Option<RulesForm>
    ensures { result ≡ form_named name.now }
{
    if name == "text" {
        Some(RulesForm::Text)
    } else if name == "json" {
        Some(RulesForm::Json)
    } else if name == "markdown" {
        Some(RulesForm::Markdown)
    } else {
        None
    }
}

/// What the program does.
pub fn task_of(flags: Flags, matches: &ArgMatches<'_>) -> Result<Task, Misuse>
    ensures task { IfOk result (λ task. Some task ≡ task_of flags
        (first_of (codes "list-rules") (rows_of (found_of matches.now)))) }
    ensures misuse { IfErr result (AreMisused (rows_of (found_of matches.now))) }
{
    let Some(name) = text_of(matches, "list-rules") else {
        return Ok(module_task(flags));
    };
    match form_named(name) {
        Some(form) => Ok(Task::Rules(form)),
        None => Err(Misuse::NoForm),
    }
}
