//! The options of the command line.
ghost use Rattle.module_rewrites.specs.Dose.{IsOneOrMore};

use crate::form::Form;
use crate::task::Task;
use body_changes::Change;
use module_changes::{ChangeAt, Scope as ChangeScope};
use module_rewrites::{Dose, Scope};
use rewrite_rules::Rule;

/// What a run is asked for.
#[derive(Drop)]
pub struct Options {
    /// What it does.
    pub task: Task,
    /// The file that the module is read from; none: standard input.
    pub input: Option<String>,
    /// The file that it is written to; none: standard output.
    pub output: Option<String>,
    /// What the generator is made from.
    pub seed: u64,
    /// How many rewrites or changes are made, one after another.
    pub dose: Dose,
    /// The only function that is looked at, by its index among all functions, imported ones first.
    pub function: Option<usize>,
    /// The rules that rewrite.
    pub rules: Vec<Rule>,
    /// The changes that change it.
    pub changes: Vec<Change>,
    /// The operators that are changed, by which change and of which function, where any are named.
    pub place: Option<ChangeAt>,
    /// The most bytes that the new module may have.
    pub max_size: usize,
    /// Whether each rewrite makes the module smaller: it leaves no more operators, and fewer bytes, or as many that come earlier in the
    /// dictionary. A module of which none does is written as it is.
    pub shrink: bool,
    /// Whether what runs the module does on floats, vectors and memories what the standard says, so that rules on these are applied.
    pub exact: bool,
    /// Whether the functions, the rewrites or changes and the sizes are reported.
    pub stats: bool,
    /// Whether the report tells how much the rules reach.
    pub reach: bool,
    /// Whether what is listed or reported is written as JSON.
    pub json: bool,
    /// Whether each rewrite or change that is made is shown.
    pub show: bool,
    /// Whether custom sections that name places in the code are dropped once the module is new.
    pub strip_debug: bool,
    /// Whether nothing is told that isn't asked for, but why the run fails.
    pub quiet: bool,
    pub ghost some: { IsOneOrMore dose },
}

impl Options {
    ghost use Rattle.std.specs.Prelude.{◌≡◌};
    ghost use Rattle.module_options.specs.Form.{output_form_of};
    ghost use Rattle.module_options.specs.Scope.{change_scope_of, scope_of};

    /// What of a module may be rewritten.
    pub fn scope<'a>(&'a self) -> Scope<'a>
        ensures { result ≡ scope_of self.now }
    {
        Scope {
            rules: &self.rules,
            function: self.function,
            max_size: self.max_size,
            shrinking: self.shrink,
            exact: self.exact,
        }
    }

    /// What of a module may be changed, and how: drawn code has eight instructions at most.
    pub fn change_scope<'a>(&'a self) -> ChangeScope<'a>
        ensures { result ≡ change_scope_of self.now }
    {
        ChangeScope {
            changes: &self.changes,
            function: self.function,
            most: 8,
            max_size: self.max_size,
        }
    }

    /// The form of what is listed and reported.
    pub fn form(&self) -> Form
        ensures { result ≡ output_form_of self.now }
    {
        if self.json { Form::Json } else { Form::Text }
    }
}
