//! The command line: its arguments, as clap reads them, and its help, of at most 60 lines of 100 characters.
ghost use Rattle.std.specs.Prelude.{◌≡◌, codes, false, IfOk};
ghost use Rattle.clap.specs.Simple.{app_of};
ghost use Rattle.clap.specs.Walk.{rule_of};
ghost use Rattle.module_options.specs.Arguments.{change_rule, flag, input_rule, naming, number, output_rule, rules_rule, texted, valued};
ghost use Rattle.module_options.specs.Arguments.{bare_command, changing_rules, command_line, file_rules, reporting_rules, rewriting_rules, with_rules, writing_rules};

use clap::{Arg, ArgAction, Command, value_parser};
use std::alloc::{AllocError, Global};

fn input_argument<'a>(alloc: Global) -> Arg<'a>
    ensures rule { rule_of result ≡ input_rule }
    ensures local { result.global ≡ false }
{
    Arg::new(alloc, "input")
        .value_name("INPUT")
        .help("The module [default: standard input, also for -]")
}

fn output_argument<'a>(alloc: Global) -> Arg<'a>
    ensures rule { rule_of result ≡ output_rule }
    ensures local { result.global ≡ false }
{
    Arg::new(alloc, "output")
        .short('o')
        .long("output")
        .value_name("OUTPUT")
        .help("The file to write [default: standard output, also for -]")
}

// An option with the name that has a text.
fn text_argument<'a>(alloc: Global, name: &'a str, value: &'a str, help: &'a str) -> Arg<'a>
    ensures rule { rule_of result ≡ texted name.entry.now }
    ensures local { result.global ≡ false }
{
    Arg::new(alloc, name)
        .long(name)
        .value_name(value)
        .help(help)
}

// An option with the name that has a number.
fn number_argument<'a>(alloc: Global, name: &'a str, value: &'a str, help: &'a str) -> Arg<'a>
    ensures rule { rule_of result ≡ valued name.entry.now number }
    ensures local { result.global ≡ false }
{
    Arg::new(alloc, name)
        .long(name)
        .value_name(value)
        .value_parser(value_parser!(usize))
        .help(help)
}

// An option with the name that has one of the names at each use.
fn naming_argument<'a>(alloc: Global, name: &'a str, names: &'a [&'a str], help: &'a str) -> Arg<'a>
    ensures rule { rule_of result ≡ naming name.entry.now names.entry }
    ensures local { result.global ≡ false }
{
    Arg::new(alloc, name)
        .long(name)
        .value_name("NAME")
        .action(ArgAction::Append)
        .value_parser(names)
        .hide_possible_values(true)
        .help(help)
}

fn change_argument<'a>(alloc: Global) -> Arg<'a>
    ensures rule { rule_of result ≡ change_rule }
    ensures local { result.global ≡ false }
{
    Arg::new(alloc, "change")
        .long("change")
        .value_name("NAME")
        .num_args(0..=1)
        .default_missing_value("any")
        .help(
            "Changes the module instead: it stays valid, and computes something else;\n\
             the name comes after =, as in --change=delete [default: any]",
        )
}

// A flag with the name.
fn flag_argument<'a>(alloc: Global, name: &'a str, help: &'a str) -> Arg<'a>
    ensures rule { rule_of result ≡ flag name.entry.now }
    ensures local { result.global ≡ false }
{
    Arg::new(alloc, name)
        .long(name)
        .action(ArgAction::SetTrue)
        .help(help)
}

fn rules_argument<'a>(alloc: Global) -> Arg<'a>
    ensures rule { rule_of result ≡ rules_rule }
    ensures local { result.global ≡ false }
{
    Arg::new(alloc, "list-rules")
        .long("list-rules")
        .value_name("FORM")
        .num_args(0..=1)
        .default_missing_value("text")
        .help("Lists the rules instead, as text, json or markdown [default: text]")
}

// The exit statuses, and how the program is used.
const AFTER_HELP: &str = "\
Exit status:
  0   the requested output is written
  1   the module is rejected, or input, output or memory fails
  2   no rule applies, nothing can be changed, or the module has no function of its own
  3   no function can be read, or --function names none of the module's own
  64  the options can't be used, or a module would be written to a terminal

Examples:
  teddertempo module.wasm -o rewritten.wasm --seed 7 --count 20
  teddertempo --list --rule fold < module.wasm
  teddertempo --change module.wasm -o changed.wasm --seed 7 --count 3 --show
  teddertempo --change=delete --list module.wasm";

// The command with the files that are read and written.
fn with_files<'a>(alloc: Global, command: Command<'a>) -> Result<Command<'a>, AllocError>
    ensures { IfOk result (λ c. app_of c ≡ with_rules (app_of command.entry) file_rules) }
{
    command
        .arg(input_argument(alloc))?
        .arg(output_argument(alloc))
}

// The command with what says which rewrites are made.
fn with_rewrites<'a>(
    alloc: Global,
    command: Command<'a>,
    names: &'a [&'a str],
) -> Result<Command<'a>, AllocError>
    ensures { IfOk result (λ c.
        app_of c ≡ with_rules (app_of command.entry) (rewriting_rules names.entry)) }
{
    command
        .next_help_heading("What to rewrite")
        .arg(text_argument(
            alloc,
            "seed",
            "N",
            "Seed of the random choices, decimal or hexadecimal (0x1f) [default: 0]",
        ))?
        .arg(text_argument(
            alloc,
            "count",
            "K",
            "Number of rewrites or changes, or a share of the operators: 20%, or each\n\
             (100%) [default: 1; with --shrink until none makes the module smaller]",
        ))?
        .arg(number_argument(
            alloc,
            "function",
            "N",
            "Only the function with this index; imported functions count first",
        ))?
        .arg(naming_argument(
            alloc,
            "rule",
            names,
            "Only this rule; may be given several times [default: all rules]",
        ))?
        .arg(naming_argument(
            alloc,
            "not-rule",
            names,
            "All rules but this one; may be given several times",
        ))?
        .arg(flag_argument(
            alloc,
            "exact",
            "Also rules on floats, vectors and memory, for engines that compute there\n\
             as the standard says",
        ))
}

// The command with what says how large the module may be, and how it is changed.
fn with_changes<'a>(alloc: Global, command: Command<'a>) -> Result<Command<'a>, AllocError>
    ensures { IfOk result (λ c. app_of c ≡ with_rules (app_of command.entry) changing_rules) }
{
    command
        .arg(flag_argument(
            alloc,
            "shrink",
            "Only rewrites that make the module smaller; without one it is unchanged",
        ))?
        .arg(number_argument(
            alloc,
            "max-size",
            "BYTES",
            "Discards rewrites and changes that make the module larger than BYTES",
        ))?
        .arg(change_argument(alloc))?
        .arg(number_argument(
            alloc,
            "from",
            "OPERATOR",
            "First operator to change, with --change=NAME and --function [default: 0]",
        ))?
        .arg(number_argument(
            alloc,
            "to",
            "OPERATOR",
            "Last operator to change [default: the last one of the function]",
        ))
}

// The command with what says what is written.
fn with_outputs<'a>(alloc: Global, command: Command<'a>) -> Result<Command<'a>, AllocError>
    ensures { IfOk result (λ c. app_of c ≡ with_rules (app_of command.entry) writing_rules) }
{
    command
        .next_help_heading("What to write")
        .arg(flag_argument(
            alloc,
            "strip-debug",
            "Drops the custom sections that refer to places in the code",
        ))?
        .arg(flag_argument(
            alloc,
            "list",
            "Lists the possible rewrites instead, or with --change the changes",
        ))?
        .arg(flag_argument(
            alloc,
            "blocks",
            "Lists the basic blocks of the functions instead",
        ))?
        .arg(rules_argument(alloc))?
        .arg(flag_argument(alloc, "list-changes", "Lists the kinds of changes instead"))
}

// The command with what says what is reported on standard error.
fn with_reports<'a>(alloc: Global, command: Command<'a>) -> Result<Command<'a>, AllocError>
    ensures { IfOk result (λ c. app_of c ≡ with_rules (app_of command.entry) reporting_rules) }
{
    command
        .next_help_heading("What to report")
        .arg(flag_argument(
            alloc,
            "stats",
            "Reports functions, rewrites or changes, and sizes on standard error",
        ))?
        .arg(flag_argument(
            alloc,
            "reach",
            "The same, and how much of the module the rules can rewrite; as slow as --list",
        ))?
        .arg(flag_argument(
            alloc,
            "show",
            "Shows the code before and after each rewrite or change on standard error",
        ))?
        .arg(flag_argument(
            alloc,
            "json",
            "Writes lists and reports as JSON, one object a line",
        ))?
        .arg(flag_argument(
            alloc,
            "quiet",
            "Writes nothing to standard error but reports, and why the run fails",
        ))
}

// The command without its arguments.
fn bare_command<'a>(alloc: Global) -> Command<'a>
    ensures { app_of result ≡ bare_command }
{
    Command::new(alloc, "teddertempo")
        .version("0.4.0")
        .about(
            "Rewrites instructions of a WebAssembly module without changing what it computes, or changes the\n\
             module so that it stays valid",
        )
        .after_help(AFTER_HELP)
}

/// The command line, with the names of the rules.
pub fn command<'a>(alloc: Global, names: &'a [&'a str]) -> Result<Command<'a>, AllocError>
    ensures { IfOk result (λ c. app_of c ≡ command_line names.entry) }
{
    let files = with_files(alloc, bare_command(alloc))?;
    let rewrites = with_rewrites(alloc, files, names)?;
    let changes = with_changes(alloc, rewrites)?;
    let outputs = with_outputs(alloc, changes)?;
    with_reports(alloc, outputs)
}
