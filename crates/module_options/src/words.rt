//! Reads the options from the words of the command line.
ghost use Rattle.std.specs.Prelude.{◌≡◌, map, IfErr, IfOk};
ghost use Rattle.clap.specs.Matches.{found_of};
ghost use Rattle.clap.specs.Values.{kind_of};
ghost use Rattle.clap.specs.Walk.{rows_of, texts};
ghost use Rattle.module_options.specs.Arguments.{command_line};
ghost use Rattle.module_options.specs.Options as options;
ghost use Rattle.module_options.specs.Misuse.{AreMisused};

use crate::arguments::command;
use crate::conflicts::conflict;
use crate::flags::{flags_of, is_given, reports, tell_nothing};
use crate::misuse::{Misuse, kind_for, text_for};
use crate::named::{changes_of, place_of, wanted_rules};
use crate::nearest::{text_on_unknown, unknown_rule};
use crate::options::Options;
use crate::task::task_of;
use crate::values::{dose_of, file_of, have_plus, seed_of, size_of};
use clap::error::ErrorKind;
use clap::{ArgMatches, Command, Error};
use std::alloc::{AllocError, Global};
use std::convert::AsStr;

/// The options that the matches of a command line are, or why they are none: no memory is left, two options can't be used together,
/// nothing is there to be told as JSON, or a value can't be read.
pub fn options_from(alloc: Global, matches: &ArgMatches<'_>) -> Result<Options, Misuse>
    ensures options { IfOk result (options.AreOptions (rows_of (found_of matches.now))) }
    ensures misuse { IfErr result (AreMisused (rows_of (found_of matches.now))) }
{
    if let Some((one, other)) = conflict(matches) {
        return Err(Misuse::Conflict(one, other));
    }
    let flags = flags_of(matches);
    if tell_nothing(flags) {
        return Err(Misuse::NothingToTell);
    }
    if have_plus(matches) {
        return Err(Misuse::Plus);
    }
    let dose = dose_of(matches)?;
    let function = size_of(matches, "function");
    let changes = changes_of(alloc, matches)?;
    let place = place_of(matches, &changes, function)?;
    Ok(Options {
        task: task_of(flags, matches)?,
        input: file_of(alloc, matches, "input")?,
        output: file_of(alloc, matches, "output")?,
        seed: seed_of(matches)?,
        dose,
        function,
        rules: wanted_rules(alloc, matches)?,
        changes,
        place,
        max_size: size_of(matches, "max-size").unwrap_or(usize::MAX),
        shrink: is_given(matches, "shrink"),
        exact: is_given(matches, "exact"),
        stats: reports(flags),
        reach: flags.reach,
        json: flags.json,
        show: flags.show,
        strip_debug: flags.strip_debug,
        quiet: flags.quiet,
    })
}

// The word as clap reads it: `--change` without a name gets the name `any`, so that the word after it is none.
fn spelled(word: &str) -> &str
    ensures { result.now ≡ options.spelled word.now }
{
    if word == "--change" {
        "--change=any"
    } else {
        word
    }
}

// The words as clap reads them.
fn spelled_words<'a, S: AsStr>(alloc: Global, words: &'a [S]) -> Result<Vec<&'a str>, AllocError>
    ensures { IfOk result (λ list.
        texts list.items ≡ map options.spelled (map S.text words.entry.now)) }
{
    let mut list = Vec::new(alloc);
    for word in words {
        list.push(spelled(word.as_str()))?;
    }
    Ok(list)
}

// An error of clap; of an unknown rule with a message that suggests the nearest one.
fn told_anew<S: AsStr>(
    alloc: Global,
    command: &mut Command<'_>,
    names: &[&str],
    words: &[S],
    error: Error,
) -> Result<Error, AllocError>
    ensures { IfOk result (λ e. kind_of e ≡ kind_of error) }
{
    if error.kind() != ErrorKind::InvalidValue {
        return Ok(error);
    }
    match unknown_rule(names, words) {
        None => Ok(error),
        Some((option, name)) => {
            let given = format!(in alloc; "{option} {name}")?;
            let text = text_on_unknown(alloc, given.as_str().trim_end(), name, "rule", names)?;
            command.error(ErrorKind::InvalidValue, &text)
        }
    }
}

/// The options that the words of the command line say, the program's own name first. `names` are those of the rules.
///
/// Errors: what clap refuses, with its text, and of an unknown rule with the nearest name; what `options_from` refuses; and `--help` and
/// `--version`, with what is to be printed. `--change` has its name after `=` alone: the word after it is none.
pub fn options_of<'a, S: AsStr>(
    alloc: Global,
    names: &'a [&'a str],
    words: &'a [S],
) -> Result<Options, Error>
    ensures options { IfOk result
        (options.SayOptions (command_line names.entry)
        (map options.spelled (map S.text words.entry.now))) }
    ensures refused { IfErr result (λ e.
        options.AreRefused (command_line names.entry)
        (map options.spelled (map S.text words.entry.now)) (kind_of e)) }
{
    let spelled = spelled_words(alloc, words)?;
    let mut command = command(alloc, names)?;
    let matches = match command.try_get_matches_from_mut(&spelled) {
        Ok(matches) => matches,
        Err(error) => return Err(told_anew(alloc, &mut command, names, words, error)?),
    };
    match options_from(alloc, &matches) {
        Ok(options) => Ok(options),
        Err(misuse) => {
            let text = text_for(alloc, misuse, &matches)?;
            Err(command.error(kind_for(misuse), &text)?)
        }
    }
}
