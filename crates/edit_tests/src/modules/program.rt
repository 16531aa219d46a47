//! The options of the program, and runs on small modules, and with devices that fail.

use crate::modules::fields::Fields;
use anyhow::{Context, Result, anyhow, bail};
use device_tally::Tally;
use failing_devices::{FailingReader, FailingWriter};
use module_commands::{Ending, Failure, Progress, run};
use module_options::{Options, options_of};
use rewrite_rules::{Rule, all_rules, rule_names};
use std::alloc::{AllocError, Global};
use std::io::{Read, Write};
use std::str;

/// A function of two i32 that answers their sum.
const SUM: &[u8] = b"\0asm\x01\0\0\0\x01\x07\x01\x60\x02\x7f\x7f\x01\x7f\x03\x02\x01\0\
    \x0a\x09\x01\x07\0\x20\0\x20\x01\x6a\x0b";

/// Counts nothing.
#[derive(Drop)]
struct Uncounted;

impl Progress for Uncounted {
    fn count(&mut self) {}
}

/// The options of the words, which the separator divides.
fn options(alloc: Global, line: &str, separator: char) -> Result<Options, clap::Error> {
    let mut words: Vec<&str> = Vec::new(alloc);
    words.push("teddertempo")?;
    for word in line.split(separator) {
        if !word.is_empty() {
            words.push(word)?;
        }
    }
    options_of(alloc, &rule_names(alloc)?, &words)
}

/// The names of the flags that hold.
fn flags_text(alloc: Global, options: &Options) -> Result<String, AllocError> {
    let mut text = String::new(alloc);
    for (flag, name) in [
        (options.shrink, "shrink "),
        (options.exact, "exact "),
        (options.stats, "stats "),
        (options.reach, "reach "),
        (options.json, "json "),
        (options.show, "show "),
        (options.strip_debug, "strip-debug "),
        (options.quiet, "quiet "),
    ] {
        if flag {
            text.push_str(name)?;
        }
    }
    Ok(text)
}

/// The rules of options: all, or how many there are, the first one and the last one.
fn rules_text(alloc: Global, rules: &[Rule]) -> Result<String, AllocError> {
    if rules == all_rules(alloc)?.as_slice() {
        return format!(in alloc; "all");
    }
    let first = rules.first().map(|rule| rule.name()).unwrap_or("none");
    let last = rules.last().map(|rule| rule.name()).unwrap_or("none");
    format!(in alloc; "{} {first} {last}", rules.len())
}

/// `options`, and words, or `commas`, and words with commas between them: the task, the seed, the dose, the function, the names of the flags that hold, the change if it is one, and the rules; or the kind of
/// the error.
pub(crate) fn read(alloc: Global, fields: &mut Fields<'_>, separator: char) -> Result<String> {
    let found = match options(alloc, fields.text(), separator) {
        Ok(found) => found,
        Err(error) => return Ok(format!(in alloc; "{:?}", error.kind())?),
    };
    let flags = flags_text(alloc, &found)?;
    let rules = rules_text(alloc, &found.rules)?;
    let changes = found.changes.as_slice();
    let change = match changes {
        [change] => change.name(),
        _ => "changes",
    };
    let (task, seed, dose, function) = (found.task, found.seed, found.dose, found.function);
    Ok(format!(in alloc; "{task:?} {seed} {dose:?} {function:?} {flags}{change} {rules}")?)
}

/// `message`, and words that can't be read: the first line of the error's text.
pub(crate) fn message(alloc: Global, fields: &mut Fields<'_>) -> Result<String> {
    let error = options(alloc, fields.text(), ' ').err();
    let text = format!(in alloc; "{}", error.context("no error")?)?;
    let (first, _) = text.split_once('\n').context("no line")?;
    Ok(String::from_str(alloc, first)?)
}

/// `help`, a number of lines, a number of characters, and a text: whether the help has at most so many lines of at most so many
/// characters, and the text isn't in it.
pub(crate) fn help(alloc: Global, fields: &mut Fields<'_>) -> Result<String> {
    let error = options(alloc, "--help", ' ').err();
    let text = format!(in alloc; "{}", error.context("no error")?)?;
    let is_short = text.lines().count() <= fields.number()?;
    let characters = fields.number()?;
    let is_narrow = text.lines().all(|line| line.chars().count() <= characters);
    let fits = is_short && is_narrow && !text.contains(fields.text());
    Ok(format!(in alloc; "{fits}")?)
}

/// The options of the words of the next field.
fn next_options(alloc: Global, fields: &mut Fields<'_>) -> Result<Options> {
    options(alloc, fields.text(), ' ').map_err(|_| anyhow!("no options"))
}

/// A run whose rewrites and changes aren't counted.
fn run_uncounted<R: Read, W: Write>(
    alloc: Global,
    options: &Options,
    input: &mut Tally<R>,
    output: &mut W,
    notes: &mut Vec<u8>,
) -> Result<Ending, Failure> {
    run(alloc, options, input, output, notes, Uncounted)
}

/// How a run ended, and its status if it failed.
fn ending_text(alloc: Global, ended: Result<Ending, Failure>) -> Result<String> {
    match ended {
        Ok(ending) => Ok(format!(in alloc; "{ending:?}")?),
        Err(failure) => Ok(format!(in alloc; "{failure:?}, status {}", failure.status())?),
    }
}

/// `run`, words and a module: how the run ends; what it writes, a module in hexadecimal digits or lines; after `reported:` what it
/// reports; and `end`.
pub(crate) fn run_whole(alloc: Global, fields: &mut Fields<'_>) -> Result<String> {
    let options = next_options(alloc, fields)?;
    let bytes = fields.bytes()?;
    let mut input = Tally::new(bytes.as_slice());
    let (mut output, mut notes) = (Vec::new(alloc), Vec::new(alloc));
    let ended = run_uncounted(alloc, &options, &mut input, &mut output, &mut notes);
    let ending = ending_text(alloc, ended)?;
    let notes = str::from_utf8(&notes)?;
    if output.starts_with(b"\0asm") {
        let module = hex::encode(alloc, output)?;
        return Ok(format!(in alloc; "{ending}\n{module}\nreported:\n{notes}end")?);
    }
    let lines = str::from_utf8(&output)?;
    Ok(format!(in alloc; "{ending}\n{lines}reported:\n{notes}end")?)
}

/// `unread`, words, and a number: how a run ends whose input fails after a module, whether that was seen, how many bytes are reported,
/// and at most so many lines of what is written.
pub(crate) fn run_unread(alloc: Global, fields: &mut Fields<'_>) -> Result<String> {
    let options = next_options(alloc, fields)?;
    let count = fields.number()?;
    let mut input = Tally::new(FailingReader::new(SUM));
    let (mut output, mut notes) = (Vec::new(alloc), Vec::new(alloc));
    let ended = run_uncounted(alloc, &options, &mut input, &mut output, &mut notes);
    let ending = ending_text(alloc, ended)?;
    let (failed, size) = (input.failed(), notes.len());
    let mut text = format!(in alloc; "{ending}, failed {failed}, {size} bytes reported\n")?;
    for line in str::from_utf8(&output)?.lines().take(count) {
        text.push_str(line)?;
        text.push('\n')?;
    }
    Ok(text)
}

/// `unwritten`, words, a number and a module: why a run fails whose output takes so many bytes, and its status.
pub(crate) fn run_unwritten(alloc: Global, fields: &mut Fields<'_>) -> Result<String> {
    let options = next_options(alloc, fields)?;
    let room = fields.text().parse::<u32>()?;
    let bytes = fields.bytes()?;
    let mut input = Tally::new(bytes.as_slice());
    let mut output = FailingWriter::refusing(room);
    let mut notes = Vec::new(alloc);
    match run_uncounted(alloc, &options, &mut input, &mut output, &mut notes) {
        Ok(_) => bail!("it doesn't fail"),
        Err(failure) => Ok(format!(in alloc; "{failure} {}", failure.status())?),
    }
}
