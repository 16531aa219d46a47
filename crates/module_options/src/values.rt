//! The values of options: numbers, doses and files.
ghost use Rattle.std.specs.Prelude.{◌≡◌, ◌↔◌, codes, option_map, string_bytes, IfErr, IfOk, IsTrue};
ghost use Rattle.clap.specs.Matches.{found_of};
ghost use Rattle.clap.specs.Takes.{is_given};
ghost use Rattle.clap.specs.Walk.{one_of, rows_of};
ghost use Rattle.module_rewrites.specs.Dose.{IsOneOrMore};
ghost use Rattle.module_options.specs.Flags.{first_of};
ghost use Rattle.module_options.specs.Misuse.{AreMisused};
ghost use Rattle.module_options.specs.Values.{IsDose, IsNumberOf, IsPercentageOf, IsSeed, IsSeedOf, TextSaysDose, default_dose, file_of, has_plus, have_plus};

use crate::flags::{is_given, text_of};
use crate::front::begins_with;
use crate::misuse::Misuse;
use clap::ArgMatches;
use module_rewrites::Dose;
use std::alloc::{AllocError, Global};

// Whether a plus stands before the number of the option, also behind `0x`.
fn has_plus(matches: &ArgMatches<'_>, name: &str) -> bool
    ensures { result
        ≡ has_plus (first_of name.now (rows_of (found_of matches.now))) }
{
    let Some(text) = text_of(matches, name) else {
        return false;
    };
    let first = begins_with(text.as_bytes(), b"+");
    let behind = begins_with(text.as_bytes(), b"0x+");
    first || behind
}

/// Whether a plus stands before a number that is given.
pub fn have_plus(matches: &ArgMatches<'_>) -> bool
    ensures { result ≡ have_plus (rows_of (found_of matches.now)) }
{
    let seed = has_plus(matches, "seed");
    let count = has_plus(matches, "count");
    let function = has_plus(matches, "function");
    let size = has_plus(matches, "max-size");
    let from = has_plus(matches, "from");
    let to = has_plus(matches, "to");
    seed || count || function || size || from || to
}

// The number that a text writes, in decimal digits, or behind `0x` in hexadecimal ones.
fn seed_from(text: &str) -> Option<u64>
    ensures { IsSeedOf text.now result }
{
    if let Ok(seed) = text.parse::<u64>() {
        return Some(seed);
    }
    let Some(digits) = text.strip_prefix("0x") else {
        return None;
    };
    match u64::from_str_radix(digits, 16) {
        Ok(seed) => Some(seed),
        Err(_) => None,
    }
}

/// The seed.
pub fn seed_of(matches: &ArgMatches<'_>) -> Result<u64, Misuse>
    ensures seed { IfOk result (IsSeed
        (first_of (codes "seed") (rows_of (found_of matches.now)))) }
    ensures misuse { IfErr result (AreMisused (rows_of (found_of matches.now))) }
{
    let Some(text) = text_of(matches, "seed") else {
        return Ok(0);
    };
    match seed_from(text) {
        Some(seed) => Ok(seed),
        None => Err(Misuse::NoSeed),
    }
}

/// The file that an option names.
pub fn file_of(
    alloc: Global,
    matches: &ArgMatches<'_>,
    name: &str,
) -> Result<Option<String>, AllocError>
    ensures { IfOk result (λ file. option_map string_bytes file
        ≡ file_of (first_of name.now (rows_of (found_of matches.now)))) }
{
    let Some(text) = text_of(matches, name) else {
        return Ok(None);
    };
    if text == "-" {
        return Ok(None);
    }
    Ok(Some(String::from_str(alloc, text)?))
}

/// The number that an option has.
pub fn size_of(matches: &ArgMatches<'_>, name: &str) -> Option<usize>
    ensures { IsNumberOf (one_of name.now (rows_of (found_of matches.now))) result }
{
    matches.get_one::<usize>(name)
}

// How many rewrites are made where no count is given.
fn default_dose(shrink: bool) -> Dose
    ensures { result ≡ default_dose shrink }
{
    if shrink {
        Dose::Times(usize::MAX)
    } else {
        Dose::Times(1)
    }
}

// The percentage that a text writes.
fn percentage_from(text: &str) -> Option<Dose>
    ensures { IsPercentageOf text.now result }
{
    let Some(digits) = text.strip_suffix("%") else {
        return None;
    };
    match digits.parse::<usize>() {
        Ok(percent) => Some(Dose::Percent(percent)),
        Err(_) => None,
    }
}

// The dose that a text writes.
fn dose_from(text: &str) -> Option<Dose>
    ensures { TextSaysDose text.now result }
{
    if text == "each" {
        return Some(Dose::Percent(100));
    }
    if let Ok(count) = text.parse::<usize>() {
        return Some(Dose::Times(count));
    }
    percentage_from(text)
}

// Whether it is one rewrite at least.
fn is_one_or_more(dose: Dose) -> bool
    ensures { IsTrue result ↔ IsOneOrMore dose }
{
    match dose {
        Dose::Times(count) => count > 0,
        Dose::Percent(percent) => percent > 0,
    }
}

/// How many rewrites are made.
pub fn dose_of(matches: &ArgMatches<'_>) -> Result<Dose, Misuse>
    ensures dose { IfOk result (IsDose
        (is_given (codes "shrink") (rows_of (found_of matches.now)))
        (first_of (codes "count") (rows_of (found_of matches.now)))) }
    ensures some { IfOk result IsOneOrMore }
    ensures misuse { IfErr result (AreMisused (rows_of (found_of matches.now))) }
{
    let Some(text) = text_of(matches, "count") else {
        return Ok(default_dose(is_given(matches, "shrink")));
    };
    let Some(dose) = dose_from(text) else {
        return Err(Misuse::NoCount);
    };
    if !is_one_or_more(dose) {
        return Err(Misuse::NoCount);
    }
    Ok(dose)
}
