//! Options that can't be used together.
ghost use Rattle.std.specs.Prelude.{◌≡◌, find, option_map};
ghost use Rattle.clap.specs.Matches.{found_of};
ghost use Rattle.clap.specs.Takes.{is_given};
ghost use Rattle.clap.specs.Walk.{rows_of, texts};
ghost use Rattle.module_options.specs.Conflicts.{conflict, given_pair};

use crate::flags::is_given;
use clap::ArgMatches;

// The first of the options that is given.
fn first_given(matches: &ArgMatches<'_>, names: &[&'static str]) -> Option<&'static str>
    ensures { result ≡ find (λ name. is_given name.now (rows_of (found_of matches.now))) names.now }
{
    names.iter().copied().find(|name| is_given(matches, name))
}

// The first option of each list that is given, if both lists have one.
fn given_pair(
    matches: &ArgMatches<'_>,
    ones: &[&'static str],
    others: &[&'static str],
) -> Option<(&'static str, &'static str)>
    ensures { option_map (λ pair. (pair.0.now, pair.1.now)) result
        ≡ given_pair (rows_of (found_of matches.now)) (texts ones.now) (texts others.now) }
{
    first_given(matches, ones).zip(first_given(matches, others))
}

/// Two options that are given and can't be used together.
pub fn conflict(matches: &ArgMatches<'_>) -> Option<(&'static str, &'static str)>
    ensures { option_map (λ pair. (pair.0.now, pair.1.now)) result
        ≡ conflict (rows_of (found_of matches.now)) }
{
    let unread = ["list-rules", "list-changes"];
    let of_rules = ["rule", "not-rule", "shrink", "exact"];
    let of_module = [
        "seed",
        "count",
        "max-size",
        "from",
        "to",
        "stats",
        "reach",
        "show",
        "strip-debug",
    ];
    given_pair(matches, &["blocks"], &["list"])
        .or(given_pair(matches, &["list", "blocks"], &unread))
        .or(given_pair(matches, &["list-changes"], &["list-rules"]))
        .or(given_pair(
            matches,
            &["blocks", "list-rules", "list-changes", "reach"],
            &["change"],
        ))
        .or(given_pair(
            matches,
            &of_rules,
            &["change", "blocks", "list-rules", "list-changes"],
        ))
        .or(given_pair(
            matches,
            &of_module,
            &["list", "blocks", "list-rules", "list-changes"],
        ))
        .or(given_pair(matches, &["input", "function"], &unread))
        .or(given_pair(matches, &["json"], &["list-rules"]))
        .or(given_pair(matches, &["seed", "count", "show"], &["from", "to"]))
}
