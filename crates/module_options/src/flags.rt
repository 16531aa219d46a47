//! The options that a command line has.
ghost use Rattle.std.specs.Prelude.{◌≡◌, option_map};
ghost use Rattle.clap.specs.Matches.{found_of};
ghost use Rattle.clap.specs.Takes.{is_given};
ghost use Rattle.clap.specs.Walk.{rows_of};
ghost use Rattle.module_options.specs.Flags.{first_of, flags_of, is_explicit, is_placed, reports, tell_nothing};

use clap::ArgMatches;
use clap::parser::ValueSource;

/// The flags of a command line.
#[derive(Clone, Copy)]
pub struct Flags {
    pub list: bool,
    pub blocks: bool,
    pub rules: bool,
    pub change: bool,
    pub changes: bool,
    pub stats: bool,
    pub reach: bool,
    pub json: bool,
    pub show: bool,
    pub strip_debug: bool,
    pub quiet: bool,
}

/// The text that an option has.
pub fn text_of<'a>(matches: &ArgMatches<'a>, name: &str) -> Option<&'a str>
    ensures { option_map (λ text. text.now) result
        ≡ first_of name.now (rows_of (found_of matches.now)) }
{
    matches.get_str(name)
}

// Whether an argument has an entry that doesn't come from its default.
fn is_explicit(has: bool, source: Option<ValueSource>) -> bool
    ensures { result ≡ is_explicit has source }
{
    match source {
        Some(ValueSource::DefaultValue) => false,
        _ => has,
    }
}

/// Whether the command line has the option.
pub fn is_given(matches: &ArgMatches<'_>, name: &str) -> bool
    ensures { result ≡ is_given name.now (rows_of (found_of matches.now)) }
{
    is_explicit(matches.contains_id(name), matches.value_source(name))
}

/// Whether operators are named.
pub fn is_placed(matches: &ArgMatches<'_>) -> bool
    ensures { result ≡ is_placed (rows_of (found_of matches.now)) }
{
    let from = is_given(matches, "from");
    let to = is_given(matches, "to");
    from || to
}

pub fn flags_of(matches: &ArgMatches<'_>) -> Flags
    ensures { result ≡ flags_of (rows_of (found_of matches.now)) }
{
    Flags {
        list: is_given(matches, "list"),
        blocks: is_given(matches, "blocks"),
        rules: is_given(matches, "list-rules"),
        change: is_given(matches, "change"),
        changes: is_given(matches, "list-changes"),
        stats: is_given(matches, "stats"),
        reach: is_given(matches, "reach"),
        json: is_given(matches, "json"),
        show: is_given(matches, "show"),
        strip_debug: is_given(matches, "strip-debug"),
        quiet: is_given(matches, "quiet"),
    }
}

/// Whether the flags ask for JSON, and for nothing that is written in it.
pub fn tell_nothing(flags: Flags) -> bool
    ensures { result ≡ tell_nothing flags }
{
    let listed = flags.rules || flags.changes || flags.list || flags.blocks;
    let told = listed || flags.stats || flags.reach;
    flags.json && !told
}

/// Whether a report is asked for.
pub fn reports(flags: Flags) -> bool
    ensures { result ≡ reports flags }
{
    flags.stats || flags.reach
}
