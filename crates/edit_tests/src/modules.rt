//! Bodies changed, modules rewritten, changed, shown and listed, and the options and runs of the program on modules.

mod bodies;
mod fields;
mod program;
mod samples;
mod texts;
mod whole_modules;

use anyhow::anyhow;
use body_changes::CHANGES;
use case_files::{Answers, judge_file};
use fields::{Fields, lines_of};
use std::alloc::{AllocError, Global};
use std::io;

/// The calls that cases name. Each function says what fields it takes, and what it answers.
#[derive(Clone, Copy)]
struct Calls;

const FAMILIES: [&'static str; 13] = [
    "change_units",
    "change_chosen",
    "change_accesses",
    "change_code",
    "module_written",
    "module_rewritten",
    "module_changed",
    "module_shown",
    "module_texts",
    "module_rules",
    "option_read",
    "option_messages",
    "run_small",
];

impl Answers for Calls {
    fn answer(&self, alloc: Global, input: &str) -> Result<String, AllocError> {
        let fields = &mut Fields::new(alloc, input);
        let text = match fields.text() {
            "units" => bodies::units(alloc, fields),
            "chosen" => bodies::chosen(alloc, fields),
            "types" => bodies::types(alloc, fields),
            "replaced" => bodies::replaced(alloc, fields),
            "drawn" => bodies::drawn(alloc, fields),
            "other" => bodies::other(alloc, fields),
            "name" => bodies::name(alloc, fields),
            "changes" => lines_of(alloc, &CHANGES),
            "with_body" => whole_modules::written(alloc, fields),
            "seed" => whole_modules::by_seed(alloc, fields),
            "words" => whole_modules::by_words(alloc, fields),
            "twice" => whole_modules::twice(alloc, fields),
            "spliced" => whole_modules::spliced(alloc, fields),
            "changed" => whole_modules::changed(alloc, fields),
            "placed" => whole_modules::placed(alloc, fields),
            "sites" => whole_modules::sites(alloc, fields),
            "rewrite" => texts::rewrite(alloc, fields),
            "change" => texts::change(alloc, fields),
            "operator" => texts::operator(alloc, fields),
            "lines" => texts::lines(alloc, fields),
            "exact" => texts::exact(alloc),
            "options" => program::read(alloc, fields, ' '),
            "commas" => program::read(alloc, fields, ','),
            "message" => program::message(alloc, fields),
            "help" => program::help(alloc, fields),
            "run" => program::run_whole(alloc, fields),
            "unread" => program::run_unread(alloc, fields),
            "unwritten" => program::run_unwritten(alloc, fields),
            _ => Err(anyhow!("no such call")),
        };
        match text {
            Ok(text) => Ok(text),
            Err(error) => format!(in alloc; "unreadable input: {error}"),
        }
    }
}

/// Judges each file of these; whether each case is answered as expected.
pub fn judge_all(rt: &HostRuntime) -> io::Result<bool> {
    let mut all_right = true;
    for family in FAMILIES {
        all_right &= judge_file(rt, family, &Calls)?;
    }
    Ok(all_right)
}
