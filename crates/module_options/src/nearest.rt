//! The message on a name that is no rule's or change's: it suggests the nearest one.

use std::alloc::{AllocError, Global};
use std::convert::AsStr;
use strsim::levenshtein;

// The option that names a rule, and the name, which the next word has if there is no `=`.
fn rule_named<'a>(word: &'a str, next: &'a str) -> Option<(&'a str, &'a str)> {
    let (option, name) = word.split_once('=').unwrap_or((word, next));
    if option == "--rule" || option == "--not-rule" {
        Some((option, name))
    } else {
        None
    }
}

// Whether it is one of the names.
fn is_known(names: &[&str], name: &str) -> bool {
    for known in names {
        if *known == name {
            return true;
        }
    }
    false
}

/// The first use of `--rule` or `--not-rule` in the words with none of these names: the option, and the name, which may be missing.
pub fn unknown_rule<'a, S: AsStr>(names: &[&str], words: &'a [S]) -> Option<(&'a str, &'a str)> {
    for at in 0..words.len() {
        let next = words.get(at + 1).map_or("", |next| next.as_str());
        if let Some((option, name)) = rule_named(words[at].as_str(), next) {
            if !is_known(names, name) {
                return Some((option, name));
            }
        }
    }
    None
}

// The nearest of the names, if at most a third of the letters have to change.
fn nearest<'a>(
    alloc: Global,
    names: &'a [&'a str],
    unknown: &str,
) -> Result<Option<&'a str>, AllocError> {
    let mut found = None;
    let mut fewer_than = unknown.len().max(3) / 3 + 1;
    for name in names {
        let edits = levenshtein(alloc, unknown, name)?;
        if edits < fewer_than {
            found = Some(*name);
            fewer_than = edits;
        }
    }
    Ok(found)
}

/// The message on a name of that kind, which an option gives, and which is none of these.
pub fn text_on_unknown(
    alloc: Global,
    option: &str,
    unknown: &str,
    kind: &str,
    names: &[&str],
) -> Result<String, AllocError> {
    match nearest(alloc, names, unknown)? {
        Some(name) => format!(in alloc; "{option}: no such {kind}; did you mean {name}?"),
        None => format!(in alloc; "{option}: no such {kind}; --list-{kind}s lists them"),
    }
}
