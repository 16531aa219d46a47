//! Compares what is answered with what is expected.

use std::alloc::{AllocError, Global};
use std::{fs, io};

/// What a program of tests answers.
pub trait Answers {
    /// The result of a case's input, as a text: its lines are compared with those that are expected.
    fn answer(&self, alloc: Global, input: &str) -> Result<String, AllocError>;
}

/// A case of a file.
#[derive(Clone, Copy)]
struct Case<'a> {
    input: &'a str,
    /// What is expected in the same line.
    first: &'a str,
    /// The further lines of what is expected, each after its mark.
    further: &'a [&'a str],
}

// Whether a line is a further one of what is expected.
fn is_further(line: &str) -> bool {
    line == ">" || line.starts_with("> ")
}

// The line after its mark.
fn unmarked(line: &str) -> &str {
    line.strip_prefix("> ").unwrap_or("")
}

// Whether a line says nothing.
fn is_comment(line: &str) -> bool {
    line.is_empty() || line.starts_with('#')
}

// The input of a case's line, and what is expected there. What a line without an arrow expects, no answer is.
fn parts_of(line: &str) -> (&str, &str) {
    match line.split_once(" => ") {
        Some(parts) => parts,
        None => match line.strip_suffix(" =>") {
            Some(input) => (input, ""),
            None => (line, "no line without =>\n"),
        },
    }
}

impl Case<'_> {
    // Whether the lines of the text are those that are expected.
    fn expects(&self, found: &str) -> bool {
        let mut found = found.lines();
        if !self.first.is_empty() && found.next() != Some(self.first) {
            return false;
        }
        for line in self.further {
            if found.next() != Some(unmarked(line)) {
                return false;
            }
        }
        found.next() == None
    }
}

// The case that begins with the first of the lines.
fn case_of<'a>(lines: &'a [&'a str]) -> Option<Case<'a>> {
    let (line, following) = lines.split_first()?;
    let (input, first) = parts_of(line);
    let further = following
        .iter()
        .position(|line| !is_further(line))
        .unwrap_or(following.len());
    Some(Case {
        input,
        first,
        further: &following[..further],
    })
}

// Prints a case that fails, with what is found instead.
fn report(
    rt: &HostRuntime,
    family: &str,
    number: usize,
    case: &Case<'_>,
    found: &str,
) -> io::Result<()> {
    let mut text = format!(in rt.alloc();
        "{family}.txt:{number}: {}\nexpected: {}",
        case.input, case.first
    )?;
    for line in case.further {
        text.push('\n')?;
        text.push_str(unmarked(line))?;
    }
    text.push_str("\nfound: ")?;
    text.push_str(found)?;
    println!(rt; "{text}")?;
    eprintln!(rt; "{text}")
}

/// Judges the cases of the file `FAMILY.txt`, and prints how many are answered as expected, and each that isn't, with its line's number
/// and with what is found, on standard output and on standard error. Whether all are, of at least one, and the file begins with its
/// source. An error if the file can't be read, a line can't be printed or no memory is left.
pub fn judge_file(rt: &HostRuntime, family: &str, answers: &impl Answers) -> io::Result<bool> {
    let path = format!(in rt.alloc(); "{family}.txt")?;
    let text = fs::read_to_string(rt, path)?;
    let lines: Vec<&str> = text.lines().collect(rt.alloc())?;
    let mut right = 0usize;
    let mut all_right = text.starts_with("# Source: ");
    if !all_right {
        eprintln!(rt; "{family}.txt: the first line names no source")?;
    }
    let mut next = 0usize;
    for at in 0..lines.len() {
        if at < next || is_comment(lines[at]) {
            continue;
        }
        let Some(case) = case_of(&lines[at..]) else {
            continue;
        };
        next = at.saturating_add(1 + case.further.len());
        let found = answers.answer(rt.alloc(), case.input)?;
        if case.expects(&found) {
            right = right.saturating_add(1);
        } else {
            all_right = false;
            report(rt, family, at + 1, &case, &found)?;
        }
    }
    println!(rt; "{family}: {right} ok")?;
    Ok(all_right && right > 0)
}
