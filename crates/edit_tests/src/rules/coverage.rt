//! The rows of the table that no case rewrites by.

use super::body_calls::answer_on_body;
use super::rule_table::RuleTable;
use super::unreadable::Unreadable;
use body_notation::words_of;
use case_files::{Answers, fields_of};
use rewrite_rules::row_count;
use std::alloc::{AllocError, Global};
use std::{fs, io};

/// The numbers of the rows by which something is made in a case.
#[derive(Drop)]
pub struct Coverage {
    rows: Vec<u64>,
}

impl Coverage {
    /// The rows by which something is made in the cases of the families.
    pub fn new(rt: &HostRuntime, table: &RuleTable, families: &str) -> io::Result<Coverage> {
        let alloc = rt.alloc();
        let mut rows = Vec::new(alloc);
        for family in families.split_whitespace() {
            let text = fs::read_to_string(rt, format!(in alloc; "{family}.txt")?)?;
            for line in text.lines() {
                let found = rows_of_line(alloc, table, line);
                rows.append(&mut found.unwrap_or(Vec::new(alloc)))?;
            }
        }
        Ok(Coverage { rows })
    }
}

// The rows by which something is made in the line's case.
fn rows_of_line(alloc: Global, table: &RuleTable, line: &str) -> Result<Vec<u64>, Unreadable> {
    let (input, _) = line.split_once(" =>").ok_or(Unreadable)?;
    let fields = fields_of(alloc, input)?;
    let ["rewrite_body", arguments @ ..] = fields.as_slice() else {
        return Err(Unreadable);
    };
    let numbers = answer_on_body(alloc, table, "rewriting_rows", arguments)?;
    Ok(words_of(alloc, &numbers)?)
}

impl Answers for Coverage {
    fn answer(&self, alloc: Global, _input: &str) -> Result<String, AllocError> {
        let mut others = Vec::new(alloc);
        for number in 0..row_count() {
            if !self.rows.iter().any(|row| *row == number as u64) {
                others.push(number)?;
            }
        }
        format!(in alloc; "{others:?}")
    }
}
