//! The rows of the table by the names of their rules.

use super::unreadable::{Unreadable, number_in};
use rewrite_rules::{Rule, rules_of_rows};
use std::alloc::{AllocError, Global};

/// For each row of the table the number of its rule: read once, since it takes long.
#[derive(Drop)]
pub struct RuleTable {
    rules: Vec<u16>,
}

impl RuleTable {
    pub fn new(alloc: Global) -> Result<RuleTable, AllocError> {
        Ok(RuleTable {
            rules: rules_of_rows(alloc)?,
        })
    }

    /// The rows of the rule of that name; of `row N` the row with that number.
    pub fn rows(&self, alloc: Global, name: &str) -> Result<Vec<usize>, Unreadable> {
        let mut rows = Vec::new(alloc);
        if let Some(number) = name.strip_prefix("row ") {
            rows.push(number_in(number)?)?;
            return Ok(rows);
        }
        let rule = Rule::from_name(name).ok_or(Unreadable)?.number();
        for (row, number) in self.rules.iter().enumerate() {
            if *number as usize == rule {
                rows.push(row)?;
            }
        }
        Ok(rows)
    }
}
